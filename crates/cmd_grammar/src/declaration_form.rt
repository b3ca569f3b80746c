//! The form of the declarations and literals in commands: their parts, where any tree is a sort or a term.
ghost use Rattle.std.specs.Prelude.{◌≡◌};
ghost use Rattle.sexp_core.specs.Parts.{whole};
ghost use Rattle.cmd_grammar.specs.DeclarationForms as definition;

use lex_core::Tok;
use sexp_core::{Part, Trees};
use term_grammar::{
    FALSE, GLOBAL_DECLARATIONS, NOT, PAR, RawValue, RawValueKind, TRUE, any_first, are_named,
    are_symbols, guard, is_empty, is_key, is_keyword, is_numeral, is_reserved, is_symbol,
    list_first, symbol_first, token_first, value_first,
};

/// The parts of `( symbol numeral )`.
pub(crate) fn sort_dec_parts<'t>(parts: &Trees<'t>) -> Option<(Tok, Tok)>
    ensures { result ≡ definition.sort_dec_parts parts.now }
{
    let (name, rest) = symbol_first(parts)?;
    let (arity, rest) = token_first(&rest)?;
    guard(is_numeral(&arity))?;
    guard(is_empty(&rest))?;
    Some((name, arity))
}

/// Whether the tree is `( symbol numeral )`.
fn is_sort_dec(tree: &Part) -> bool
    ensures { result ≡ definition.is_sort_dec (whole tree.now) }
{
    match tree {
        Part::Atom(_) => false,
        Part::List { parts, .. } => sort_dec_parts(parts).is_some(),
    }
}

/// Whether each of some trees is `( symbol numeral )`.
pub(crate) fn are_sort_decs(trees: &Trees) -> bool
    ensures { result ≡ definition.are_sort_decs trees.now }
{
    let mut next = trees.split();
    while let Some((first, rest)) = next {
        if !is_sort_dec(&first) {
            return false;
        }
        next = rest.split();
    }
    true
}

/// The parts of `( symbol selector* )`.
pub(crate) fn constructor_dec_parts<'t>(parts: &Trees<'t>) -> Option<(Tok, Trees<'t>)>
    ensures { result ≡ definition.constructor_dec_parts parts.now }
{
    let (name, selectors) = symbol_first(parts)?;
    guard(are_named(&selectors))?;
    Some((name, selectors))
}

/// Whether the tree is `( symbol selector* )`.
fn is_constructor_dec(tree: &Part) -> bool
    ensures { result ≡ definition.is_constructor_dec (whole tree.now) }
{
    match tree {
        Part::Atom(_) => false,
        Part::List { parts, .. } => constructor_dec_parts(parts).is_some(),
    }
}

/// Whether each of some trees is `( symbol selector* )`.
pub(crate) fn are_constructor_decs(trees: &Trees) -> bool
    ensures { result ≡ definition.are_constructor_decs trees.now }
{
    let mut next = trees.split();
    while let Some((first, rest)) = next {
        if !is_constructor_dec(&first) {
            return false;
        }
        next = rest.split();
    }
    true
}

/// The parts of `( par ( symbol+ ) ( con_dec+ ) )`.
pub(crate) fn parametric_parts<'t>(parts: &Trees<'t>) -> Option<(Trees<'t>, Trees<'t>)>
    ensures { result ≡ definition.parametric_parts parts.now }
{
    let (word, rest) = token_first(parts)?;
    guard(is_reserved(&word, PAR))?;
    let (params, rest) = list_first(&rest)?;
    guard(!is_empty(&params))?;
    guard(are_symbols(&params))?;
    let (constructors, rest) = list_first(&rest)?;
    guard(is_empty(&rest))?;
    guard(!is_empty(&constructors))?;
    guard(are_constructor_decs(&constructors))?;
    Some((params, constructors))
}

/// Whether the tree is the declaration of a datatype.
pub(crate) fn is_data_dec(tree: &Part) -> bool
    ensures { result ≡ definition.is_data_dec (whole tree.now) }
{
    match tree {
        Part::Atom(_) => false,
        Part::List { parts, .. } => {
            parametric_parts(parts).is_some() || (!is_empty(parts) && are_constructor_decs(parts))
        }
    }
}

/// Whether each of some trees is the declaration of a datatype.
pub(crate) fn are_data_decs(trees: &Trees) -> bool
    ensures { result ≡ definition.are_data_decs trees.now }
{
    let mut next = trees.split();
    while let Some((first, rest)) = next {
        if !is_data_dec(&first) {
            return false;
        }
        next = rest.split();
    }
    true
}

/// The parts of `( symbol ( variable* ) sort )`.
pub(crate) fn fun_dec_parts<'t>(parts: &Trees<'t>) -> Option<(Tok, Trees<'t>, Part<'t>)>
    ensures { result ≡ definition.fun_dec_parts parts.now }
{
    let (name, rest) = symbol_first(parts)?;
    let (params, rest) = list_first(&rest)?;
    guard(are_named(&params))?;
    let (result, rest) = any_first(&rest)?;
    guard(is_empty(&rest))?;
    Some((name, params, result))
}

/// Whether the tree is `( symbol ( variable* ) sort )`.
fn is_fun_dec(tree: &Part) -> bool
    ensures { result ≡ definition.is_fun_dec (whole tree.now) }
{
    match tree {
        Part::Atom(_) => false,
        Part::List { parts, .. } => fun_dec_parts(parts).is_some(),
    }
}

/// Whether each of some trees is `( symbol ( variable* ) sort )`.
pub(crate) fn are_fun_decs(trees: &Trees) -> bool
    ensures { result ≡ definition.are_fun_decs trees.now }
{
    let mut next = trees.split();
    while let Some((first, rest)) = next {
        if !is_fun_dec(&first) {
            return false;
        }
        next = rest.split();
    }
    true
}

/// The parts of the definition of a function: `symbol ( variable* ) sort term`.
#[derive(Drop)]
pub(crate) struct FunDefParts<'t> {
    pub name: Tok,
    pub params: Trees<'t>,
    pub result: Part<'t>,
    pub body: Part<'t>,
}

/// The parts of `symbol ( variable* ) sort term`.
pub(crate) fn fun_def_parts<'t>(parts: &Trees<'t>) -> Option<FunDefParts<'t>>
    ensures { result ≡ definition.fun_def_parts parts.now }
{
    let (name, rest) = symbol_first(parts)?;
    let (params, rest) = list_first(&rest)?;
    let (result, rest) = any_first(&rest)?;
    let (body, rest) = any_first(&rest)?;
    guard(are_named(&params))?;
    guard(is_empty(&rest))?;
    Some(FunDefParts {
        name,
        params,
        result,
        body,
    })
}

/// The two symbols of `( not symbol )`.
pub(crate) fn negated_parts(parts: &Trees) -> Option<(Tok, Tok)>
    ensures { result ≡ definition.negated_parts parts.now }
{
    let (word, rest) = symbol_first(parts)?;
    guard(word.name.number() == NOT)?;
    let (symbol, rest) = symbol_first(&rest)?;
    guard(is_empty(&rest))?;
    Some((word, symbol))
}

/// Whether the tree is `symbol` or `( not symbol )`.
pub(crate) fn is_literal(tree: &Part) -> bool
    ensures { result ≡ definition.is_literal (whole tree.now) }
{
    match tree {
        Part::Atom(tok) => is_symbol(tok),
        Part::List { parts, .. } => negated_parts(parts).is_some(),
    }
}

/// Whether each of some trees is a literal.
pub(crate) fn are_literals(trees: &Trees) -> bool
    ensures { result ≡ definition.are_literals trees.now }
{
    let mut next = trees.split();
    while let Some((first, rest)) = next {
        if !is_literal(&first) {
            return false;
        }
        next = rest.split();
    }
    true
}

/// The parts of an attribute: a keyword, and its value if there is one.
pub(crate) fn attribute_parts<'t>(parts: &Trees<'t>) -> Option<(Tok, Option<RawValue<'t>>)>
    ensures { result ≡ definition.attribute_parts parts.now }
{
    let (key, rest) = token_first(parts)?;
    guard(is_keyword(&key))?;
    let (value, rest) = value_first(rest);
    guard(is_empty(&rest))?;
    Some((key, value))
}

fn is_truth(value: &Option<RawValue>) -> bool
    ensures { result ≡ definition.is_truth value.now }
{
    let Some(value) = value else {
        return false;
    };
    match value.kind() {
        RawValueKind::Symbol(tok) => {
            is_symbol(&tok) && (tok.name.number() == TRUE || tok.name.number() == FALSE)
        }
        RawValueKind::Constant(_) | RawValueKind::List(_) => false,
    }
}

/// Whether the option may have this value: `:global-declarations` is set to `true` or `false`.
pub(crate) fn option_fits(key: &Tok, value: &Option<RawValue>) -> bool
    ensures { result ≡ definition.option_fits key.now value.now }
{
    !is_key(key, GLOBAL_DECLARATIONS) || is_truth(value)
}

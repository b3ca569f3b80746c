//! The form of a term: the parts of its production, whose own forms are not judged yet.
ghost use Rattle.std.specs.Prelude.{◌≡◌};
ghost use Rattle.sexp_core.specs.Parts.{whole};
ghost use Rattle.term_grammar.specs.Values.{is_value as is_a_value};
ghost use Rattle.term_grammar.specs.TermForms as definition;

use crate::attribute::RawValue;
use crate::form::is_identifier;
use crate::parts::{any_first, guard, is_empty, list_first, symbol_first, token_first};
use crate::words::{
    self, AS, NAMED, PATTERN, TermWord, is_constant, is_key, is_keyword, is_symbol, is_value_token,
};
use lex_core::Tok;
use sexp_core::{Part, Trees};

/// A term, by its production.
#[derive(Drop)]
pub(crate) enum TermForm<'t> {
    Constant(Tok),
    Qualified,
    Application {
        head: Part<'t>,
        args: Trees<'t>,
    },
    Let {
        bindings: Trees<'t>,
        body: Part<'t>,
    },
    Forall {
        variables: Trees<'t>,
        body: Part<'t>,
    },
    Exists {
        variables: Trees<'t>,
        body: Part<'t>,
    },
    Match {
        term: Part<'t>,
        cases: Trees<'t>,
    },
    Annotated {
        term: Part<'t>,
        notes: Trees<'t>,
    },
}

/// An attribute of a term, by its production.
#[derive(Drop)]
pub(crate) enum NoteForm<'t> {
    Named {
        name: Tok,
    },
    Pattern {
        terms: Trees<'t>,
    },
    Attribute {
        keyword: Tok,
        value: Option<RawValue<'t>>,
    },
}

/// The parts of `( as identifier sort )`.
pub(crate) fn as_parts<'t>(parts: &Trees<'t>) -> Option<(Part<'t>, Part<'t>)>
    ensures { result ≡ definition.as_parts parts.now }
{
    let (word, rest) = token_first(parts)?;
    guard(words::is_reserved(&word, AS))?;
    let (identifier, rest) = any_first(&rest)?;
    guard(is_identifier(&identifier))?;
    let (sort, rest) = any_first(&rest)?;
    guard(is_empty(&rest))?;
    Some((identifier, sort))
}

fn is_as(tree: &Part) -> bool
    ensures { result ≡ definition.is_as (whole tree.now) }
{
    match tree {
        Part::Atom(_) => false,
        Part::List { parts, .. } => as_parts(parts).is_some(),
    }
}

/// Whether the tree is `identifier` or `( as identifier sort )`, where any tree is a sort.
pub(crate) fn is_qualified(tree: &Part) -> bool
    ensures { result ≡ definition.is_qualified (whole tree.now) }
{
    is_identifier(tree) || is_as(tree)
}

/// Whether each of some trees is a symbol.
pub fn are_symbols(trees: &Trees) -> bool
    ensures { result ≡ definition.are_symbols trees.now }
{
    let mut next = trees.split();
    while let Some((first, rest)) = next {
        match first {
            Part::Atom(tok) => {
                if !is_symbol(&tok) {
                    return false;
                }
            }
            Part::List { .. } => return false,
        }
        next = rest.split();
    }
    true
}

/// The parts of `( symbol symbol+ )`.
pub(crate) fn constructor_parts<'t>(parts: &Trees<'t>) -> Option<(Tok, Trees<'t>)>
    ensures { result ≡ definition.constructor_parts parts.now }
{
    let (name, variables) = symbol_first(parts)?;
    guard(!is_empty(&variables))?;
    guard(are_symbols(&variables))?;
    Some((name, variables))
}

/// Whether the tree is `symbol` or `( symbol symbol+ )`.
pub(crate) fn is_pattern(tree: &Part) -> bool
    ensures { result ≡ definition.is_pattern (whole tree.now) }
{
    match tree {
        Part::Atom(tok) => is_symbol(tok),
        Part::List { parts, .. } => constructor_parts(parts).is_some(),
    }
}

/// The parts of a binding, a variable or a selector: a symbol and one tree.
pub(crate) fn named_parts<'t>(parts: &Trees<'t>) -> Option<(Tok, Part<'t>)>
    ensures { result ≡ definition.named_parts parts.now }
{
    let (name, rest) = symbol_first(parts)?;
    let (tree, rest) = any_first(&rest)?;
    guard(is_empty(&rest))?;
    Some((name, tree))
}

/// Whether each of some trees is a symbol and one tree in a list.
pub fn are_named(trees: &Trees) -> bool
    ensures { result ≡ definition.are_named trees.now }
{
    let mut next = trees.split();
    while let Some((first, rest)) = next {
        match first {
            Part::Atom(_) => return false,
            Part::List { parts, .. } => {
                if named_parts(&parts).is_none() {
                    return false;
                }
            }
        }
        next = rest.split();
    }
    true
}

/// The parts of `( pattern term )`.
pub(crate) fn case_parts<'t>(parts: &Trees<'t>) -> Option<(Part<'t>, Part<'t>)>
    ensures { result ≡ definition.case_parts parts.now }
{
    let (pattern, rest) = any_first(parts)?;
    guard(is_pattern(&pattern))?;
    let (term, rest) = any_first(&rest)?;
    guard(is_empty(&rest))?;
    Some((pattern, term))
}

fn are_cases(trees: &Trees) -> bool
    ensures { result ≡ definition.are_cases trees.now }
{
    let mut next = trees.split();
    while let Some((first, rest)) = next {
        match first {
            Part::Atom(_) => return false,
            Part::List { parts, .. } => {
                if case_parts(&parts).is_none() {
                    return false;
                }
            }
        }
        next = rest.split();
    }
    true
}

/// Whether the tree is a constant, a symbol or a list.
fn is_value(tree: &Part) -> bool
    ensures { result ≡ is_a_value (whole tree.now) }
{
    match tree {
        Part::Atom(tok) => is_value_token(tok),
        Part::List { .. } => true,
    }
}

/// The value that comes next, if one does, and the other trees.
pub fn value_first<'t>(trees: Trees<'t>) -> (Option<RawValue<'t>>, Trees<'t>)
    ensures { result ≡ definition.value_first trees.entry }
{
    let Some((tree, rest)) = any_first(&trees) else {
        return (None, trees);
    };
    if is_value(&tree) {
        (Some(RawValue { tree }), rest)
    } else {
        (None, trees)
    }
}

/// The first attribute of a term, and the other trees.
pub(crate) fn note_parts<'t>(trees: &Trees<'t>) -> Option<(NoteForm<'t>, Trees<'t>)>
    ensures { result ≡ definition.note_parts trees.now }
{
    let (keyword, rest) = token_first(trees)?;
    if is_key(&keyword, NAMED) {
        let (name, rest) = symbol_first(&rest)?;
        return Some((NoteForm::Named { name }, rest));
    }
    if is_key(&keyword, PATTERN) {
        let (terms, rest) = list_first(&rest)?;
        guard(!is_empty(&terms))?;
        return Some((NoteForm::Pattern { terms }, rest));
    }
    guard(is_keyword(&keyword))?;
    let (value, rest) = value_first(rest);
    Some((NoteForm::Attribute { keyword, value }, rest))
}

/// Whether each of some trees belongs to an attribute of a term.
fn are_notes(trees: &Trees) -> bool
    ensures { result ≡ definition.are_notes trees.now }
{
    if is_empty(trees) {
        return true;
    }
    let mut next = note_parts(trees);
    while let Some((_, rest)) = next {
        if is_empty(&rest) {
            return true;
        }
        next = note_parts(&rest);
    }
    false
}

fn binder_parts<'t>(parts: &Trees<'t>) -> Option<(Trees<'t>, Part<'t>)>
    ensures { result ≡ definition.binder_parts parts.now }
{
    let (named, rest) = list_first(parts)?;
    let (body, rest) = any_first(&rest)?;
    guard(is_empty(&rest))?;
    guard(!is_empty(&named))?;
    guard(are_named(&named))?;
    Some((named, body))
}

fn match_parts<'t>(parts: &Trees<'t>) -> Option<(Part<'t>, Trees<'t>)>
    ensures { result ≡ definition.match_parts parts.now }
{
    let (of, rest) = any_first(parts)?;
    let (cases, rest) = list_first(&rest)?;
    guard(is_empty(&rest))?;
    guard(!is_empty(&cases))?;
    guard(are_cases(&cases))?;
    Some((of, cases))
}

fn annotation_parts<'t>(parts: &Trees<'t>) -> Option<(Part<'t>, Trees<'t>)>
    ensures { result ≡ definition.annotation_parts parts.now }
{
    let (body, notes) = any_first(parts)?;
    guard(!is_empty(&notes))?;
    guard(are_notes(&notes))?;
    Some((body, notes))
}

fn word_form<'t>(word: TermWord, parts: &Trees<'t>) -> Option<TermForm<'t>>
    ensures { result ≡ definition.word_form word parts.now }
{
    match word {
        TermWord::Let => {
            let (bindings, body) = binder_parts(parts)?;
            Some(TermForm::Let { bindings, body })
        }
        TermWord::Forall => {
            let (variables, body) = binder_parts(parts)?;
            Some(TermForm::Forall { variables, body })
        }
        TermWord::Exists => {
            let (variables, body) = binder_parts(parts)?;
            Some(TermForm::Exists { variables, body })
        }
        TermWord::Match => {
            let (term, cases) = match_parts(parts)?;
            Some(TermForm::Match { term, cases })
        }
        TermWord::Annotation => {
            let (term, notes) = annotation_parts(parts)?;
            Some(TermForm::Annotated { term, notes })
        }
        TermWord::Other => None,
    }
}

fn word_of(tree: &Part) -> TermWord
    ensures { result ≡ definition.word_of (whole tree.now) }
{
    match tree {
        Part::Atom(tok) => words::term_word(tok),
        Part::List { .. } => TermWord::Other,
    }
}

fn list_form<'t>(parts: &Trees<'t>) -> Option<TermForm<'t>>
    ensures { result ≡ definition.list_form parts.now }
{
    let (head, args) = any_first(parts)?;
    if !is_qualified(&head) {
        return word_form(word_of(&head), &args);
    }
    if is_empty(&args) {
        return None;
    }
    Some(TermForm::Application { head, args })
}

/// The form of a term, or the first byte of a tree that has none.
pub(crate) fn term_form<'t>(tree: &Part<'t>) -> Result<TermForm<'t>, u32>
    ensures { result ≡ definition.term_form (whole tree.now) }
{
    if is_qualified(tree) {
        return Ok(TermForm::Qualified);
    }
    match tree {
        Part::Atom(tok) => {
            if is_constant(tok) {
                Ok(TermForm::Constant(*tok))
            } else {
                Err(tok.at)
            }
        }
        Part::List { at, parts } => match list_form(parts) {
            Some(form) => Ok(form),
            None => Err(*at),
        },
    }
}

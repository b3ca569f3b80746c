//! The form of a command: the parts of its production, where any tree is a sort or a term.
ghost use Rattle.std.specs.Prelude.{◌≡◌};
ghost use Rattle.sexp_core.specs.Parts.{whole};
ghost use Rattle.cmd_grammar.specs.CommandForms as definition;

use crate::command_kind::RawCommandKind;
use crate::command_word::{CommandWord, command_word};
use crate::declaration_form::{
    FunDefParts, are_data_decs, are_fun_decs, are_literals, are_sort_decs, attribute_parts,
    fun_def_parts, is_data_dec, option_fits,
};
use crate::literal::RawLiterals;
use crate::sort_dec::RawSortDecs;
use lex_core::{Place, Tok};
use sexp_core::{Part, Trees};
use sig_table::Code;
use term_grammar::{
    RawAttribute, RawSymbols, any_first, are_symbols, guard, is_empty, is_keyword, is_numeral,
    is_string, list_first, symbol_first, token_first,
};

/// A command, by its form. A command without sorts and terms is complete.
#[derive(Drop)]
pub(crate) enum CommandForm<'t> {
    Complete(RawCommandKind<'t>),
    Declaration(DeclarationForm<'t>),
    Assert {
        term: Part<'t>,
    },
    DefineFun(FunDefParts<'t>),
    DefineFunRec(FunDefParts<'t>),
    DefineFunsRec {
        declarations: Trees<'t>,
        bodies: Trees<'t>,
    },
    GetValue {
        terms: Trees<'t>,
    },
}

/// A declaration with sorts, or the definition of a sort, by its form.
#[derive(Drop)]
pub(crate) enum DeclarationForm<'t> {
    Const {
        name: Tok,
        sort: Part<'t>,
    },
    Datatype {
        name: Tok,
        declaration: Part<'t>,
    },
    Datatypes {
        sorts: RawSortDecs<'t>,
        datatypes: Trees<'t>,
    },
    Fun {
        name: Tok,
        args: Trees<'t>,
        result: Part<'t>,
    },
    Sort {
        name: Tok,
        params: RawSymbols<'t>,
        sort: Part<'t>,
    },
}

// ( assert term )
fn assert<'t>(parts: &Trees<'t>) -> Option<CommandForm<'t>>
    ensures { result ≡ definition.assert_form parts.now }
{
    let (term, rest) = any_first(parts)?;
    guard(is_empty(&rest))?;
    Some(CommandForm::Assert { term })
}

// ( check-sat-assuming ( literal* ) )
fn check_sat_assuming<'t>(parts: &Trees<'t>) -> Option<CommandForm<'t>>
    ensures { result ≡ definition.check_sat_assuming_form parts.now }
{
    let (literals, rest) = list_first(parts)?;
    if !are_literals(&literals) {
        return None;
    }
    guard(is_empty(&rest))?;
    let literals = RawLiterals { trees: literals };
    Some(CommandForm::Complete(RawCommandKind::CheckSatAssuming(literals)))
}

// ( declare-const symbol sort )
fn declare_const<'t>(parts: &Trees<'t>) -> Option<CommandForm<'t>>
    ensures { result ≡ definition.declare_const_form parts.now }
{
    let (name, rest) = symbol_first(parts)?;
    let (sort, rest) = any_first(&rest)?;
    guard(is_empty(&rest))?;
    Some(CommandForm::Declaration(DeclarationForm::Const { name, sort }))
}

// ( declare-datatype symbol data_dec )
fn declare_datatype<'t>(parts: &Trees<'t>) -> Option<CommandForm<'t>>
    ensures { result ≡ definition.declare_datatype_form parts.now }
{
    let (name, rest) = symbol_first(parts)?;
    let (declaration, rest) = any_first(&rest)?;
    guard(is_data_dec(&declaration))?;
    guard(is_empty(&rest))?;
    Some(CommandForm::Declaration(DeclarationForm::Datatype { name, declaration }))
}

// ( declare-datatypes ( sort_dec+ ) ( data_dec+ ) )
fn declare_datatypes<'t>(parts: &Trees<'t>) -> Option<CommandForm<'t>>
    ensures { result ≡ definition.declare_datatypes_form parts.now }
{
    let (sorts, rest) = list_first(parts)?;
    let (datatypes, rest) = list_first(&rest)?;
    guard(!is_empty(&sorts))?;
    if !are_sort_decs(&sorts) {
        return None;
    }
    guard(!is_empty(&datatypes))?;
    guard(are_data_decs(&datatypes))?;
    guard(is_empty(&rest))?;
    let sorts = RawSortDecs { trees: sorts };
    Some(CommandForm::Declaration(DeclarationForm::Datatypes { sorts, datatypes }))
}

// ( declare-fun symbol ( sort* ) sort )
fn declare_fun<'t>(parts: &Trees<'t>) -> Option<CommandForm<'t>>
    ensures { result ≡ definition.declare_fun_form parts.now }
{
    let (name, rest) = symbol_first(parts)?;
    let (args, rest) = list_first(&rest)?;
    let (result, rest) = any_first(&rest)?;
    guard(is_empty(&rest))?;
    Some(CommandForm::Declaration(DeclarationForm::Fun { name, args, result }))
}

// ( declare-sort symbol numeral )
fn declare_sort<'t>(parts: &Trees<'t>) -> Option<CommandForm<'t>>
    ensures { result ≡ definition.declare_sort_form parts.now }
{
    let (name, rest) = symbol_first(parts)?;
    let (arity, rest) = token_first(&rest)?;
    guard(is_numeral(&arity))?;
    guard(is_empty(&rest))?;
    Some(CommandForm::Complete(RawCommandKind::DeclareSort { name, arity }))
}

// ( define-fun fun_def )
fn define_fun<'t>(parts: &Trees<'t>) -> Option<CommandForm<'t>>
    ensures { result ≡ definition.define_fun_form parts.now }
{
    let parts = fun_def_parts(parts)?;
    Some(CommandForm::DefineFun(parts))
}

// ( define-fun-rec fun_def )
fn define_fun_rec<'t>(parts: &Trees<'t>) -> Option<CommandForm<'t>>
    ensures { result ≡ definition.define_fun_rec_form parts.now }
{
    let parts = fun_def_parts(parts)?;
    Some(CommandForm::DefineFunRec(parts))
}

// ( define-funs-rec ( fun_dec+ ) ( term+ ) ), with lists of equal lengths
fn define_funs_rec<'t>(parts: &Trees<'t>) -> Option<CommandForm<'t>>
    ensures { result ≡ definition.define_funs_rec_form parts.now }
{
    let (declarations, rest) = list_first(parts)?;
    let (bodies, rest) = list_first(&rest)?;
    guard(!is_empty(&declarations))?;
    guard(are_fun_decs(&declarations))?;
    guard(!is_empty(&bodies))?;
    guard(is_empty(&rest))?;
    guard(declarations.len() == bodies.len())?;
    Some(CommandForm::DefineFunsRec {
        declarations,
        bodies,
    })
}

// ( define-sort symbol ( symbol* ) sort )
fn define_sort<'t>(parts: &Trees<'t>) -> Option<CommandForm<'t>>
    ensures { result ≡ definition.define_sort_form parts.now }
{
    let (name, rest) = symbol_first(parts)?;
    let (params, rest) = list_first(&rest)?;
    let (sort, rest) = any_first(&rest)?;
    if !are_symbols(&params) {
        return None;
    }
    guard(is_empty(&rest))?;
    let params = RawSymbols::of(params);
    Some(CommandForm::Declaration(DeclarationForm::Sort { name, params, sort }))
}

// ( echo string )
fn echo<'t>(parts: &Trees<'t>) -> Option<CommandForm<'t>>
    ensures { result ≡ definition.echo_form parts.now }
{
    let (text, rest) = token_first(parts)?;
    guard(is_string(&text))?;
    guard(is_empty(&rest))?;
    Some(CommandForm::Complete(RawCommandKind::Echo(text)))
}

// ( get-info keyword )
fn get_info<'t>(parts: &Trees<'t>) -> Option<CommandForm<'t>>
    ensures { result ≡ definition.get_info_form parts.now }
{
    let (key, rest) = token_first(parts)?;
    guard(is_keyword(&key))?;
    guard(is_empty(&rest))?;
    Some(CommandForm::Complete(RawCommandKind::GetInfo(key)))
}

// ( get-option keyword )
fn get_option<'t>(parts: &Trees<'t>) -> Option<CommandForm<'t>>
    ensures { result ≡ definition.get_option_form parts.now }
{
    let (key, rest) = token_first(parts)?;
    guard(is_keyword(&key))?;
    guard(is_empty(&rest))?;
    Some(CommandForm::Complete(RawCommandKind::GetOption(key)))
}

// ( get-value ( term+ ) )
fn get_value<'t>(parts: &Trees<'t>) -> Option<CommandForm<'t>>
    ensures { result ≡ definition.get_value_form parts.now }
{
    let (terms, rest) = list_first(parts)?;
    guard(!is_empty(&terms))?;
    guard(is_empty(&rest))?;
    Some(CommandForm::GetValue { terms })
}

// ( pop numeral )
fn pop<'t>(parts: &Trees<'t>) -> Option<CommandForm<'t>>
    ensures { result ≡ definition.pop_form parts.now }
{
    let (count, rest) = token_first(parts)?;
    guard(is_numeral(&count))?;
    guard(is_empty(&rest))?;
    Some(CommandForm::Complete(RawCommandKind::Pop(count)))
}

// ( push numeral )
fn push<'t>(parts: &Trees<'t>) -> Option<CommandForm<'t>>
    ensures { result ≡ definition.push_form parts.now }
{
    let (count, rest) = token_first(parts)?;
    guard(is_numeral(&count))?;
    guard(is_empty(&rest))?;
    Some(CommandForm::Complete(RawCommandKind::Push(count)))
}

// ( set-info attribute )
fn set_info<'t>(parts: &Trees<'t>) -> Option<CommandForm<'t>>
    ensures { result ≡ definition.set_info_form parts.now }
{
    let (key, value) = attribute_parts(parts)?;
    Some(CommandForm::Complete(RawCommandKind::SetInfo(RawAttribute::new(key, value))))
}

// ( set-logic symbol )
fn set_logic<'t>(parts: &Trees<'t>) -> Option<CommandForm<'t>>
    ensures { result ≡ definition.set_logic_form parts.now }
{
    let (name, rest) = symbol_first(parts)?;
    guard(is_empty(&rest))?;
    Some(CommandForm::Complete(RawCommandKind::SetLogic(name)))
}

// ( set-option attribute ), where `:global-declarations` has a truth value
fn set_option<'t>(parts: &Trees<'t>) -> Option<CommandForm<'t>>
    ensures { result ≡ definition.set_option_form parts.now }
{
    let (key, value) = attribute_parts(parts)?;
    guard(option_fits(&key, &value))?;
    Some(CommandForm::Complete(RawCommandKind::SetOption(RawAttribute::new(key, value))))
}

// a command with no parts
fn plain<'t>(parts: &Trees<'t>, kind: RawCommandKind<'t>) -> Option<CommandForm<'t>>
    ensures { result ≡ definition.plain_form parts.now kind.entry }
{
    if is_empty(parts) {
        Some(CommandForm::Complete(kind))
    } else {
        None
    }
}

fn form_after<'t>(word: CommandWord, parts: &Trees<'t>) -> Option<CommandForm<'t>>
    ensures { result ≡ definition.form_after word parts.now }
{
    match word {
        CommandWord::Assert => assert(parts),
        CommandWord::CheckSat => plain(parts, RawCommandKind::CheckSat),
        CommandWord::CheckSatAssuming => check_sat_assuming(parts),
        CommandWord::DeclareConst => declare_const(parts),
        CommandWord::DeclareDatatype => declare_datatype(parts),
        CommandWord::DeclareDatatypes => declare_datatypes(parts),
        CommandWord::DeclareFun => declare_fun(parts),
        CommandWord::DeclareSort => declare_sort(parts),
        CommandWord::DefineFun => define_fun(parts),
        CommandWord::DefineFunRec => define_fun_rec(parts),
        CommandWord::DefineFunsRec => define_funs_rec(parts),
        CommandWord::DefineSort => define_sort(parts),
        CommandWord::Echo => echo(parts),
        CommandWord::Exit => plain(parts, RawCommandKind::Exit),
        CommandWord::GetAssertions => plain(parts, RawCommandKind::GetAssertions),
        CommandWord::GetAssignment => plain(parts, RawCommandKind::GetAssignment),
        CommandWord::GetInfo => get_info(parts),
        CommandWord::GetModel => plain(parts, RawCommandKind::GetModel),
        CommandWord::GetOption => get_option(parts),
        CommandWord::GetProof => plain(parts, RawCommandKind::GetProof),
        CommandWord::GetUnsatAssumptions => plain(parts, RawCommandKind::GetUnsatAssumptions),
        CommandWord::GetUnsatCore => plain(parts, RawCommandKind::GetUnsatCore),
        CommandWord::GetValue => get_value(parts),
        CommandWord::Pop => pop(parts),
        CommandWord::Push => push(parts),
        CommandWord::Reset => plain(parts, RawCommandKind::Reset),
        CommandWord::ResetAssertions => plain(parts, RawCommandKind::ResetAssertions),
        CommandWord::SetInfo => set_info(parts),
        CommandWord::SetLogic => set_logic(parts),
        CommandWord::SetOption => set_option(parts),
        CommandWord::Other => None,
    }
}

fn is_other(word: CommandWord) -> bool
    ensures { result ≡ definition.is_other word }
{
    match word {
        CommandWord::Other => true,
        _ => false,
    }
}

fn unknown<'t>(at: u32) -> Result<CommandForm<'t>, Place>
    ensures { result ≡ definition.unknown at }
{
    Err(Place {
        code: Code::UnknownCommand,
        at,
    })
}

fn or_wrong<'t>(at: u32, form: Option<CommandForm<'t>>) -> Result<CommandForm<'t>, Place>
    ensures { result ≡ definition.or_wrong at form.entry }
{
    match form {
        Some(form) => Ok(form),
        None => Err(Place {
            code: Code::WrongCommandForm,
            at,
        }),
    }
}

fn begun_form<'t>(at: u32, word: &Tok, parts: &Trees<'t>) -> Result<CommandForm<'t>, Place>
    ensures { result ≡ definition.begun_form at word.now parts.now }
{
    let word = command_word(word);
    if is_other(word) {
        return unknown(at);
    }
    or_wrong(at, form_after(word, parts))
}

fn list_form<'t>(at: u32, parts: &Trees<'t>) -> Result<CommandForm<'t>, Place>
    ensures { result ≡ definition.list_form at parts.now }
{
    match token_first(parts) {
        Some((word, rest)) => begun_form(at, &word, &rest),
        None => unknown(at),
    }
}

/// The form of a command, or why it has none: `UnknownCommand` where the tree does not begin with the name of a command,
/// and then `WrongCommandForm` where it is not that command's form, at the tree's first byte.
pub(crate) fn command_form<'t>(tree: &Part<'t>) -> Result<CommandForm<'t>, Place>
    ensures { result ≡ definition.command_form (whole tree.now) }
{
    match tree {
        Part::Atom(tok) => unknown(tok.at),
        Part::List { at, parts } => list_form(*at, parts),
    }
}

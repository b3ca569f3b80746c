//! The patterns of a `match`.
ghost use Rattle.std.specs.Prelude.{◌≡◌, ◌==◌, [], option_map};
ghost use Rattle.std.specs.List.{find, list_any};
ghost use Rattle.std.specs.Option.{option_copied};
ghost use Rattle.judgement.specs.Judging.{Lawful};
ghost use Rattle.term_store.specs.Command.{plain_constructor, plain_datatype};
ghost use Rattle.dt_rules.specs.Answers.{Answers};
ghost use Rattle.dt_rules.specs.PatternRules.{constructor_named as constructor_with, judge_constant, judge_constructor, judge_pattern, judge_variables};

use crate::error::{TyError, fault};
use lex_core::{NameId, Names, Tok};
use sig_table::Code;
use std::alloc::Global;
use term_grammar::{RawPattern, RawPatternKind, RawSymbols};
use term_store::{Constructor, Datatype, ListOf, Pattern};

// The first of the constructors with this name.
fn find_named(constructors: &[Constructor], name: NameId) -> Option<&Constructor>
    ensures { option_copied result ≡ find (λ c. c.name == name) constructors.now }
{
    constructors
        .iter()
        .find(|constructor| constructor.name == name)
}

/// The constructor of the datatype with this name.
pub fn constructor_named(datatype: &Datatype, name: NameId) -> Option<&Constructor>
    ensures { option_map plain_constructor (option_copied result) ≡ constructor_with (plain_datatype datatype.now) name }
{
    find_named(datatype.constructors.as_slice(), name)
}

fn is_repeated(names: &[NameId], name: NameId) -> bool
    ensures { result ≡ list_any (λ n. n == name) names.now }
{
    names.iter().any(|other| *other == name)
}

/// The names of variables, or of the sort parameters of a datatype (SMT-LIB 2.6, section 4.2.3), none of them repeated. The errors
/// are the first that is, with its byte, and that memory runs out.
pub fn variables_of(alloc: Global, variables: &RawSymbols) -> Result<ListOf<NameId>, TyError>
    ensures { Answers result (judge_variables [] variables.now) }
{
    let mut names: ListOf<NameId> = ListOf::new(alloc);
    let mut next = variables.split();
    while let Some((first, rest)) = next {
        let name = first.name;
        if is_repeated(names.as_slice(), name) {
            return Err(fault(Code::RepeatedVariable, first.at));
        }
        match names.push(name) {
            Ok(()) => {}
            Err(_) => return Err(TyError::NoMemory),
        }
        next = rest.split();
    }
    Ok(names)
}

// The pattern of a symbol alone, which may name this constructor.
#[tactic(auto, using(crate::proofs::PatternSteps::plain_words))]
fn constant_pattern(
    alloc: Global,
    symbol: &Tok,
    constructor: Option<&Constructor>,
) -> Result<Pattern, TyError>
    ensures { Answers result (judge_constant symbol.now (option_map plain_constructor (option_copied constructor.entry))) }
{
    let Some(constructor) = constructor else {
        return Ok(Pattern::Var(symbol.name));
    };
    if !constructor.fields.as_slice().is_empty() {
        return Err(fault(Code::WrongPatternArity, symbol.at));
    }
    Ok(Pattern::Con {
        no: constructor.no,
        name: constructor.name,
        vars: ListOf::new(alloc),
    })
}

// The pattern of a constructor with variables, whose list begins at a byte.
#[tactic(auto, using(crate::proofs::PatternSteps::plain_words))]
fn constructor_pattern(
    alloc: Global,
    datatype: &Datatype,
    at: u32,
    symbol: &Tok,
    variables: &RawSymbols,
) -> Result<Pattern, TyError>
    ensures { Answers result (judge_constructor (plain_datatype datatype.now) at symbol.now variables.now) }
{
    let Some(constructor) = constructor_named(datatype, symbol.name) else {
        return Err(fault(Code::UnknownConstructor, at));
    };
    if variables.len() != constructor.fields.as_slice().len() {
        return Err(fault(Code::WrongPatternArity, at));
    }
    let vars = variables_of(alloc, variables)?;
    Ok(Pattern::Con {
        no: constructor.no,
        name: constructor.name,
        vars,
    })
}

/// The pattern of a match case on a term of the datatype (SMT-LIB 2.6, section 3.6.1). The errors
/// are the first rule that it does not meet, with its byte, and that memory runs out. A symbol alone
/// is a constructor of the datatype, which then has no fields, or else a variable. A list begins with
/// a constructor of the datatype, has as many variables as that has fields, and repeats none.
#[tactic(auto, using(crate::proofs::PatternLaws::lawful_pattern))]
pub fn check_pattern(
    alloc: Global,
    _names: &Names,
    datatype: &Datatype,
    raw: RawPattern,
) -> Result<Pattern, TyError>
    ensures answer { Answers result (judge_pattern (plain_datatype datatype.now) raw.entry) }

    // The rules allow no other answer.
    ensures decided { Lawful (judge_pattern (plain_datatype datatype.now) raw.entry) }
{
    let at = raw.at();
    match raw.kind() {
        RawPatternKind::Symbol(symbol) => {
            constant_pattern(alloc, &symbol, constructor_named(datatype, symbol.name))
        }
        RawPatternKind::Constructor { name, variables } => {
            constructor_pattern(alloc, datatype, at, &name, &variables)
        }
    }
}

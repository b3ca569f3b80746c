//! What the commands that change something make of the environment, once their mode is judged (SMT-LIB 2.6,
//! sections 4.1 and 4.2).
ghost use Rattle.std.specs.Prelude.{◌≡◌, ◌↔◌, ◌==◌, ◌<◌, [], false, length, map, IfErr, IfOk, IsTrue, OnOk};
ghost use Rattle.std.specs.Option.{IsSome, is_some};
ghost use Rattle.std.specs.List.{All, list_any};
ghost use Rattle.sort_store.specs.CoreRanks.{bool};
ghost use Rattle.sort_store.specs.Tree.{tree};
ghost use Rattle.cmd_grammar.specs.Commands as command;
ghost use Rattle.typer.specs.FunctionSymbols.{datatypes_of};
ghost use Rattle.typer.specs.Ready.{IsReadySchema};
ghost use Rattle.typer.specs.SortSymbols.{is_theory_sort};
ghost use Rattle.typer.specs.Declarations.{without_assertions};
ghost use Rattle.sort_store.specs.Interned.{Grows};
ghost use Rattle.term_store.specs.Term.{plain_sort, plain_var, tree as term_tree};
ghost use Rattle.typer.specs.Typed.{AreBound};
ghost use Rattle.logic_frag.specs.Following.{plain_defs};
ghost use Rattle.script_core.specs.Environment.{logic_in, start};
ghost use Rattle.script_core.specs.Rules.{after_option, judge_bool, judge_params, is_true as is_true_value, with_defined_sort, with_free_sort, with_function, with_logic};
ghost use Rattle.script_core.specs.Effects.{Answers, AnswersParts, AnswersSort, AnswersSorts, BeginsNames, CountsNames, DeclaresNoName, IsSameTo, Meets, MeetsParts, MeetsTerm, OnlySortsGrow, first_of, seen_by, step_error_of};
ghost use Rattle.script_core.specs.Checking.{IsReadyScope, environment_of};

use crate::logic::{core_alone, theories_under};
use crate::rules::{attribute_key, text_of, value_of};
use crate::scope::{Scope, StepError};
use crate::unchanging::attribute_value;
use cmd_grammar::RawLiterals;
use lex_core::{NameId, Place, Tok};
use logic_frag::logic_of;
use scope_stack::{FunEntry, FunKind, SortEntry};
use sig_table::Code;
use sort_store::{DeclNo, SortRef, Sorts};
use std::alloc::Global;
use term_grammar::{
    GLOBAL_DECLARATIONS, RawAttribute, RawAttributeKind, RawSort, RawSorts, RawSymbols, RawTerm,
    RawTerms, RawValue, RawValueKind, TRUE,
};
use term_store::{ListOf, TermRef, TypedCommand};
use typer::{
    TyError, is_bool as is_bool_sort, is_fun_in_use, is_sort_in_use, type_sort, type_sorts,
    type_term,
};

/// The fault with this code at this byte.
pub fn broken(code: Code, at: u32) -> StepError
    ensures { result ≡ StepError.Broken (record { code = code; at = at }) }
{
    StepError::Broken(Place { code, at })
}

/// Why a command is not accepted whose sort, term or group breaks a rule, or for which memory ran out.
pub fn step_error(error: TyError) -> StepError
    ensures { result ≡ step_error_of error }
{
    match error {
        TyError::Fault(place) => StepError::Broken(place),
        TyError::NoMemory => StepError::NoMemory,
    }
}

/// The sort that a raw sort stands for, under the parameters of the command.
pub fn sort_of(scope: &mut Scope, params: &[NameId], raw: RawSort) -> Result<SortRef, StepError>
    requires stands { IsReadyScope scope.old }
    ensures answer { AnswersSort (environment_of scope.old.world.names scope.old) params.now raw.entry result }
    ensures schema { IfOk result (λ r. IsReadySchema scope.new.world.names scope.new.world.sorts (length params.now) r) }
    ensures grown { OnlySortsGrow scope.old scope.new }
    ensures stands { IsReadyScope scope.new }
{
    match type_sort(&mut scope.world, params, raw) {
        Ok(sort) => Ok(sort),
        Err(error) => Err(step_error(error)),
    }
}

// The sorts in a list. The only error is that memory runs out.
fn list_of(alloc: Global, sorts: Vec<SortRef>) -> Result<Sorts, StepError>
    ensures ok { IfOk result (λ list. list ≡ sorts.items) }
    ensures err { IfErr result (λ e. e ≡ StepError.NoMemory) }
{
    let mut list = Sorts::new(alloc);
    for sort in sorts {
        match list.push(sort) {
            Ok(()) => {}
            Err(_) => return Err(StepError::NoMemory),
        }
    }
    Ok(list)
}

/// The same sort once more. The only error is that memory runs out.
pub fn copy_of(sort: &SortRef) -> Result<SortRef, StepError>
    ensures ok { IfOk result (λ r. r ≡ sort.now) }
    ensures err { IfErr result (λ e. e ≡ StepError.NoMemory) }
{
    match sort.clone() {
        Ok(sort) => Ok(sort),
        Err(_) => Err(StepError::NoMemory),
    }
}

// The same sorts once more. The only error is that memory runs out.
fn copies_of(alloc: Global, sorts: &Sorts) -> Result<Sorts, StepError>
    ensures ok { IfOk result (λ list. list ≡ sorts.now) }
    ensures err { IfErr result (λ e. e ≡ StepError.NoMemory) }
{
    let items = sorts.as_slice();
    let mut list = Sorts::new(alloc);
    for sort in items {
        let copy = copy_of(sort)?;
        match list.push(copy) {
            Ok(()) => {}
            Err(_) => return Err(StepError::NoMemory),
        }
    }
    Ok(list)
}

// The sorts that raw sorts stand for.
fn sorts_of(scope: &mut Scope, raws: RawSorts) -> Result<Sorts, StepError>
    requires stands { IsReadyScope scope.old }
    ensures answer { AnswersSorts (environment_of scope.old.world.names scope.old) raws.entry result }
    ensures schema { IfOk result (λ rs. All (IsReadySchema scope.new.world.names scope.new.world.sorts 0) rs) }
    ensures grown { OnlySortsGrow scope.old scope.new }
    ensures stands { IsReadyScope scope.new }
{
    match type_sorts(&mut scope.world, &[], raws) {
        Ok(sorts) => list_of(scope.alloc, sorts),
        Err(error) => Err(step_error(error)),
    }
}

/// The typed term of a term in which variables are bound, the innermost last.
pub fn term_of(
    scope: &mut Scope,
    vars: &[(NameId, SortRef)],
    term: RawTerm,
) -> Result<TermRef, StepError>
    requires stands { IsReadyScope scope.old }
    requires vars { AreBound scope.old.world vars.now }
    ensures answer { MeetsTerm (first_of scope.old) (environment_of scope.old.world.names scope.old) (map plain_var vars.now) term.entry result (seen_by scope.old) (seen_by scope.new) }
    ensures first { first_of scope.new ≡ first_of scope.old }
    ensures same { IsSameTo scope.old scope.new }
    ensures grows { Grows scope.old.world.sorts scope.new.world.sorts }
    ensures script { scope.new.world.script ≡ scope.old.world.script }
    ensures stands { IsReadyScope scope.new }
{
    match type_term(&mut scope.world, vars, term) {
        Ok(term) => Ok(term),
        Err(error) => Err(step_error(error)),
    }
}

#[tactic(auto, using(crate::proofs::BoolTerms::term_sort))]
fn is_bool(term: &TermRef) -> bool
    ensures { IsTrue result ↔ (plain_sort (term_tree term.now) ≡ bool) }
{
    is_bool_sort(term.sort())
}

// The typed term of a term, which is of sort Bool.
fn bool_term(scope: &mut Scope, term: RawTerm) -> Result<TermRef, StepError>
    requires stands { IsReadyScope scope.old }
    requires counts { CountsNames scope.old }
    ensures answer { Meets (judge_bool (environment_of scope.old.world.names scope.old) term.entry) term_tree result (seen_by scope.old) (seen_by scope.new) }
    ensures counts { CountsNames scope.new }
    ensures same { IsSameTo scope.old scope.new }
    ensures script { scope.new.world.script ≡ scope.old.world.script }
    ensures stands { IsReadyScope scope.new }
{
    let at = term.at();
    let term = term_of(scope, &[], term)?;
    if !is_bool(&term) {
        return Err(broken(Code::WrongTermSort, at));
    }
    Ok(term)
}

/// Judges the term of an `assert`.
pub fn assertion(scope: &mut Scope, at: u32, term: RawTerm) -> Result<TypedCommand, StepError>
    requires stands { IsReadyScope scope.old }
    requires begins { BeginsNames scope.old }
    ensures answer { let names = scope.old.world.names in
        MeetsParts (environment_of names scope.old) at (command.assert term.entry) result (environment_of names scope.new) (seen_by scope.new) }
    ensures names { scope.new.world.names ≡ scope.old.world.names }
    ensures script { scope.new.world.script ≡ scope.old.world.script }
    ensures stands { IsReadyScope scope.new }
{
    let term = bool_term(scope, term)?;
    Ok(TypedCommand::Assert { term })
}

/// Judges the literals of a `check-sat-assuming`: each, read as a term, is of sort Bool.
pub fn assumptions(
    scope: &mut Scope,
    at: u32,
    literals: &RawLiterals,
) -> Result<TypedCommand, StepError>
    requires stands { IsReadyScope scope.old }
    requires begins { BeginsNames scope.old }
    ensures answer { let names = scope.old.world.names in
        MeetsParts (environment_of names scope.old) at (command.check_sat_assuming literals.now) result (environment_of names scope.new) (seen_by scope.new) }
    ensures names { scope.new.world.names ≡ scope.old.world.names }
    ensures script { scope.new.world.script ≡ scope.old.world.script }
    ensures stands { IsReadyScope scope.new }
{
    let mut terms: ListOf<TermRef> = ListOf::new(scope.alloc);
    let mut next = literals.split();
    while let Some((first, rest)) = next {
        let term = bool_term(scope, first.term())?;
        match terms.push(term) {
            Ok(()) => {}
            Err(_) => return Err(StepError::NoMemory),
        }
        next = rest.split();
    }
    Ok(TypedCommand::CheckSatAssuming { terms })
}

/// Judges the terms of a `get-value`.
pub fn values(scope: &mut Scope, at: u32, terms: &RawTerms) -> Result<TypedCommand, StepError>
    requires stands { IsReadyScope scope.old }
    requires begins { BeginsNames scope.old }
    ensures answer { let names = scope.old.world.names in
        MeetsParts (environment_of names scope.old) at (command.get_value terms.now) result (environment_of names scope.new) (seen_by scope.new) }
    ensures names { scope.new.world.names ≡ scope.old.world.names }
    ensures script { scope.new.world.script ≡ scope.old.world.script }
    ensures stands { IsReadyScope scope.new }
{
    let mut made: ListOf<TermRef> = ListOf::new(scope.alloc);
    let mut next = terms.split();
    while let Some((first, rest)) = next {
        let term = term_of(scope, &[], first)?;
        match made.push(term) {
            Ok(()) => {}
            Err(_) => return Err(StepError::NoMemory),
        }
        next = rest.split();
    }
    Ok(TypedCommand::GetValue { terms: made })
}

/// Declares a function symbol under the next number, which it answers. The only error is that memory runs out.
pub fn add_function(
    scope: &mut Scope,
    name: NameId,
    args: Sorts,
    sort: SortRef,
) -> Result<DeclNo, StepError>
    requires stands { IsReadyScope scope.old }
    requires logic { IsSome scope.old.logic }
    requires named { name < length scope.old.world.names }
    requires args { All (IsReadySchema scope.old.world.names scope.old.world.sorts 0) args }
    requires sort { IsReadySchema scope.old.world.names scope.old.world.sorts 0 sort }
    ensures effect { let names = scope.old.world.names in
        OnOk result (environment_of names scope.new ≡ with_function (environment_of names scope.old) name (map tree args) (tree sort)) }
    ensures number { IfOk result (λ no. no ≡ record { 0 = scope.old.next }) }
    ensures error { IfErr result (λ e. e ≡ StepError.NoMemory) }
    ensures names { scope.new.world.names ≡ scope.old.world.names }
    ensures sorts { scope.new.world.sorts ≡ scope.old.world.sorts }
    ensures script { scope.new.world.script ≡ scope.old.world.script }
    ensures unnamed { DeclaresNoName scope.old scope.new }
    ensures stands { IsReadyScope scope.new }
{
    let Some(next) = scope.next.checked_add(1) else {
        return Err(StepError::NoMemory);
    };
    let no = DeclNo(scope.next);
    let entry = FunEntry {
        no,
        kind: FunKind::Free,
        params: 0,
        args,
        result: sort,
    };
    match scope.world.scopes.declare_fun(name, entry) {
        Ok(()) => {
            scope.next = next;
            Ok(no)
        }
        Err(_) => Err(StepError::NoMemory),
    }
}

/// Declares a constant.
pub fn declare_const(
    scope: &mut Scope,
    at: u32,
    name: &Tok,
    sort: RawSort,
) -> Result<TypedCommand, StepError>
    requires stands { IsReadyScope scope.old }
    requires logic { IsSome scope.old.logic }
    requires named { name.now.name < length scope.old.world.names }
    ensures answer { let names = scope.old.world.names in
        AnswersParts (environment_of names scope.old) at (command.declare_const name.now sort.entry) result (environment_of names scope.new) }
    ensures names { scope.new.world.names ≡ scope.old.world.names }
    ensures script { scope.new.world.script ≡ scope.old.world.script }
    ensures unnamed { DeclaresNoName scope.old scope.new }
    ensures stands { IsReadyScope scope.new }
{
    if is_fun_in_use(&scope.world, name.name) {
        return Err(broken(Code::FunctionNameInUse, name.at));
    }
    let sort = sort_of(scope, &[], sort)?;
    let kept = copy_of(&sort)?;
    let no = add_function(scope, name.name, Sorts::new(scope.alloc), sort)?;
    Ok(TypedCommand::DeclareConst {
        no,
        name: name.name,
        sort: kept,
    })
}

/// Declares a function.
pub fn declare_fun(
    scope: &mut Scope,
    at: u32,
    name: &Tok,
    args: RawSorts,
    sort: RawSort,
) -> Result<TypedCommand, StepError>
    requires stands { IsReadyScope scope.old }
    requires logic { IsSome scope.old.logic }
    requires named { name.now.name < length scope.old.world.names }
    ensures answer { let names = scope.old.world.names in
        AnswersParts (environment_of names scope.old) at (command.declare_fun name.now args.entry sort.entry) result (environment_of names scope.new) }
    ensures names { scope.new.world.names ≡ scope.old.world.names }
    ensures script { scope.new.world.script ≡ scope.old.world.script }
    ensures unnamed { DeclaresNoName scope.old scope.new }
    ensures stands { IsReadyScope scope.new }
{
    if is_fun_in_use(&scope.world, name.name) {
        return Err(broken(Code::FunctionNameInUse, name.at));
    }
    let args = sorts_of(scope, args)?;
    let sort = sort_of(scope, &[], sort)?;
    let kept_args = copies_of(scope.alloc, &args)?;
    let kept_result = copy_of(&sort)?;
    let no = add_function(scope, name.name, args, sort)?;
    Ok(TypedCommand::DeclareFun {
        no,
        name: name.name,
        args: kept_args,
        result: kept_result,
    })
}

// Declares a sort symbol of a free sort under the next number, as `add_function`.
fn add_free_sort(scope: &mut Scope, name: NameId, arity: u32) -> Result<DeclNo, StepError>
    requires stands { IsReadyScope scope.old }
    requires logic { IsSome scope.old.logic }
    requires named { name < length scope.old.world.names }
    requires free { is_theory_sort scope.old.world.names scope.old.world.theories name ≡ false }
    ensures effect { let names = scope.old.world.names in
        OnOk result (environment_of names scope.new ≡ with_free_sort (environment_of names scope.old) name arity) }
    ensures number { IfOk result (λ no. no ≡ record { 0 = scope.old.next }) }
    ensures error { IfErr result (λ e. e ≡ StepError.NoMemory) }
    ensures names { scope.new.world.names ≡ scope.old.world.names }
    ensures script { scope.new.world.script ≡ scope.old.world.script }
    ensures unnamed { DeclaresNoName scope.old scope.new }
    ensures stands { IsReadyScope scope.new }
{
    let Some(next) = scope.next.checked_add(1) else {
        return Err(StepError::NoMemory);
    };
    let no = DeclNo(scope.next);
    match scope
        .world
        .scopes
        .declare_sort(name, SortEntry::Free { no, arity })
    {
        Ok(()) => {
            scope.next = next;
            Ok(no)
        }
        Err(_) => Err(StepError::NoMemory),
    }
}

/// Declares a sort symbol of a free sort.
pub fn declare_sort(
    scope: &mut Scope,
    at: u32,
    name: &Tok,
    arity: &Tok,
) -> Result<TypedCommand, StepError>
    requires stands { IsReadyScope scope.old }
    requires logic { IsSome scope.old.logic }
    requires named { name.now.name < length scope.old.world.names }
    ensures answer { let names = scope.old.world.names in
        AnswersParts (environment_of names scope.old) at (command.declare_sort name.now arity.now) result (environment_of names scope.new) }
    ensures names { scope.new.world.names ≡ scope.old.world.names }
    ensures script { scope.new.world.script ≡ scope.old.world.script }
    ensures unnamed { DeclaresNoName scope.old scope.new }
    ensures stands { IsReadyScope scope.new }
{
    if is_sort_in_use(&scope.world, name.name) {
        return Err(broken(Code::SortNameInUse, name.at));
    }
    let Some(count) = value_of(&scope.world.names, arity) else {
        return Err(broken(Code::NumberTooLarge, arity.at));
    };
    let no = add_free_sort(scope, name.name, count)?;
    Ok(TypedCommand::DeclareSort {
        no,
        name: name.name,
        arity: count,
    })
}

fn is_repeated(names: &[NameId], name: NameId) -> bool
    ensures { result ≡ list_any (λ n. n == name) names.now }
{
    names.iter().any(|other| *other == name)
}

// The names of the parameters, none of them repeated.
fn params_of(alloc: Global, params: &RawSymbols) -> Result<ListOf<NameId>, StepError>
    ensures answer { Answers (judge_params [] params.now) (λ v. tt) result }
    ensures names { IfOk result (λ v. v ≡ map (λ p. p.name) params.now) }
{
    let mut names: ListOf<NameId> = ListOf::new(alloc);
    let mut next = params.split();
    while let Some((first, rest)) = next {
        let name = first.name;
        if is_repeated(names.as_slice(), name) {
            return Err(broken(Code::RepeatedVariable, first.at));
        }
        match names.push(name) {
            Ok(()) => {}
            Err(_) => return Err(StepError::NoMemory),
        }
        next = rest.split();
    }
    Ok(names)
}

// Declares a sort symbol of a defined sort, as `add_function`. It takes no number.
fn add_defined_sort(
    scope: &mut Scope,
    name: NameId,
    params: u32,
    sort: SortRef,
) -> Result<(), StepError>
    requires stands { IsReadyScope scope.old }
    requires logic { IsSome scope.old.logic }
    requires named { name < length scope.old.world.names }
    requires free { is_theory_sort scope.old.world.names scope.old.world.theories name ≡ false }
    requires sort { IsReadySchema scope.old.world.names scope.old.world.sorts params sort }
    ensures effect { let names = scope.old.world.names in
        OnOk result (environment_of names scope.new ≡ with_defined_sort (environment_of names scope.old) name params (tree sort)) }
    ensures error { IfErr result (λ e. e ≡ StepError.NoMemory) }
    ensures names { scope.new.world.names ≡ scope.old.world.names }
    ensures script { scope.new.world.script ≡ scope.old.world.script }
    ensures unnamed { DeclaresNoName scope.old scope.new }
    ensures stands { IsReadyScope scope.new }
{
    let entry = SortEntry::Defined { params, sort };
    match scope.world.scopes.declare_sort(name, entry) {
        Ok(()) => Ok(()),
        Err(_) => Err(StepError::NoMemory),
    }
}

/// Declares a sort symbol of a defined sort.
pub fn define_sort(
    scope: &mut Scope,
    at: u32,
    name: &Tok,
    params: &RawSymbols,
    sort: RawSort,
) -> Result<TypedCommand, StepError>
    requires stands { IsReadyScope scope.old }
    requires logic { IsSome scope.old.logic }
    requires named { name.now.name < length scope.old.world.names }
    ensures answer { let names = scope.old.world.names in
        AnswersParts (environment_of names scope.old) at (command.define_sort name.now params.now sort.entry) result (environment_of names scope.new) }
    ensures names { scope.new.world.names ≡ scope.old.world.names }
    ensures script { scope.new.world.script ≡ scope.old.world.script }
    ensures unnamed { DeclaresNoName scope.old scope.new }
    ensures stands { IsReadyScope scope.new }
{
    if is_sort_in_use(&scope.world, name.name) {
        return Err(broken(Code::SortNameInUse, name.at));
    }
    let params = params_of(scope.alloc, params)?;
    let sort = sort_of(scope, params.as_slice(), sort)?;
    let Ok(count) = u32::try_from(params.as_slice().len()) else {
        return Err(StepError::NoMemory);
    };
    let kept = copy_of(&sort)?;
    add_defined_sort(scope, name.name, count, sort)?;
    Ok(TypedCommand::DefineSort {
        name: name.name,
        params,
        sort: kept,
    })
}

// Whether the value is the symbol `true`.
fn is_true(value: &RawValue) -> bool
    ensures { result ≡ is_true_value value.now }
{
    match value.kind() {
        RawValueKind::Constant(tok) | RawValueKind::Symbol(tok) => tok.name.number() == TRUE,
        RawValueKind::List(_) => false,
    }
}

/// Sets the logic of this name, and with it the theories whose symbols are known. None is set where no logic has the name.
pub fn set_logic(scope: &mut Scope, name: &Tok)
    requires stands { IsReadyScope scope.old }
    requires logic { is_some scope.old.logic ≡ false }
    ensures effect { let env = environment_of scope.old.world.names in
        env scope.new ≡ with_logic (logic_in (env scope.old) name.now) (env scope.old) }
    ensures names { scope.new.world.names ≡ scope.old.world.names }
    ensures script { scope.new.world.script ≡ scope.old.world.script }
    ensures unnamed { DeclaresNoName scope.old scope.new }
    ensures stands { IsReadyScope scope.new }
{
    let logic = logic_of(text_of(&scope.world.names, name.name));
    scope.world.theories = theories_under(&logic);
    scope.logic = logic;
}

// Sets what the option says of declarations, where it speaks of them.
fn set_global(scope: &mut Scope, attribute: &RawAttribute)
    requires stands { IsReadyScope scope.old }
    ensures effect { let names = scope.old.world.names in
        environment_of names scope.new ≡ after_option (environment_of names scope.old) attribute.now }
    ensures names { scope.new.world.names ≡ scope.old.world.names }
    ensures script { scope.new.world.script ≡ scope.old.world.script }
    ensures unnamed { DeclaresNoName scope.old scope.new }
    ensures stands { IsReadyScope scope.new }
{
    if let RawAttributeKind::Valued { keyword, value } = attribute.kind() {
        if keyword.name.number() == GLOBAL_DECLARATIONS {
            scope.world.scopes.set_global(is_true(&value));
        }
    }
}

/// Sets an option, and keeps it with its value.
pub fn set_option(
    scope: &mut Scope,
    at: u32,
    attribute: &RawAttribute,
) -> Result<TypedCommand, StepError>
    requires stands { IsReadyScope scope.old }
    ensures answer { let names = scope.old.world.names in
        AnswersParts (environment_of names scope.old) at (command.set_option attribute.now) result (environment_of names scope.new) }
    ensures names { scope.new.world.names ≡ scope.old.world.names }
    ensures script { scope.new.world.script ≡ scope.old.world.script }
    ensures unnamed { DeclaresNoName scope.old scope.new }
    ensures stands { IsReadyScope scope.new }
{
    let key = attribute_key(attribute).name;
    let value = attribute_value(scope.alloc, attribute)?;
    set_global(scope, attribute);
    Ok(TypedCommand::SetOption { key, value })
}

/// Opens levels.
pub fn push(scope: &mut Scope, at: u32, count: &Tok) -> Result<TypedCommand, StepError>
    requires stands { IsReadyScope scope.old }
    requires logic { IsSome scope.old.logic }
    ensures answer { let names = scope.old.world.names in
        AnswersParts (environment_of names scope.old) at (command.push count.now) result (environment_of names scope.new) }
    ensures names { scope.new.world.names ≡ scope.old.world.names }
    ensures script { scope.new.world.script ≡ scope.old.world.script }
    ensures unnamed { DeclaresNoName scope.old scope.new }
    ensures stands { IsReadyScope scope.new }
{
    let Some(levels) = value_of(&scope.world.names, count) else {
        return Err(StepError::NoMemory);
    };
    match scope.world.scopes.push(levels) {
        Ok(()) => Ok(TypedCommand::Push { count: levels }),
        Err(_) => Err(StepError::NoMemory),
    }
}

/// Closes levels.
pub fn pop(scope: &mut Scope, at: u32, count: &Tok) -> Result<TypedCommand, StepError>
    requires stands { IsReadyScope scope.old }
    requires logic { IsSome scope.old.logic }
    ensures answer { let names = scope.old.world.names in
        AnswersParts (environment_of names scope.old) at (command.pop count.now) result (environment_of names scope.new) }
    ensures names { scope.new.world.names ≡ scope.old.world.names }
    ensures script { scope.new.world.script ≡ scope.old.world.script }
    ensures unnamed { DeclaresNoName scope.old scope.new }
    ensures stands { IsReadyScope scope.new }
{
    let Some(levels) = value_of(&scope.world.names, count) else {
        return Err(StepError::NoMemory);
    };
    match scope.world.scopes.pop(levels) {
        Ok(()) => Ok(TypedCommand::Pop { count: levels }),
        Err(_) => Err(StepError::NoMemory),
    }
}

/// Forgets all but the names, the sorts and terms made so far, the datatypes and definitions by number, and the next number.
pub fn reset(scope: &mut Scope)
    requires stands { IsReadyScope scope.old }
    ensures effect { let names = scope.old.world.names in
        environment_of names scope.new ≡ record start { names = names; datatypes = datatypes_of scope.old.world.script; definitions = plain_defs scope.old.world.script.defs; next = scope.old.next } }
    ensures names { scope.new.world.names ≡ scope.old.world.names }
    ensures script { scope.new.world.script ≡ scope.old.world.script }
    ensures unnamed { DeclaresNoName scope.old scope.new }
    ensures stands { IsReadyScope scope.new }
{
    scope.world.scopes.reset();
    scope.world.theories = core_alone();
    scope.logic = None;
}

/// Forgets what is not global.
pub fn reset_assertions(scope: &mut Scope)
    requires stands { IsReadyScope scope.old }
    requires logic { IsSome scope.old.logic }
    ensures effect { let env = environment_of scope.old.world.names in
        env scope.new ≡ record (env scope.old) { declarations = without_assertions (env scope.old).declarations } }
    ensures names { scope.new.world.names ≡ scope.old.world.names }
    ensures script { scope.new.world.script ≡ scope.old.world.script }
    ensures unnamed { DeclaresNoName scope.old scope.new }
    ensures stands { IsReadyScope scope.new }
{
    scope.world.scopes.reset_assertions();
}

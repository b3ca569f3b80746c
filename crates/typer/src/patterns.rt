//! What a match takes apart: the datatype of its term, and the variables of its patterns (SMT-LIB 2.6, section 3.6.1).
ghost use Rattle.std.specs.Prelude.{◌≡◌, ◌==◌, ◌&&◌, ◌↔◌, ◌∷◌, [], IfErr, IfOk, IfSome, IsTrue, length, map, option_map, slice_get};
ghost use Rattle.std.specs.List.{Contains, zip};
ghost use Rattle.std.specs.Option.{IsSome, option_copied};
ghost use Rattle.sort_store.specs.Instance.{ParamsBelow, inst};
ghost use Rattle.sort_store.specs.Interned.{AllInterned, Grows, HasNoRepeats, InternedTogether, IsInterned};
ghost use Rattle.sort_store.specs.Tree.{tree};
ghost use Rattle.term_store.specs.Command.{PlainField, plain_datatype, plain_field};
ghost use Rattle.term_store.specs.Term as terms;
ghost use Rattle.term_store.specs.Term.{plain_var};
ghost use Rattle.term_store.specs.declared.command.Field.{Field};
ghost use Rattle.typer.specs.Answers.{Answers, pattern_answer, sorts_answer, trees_answer, typed_answer};
ghost use Rattle.typer.specs.FunctionSymbols.{datatypes_of};
ghost use Rattle.typer.specs.MatchRules as spec;
ghost use Rattle.typer.specs.MatchRules.{IsBranchSort, instance_of, judge_small, judge_typed_pattern, pattern_sorts};
ghost use Rattle.typer.specs.Ready.{IsReady, IsReadyDatatype};
ghost use Rattle.typer.specs.TermRules.{judge_covered};
ghost use Rattle.typer.specs.Typed.{AreBound, AreTypedCases, HasGrown, IsTyped, case_trees};

use crate::made::{copy_of, has_few_nodes};
use crate::typed::{TypedCases, TypedPattern, TypedTerm, new_term};
use crate::world::World;
use dt_rules::{TyError, args_of, check_pattern, constructor_named, covers, fault};
use lex_core::NameId;
use sig_table::Code;
use sort_store::{Head, SortError, SortRef, SortStore, same};
use std::alloc::Global;
use term_grammar::RawPattern;
use term_store::{Datatype, Field, ListOf, Pattern, Script, TermNode, TermRef};

// Whether the datatype has this name and as many parameters.
fn has_arity(datatype: &Datatype, name: NameId, count: usize) -> bool
    ensures { result ≡ ((name == datatype.now.name) && (count == length datatype.now.params)) }
{
    name == datatype.name && count == datatype.params.as_slice().len()
}

/// The datatype that the sort is an instance of.
pub(crate) fn datatype_of<'s>(script: &'s Script, sort: &SortRef) -> Option<&'s Datatype>
    ensures { option_map plain_datatype (option_copied result) ≡ option_map (λ i. i.0) (instance_of (datatypes_of script.now) (tree sort.now)) }
{
    let Head::Data { no, name } = sort.head() else {
        return None;
    };
    let datatype = script.defs().datatype(no)?;
    if !has_arity(datatype, name, sort.arg_count()) {
        return None;
    }
    Some(datatype)
}

// The sorts of fields at these values of the parameters of their datatype, in a pattern that begins at a byte.
fn field_sorts(
    sorts: &mut SortStore,
    alloc: Global,
    fields: &[Field],
    values: &[SortRef],
    at: u32,
) -> Result<Vec<SortRef>, TyError>
    requires values { AllInterned sorts.old values.now }
    requires params { (f : Field) → Contains fields.now f → ParamsBelow (length values.now) (tree f.sort) }
    requires distinct { HasNoRepeats sorts.old }
    ensures answer { Answers (trees_answer result) (judge_small at (map (λ (f : PlainField). inst (map tree values.now) f.sort) (map plain_field fields.now))) }
    ensures interned { IfOk result (λ v. AllInterned sorts.new v.items) }
    ensures grows { Grows sorts.old sorts.new }
    ensures distinct { HasNoRepeats sorts.new }
{
    let mut list = Vec::new(alloc);
    for field in fields {
        let sort = match sorts.inst(&field.sort, values) {
            Ok(sort) => sort,
            Err(SortError::TooLarge) => return Err(fault(Code::SortTooLarge, at)),
            Err(SortError::NoMemory) => return Err(TyError::NoMemory),
        };
        has_few_nodes(&sort);
        match list.push(sort) {
            Ok(()) => {}
            Err(_) => return Err(TyError::NoMemory),
        }
    }
    Ok(list)
}

// The sort at a place.
fn sort_at(sorts: &[SortRef], i: usize) -> Option<&SortRef>
    ensures { option_copied result ≡ slice_get sorts.now i }
{
    sorts.get(i)
}

// Each variable with the sort at its place.
fn variables_of(
    alloc: Global,
    names: &[NameId],
    sorts: &[SortRef],
) -> Result<Vec<(NameId, SortRef)>, TyError>
    ensures ok { IfOk result (λ v. v.items ≡ zip names.now sorts.now) }
    ensures err { IfErr result (λ e. e ≡ TyError.NoMemory) }
{
    let mut list = Vec::new(alloc);
    for (i, name) in names.iter().enumerate() {
        let Some(sort) = sort_at(sorts, i) else {
            return Ok(list);
        };
        let sort = copy_of(sort)?;
        match list.push((*name, sort)) {
            Ok(()) => {}
            Err(_) => return Err(TyError::NoMemory),
        }
    }
    Ok(list)
}

// One variable with its sort.
fn one_variable(
    alloc: Global,
    name: NameId,
    sort: &SortRef,
) -> Result<Vec<(NameId, SortRef)>, TyError>
    ensures ok { IfOk result (λ v. v.items ≡ (name, sort.now) ∷ []) }
    ensures err { IfErr result (λ e. e ≡ TyError.NoMemory) }
{
    let mut list = Vec::new(alloc);
    let sort = copy_of(sort)?;
    match list.push((name, sort)) {
        Ok(()) => Ok(list),
        Err(_) => Err(TyError::NoMemory),
    }
}

// The variables of a pattern that the datatype allows, in a match on a term of this sort, which is the datatype at these values.
fn pattern_variables(
    sorts: &mut SortStore,
    alloc: Global,
    datatype: &Datatype,
    values: &[SortRef],
    sort: &SortRef,
    pattern: &Pattern,
    at: u32,
) -> Result<Vec<(NameId, SortRef)>, TyError>
    requires values { AllInterned sorts.old values.now }
    requires sort { IsInterned sorts.old sort.now }
    requires ready { IsReadyDatatype (plain_datatype datatype.now) }
    requires count { length values.now ≡ length datatype.now.params }
    requires distinct { HasNoRepeats sorts.old }
    ensures answer { Answers (sorts_answer (pattern_sorts (plain_datatype datatype.now, map tree values.now) pattern.now) result)
        (judge_small at (pattern_sorts (plain_datatype datatype.now, map tree values.now) pattern.now)) }
    ensures variables { IfOk result (λ v. map plain_var v.items ≡ spec.pattern_variables (plain_datatype datatype.now, map tree values.now) (tree sort.now) pattern.now) }
    ensures interned { IfOk result (λ v. AllInterned sorts.new (map (λ p. p.1) v.items)) }
    ensures grows { Grows sorts.old sorts.new }
    ensures distinct { HasNoRepeats sorts.new }
{
    match pattern {
        Pattern::Var(name) => one_variable(alloc, *name, sort),
        Pattern::Con { name, vars, .. } => {
            let Some(constructor) = constructor_named(datatype, *name) else {
                return Ok(Vec::new(alloc));
            };
            let fields = constructor.fields.as_slice();
            let own = field_sorts(sorts, alloc, fields, values, at)?;
            variables_of(alloc, vars.as_slice(), &own)
        }
    }
}

/// A pattern of a match on a term of this sort, which is an instance of a datatype.
pub(crate) fn typed_pattern(
    world: &mut World,
    sort: &SortRef,
    raw: RawPattern,
) -> Result<TypedPattern, TyError>
    requires ready { IsReady world.old }
    requires sort { IsInterned world.old.sorts sort.now }
    requires instance { IsSome (instance_of (datatypes_of world.old.script) (tree sort.now)) }
    ensures answer { IfSome (instance_of (datatypes_of world.old.script) (tree sort.now)) (λ i. Answers (pattern_answer result) (judge_typed_pattern i raw.entry)) }
    ensures variables { IfSome (instance_of (datatypes_of world.old.script) (tree sort.now))
        (λ i. IfOk result (λ p. map plain_var p.variables.items ≡ spec.pattern_variables i (tree sort.now) p.pattern)) }
    ensures bound { IfOk result (λ p. AreBound world.new p.variables.items) }
    ensures grown { HasGrown world.old world.new }
    ensures ready { IsReady world.new }
{
    let at = raw.at();
    let Some(datatype) = datatype_of(&world.script, sort) else {
        unreachable!();
    };
    let pattern = check_pattern(world.alloc, &world.names, datatype, raw)?;
    let Ok(values) = args_of(world.alloc, sort) else {
        return Err(TyError::NoMemory);
    };
    let variables = pattern_variables(
        &mut world.sorts,
        world.alloc,
        datatype,
        &values,
        sort,
        &pattern,
        at,
    )?;
    Ok(TypedPattern { pattern, variables })
}

/// Whether a branch has the sort of the first one, if there is one before.
pub(crate) fn is_branch_sort(first: &Option<SortRef>, sort: &SortRef) -> bool
    requires { IfSome first.now (λ r. InternedTogether sort.now r) }
    ensures { IsTrue result ↔ IsBranchSort (option_map tree first.now) (tree sort.now) }
{
    match first {
        Some(first) => same(sort, first),
        None => true,
    }
}

// The same names once more.
fn copy_of_names(alloc: Global, names: &[NameId]) -> Result<ListOf<NameId>, TyError>
    ensures ok { IfOk result (λ list. list ≡ names.now) }
    ensures err { IfErr result (λ e. e ≡ TyError.NoMemory) }
{
    let mut copy = ListOf::new(alloc);
    for name in names {
        match copy.push(*name) {
            Ok(()) => {}
            Err(_) => return Err(TyError::NoMemory),
        }
    }
    Ok(copy)
}

// The same pattern once more.
fn copy_of_pattern(alloc: Global, pattern: &Pattern) -> Result<Pattern, TyError>
    ensures ok { IfOk result (λ p. p ≡ pattern.now) }
    ensures err { IfErr result (λ e. e ≡ TyError.NoMemory) }
{
    match pattern {
        Pattern::Var(name) => Ok(Pattern::Var(*name)),
        Pattern::Con { no, name, vars } => {
            let vars = copy_of_names(alloc, vars.as_slice())?;
            Ok(Pattern::Con {
                no: *no,
                name: *name,
                vars,
            })
        }
    }
}

// The patterns of cases.
fn patterns_of(alloc: Global, cases: &[(Pattern, TermRef)]) -> Result<Vec<Pattern>, TyError>
    ensures ok { IfOk result (λ v. v.items ≡ map (λ c. c.0) cases.now) }
    ensures err { IfErr result (λ e. e ≡ TyError.NoMemory) }
{
    let mut patterns = Vec::new(alloc);
    for case in cases {
        let pattern = copy_of_pattern(alloc, &case.0)?;
        match patterns.push(pattern) {
            Ok(()) => {}
            Err(_) => return Err(TyError::NoMemory),
        }
    }
    Ok(patterns)
}

/// A match on this term, whose sort is an instance of a datatype, with these cases, which have to cover the datatype.
pub(crate) fn covered_match(
    world: &mut World,
    at: u32,
    of: TypedTerm,
    cases: TypedCases,
) -> Result<TypedTerm, TyError>
    requires ready { IsReady world.old }
    requires of { IsTyped world.old of }
    requires cases { AreTypedCases world.old cases }
    requires instance { IsSome (instance_of (datatypes_of world.old.script) (tree of.sort)) }
    ensures answer { IfSome (instance_of (datatypes_of world.old.script) (tree of.sort))
        (λ i. Answers (typed_answer result) (judge_covered at i.0 (terms.tree of.term) (case_trees cases))) }
    ensures typed { IfOk result (IsTyped world.new) }
    ensures grown { HasGrown world.old world.new }
    ensures ready { IsReady world.new }
{
    let Some(datatype) = datatype_of(&world.script, &of.sort) else {
        unreachable!();
    };
    let TypedCases { cases, sort } = cases;
    let patterns = patterns_of(world.alloc, &cases)?;
    if !covers(datatype, &patterns) {
        return Err(fault(Code::UncoveredConstructor, at));
    }
    // A match has a case, but the type of the list does not tell.
    let Some(sort) = sort else {
        return Err(fault(Code::WrongTermForm, at));
    };
    let node = TermNode::Match { of: of.term, cases };
    new_term(world, node, sort)
}

//! The result sorts that the ranks of live function symbols give.
ghost use Rattle.std.specs.Prelude.{◌≡◌, ◌<◌, ◌↔◌, ℕ, List, IfErr, IfOk, IfSome, IsTrue, None, Some, length, map, option_map, replicate};
ghost use Rattle.sort_store.specs.Binding.{Agrees, FittedEach, HasValue, ValuesInterned};
ghost use Rattle.sort_store.specs.Instance.{EachParamsBelow, ParamsBelow};
ghost use Rattle.sort_store.specs.Interned.{IsInterned, AllInterned, HasNoRepeats, Grows, InternedTogether};
ghost use Rattle.sort_store.specs.Tree.{NumberedSort, Sort, nodes, sorts, tree, trees};
ghost use Rattle.typer.specs.Answers.{Answers, tree_answer};
ghost use Rattle.typer.specs.Declarations.{fun_declaration};
ghost use Rattle.typer.specs.LiveRanks as spec;
ghost use Rattle.typer.specs.LiveRanks.{AllInternedTogether, IsReadyEntry, judge_live};

use crate::made::{copy_of, has_few_nodes};
use dt_rules::{TyError, fault};
use scope_stack::FunEntry;
use sig_table::Code;
use sort_store::{Binding, SortError, SortRef, SortStore, param, same};
use std::alloc::Global;

// Whether the parameter stands in the sort.
#[tactic(auto, using(crate::proofs::Occurrences::occurs_words))]
fn occurs(i: u32, sort: &SortRef) -> bool
    ensures { result ≡ spec.occurs_in i (tree sort.now) }
{
    if let Some(j) = param(sort.head()) {
        return i == j;
    }
    for k in 0..sort.arg_count() {
        if let Some(arg) = sort.arg(k) {
            if occurs(i, arg) {
                return true;
            }
        }
    }
    false
}

// Whether the parameter stands in one of the sorts.
#[tactic(auto, using(crate::proofs::Occurrences::occurs_list_words))]
fn occurs_in_some(i: u32, some: &[SortRef]) -> bool
    ensures { result ≡ spec.occurs_in_some i (sorts (map tree some.now)) }
{
    for sort in some {
        if occurs(i, sort) {
            return true;
        }
    }
    false
}

/// Whether the arguments of the function symbol don't give all parameters of its declaration.
#[tactic(auto, using(crate::proofs::Occurrences::lacks_words))]
pub(crate) fn is_ambiguous(entry: &FunEntry) -> bool
    ensures { result ≡ spec.is_ambiguous (fun_declaration entry.now) }
{
    for i in 0..entry.params {
        if !occurs_in_some(i, entry.args.as_slice()) {
            return true;
        }
    }
    false
}

// Whether the sorts of two lists of one store are the same, one by one.
#[tactic(auto, using(crate::proofs::SameSorts::together_words))]
fn are_same(a: &[SortRef], b: &[SortRef]) -> bool
    requires { AllInternedTogether a.now b.now }
    ensures { IsTrue result ↔ (map tree a.now ≡ map tree b.now) }
{
    if a.len() != b.len() {
        return false;
    }
    for (i, x) in a.iter().enumerate() {
        if !same(x, &b[i]) {
            return false;
        }
    }
    true
}

// The values of all parameters of a binding.
#[tactic(auto, using(crate::proofs::ValueLists::value_words))]
fn values_of(alloc: Global, binding: &Binding, count: u32) -> Result<Vec<SortRef>, TyError>
    requires count { length binding.now ≡ count }
    requires bound { (i : ℕ) → i < count → HasValue binding.now i }
    ensures agree { IfOk result (λ v. Agrees binding.now (map tree v.items)) }
    ensures interned { IfOk result (λ v. (store : List Sort) → ValuesInterned store binding.now → AllInterned store v.items) }
    ensures err { IfErr result (λ e. e ≡ TyError.NoMemory) }
{
    let mut values = Vec::new(alloc);
    for i in 0..count {
        if let Some(value) = binding.get(i as usize) {
            let value = copy_of(value)?;
            match values.push(value) {
                Ok(()) => {}
                Err(_) => return Err(TyError::NoMemory),
            }
        }
    }
    Ok(values)
}

// The result sort of a function symbol without parameters.
fn closed_sort(
    entry: &FunEntry,
    at: u32,
    args: &[SortRef],
    asked: &Option<SortRef>,
) -> Result<SortRef, TyError>
    requires closed { entry.now.params ≡ 0 }
    requires together { AllInternedTogether args.now entry.now.args }
    requires asked { IfSome asked.now (λ r. InternedTogether r entry.now.result) }
    ensures answer { Answers (tree_answer result) (judge_live (fun_declaration entry.now) at (map tree args.now) (option_map tree asked.now)) }
    ensures result { IfOk result (λ r. r ≡ entry.now.result) }
{
    has_few_nodes(&entry.result);
    if !are_same(args, entry.args.as_slice()) {
        return Err(fault(Code::NoRank, at));
    }
    match asked {
        None => copy_of(&entry.result),
        Some(asked) => {
            if !same(asked, &entry.result) {
                return Err(fault(Code::WrongQualifiedSort, at));
            }
            copy_of(&entry.result)
        }
    }
}

// The result sort of a function symbol whose arguments gave its parameters these values, where no sort is asked for.
fn instance_sort(
    sorts: &mut SortStore,
    alloc: Global,
    entry: &FunEntry,
    at: u32,
    binding: &Binding,
) -> Result<SortRef, TyError>
    requires count { length binding.now ≡ entry.now.params }
    requires params { ParamsBelow entry.now.params (tree entry.now.result) }
    requires interned { ValuesInterned sorts.old binding.now }
    requires distinct { HasNoRepeats sorts.old }
    requires fitted { (args : List NumberedSort) × FittedEach (replicate entry.now.params None) binding.now (map tree entry.now.args) args }
    ensures answer { (args : List NumberedSort) → FittedEach (replicate entry.now.params None) binding.now (map tree entry.now.args) args
        → Answers (tree_answer result) (judge_live (fun_declaration entry.now) at (map tree args) None) }
    ensures interned { IfOk result (λ r. IsInterned sorts.new r) }
    ensures grows { Grows sorts.old sorts.new }
    ensures distinct { HasNoRepeats sorts.new }
{
    if is_ambiguous(entry) {
        return Err(fault(Code::AmbiguousConstructor, at));
    }
    let values = values_of(alloc, binding, entry.params)?;
    match sorts.inst(&entry.result, &values) {
        Ok(sort) => Ok(sort),
        Err(SortError::TooLarge) => Err(fault(Code::SortTooLarge, at)),
        Err(SortError::NoMemory) => Err(TyError::NoMemory),
    }
}

// The result sort of a function symbol whose arguments gave its parameters these values, where this sort is asked for.
fn asked_sort(
    sorts: &SortStore,
    entry: &FunEntry,
    at: u32,
    binding: &mut Binding,
    asked: &SortRef,
) -> Result<SortRef, TyError>
    requires params { ParamsBelow (length binding.old) (tree entry.now.result) }
    ensures answer { (args : List NumberedSort) → FittedEach (replicate entry.now.params None) binding.old (map tree entry.now.args) args
        → Answers (tree_answer result) (judge_live (fun_declaration entry.now) at (map tree args) (Some (tree asked.now))) }
    ensures result { IfOk result (λ r. r ≡ asked.now) }
{
    match sorts.fits(&entry.result, asked, binding) {
        Ok(true) => {}
        Ok(false) => return Err(fault(Code::WrongQualifiedSort, at)),
        Err(_) => return Err(TyError::NoMemory),
    }
    copy_of(asked)
}

// The result sort of a function symbol with parameters.
fn schema_sort(
    sorts: &mut SortStore,
    alloc: Global,
    entry: &FunEntry,
    at: u32,
    args: &[SortRef],
    asked: &Option<SortRef>,
) -> Result<SortRef, TyError>
    requires ready { IsReadyEntry sorts.old entry.now }
    requires below { EachParamsBelow entry.now.params (trees (nodes entry.now.args)) × ParamsBelow entry.now.params (tree entry.now.result) }
    requires args { AllInterned sorts.old args.now }
    requires asked { IfSome asked.now (IsInterned sorts.old) }
    requires distinct { HasNoRepeats sorts.old }
    ensures answer { Answers (tree_answer result) (judge_live (fun_declaration entry.now) at (map tree args.now) (option_map tree asked.now)) }
    ensures interned { IfOk result (λ r. IsInterned sorts.new r) }
    ensures grows { Grows sorts.old sorts.new }
    ensures distinct { HasNoRepeats sorts.new }
{
    let Ok(mut binding) = Binding::new(alloc, entry.params as usize) else {
        return Err(TyError::NoMemory);
    };
    match sorts.fits_each(entry.args.as_slice(), args, &mut binding) {
        Ok(true) => {}
        Ok(false) => return Err(fault(Code::NoRank, at)),
        Err(_) => return Err(TyError::NoMemory),
    }
    match asked {
        Some(asked) => asked_sort(sorts, entry, at, &mut binding, asked),
        None => instance_sort(sorts, alloc, entry, at, &binding),
    }
}

/// The result sort of a live function symbol with these argument sorts, in a term that begins at a byte. The sort that is
/// asked for is that of `as`.
pub(crate) fn live_sort(
    sorts: &mut SortStore,
    alloc: Global,
    entry: &FunEntry,
    at: u32,
    args: &[SortRef],
    asked: &Option<SortRef>,
) -> Result<SortRef, TyError>
    requires ready { IsReadyEntry sorts.old entry.now }
    requires args { AllInterned sorts.old args.now }
    requires asked { IfSome asked.now (IsInterned sorts.old) }
    requires distinct { HasNoRepeats sorts.old }
    ensures answer { Answers (tree_answer result) (judge_live (fun_declaration entry.now) at (map tree args.now) (option_map tree asked.now)) }
    ensures interned { IfOk result (λ r. IsInterned sorts.new r) }
    ensures grows { Grows sorts.old sorts.new }
    ensures distinct { HasNoRepeats sorts.new }
{
    if entry.params == 0 {
        return closed_sort(entry, at, args, asked);
    }
    schema_sort(sorts, alloc, entry, at, args, asked)
}

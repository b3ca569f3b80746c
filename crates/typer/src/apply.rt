//! Sorts of a sort symbol and arguments whose sorts are known.
ghost use Rattle.std.specs.Prelude.{◌≡◌, ◌↔◌, IfOk, IsTrue, length, map};
ghost use Rattle.sort_store.specs.Instance.{ParamsBelow};
ghost use Rattle.sort_store.specs.Interned.{IsInterned, AllInterned, HasNoRepeats, Grows};
ghost use Rattle.sort_store.specs.Tree.{tree};
ghost use Rattle.typer.specs.Answers.{Answers, tree_answer, fault_of_store};
ghost use Rattle.typer.specs.SortRules.{judge_symbol, judge_definition};

use crate::symbol::has_captured;
use dt_rules::{TyError, fault};
use lex_core::{NameId, Names};
use sig_table::Code;
use sort_store::{Head, SortError, SortRef, SortStore};

// Whether there are as many arguments as the arity.
fn has_arity(args: &[SortRef], arity: u32) -> bool
    ensures { IsTrue result ↔ (length args.now ≡ arity) }
{
    args.len() == arity as usize
}

// Why the store did not make a sort that begins at a byte.
fn not_made(error: SortError, at: u32) -> TyError
    ensures { result ≡ fault_of_store error at }
{
    match error {
        SortError::TooLarge => fault(Code::SortTooLarge, at),
        SortError::NoMemory => TyError::NoMemory,
    }
}

/// The sort of a sort symbol with its arguments, which begins at a byte.
pub(crate) fn symbol_sort(
    sorts: &mut SortStore,
    at: u32,
    args: &[SortRef],
    head: Head,
    arity: u32,
) -> Result<SortRef, TyError>
    requires interned { AllInterned sorts.old args.now }
    requires distinct { HasNoRepeats sorts.old }
    ensures answer { Answers (tree_answer result) (judge_symbol at (map tree args.now) head arity) }
    ensures interned { IfOk result (λ r. IsInterned sorts.new r) }
    ensures grows { Grows sorts.old sorts.new }
    ensures distinct { HasNoRepeats sorts.new }
{
    if !has_arity(args, arity) {
        return Err(fault(Code::WrongSortArity, at));
    }
    match sorts.make(head, args) {
        Ok(sort) => Ok(sort),
        Err(error) => Err(not_made(error, at)),
    }
}

/// The sort of a defined sort with its arguments, which begins at a byte.
pub(crate) fn definition_sort(
    sorts: &mut SortStore,
    names: &Names,
    params: &[NameId],
    at: u32,
    args: &[SortRef],
    arity: u32,
    body: &SortRef,
) -> Result<SortRef, TyError>
    requires interned { AllInterned sorts.old args.now }
    requires distinct { HasNoRepeats sorts.old }
    requires params { ParamsBelow arity (tree body.now) }
    ensures answer { Answers (tree_answer result)
        (judge_definition names.now params.now at (map tree args.now) arity (tree body.now)) }
    ensures interned { IfOk result (λ r. IsInterned sorts.new r) }
    ensures grows { Grows sorts.old sorts.new }
    ensures distinct { HasNoRepeats sorts.new }
{
    if !has_arity(args, arity) {
        return Err(fault(Code::WrongSortArity, at));
    }
    match sorts.inst(body, args) {
        Ok(sort) => {
            if has_captured(names, params, &sort) {
                return Err(fault(Code::CapturedSortParameter, at));
            }
            Ok(sort)
        }
        Err(error) => Err(not_made(error, at)),
    }
}

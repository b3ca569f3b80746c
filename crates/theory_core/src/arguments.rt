//! Tests of the argument sorts of an application.
ghost use Rattle.std.specs.Prelude.{◌↔◌, IsTrue, map};
ghost use Rattle.sort_store.specs.Tree.{tree};
ghost use Rattle.theory_core.specs.Arguments.{basic_sort, AllAre, AllSame};
ghost use Rattle.theory_core.specs.Interned.{AreInternedTogether};
ghost use Rattle.theory_core.specs.Kinds.{Fits};
ghost use Rattle.theory_core.specs.declared.kind.SymbolKind.TheVariants.{Conditional, Select, Store};

use crate::sorts::{BasicSort, has_argument, is_array, is_basic};
use sort_store::{SortRef, same};

/// Whether each argument sort is the basic one.
#[tactic(auto, using(crate::proofs::ArgumentTests::all_words))]
pub(crate) fn are_all(args: &[SortRef], basic: BasicSort) -> bool
    ensures { IsTrue result ↔ AllAre (basic_sort basic) (map tree args.now) }
{
    for arg in args {
        if !is_basic(arg, basic) {
            return false;
        }
    }
    true
}

/// Whether the argument sorts are all the same.
#[tactic(auto, using(crate::proofs::ArgumentTests::same_words))]
pub(crate) fn are_same(args: &[SortRef]) -> bool
    requires { AreInternedTogether args.now }
    ensures { IsTrue result ↔ AllSame (map tree args.now) }
{
    for arg in args {
        if !same(arg, &args[0]) {
            return false;
        }
    }
    true
}

/// Whether the arguments are a condition and two terms of one sort.
#[tactic(auto, using(crate::proofs::ArgumentTests::conditional_words))]
pub(crate) fn is_conditional(args: &[SortRef]) -> bool
    requires { AreInternedTogether args.now }
    ensures { IsTrue result ↔ Fits Conditional (map tree args.now) }
{
    match args {
        [condition, first, second] => is_basic(condition, BasicSort::Bool) && same(first, second),
        _ => false,
    }
}

/// Whether the arguments are an array and an index of it.
#[tactic(auto, using(crate::proofs::ArgumentTests::together_at))]
pub(crate) fn is_select(args: &[SortRef]) -> bool
    requires { AreInternedTogether args.now }
    ensures { IsTrue result ↔ Fits Select (map tree args.now) }
{
    match args {
        [array, index] => is_array(array) && has_argument(array, 0, index),
        _ => false,
    }
}

/// Whether the arguments are an array, an index of it and an element of it.
#[tactic(auto, using(crate::proofs::ArgumentTests::together_at))]
pub(crate) fn is_store(args: &[SortRef]) -> bool
    requires { AreInternedTogether args.now }
    ensures { IsTrue result ↔ Fits Store (map tree args.now) }
{
    match args {
        [array, index, element] => {
            is_array(array) && has_argument(array, 0, index) && has_argument(array, 1, element)
        }
        _ => false,
    }
}

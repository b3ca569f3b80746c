//! Tests of one sort, and of two sorts of one store.
ghost use Rattle.std.specs.Prelude.{◌≡◌, ◌↔◌, IsTrue, Some, slice_get};
ghost use Rattle.sort_store.specs.Interned.{InternedTogether};
ghost use Rattle.sort_store.specs.Tree.{tree, sort, no_sorts};
ghost use Rattle.theory_core.specs.Arguments.{basic_sort, IsArray, arguments_of};

use sort_store::{Head, SortRef, same};

/// A sort that is a sort symbol of a theory alone.
#[derive(Clone, Copy, Debug, PartialEq, Eq)]
pub(crate) enum BasicSort {
    Bool,
    Int,
}

impl BasicSort {
    fn head(self) -> Head
        ensures { sort result no_sorts ≡ basic_sort self }
    {
        match self {
            BasicSort::Bool => Head::Bool,
            BasicSort::Int => Head::Int,
        }
    }
}

/// Whether the sort is the basic one.
#[tactic(auto, using(crate::proofs::SortTests::basic_words))]
pub(crate) fn is_basic(sort: &SortRef, basic: BasicSort) -> bool
    ensures { IsTrue result ↔ (tree sort.now ≡ basic_sort basic) }
{
    sort.arg_count() == 0 && sort.head() == basic.head()
}

/// Whether the sort is an array sort.
#[tactic(auto, using(crate::proofs::SortTests::array_words))]
pub(crate) fn is_array(sort: &SortRef) -> bool
    ensures { IsTrue result ↔ IsArray (tree sort.now) }
{
    sort.arg_count() == 2 && sort.head() == Head::Array
}

/// Whether the i-th argument of the sort's symbol is the other sort.
#[tactic(auto, using(crate::proofs::SortTests::argument_words))]
pub(crate) fn has_argument(sort: &SortRef, i: usize, other: &SortRef) -> bool
    requires { InternedTogether sort.now other.now }
    ensures { IsTrue result ↔ (slice_get (arguments_of (tree sort.now)) i ≡ Some (tree other.now)) }
{
    match sort.arg(i) {
        Some(argument) => same(argument, other),
        None => false,
    }
}

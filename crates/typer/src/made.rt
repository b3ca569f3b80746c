//! Sorts that a store made.
ghost use Rattle.std.specs.Prelude.{◌≡◌, ◌≤◌, IfErr, IfOk};
ghost use Rattle.sort_store.specs.Interned.{IsInterned, HasNoRepeats, Grows};
ghost use Rattle.sort_store.specs.Tree.{node_count, tree, sort, no_sorts};

use dt_rules::TyError;
use sort_store::{Head, SortRef, SortStore};

/// What a store promises of each sort.
pub(crate) fn has_few_nodes(sort: &SortRef)
    ensures { node_count (tree sort.now) ≤ 1000 }
{
    sort.node_count();
}

/// The same sort once more.
pub(crate) fn copy_of(sort: &SortRef) -> Result<SortRef, TyError>
    ensures ok { IfOk result (λ r. r ≡ sort.now) }
    ensures err { IfErr result (λ e. e ≡ TyError.NoMemory) }
{
    match sort.clone() {
        Ok(sort) => Ok(sort),
        Err(_) => Err(TyError::NoMemory),
    }
}

/// A sort without arguments.
pub(crate) fn constant_sort(sorts: &mut SortStore, head: Head) -> Result<SortRef, TyError>
    requires { HasNoRepeats sorts.old }
    ensures tree { IfOk result (λ r. tree r ≡ sort head no_sorts) }
    ensures interned { IfOk result (λ r. IsInterned sorts.new r) }
    ensures grows { Grows sorts.old sorts.new }
    ensures distinct { HasNoRepeats sorts.new }
    ensures err { IfErr result (λ e. e ≡ TyError.NoMemory) }
{
    match sorts.make(head, &[]) {
        Ok(sort) => Ok(sort),
        Err(_) => Err(TyError::NoMemory),
    }
}

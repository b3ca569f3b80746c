//! Whether a group of datatypes may be declared.
ghost use Rattle.std.specs.Prelude.{IfNone, IfOk, IfSome, length, map};
ghost use Rattle.sort_store.specs.Interned.{Grows, HasNoRepeats};
ghost use Rattle.sort_store.specs.Tree.{tree};
ghost use Rattle.term_store.specs.Command.{plain_datatype};
ghost use Rattle.dt_rules.specs.Groups.{known, IsReadyGroup};
ghost use Rattle.dt_rules.specs.Judgement.{IsFirstListed, Judges, NoneListed};

use crate::error::DtError;
use crate::group::{is_listed, own_sort, unfold};
use crate::settled::settle;
use sort_store::{SortError, SortRef, SortStore};
use std::alloc::Global;
use term_store::{Datatype, Defs};

// The place of the first datatype of the group whose own sort is in the list.
fn first_listed(
    alloc: Global,
    sorts: &mut SortStore,
    group: &[Datatype],
    unsettled: &[SortRef],
) -> Result<Option<usize>, SortError>
    ensures found { IfOk result (λ o. IfSome o (IsFirstListed (map plain_datatype group.now) (map tree unsettled.now))) }
    ensures none { IfOk result (λ o. IfNone o (NoneListed (map plain_datatype group.now) (map tree unsettled.now) (length group.now))) }
    ensures grows { Grows sorts.old sorts.new }
    ensures distinct { HasNoRepeats sorts.old → HasNoRepeats sorts.new }
{
    for i in 0..group.len() {
        let own = match own_sort(alloc, sorts, &group[i]) {
            Ok(own) => own,
            Err(error) => return Err(error),
        };
        if is_listed(unsettled, &own) {
            return Ok(Some(i));
        }
    }
    Ok(None)
}

/// Whether the group may be declared (SMT-LIB 2.6, section 4.2.3). The errors are, in this order,
/// that the unfolding of the group has more than 2,000 sorts or one of more than 1,000 nodes, and the
/// first datatype of the group that is not settled; and that memory runs out. The store of sorts
/// only grows, also before an error.
pub fn check_group(
    alloc: Global,
    sorts: &mut SortStore,
    defs: &Defs,
    group: &[Datatype],
) -> Result<(), DtError>
    requires ready { IsReadyGroup (map plain_datatype defs.now.datatypes) (map plain_datatype group.now) }
    requires distinct { HasNoRepeats sorts.old }
    ensures answer { Judges result (known (map plain_datatype defs.now.datatypes) (map plain_datatype group.now)) (map plain_datatype group.now) }
    ensures grows { Grows sorts.old sorts.new }
    ensures distinct { HasNoRepeats sorts.new }
{
    let members = match unfold(alloc, sorts, defs, group) {
        Ok(members) => members,
        Err(error) => return Err(error),
    };
    // The sorts of the fields were made before, so none is too large now.
    let unsettled = match settle(alloc, sorts, defs, group, members) {
        Ok(unsettled) => unsettled,
        Err(_) => return Err(DtError::NoMemory),
    };
    match first_listed(alloc, sorts, group, &unsettled) {
        Ok(None) => Ok(()),
        Ok(Some(i)) => Err(DtError::NotSettled(i)),
        Err(_) => Err(DtError::NoMemory),
    }
}

//! Which members of an unfolding are settled.
ghost use Rattle.std.specs.Prelude.{List, ◌≡◌, ◌↔◌, IfNone, IfOk, IfSome, IsTrue, length, map, slice_get};
ghost use Rattle.std.specs.List.{Contains};
ghost use Rattle.std.specs.Option.{option_copied};
ghost use Rattle.sort_store.specs.Instance.{ParamsBelow};
ghost use Rattle.sort_store.specs.Interned.{IsInterned, AllInterned, HasNoRepeats, Grows};
ghost use Rattle.sort_store.specs.Tree.{Sort, tree};
ghost use Rattle.term_store.specs.Command.{PlainConstructor, PlainField, plain_constructor, plain_datatype, plain_field};
ghost use Rattle.dt_rules.specs.Groups.{known, IsReadyGroup};
ghost use Rattle.dt_rules.specs.Unfolding.{IsMember};
ghost use Rattle.dt_rules.specs.Settling.{HasConstructorWithout, HasElementWithout, HasNoFieldSort, HasUnsettled, NoneSettles, Settles, SettlesAt};
ghost use Rattle.dt_rules.specs.Worklist.{IsUnfolding};

use crate::group::{args_of, datatype_with, is_listed, mentions};
use sort_store::{Head, SortError, SortRef, SortStore};
use std::alloc::Global;
use term_store::{Constructor, Datatype, Defs, Field};

// Whether no sort of a field is unsettled, with these arguments of its datatype.
fn are_apart(
    sorts: &mut SortStore,
    fields: &[Field],
    args: &[SortRef],
    unsettled: &[SortRef],
) -> Result<bool, SortError>
    requires args { AllInterned sorts.old args.now }
    requires params { (f : PlainField) → Contains (map plain_field fields.now) f → ParamsBelow (length args.now) f.sort }
    ensures none { IfOk result (λ b. IsTrue b ↔ HasNoFieldSort (map plain_field fields.now) (map tree args.now) (map tree unsettled.now)) }
    ensures grows { Grows sorts.old sorts.new }
    ensures distinct { HasNoRepeats sorts.old → HasNoRepeats sorts.new }
{
    for field in fields {
        let sort = match sorts.inst(&field.sort, args) {
            Ok(sort) => sort,
            Err(error) => return Err(error),
        };
        if is_listed(unsettled, &sort) {
            return Ok(false);
        }
    }
    Ok(true)
}

// Whether one of the constructors has no field whose sort is unsettled.
fn has_settled(
    sorts: &mut SortStore,
    constructors: &[Constructor],
    args: &[SortRef],
    unsettled: &[SortRef],
) -> Result<bool, SortError>
    requires args { AllInterned sorts.old args.now }
    requires params { (c : PlainConstructor) (f : PlainField) → Contains (map plain_constructor constructors.now) c → Contains c.fields f → ParamsBelow (length args.now) f.sort }
    ensures some { IfOk result (λ b. IsTrue b ↔ HasConstructorWithout (map plain_constructor constructors.now) (map tree args.now) (map tree unsettled.now)) }
    ensures grows { Grows sorts.old sorts.new }
    ensures distinct { HasNoRepeats sorts.old → HasNoRepeats sorts.new }
{
    for constructor in constructors {
        match are_apart(sorts, constructor.fields.as_slice(), args, unsettled) {
            Ok(true) => return Ok(true),
            Ok(false) => {}
            Err(error) => return Err(error),
        }
    }
    Ok(false)
}

// `items.get(i)`, with its answer as one equation.
fn item_at(items: &[SortRef], i: usize) -> Option<&SortRef>
    ensures { option_copied result ≡ slice_get items.now i }
{
    items.get(i)
}

// Whether the element sort of an array with these arguments is settled.
fn has_settled_element(args: &[SortRef], unsettled: &[SortRef]) -> bool
    ensures { IsTrue result ↔ HasElementWithout (map tree args.now) (map tree unsettled.now) }
{
    match item_at(args, 1) {
        Some(element) => !is_listed(unsettled, element),
        None => false,
    }
}

// Whether a member is settled where those not in the list are.
fn settles(
    alloc: Global,
    sorts: &mut SortStore,
    defs: &Defs,
    group: &[Datatype],
    sort: &SortRef,
    unsettled: &[SortRef],
) -> Result<bool, SortError>
    requires ready { IsReadyGroup (map plain_datatype defs.now.datatypes) (map plain_datatype group.now) }
    requires interned { IsInterned sorts.old sort.now }
    requires member { IsMember (known (map plain_datatype defs.now.datatypes) (map plain_datatype group.now)) (map plain_datatype group.now) (tree sort.now) }
    ensures settles { IfOk result (λ b. IsTrue b ↔ Settles (known (map plain_datatype defs.now.datatypes) (map plain_datatype group.now)) (map plain_datatype group.now) sort.now (map tree unsettled.now)) }
    ensures grows { Grows sorts.old sorts.new }
    ensures distinct { HasNoRepeats sorts.old → HasNoRepeats sorts.new }
{
    if !mentions(group, sort) {
        return Ok(true);
    }
    let Ok(args) = args_of(alloc, sort) else {
        return Err(SortError::NoMemory);
    };
    match sort.head() {
        Head::Free { .. } => Ok(true),
        Head::Array => Ok(has_settled_element(&args, unsettled)),
        Head::Data { no, .. } => match datatype_with(defs, group, no) {
            Some(datatype) => {
                has_settled(sorts, datatype.constructors.as_slice(), &args, unsettled)
            }
            None => Ok(false),
        },
        _ => Ok(false),
    }
}

// The place of a member that is settled where those not in the list are, if there is one in the list.
fn settling(
    alloc: Global,
    sorts: &mut SortStore,
    defs: &Defs,
    group: &[Datatype],
    unsettled: &[SortRef],
) -> Result<Option<usize>, SortError>
    requires ready { IsReadyGroup (map plain_datatype defs.now.datatypes) (map plain_datatype group.now) }
    requires interned { AllInterned sorts.old unsettled.now }
    requires members { (s : Sort) → Contains (map tree unsettled.now) s → IsMember (known (map plain_datatype defs.now.datatypes) (map plain_datatype group.now)) (map plain_datatype group.now) s }
    ensures found { IfOk result (λ o. IfSome o (SettlesAt (known (map plain_datatype defs.now.datatypes) (map plain_datatype group.now)) (map plain_datatype group.now) unsettled.now)) }
    ensures none { IfOk result (λ o. IfNone o (NoneSettles (known (map plain_datatype defs.now.datatypes) (map plain_datatype group.now)) (map plain_datatype group.now) unsettled.now)) }
    ensures grows { Grows sorts.old sorts.new }
    ensures distinct { HasNoRepeats sorts.old → HasNoRepeats sorts.new }
{
    for i in 0..unsettled.len() {
        match settles(alloc, sorts, defs, group, &unsettled[i], unsettled) {
            Ok(true) => return Ok(Some(i)),
            Ok(false) => {}
            Err(error) => return Err(error),
        }
    }
    Ok(None)
}

// The members of the unfolding that are not settled.
pub(crate) fn settle(
    alloc: Global,
    sorts: &mut SortStore,
    defs: &Defs,
    group: &[Datatype],
    members: Vec<SortRef>,
) -> Result<Vec<SortRef>, SortError>
    requires ready { IsReadyGroup (map plain_datatype defs.now.datatypes) (map plain_datatype group.now) }
    requires unfolding { IsUnfolding (known (map plain_datatype defs.now.datatypes) (map plain_datatype group.now)) (map plain_datatype group.now) sorts.old members.items }
    ensures unsettled { IfOk result (λ v. HasUnsettled (known (map plain_datatype defs.now.datatypes) (map plain_datatype group.now)) (map plain_datatype group.now) (map tree v.items)) }
    ensures grows { Grows sorts.old sorts.new }
    ensures distinct { HasNoRepeats sorts.old → HasNoRepeats sorts.new }
{
    let mut unsettled = members;
    let mut next = match settling(alloc, sorts, defs, group, &unsettled) {
        Ok(first) => first,
        Err(error) => return Err(error),
    };
    while let Some(i) = next {
        let _settled = unsettled.remove(i);
        next = match settling(alloc, sorts, defs, group, &unsettled) {
            Ok(further) => further,
            Err(error) => return Err(error),
        };
    }
    Ok(unsettled)
}

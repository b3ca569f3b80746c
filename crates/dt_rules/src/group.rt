//! The datatypes of a group, and the sorts that mention them.
ghost use Rattle.std.specs.Prelude.{List, ◌≡◌, ◌≤◌, ◌↔◌, ◌<◌, ◌+◌, ℕ, nat_eq, IfErr, IfOk, OnOk, IsTrue, IsErrOf, Err, Some, length, map, option_map, slice_get};
ghost use Rattle.std.specs.List.{Contains, list_any};
ghost use Rattle.std.specs.Option.{option_copied};
ghost use Rattle.sort_store.specs.Interned.{IsInterned, AllInterned, HasNoRepeats, Grows};
ghost use Rattle.sort_store.specs.Tree.{Sort, tree, parts, node_count};
ghost use Rattle.dt_rules.specs.declared.error.DtError.{DtError};
ghost use Rattle.sort_store.specs.Instance.{inst, ParamsBelow};
ghost use Rattle.dt_rules.specs.Groups.{is_of_group as head_is_of_group, known, mentions as sort_mentions, numbered, own_sort as own_sort_of, param_sorts, IsConstructorFieldSort, IsFieldSort, IsOwnSort, IsReadyGroup};
ghost use Rattle.term_store.specs.Command.{PlainConstructor, PlainDatatype, PlainField, plain_constructor, plain_datatype, plain_field};
ghost use Rattle.sort_store.specs.declared.error.SortError.{SortError};
ghost use Rattle.dt_rules.specs.Unfolding.{IsAddedBy, IsMember};
ghost use Rattle.dt_rules.specs.Worklist.{AreMembers, Gains, HasAdded, Unfolds};

use crate::error::DtError;
use sort_store::{DeclNo, Head, MAX_NODES, SortError, SortRef, SortStore, same_tree};
use std::alloc::{AllocError, Global};
use term_store::{Constructor, Datatype, Defs, Field};

// Whether a datatype of the group has this number.
fn has_number(group: &[Datatype], no: DeclNo) -> bool
    ensures { result ≡ list_any (λ t. nat_eq t.no.0 no.0) group.now }
{
    group.iter().any(|datatype| datatype.no.0 == no.0)
}

// Whether the sort symbol is a datatype of the group.
fn is_of_group(group: &[Datatype], head: Head) -> bool
    ensures { result ≡ head_is_of_group (map plain_datatype group.now) head }
{
    match head {
        Head::Data { no, .. } => has_number(group, no),
        _ => false,
    }
}

/// Whether a datatype of the group occurs in the sort.
#[tactic(auto, using(crate::proofs::Mentions::mentions_words))]
pub(crate) fn mentions(group: &[Datatype], sort: &SortRef) -> bool
    ensures { result ≡ sort_mentions (map plain_datatype group.now) (tree sort.now) }
{
    if is_of_group(group, sort.head()) {
        return true;
    }
    for i in 0..sort.arg_count() {
        if let Some(arg) = sort.arg(i) {
            if mentions(group, arg) {
                return true;
            }
        }
    }
    false
}

/// The datatype with this number, of the group or declared before.
#[tactic(auto, using(crate::proofs::KnownDatatypes::known_words))]
pub(crate) fn datatype_with<'a>(
    defs: &'a Defs,
    group: &'a [Datatype],
    no: DeclNo,
) -> Option<&'a Datatype>
    ensures { option_map plain_datatype (option_copied result) ≡ numbered (known (map plain_datatype defs.now.datatypes) (map plain_datatype group.now)) no.0 }
{
    for datatype in group {
        if no.0 == datatype.no.0 {
            return Some(datatype);
        }
    }
    defs.datatype(no)
}

/// Whether a sort of the list has this tree.
#[tactic(auto, using(crate::proofs::Lists::listed_words))]
pub(crate) fn is_listed(list: &[SortRef], sort: &SortRef) -> bool
    ensures { IsTrue result ↔ Contains (map tree list.now) (tree sort.now) }
{
    for other in list {
        if same_tree(other, sort) {
            return true;
        }
    }
    false
}

/// Puts a sort last that is not in the list. It has at most 2,000.
pub(crate) fn add(list: &mut Vec<SortRef>, sort: SortRef) -> Result<(), DtError>
    ensures ok { OnOk result (HasAdded list.old.items list.new.items sort) }
    ensures wide { result ≡ Err DtError.TooWide
        → (¬ Contains (map tree list.old.items) (tree sort)) × (2000 ≤ length list.old.items) }
    ensures settled { (i : ℕ) → result ≡ Err (DtError.NotSettled i) → ⊥ }
{
    if is_listed(list, &sort) {
        return Ok(());
    }
    if list.len() >= 2000 {
        return Err(DtError::TooWide);
    }
    match list.push(sort) {
        Ok(()) => Ok(()),
        Err(_) => Err(DtError::NoMemory),
    }
}

// An argument of a sort.
fn arg_at(sort: &SortRef, i: usize) -> Result<SortRef, AllocError>
    requires { i < length (parts sort.now) }
    ensures { IfOk result (λ r. slice_get (parts sort.now) i ≡ Some r) }
{
    match sort.arg(i) {
        Some(arg) => arg.clone(),
        None => unreachable!(),
    }
}

/// The arguments of a sort. The only error is that memory runs out.
#[tactic(auto, using(crate::proofs::Gaining::args_step))]
pub fn args_of(alloc: Global, sort: &SortRef) -> Result<Vec<SortRef>, AllocError>
    ensures { IfOk result (λ v. v.items ≡ parts sort.now) }
{
    let mut args = Vec::new(alloc);
    for i in 0..sort.arg_count() {
        let arg = arg_at(sort, i)?;
        args.push(arg)?;
    }
    Ok(args)
}

// As many parameters, from the first on.
#[tactic(auto, using(sort_store::proofs::GrownStores::grown_words))]
fn params_of(alloc: Global, sorts: &mut SortStore, count: u32) -> Result<Vec<SortRef>, AllocError>
    ensures trees { IfOk result (λ v. map tree v.items ≡ param_sorts count) }
    ensures interned { IfOk result (λ v. AllInterned sorts.new v.items) }
    ensures grows { Grows sorts.old sorts.new }
    ensures distinct { HasNoRepeats sorts.old → HasNoRepeats sorts.new }
{
    let mut params = Vec::new(alloc);
    for i in 0..count {
        match sorts.make(Head::Param(i), &[]) {
            Ok(param) => params.push(param)?,
            Err(_) => return Err(AllocError),
        }
    }
    Ok(params)
}

/// The sort of a datatype at its own parameters. The errors are that it has more than 1,000 nodes, and that memory runs out.
pub fn own_sort(
    alloc: Global,
    sorts: &mut SortStore,
    datatype: &Datatype,
) -> Result<SortRef, SortError>
    ensures tree { IfOk result (λ r. tree r ≡ own_sort_of (plain_datatype datatype.now)) }
    ensures interned { IfOk result (λ r. IsInterned sorts.new r) }
    ensures small { IfOk result (λ r. node_count (tree r) ≤ 1000) }
    ensures too_large { IsErrOf result SortError.TooLarge → 1000 < node_count (own_sort_of (plain_datatype datatype.now)) }
    ensures grows { Grows sorts.old sorts.new }
    ensures distinct { HasNoRepeats sorts.old → HasNoRepeats sorts.new }
{
    let Ok(count) = u32::try_from(datatype.params.as_slice().len()) else {
        return Err(SortError::TooLarge);
    };
    if count >= MAX_NODES {
        return Err(SortError::TooLarge);
    }
    let Ok(params) = params_of(alloc, sorts, count) else {
        return Err(SortError::NoMemory);
    };
    let head = Head::Data {
        no: datatype.no,
        name: datatype.name,
    };
    sorts.make(head, &params)
}

// Puts an instance of the schema into the list.
fn add_instance(
    sorts: &mut SortStore,
    schema: &SortRef,
    args: &[SortRef],
    list: &mut Vec<SortRef>,
) -> Result<(), DtError>
    requires args { AllInterned sorts.old args.now }
    requires params { ParamsBelow (length args.now) (tree schema.now) }
    ensures gains { (ts group : List PlainDatatype) → AreMembers ts group sorts.old list.old.items
        → IsMember ts group (inst (map tree args.now) (tree schema.now))
        → Gains result ts group (λ s. s ≡ inst (map tree args.now) (tree schema.now)) sorts.new list.old.items list.new.items }
    ensures grows { Grows sorts.old sorts.new }
    ensures distinct { HasNoRepeats sorts.new }
{
    match sorts.inst(schema, args) {
        Ok(sort) => add(list, sort),
        Err(SortError::TooLarge) => Err(DtError::TooWide),
        Err(SortError::NoMemory) => Err(DtError::NoMemory),
    }
}

// Puts the sorts of fields into the list, with these arguments of their datatype.
fn add_field_sorts(
    sorts: &mut SortStore,
    fields: &[Field],
    args: &[SortRef],
    list: &mut Vec<SortRef>,
) -> Result<(), DtError>
    requires args { AllInterned sorts.old args.now }
    requires params { (f : PlainField) → Contains (map plain_field fields.now) f → ParamsBelow (length args.now) f.sort }
    ensures gains { (ts group : List PlainDatatype) → AreMembers ts group sorts.old list.old.items
        → ((s : Sort) → IsFieldSort (map plain_field fields.now) (map tree args.now) s → IsMember ts group s)
        → Gains result ts group (IsFieldSort (map plain_field fields.now) (map tree args.now)) sorts.new list.old.items list.new.items }
    ensures grows { Grows sorts.old sorts.new }
    ensures distinct { HasNoRepeats sorts.old → HasNoRepeats sorts.new }
{
    for field in fields {
        match add_instance(sorts, &field.sort, args, list) {
            Ok(()) => {}
            Err(error) => return Err(error),
        }
    }
    Ok(())
}

// Puts the sorts of the fields of constructors into the list, with these arguments of their datatype.
fn add_constructor_sorts(
    sorts: &mut SortStore,
    constructors: &[Constructor],
    args: &[SortRef],
    list: &mut Vec<SortRef>,
) -> Result<(), DtError>
    requires args { AllInterned sorts.old args.now }
    requires params { (c : PlainConstructor) (f : PlainField) → Contains (map plain_constructor constructors.now) c → Contains c.fields f → ParamsBelow (length args.now) f.sort }
    ensures gains { (ts group : List PlainDatatype) → AreMembers ts group sorts.old list.old.items
        → ((s : Sort) → IsConstructorFieldSort (map plain_constructor constructors.now) (map tree args.now) s → IsMember ts group s)
        → Gains result ts group (IsConstructorFieldSort (map plain_constructor constructors.now) (map tree args.now)) sorts.new list.old.items list.new.items }
    ensures grows { Grows sorts.old sorts.new }
    ensures distinct { HasNoRepeats sorts.old → HasNoRepeats sorts.new }
{
    for constructor in constructors {
        match add_field_sorts(sorts, constructor.fields.as_slice(), args, list) {
            Ok(()) => {}
            Err(error) => return Err(error),
        }
    }
    Ok(())
}

// Another reference to a sort, which has at most 1,000 nodes.
pub(crate) fn copy_of(sort: &SortRef) -> Result<SortRef, DtError>
    ensures same { IfOk result (λ r. r ≡ sort.now) }
    ensures small { node_count (tree sort.now) ≤ 1000 }
    ensures err { IfErr result (λ e. e ≡ DtError.NoMemory) }
{
    let _count = sort.node_count();
    match sort.clone() {
        Ok(copy) => Ok(copy),
        Err(_) => Err(DtError::NoMemory),
    }
}

// Puts sorts into the list.
fn add_each(some: &[SortRef], list: &mut Vec<SortRef>) -> Result<(), DtError>
    ensures gains { (ts group : List PlainDatatype) (store : List Sort) → AreMembers ts group store list.old.items → AllInterned store some.now
        → ((s : Sort) → Contains (map tree some.now) s → IsMember ts group s)
        → Gains result ts group (Contains (map tree some.now)) store list.old.items list.new.items }
{
    for sort in some {
        let copy = match copy_of(sort) {
            Ok(copy) => copy,
            Err(_) => return Err(DtError::NoMemory),
        };
        match add(list, copy) {
            Ok(()) => {}
            Err(error) => return Err(error),
        }
    }
    Ok(())
}

// Puts the sort of a datatype at its own parameters into the list.
fn add_own_sort(
    alloc: Global,
    sorts: &mut SortStore,
    datatype: &Datatype,
    list: &mut Vec<SortRef>,
) -> Result<(), DtError>
    ensures gains { (ts group : List PlainDatatype) → AreMembers ts group sorts.old list.old.items
        → IsMember ts group (own_sort_of (plain_datatype datatype.now))
        → Gains result ts group (λ s. s ≡ own_sort_of (plain_datatype datatype.now)) sorts.new list.old.items list.new.items }
    ensures grows { Grows sorts.old sorts.new }
    ensures distinct { HasNoRepeats sorts.old → HasNoRepeats sorts.new }
{
    match own_sort(alloc, sorts, datatype) {
        Ok(sort) => add(list, sort),
        Err(SortError::TooLarge) => Err(DtError::TooWide),
        Err(SortError::NoMemory) => Err(DtError::NoMemory),
    }
}

// .. of each datatype of the group.
fn add_own_sorts(
    alloc: Global,
    sorts: &mut SortStore,
    group: &[Datatype],
    list: &mut Vec<SortRef>,
) -> Result<(), DtError>
    ensures gains { (ts : List PlainDatatype) → AreMembers ts (map plain_datatype group.now) sorts.old list.old.items
        → Gains result ts (map plain_datatype group.now) (IsOwnSort (map plain_datatype group.now)) sorts.new list.old.items list.new.items }
    ensures grows { Grows sorts.old sorts.new }
    ensures distinct { HasNoRepeats sorts.old → HasNoRepeats sorts.new }
{
    for datatype in group {
        match add_own_sort(alloc, sorts, datatype, list) {
            Ok(()) => {}
            Err(error) => return Err(error),
        }
    }
    Ok(())
}

// Puts what a member adds into the list.
fn add_parts(
    alloc: Global,
    sorts: &mut SortStore,
    defs: &Defs,
    group: &[Datatype],
    sort: &SortRef,
    list: &mut Vec<SortRef>,
) -> Result<(), DtError>
    requires ready { IsReadyGroup (map plain_datatype defs.now.datatypes) (map plain_datatype group.now) }
    requires interned { IsInterned sorts.old sort.now }
    requires member { IsMember (known (map plain_datatype defs.now.datatypes) (map plain_datatype group.now)) (map plain_datatype group.now) (tree sort.now) }
    ensures gains { let group = map plain_datatype group.now in let ts = known (map plain_datatype defs.now.datatypes) group in AreMembers ts group sorts.old list.old.items
        → Gains result ts group (IsAddedBy ts group sort.now) sorts.new list.old.items list.new.items }
    ensures grows { Grows sorts.old sorts.new }
    ensures distinct { HasNoRepeats sorts.old → HasNoRepeats sorts.new }
{
    if !mentions(group, sort) {
        return Ok(());
    }
    let Ok(args) = args_of(alloc, sort) else {
        return Err(DtError::NoMemory);
    };
    match sort.head() {
        Head::Array => add_each(&args, list),
        Head::Data { no, .. } => match datatype_with(defs, group, no) {
            Some(datatype) => {
                add_constructor_sorts(sorts, datatype.constructors.as_slice(), &args, list)
            }
            None => Ok(()),
        },
        _ => Ok(()),
    }
}

/// The members of the unfolding of the group.
pub(crate) fn unfold(
    alloc: Global,
    sorts: &mut SortStore,
    defs: &Defs,
    group: &[Datatype],
) -> Result<Vec<SortRef>, DtError>
    requires ready { IsReadyGroup (map plain_datatype defs.now.datatypes) (map plain_datatype group.now) }
    ensures unfolds { Unfolds result (known (map plain_datatype defs.now.datatypes) (map plain_datatype group.now)) (map plain_datatype group.now) sorts.new }
    ensures grows { Grows sorts.old sorts.new }
    ensures distinct { HasNoRepeats sorts.old → HasNoRepeats sorts.new }
{
    let mut list = Vec::new(alloc);
    match add_own_sorts(alloc, sorts, group, &mut list) {
        Ok(()) => {}
        Err(error) => return Err(error),
    }
    let mut next = 0;
    while next < list.len() {
        let sort = match copy_of(&list[next]) {
            Ok(sort) => sort,
            Err(_) => return Err(DtError::NoMemory),
        };
        match add_parts(alloc, sorts, defs, group, &sort, &mut list) {
            Ok(()) => {}
            Err(error) => return Err(error),
        }
        next += 1;
    }
    Ok(list)
}

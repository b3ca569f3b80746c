//! Rows of sorts, worked by hand.
ghost use Rattle.std.specs.Prelude.{◌≡◌, IsTrue, IfOk, length};
ghost use Rattle.sort_store.specs.Instance.{param_of, IsBelow, ParamsBelow};
ghost use Rattle.sort_store.specs.Interned.{IsInterned, AllInterned};
ghost use Rattle.sort_store.specs.Tree.{tree};

use crate::head::param;
use crate::{Binding, DeclNo, Head, SortError, SortRef, SortStore, Sorts, same, same_tree};
use io_core::NoMemory;
use lex_core::{NameId, Names};
use std::alloc::Global;
use std::process::Abort;
use std::slice::from_ref;
use std::test::Fail;

// A sort is written with each sort symbol after its arguments: `B` is Bool, `I` Int, `V`
// (_ BitVec 8), `A` Array, `L` a datatype with one argument, `F` and `G` two declarations of one
// name with two arguments, and a digit a parameter.
fn symbol(byte: u8, name: NameId) -> (Head, usize) {
    match byte {
        b'B' => (Head::Bool, 0),
        b'V' => (Head::BitVec(8), 0),
        b'A' => (Head::Array, 2),
        b'L' => (
            Head::Data {
                no: DeclNo(1),
                name,
            },
            1,
        ),
        b'F' => (
            Head::Free {
                no: DeclNo(2),
                name,
            },
            2,
        ),
        b'G' => (
            Head::Free {
                no: DeclNo(3),
                name,
            },
            2,
        ),
        b'0' => (Head::Param(0), 0),
        b'1' => (Head::Param(1), 0),
        _ => (Head::Int, 0),
    }
}

// The store's sorts with the trees of these.
#[tactic(auto, using(crate::proofs::GrownStores::grown_words))]
fn copies(alloc: Global, store: &mut SortStore, sorts: &[SortRef]) -> Result<Sorts, NoMemory>
    ensures interned { IfOk result (λ list. AllInterned store.new list) }
    ensures count { IfOk result (λ list. length list ≡ length sorts.now) }
{
    let mut list = Sorts::new(alloc);
    for sort in sorts {
        let copy = store.copy(sort)?;
        list.push(copy)?;
    }
    Ok(list)
}

fn apply(
    alloc: Global,
    store: &mut SortStore,
    head: Head,
    args: &[SortRef],
) -> Result<SortRef, SortError> {
    match copies(alloc, store, args) {
        Ok(args) => store.make(head, args.as_slice()),
        Err(_) => Err(SortError::NoMemory),
    }
}

// The sort that the text writes.
fn written(
    alloc: Global,
    store: &mut SortStore,
    name: NameId,
    text: &[u8],
) -> Result<SortRef, Fail> {
    let mut stack = Vec::new(alloc);
    for byte in text {
        let (head, arity) = symbol(*byte, name);
        let rest = stack.len().saturating_sub(arity);
        let sort = apply(alloc, store, head, &stack[rest..])?;
        stack.truncate(rest);
        stack.push(sort)?;
    }
    match stack.pop() {
        Some(sort) => Ok(sort),
        None => Ok(apply(alloc, store, Head::Int, &[])?),
    }
}

// Whether the head is no parameter that is not below the count.
fn head_below(head: Head, count: usize) -> bool
    ensures { IsTrue result → IsBelow count (param_of head) }
{
    match param(head) {
        Some(i) => (i as usize) < count,
        None => true,
    }
}

// Whether each parameter of the schema is below the count.
fn params_below(schema: &SortRef, count: usize) -> bool
    ensures { IsTrue result → ParamsBelow count (tree schema.now) }
{
    if !head_below(schema.shared.head, count) {
        return false;
    }
    for part in &schema.shared.args {
        if !params_below(part, count) {
            return false;
        }
    }
    true
}

// Whether the sorts, copied into the store, are the same there.
#[tactic(auto, using(crate::proofs::GrownStores::together))]
fn same_in(store: &mut SortStore, a: &SortRef, b: &SortRef) -> Result<bool, NoMemory> {
    let a = store.copy(a)?;
    let b = store.copy(b)?;
    Ok(same(&a, &b))
}

// The instance, with the arguments copied into the store.
fn instance(
    rt: &impl Abort,
    alloc: Global,
    store: &mut SortStore,
    schema: &SortRef,
    args: &[SortRef],
) -> Result<SortRef, SortError> {
    assert!(rt; params_below(schema, args.len()));
    match copies(alloc, store, args) {
        Ok(args) => store.inst(schema, args.as_slice()),
        Err(_) => Err(SortError::NoMemory),
    }
}

fn some_name(rt: &impl Abort, alloc: Global) -> Result<NameId, NoMemory> {
    let mut names = Names::new(alloc)?;
    assert!(rt; names.count() < 1000);
    names.intern(b"S")
}

// A schema, a sort and, where some sorts for the parameters 0 and 1 make the schema the sort, those
// that have to (none where the parameter doesn't stand in the schema).
static MATCHES: [(&[u8], &[u8], Option<[&[u8]; 2]>); 18] = [
    (b"I", b"I", Some([b"", b""])),
    (b"I", b"B", None),
    (b"0", b"I", Some([b"I", b""])),
    (b"1", b"IBA", Some([b"", b"IBA"])),
    (b"01A", b"IBA", Some([b"I", b"B"])),
    (b"10F", b"IBF", Some([b"B", b"I"])),
    // A repeated parameter.
    (b"00A", b"IIA", Some([b"I", b""])),
    (b"00A", b"IBA", None),
    (b"0L0A", b"ILLILA", Some([b"IL", b""])),
    (b"0L0A", b"ILIA", Some([b"I", b""])),
    (b"0L0A", b"ILBA", None),
    (b"01A01AA", b"IBAIBAA", Some([b"I", b"B"])),
    (b"01A01AA", b"IBABIAA", None),
    (b"01A10AA", b"IBABIAA", Some([b"I", b"B"])),
    // Two declarations of one name.
    (b"01F", b"IBG", None),
    (b"00F", b"IIFIIFF", Some([b"IIF", b""])),
    (b"00F", b"IIFIIGF", None),
    (b"0L", b"VL", Some([b"V", b""])),
];

#[test]
fn schemas_and_their_instances(rt: HostRuntime) -> Result<(), Fail> {
    let alloc = rt.alloc();
    let name = some_name(&rt, alloc)?;
    let mut store = SortStore::new(alloc);
    for (schema, text, values) in &MATCHES {
        let schema = written(alloc, &mut store, name, schema)?;
        let sort = written(alloc, &mut store, name, text)?;
        let mut binding = Binding::new(alloc, 2)?;
        assert!(rt; params_below(&schema, 2));
        let fits = store.fits(&schema, &sort, &mut binding)?;
        assert_eq!(rt; fits, values.is_some(), "{text:?}");
        let Some(values) = values else {
            continue;
        };
        let mut args = Sorts::new(alloc);
        for (i, value) in values.iter().enumerate() {
            let value = written(alloc, &mut store, name, value)?;
            match binding.get(i) {
                Some(found) => assert!(rt; same_tree(found, &value), "{text:?}"),
                None => assert!(rt; values[i].is_empty(), "{text:?}"),
            }
            args.push(value)?;
        }
        let made = instance(&rt, alloc, &mut store, &schema, args.as_slice())?;
        assert!(rt; same_tree(&made, &sort), "{text:?}");
        assert!(rt; same_in(&mut store, &made, &sort)?, "{text:?}");
    }
    Ok(())
}

// A sort with its nodes and how deep its text nests.
static SIZES: [(&[u8], u32, u32); 7] = [
    (b"B", 1, 0),
    (b"V", 1, 1),
    (b"0", 1, 0),
    (b"IL", 2, 1),
    (b"IBA", 3, 1),
    (b"IVA", 3, 2),
    (b"ILLIBAF", 7, 3),
];

#[test]
fn sizes_of_sorts(rt: HostRuntime) -> Result<(), Fail> {
    let alloc = rt.alloc();
    let name = some_name(&rt, alloc)?;
    let mut store = SortStore::new(alloc);
    for (text, nodes, depth) in &SIZES {
        let sort = written(alloc, &mut store, name, text)?;
        assert_eq!(rt;
            (sort.node_count(), sort.print_depth()),
            (*nodes, *depth),
            "{text:?}"
        );
    }
    Ok(())
}

// Heads that are put one upon another, as many as said.
fn deep(store: &mut SortStore, count: usize) -> Result<SortRef, SortError> {
    let mut sort = store.make(Head::Int, &[])?;
    for _ in 0..count {
        sort = store.make(Head::Array, from_ref(&sort))?;
    }
    Ok(sort)
}

// A head with as many arguments as said.
fn wide(alloc: Global, store: &mut SortStore, count: usize) -> Result<SortRef, SortError> {
    let int = apply(alloc, store, Head::Int, &[])?;
    let Ok(args) = vec![in alloc; int; count] else {
        return Err(SortError::NoMemory);
    };
    apply(alloc, store, Head::Array, &args)
}

#[test]
fn largest_sorts(rt: HostRuntime) -> Result<(), Fail> {
    let alloc = rt.alloc();
    let mut store = SortStore::new(alloc);
    let mut other = SortStore::new(alloc);

    let long = deep(&mut store, 999)?;
    let long_elsewhere = deep(&mut other, 999)?;
    assert!(rt; same_tree(&long, &long_elsewhere));
    assert!(rt; same_in(&mut store, &long, &long_elsewhere)?);
    assert_eq!(rt; (long.node_count(), long.print_depth()), (1000, 999));
    let larger = deep(&mut store, 1000);
    assert!(rt; matches!(larger, Err(SortError::TooLarge)));

    let broad = wide(alloc, &mut store, 999)?;
    let broad_elsewhere = wide(alloc, &mut other, 999)?;
    assert!(rt; same_tree(&broad, &broad_elsewhere));
    assert!(rt; same_in(&mut store, &broad, &broad_elsewhere)?);
    assert!(rt; !same_in(&mut store, &broad, &long)?);
    let larger = wide(alloc, &mut store, 1000);
    assert!(rt; matches!(larger, Err(SortError::TooLarge)));

    // (Array P P) with 499 and 500 nodes for P.
    let parameter = apply(alloc, &mut store, Head::Param(0), &[])?;
    let pair = apply(
        alloc,
        &mut store,
        Head::Array,
        &[parameter.clone()?, parameter],
    )?;
    for (count, nodes) in [(498, Some(999)), (499, None)] {
        let value = deep(&mut store, count)?;
        let made = instance(&rt, alloc, &mut store, &pair, from_ref(&value));
        assert_eq!(rt; made.ok().map(|sort| sort.node_count()), nodes);
    }
    Ok(())
}

#[test]
fn lists_of_schemas(rt: HostRuntime) -> Result<(), Fail> {
    let alloc = rt.alloc();
    let mut store = SortStore::new(alloc);
    let parameter = store.make(Head::Param(0), &[])?;
    let bool_sort = store.make(Head::Bool, &[])?;
    let int_sort = store.make(Head::Int, &[])?;
    assert!(rt; params_below(&parameter, 1));
    let schemas = [parameter.clone()?, parameter];
    let mut binding = Binding::new(alloc, 1)?;
    let alike = [bool_sort.clone()?, bool_sort.clone()?];
    assert!(rt; store.fits_each(&schemas, &alike, &mut binding)?);
    let mut binding = Binding::new(alloc, 1)?;
    let mixed = [bool_sort.clone()?, int_sort];
    assert!(rt; !store.fits_each(&schemas, &mixed, &mut binding)?);
    let mut binding = Binding::new(alloc, 1)?;
    assert!(rt; !store.fits_each(&schemas, &[bool_sort], &mut binding)?);
    Ok(())
}

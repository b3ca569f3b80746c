//! The rows of the theories' declarations, worked by hand.
ghost use Rattle.std.specs.Prelude.{IfOk};
ghost use Rattle.sort_store.specs.Interned.{AllInterned, HasNoRepeats};
ghost use Rattle.theory_core.specs.Interned.{AreInternedTogether};

use crate::RankFound::{self, Arg, Bool, Element, Int};
use crate::{arrays_rank, core_rank, ints_rank, theory_form, theory_name};
use sig_table::{NameForm, Theories};
use sort_store::{Head, SortRef, SortStore, Sorts};
use std::alloc::Global;
use std::test::Fail;

// A sort is written with each sort symbol after its arguments: `B` is Bool, `I` Int, `V`
// (_ BitVec 8) and `A` Array.
fn symbol(byte: u8) -> (Head, usize) {
    match byte {
        b'B' => (Head::Bool, 0),
        b'V' => (Head::BitVec(8), 0),
        b'A' => (Head::Array, 2),
        _ => (Head::Int, 0),
    }
}

// The store's sorts with the trees of these.
#[tactic(auto, using(crate::proofs::TestSorts::copied_words))]
fn copies(alloc: Global, store: &mut SortStore, sorts: &[SortRef]) -> Result<Sorts, Fail>
    requires { HasNoRepeats store.old }
    ensures interned { IfOk result (λ list. AllInterned store.new list) }
    ensures together { IfOk result (λ list. AreInternedTogether list) }
    ensures distinct { HasNoRepeats store.new }
{
    let mut list = Sorts::new(alloc);
    for sort in sorts {
        let copy = store.copy(sort)?;
        list.push(copy)?;
    }
    Ok(list)
}

// The sorts that the text writes, one after another.
#[tactic(auto, using(crate::proofs::TestSorts::no_repeats))]
fn written(alloc: Global, text: &[u8]) -> Result<Sorts, Fail>
    ensures { IfOk result (λ list. AreInternedTogether list) }
{
    let mut store = SortStore::new(alloc);
    let mut stack = Vec::new(alloc);
    for byte in text {
        let (head, arity) = symbol(*byte);
        let rest = stack.len().saturating_sub(arity);
        let args = copies(alloc, &mut store, &stack[rest..])?;
        stack.truncate(rest);
        stack.push(store.make(head, args.as_slice())?)?;
    }
    copies(alloc, &mut store, &stack)
}

type Row = (&'static [u8], &'static [u8], Option<RankFound>);

// A name, the argument sorts, and the result sort: each row of Core as it stands, with a wrong count
// of arguments and with a wrong sort.
static CORE: [Row; 38] = [
    (b"true", b"", Some(Bool)),
    (b"true", b"B", None),
    (b"false", b"", Some(Bool)),
    (b"false", b"B", None),
    (b"not", b"B", Some(Bool)),
    (b"not", b"BB", None),
    (b"not", b"I", None),
    (b"=>", b"BB", Some(Bool)),
    (b"=>", b"B", None),
    (b"=>", b"BI", None),
    (b"and", b"BB", Some(Bool)),
    (b"and", b"B", None),
    (b"and", b"IB", None),
    (b"or", b"BB", Some(Bool)),
    (b"or", b"", None),
    (b"or", b"VB", None),
    (b"xor", b"BB", Some(Bool)),
    (b"xor", b"B", None),
    (b"xor", b"BI", None),
    (b"=", b"II", Some(Bool)),
    (b"=", b"I", None),
    (b"=", b"IB", None),
    (b"distinct", b"IBAIBA", Some(Bool)),
    (b"distinct", b"IBA", None),
    (b"distinct", b"IBABIA", None),
    (b"ite", b"BII", Some(Arg(1))),
    (b"ite", b"BI", None),
    (b"ite", b"III", None),
    (b"ite", b"BIB", None),
    // Three and twenty arguments, the last of a wrong sort.
    (b"=>", b"BBB", Some(Bool)),
    (b"xor", b"BBBBBBBBBBBBBBBBBBBB", Some(Bool)),
    (b"and", b"BBBBBBBBBBBBBBBBBBBI", None),
    (b"=", b"VVVVVVVVVVVVVVVVVVVV", Some(Bool)),
    (b"distinct", b"VVVVVVVVVVVVVVVVVVVI", None),
    (b"ite", b"BIII", None),
    // Symbols of other theories, and of none.
    (b"abs", b"I", None),
    (b"select", b"IBAI", None),
    (b"nand", b"BB", None),
];

static INTS: [Row; 40] = [
    (b"-", b"I", Some(Int)),
    (b"-", b"II", Some(Int)),
    (b"-", b"", None),
    (b"-", b"B", None),
    (b"-", b"IB", None),
    (b"+", b"II", Some(Int)),
    (b"+", b"I", None),
    (b"+", b"BI", None),
    (b"*", b"II", Some(Int)),
    (b"*", b"I", None),
    (b"*", b"IV", None),
    (b"div", b"II", Some(Int)),
    (b"div", b"I", None),
    (b"div", b"IB", None),
    (b"mod", b"II", Some(Int)),
    (b"mod", b"III", None),
    (b"mod", b"IB", None),
    (b"abs", b"I", Some(Int)),
    (b"abs", b"II", None),
    (b"abs", b"B", None),
    (b"<=", b"II", Some(Bool)),
    (b"<=", b"I", None),
    (b"<=", b"IB", None),
    (b"<", b"II", Some(Bool)),
    (b"<", b"I", None),
    (b"<", b"BI", None),
    (b">=", b"II", Some(Bool)),
    (b">=", b"", None),
    (b">=", b"VV", None),
    (b">", b"II", Some(Bool)),
    (b">", b"I", None),
    (b">", b"BB", None),
    (b"divisible", b"I", Some(Bool)),
    (b"divisible", b"II", None),
    (b"divisible", b"B", None),
    (b"-", b"III", Some(Int)),
    (b"div", b"IIIIIIIIIIIIIIIIIIII", Some(Int)),
    (b"<", b"IIIIIIIIIIIIIIIIIIII", Some(Bool)),
    (b"<", b"IIIIIIIIIIIIIIIIIIIB", None),
    (b"and", b"BB", None),
];

static ARRAYS: [Row; 12] = [
    (b"select", b"IBAI", Some(Element(0))),
    (b"select", b"BIBAAB", Some(Element(0))),
    (b"select", b"IBA", None),
    (b"select", b"IBAB", None),
    (b"select", b"II", None),
    (b"store", b"IBAIB", Some(Arg(0))),
    (b"store", b"IBAI", None),
    (b"store", b"IBABB", None),
    (b"store", b"IBAII", None),
    (b"store", b"III", None),
    (b"store", b"IIBAAIIBA", Some(Arg(0))),
    (b"=", b"II", None),
];

#[test]
fn ranks_of_core(rt: HostRuntime) -> Result<(), Fail> {
    for (name, args, rank) in &CORE {
        let sorts = written(rt.alloc(), args)?;
        assert_eq!(rt;
            core_rank(name, sorts.as_slice()),
            *rank,
            "{name:?} {args:?}"
        );
    }
    Ok(())
}

#[test]
fn ranks_of_ints(rt: HostRuntime) -> Result<(), Fail> {
    for (name, args, rank) in &INTS {
        let sorts = written(rt.alloc(), args)?;
        assert_eq!(rt;
            ints_rank(name, sorts.as_slice()),
            *rank,
            "{name:?} {args:?}"
        );
    }
    Ok(())
}

#[test]
fn ranks_of_arrays(rt: HostRuntime) -> Result<(), Fail> {
    for (name, args, rank) in &ARRAYS {
        let sorts = written(rt.alloc(), args)?;
        assert_eq!(rt;
            arrays_rank(name, sorts.as_slice()),
            *rank,
            "{name:?} {args:?}"
        );
    }
    Ok(())
}

// A name, and how it is written in a logic with Core alone, with Ints and with ArraysEx.
static FORMS: [(&[u8], [Option<NameForm>; 3]); 7] = [
    (
        b"and",
        [
            Some(NameForm::Plain),
            Some(NameForm::Plain),
            Some(NameForm::Plain),
        ],
    ),
    (b"div", [None, Some(NameForm::Plain), None]),
    (b"divisible", [None, Some(NameForm::Indexed), None]),
    (b"store", [None, None, Some(NameForm::Plain)]),
    (b"nand", [None, None, None]),
    (b"concat", [None, None, None]),
    (b"", [None, None, None]),
];

#[test]
fn names_and_their_forms(rt: HostRuntime) {
    for (name, forms) in &FORMS {
        for (i, form) in forms.iter().enumerate() {
            let theories = Theories {
                ints: i == 1,
                arrays: i == 2,
                bits: true,
            };
            assert_eq!(rt; theory_form(theories, name), *form, "{name:?}");
            assert_eq!(rt; theory_name(theories, name), form.is_some(), "{name:?}");
        }
    }
}

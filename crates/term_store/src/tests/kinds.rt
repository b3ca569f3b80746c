//! Terms of all kinds, each made twice.
ghost use Rattle.std.specs.Prelude.{IfOk, List};
ghost use Rattle.term_store.specs.Interned.{IsInterned, AllInterned, ArePartsInterned, IsNoteInterned, HasNoRepeats, Grows};
ghost use Rattle.term_store.specs.NumberedNodes.{numbered_node, numbered_note};
ghost use Rattle.term_store.specs.Term.{PlainTerm};

use crate::{Applied, Fun, ListOf, Note, Pattern, TermNode, TermRef, TermStore, same_term};
use lex_core::{NameId, Names, TokKind};
use sort_store::{DeclNo, Head, SortRef, SortStore};
use std::alloc::Global;
use std::process::Abort;
use std::test::Fail;

// What the nodes are made of.
#[derive(Drop)]
pub(super) struct Kit {
    pub(super) alloc: Global,
    pub(super) a: NameId,
    pub(super) b: NameId,
    pub(super) int: SortRef,
    pub(super) bits: SortRef,
}

pub(super) fn name_list(alloc: Global, names: &[NameId]) -> Result<ListOf<NameId>, Fail> {
    let mut list = ListOf::new(alloc);
    for name in names {
        list.push(*name)?;
    }
    Ok(list)
}

fn app(
    kit: &Kit,
    fun: Fun,
    indices: &[NameId],
    qualify: bool,
    args: Vec<TermRef>,
) -> Result<TermNode, Fail>
    ensures { IfOk result (λ n. (s : List PlainTerm) → AllInterned s args.items → ArePartsInterned s (numbered_node n)) }
{
    let head = Applied {
        fun,
        name: kit.a,
        indices: name_list(kit.alloc, indices)?,
        qualify,
    };
    Ok(TermNode::App { head, args })
}

// Literals, variables and applications.
fn applied_row(kit: &Kit, row: u8, x: &TermRef, y: &TermRef) -> Result<TermNode, Fail>
    ensures { IfOk result (λ n. (s : List PlainTerm) → IsInterned s x.now → IsInterned s y.now → ArePartsInterned s (numbered_node n)) }
{
    let none = Vec::new(kit.alloc);
    let one = vec![in kit.alloc; x.clone()?]?;
    match row {
        b'A' => app(kit, Fun::Theory, &[], false, none),
        b'B' => app(kit, Fun::Declared(DeclNo(0)), &[], false, none),
        b'C' => app(kit, Fun::Declared(DeclNo(1)), &[], false, none),
        b'D' => app(kit, Fun::Declared(DeclNo(0)), &[], true, none),
        b'E' => app(kit, Fun::Declared(DeclNo(0)), &[], false, one),
        b'F' => {
            let other = vec![in kit.alloc; y.clone()?]?;
            app(kit, Fun::Declared(DeclNo(0)), &[], false, other)
        }
        b'G' => {
            let two = vec![in kit.alloc; x.clone()?, y.clone()?]?;
            app(kit, Fun::Declared(DeclNo(0)), &[], false, two)
        }
        b'H' => app(kit, Fun::Tester(DeclNo(0)), &[], false, one),
        b'I' => app(kit, Fun::Theory, &[kit.b], false, one),
        b'J' => app(kit, Fun::Theory, &[kit.b, kit.a], false, one),
        b'K' => Ok(TermNode::Lit {
            kind: TokKind::Numeral,
            text: kit.a,
        }),
        b'L' => Ok(TermNode::Lit {
            kind: TokKind::Hexadecimal,
            text: kit.a,
        }),
        _ => Ok(TermNode::Var(kit.b)),
    }
}

fn quantified(
    kit: &Kit,
    all: bool,
    name: NameId,
    sort: &SortRef,
    body: &TermRef,
) -> Result<TermNode, Fail>
    ensures { IfOk result (λ n. (s : List PlainTerm) → IsInterned s body.now → ArePartsInterned s (numbered_node n)) }
{
    Ok(TermNode::Quant {
        all,
        vars: vec![in kit.alloc; (name, sort.clone()?)]?,
        body: body.clone()?,
    })
}

fn matched(kit: &Kit, of: &TermRef, pattern: Pattern, branch: &TermRef) -> Result<TermNode, Fail>
    ensures { IfOk result (λ n. (s : List PlainTerm) → IsInterned s of.now → IsInterned s branch.now → ArePartsInterned s (numbered_node n)) }
{
    Ok(TermNode::Match {
        of: of.clone()?,
        cases: vec![in kit.alloc; (pattern, branch.clone()?)]?,
    })
}

fn constructed(kit: &Kit, vars: &[NameId]) -> Result<Pattern, Fail> {
    Ok(Pattern::Con {
        no: DeclNo(0),
        name: kit.a,
        vars: name_list(kit.alloc, vars)?,
    })
}

// Binders and matches.
fn binding_row(kit: &Kit, row: u8, x: &TermRef, y: &TermRef) -> Result<TermNode, Fail>
    ensures { IfOk result (λ n. (s : List PlainTerm) → IsInterned s x.now → IsInterned s y.now → ArePartsInterned s (numbered_node n)) }
{
    match row {
        b'a' => quantified(kit, true, kit.a, &kit.int, x),
        b'b' => quantified(kit, false, kit.a, &kit.int, x),
        b'c' => quantified(kit, true, kit.b, &kit.int, x),
        b'd' => quantified(kit, true, kit.a, &kit.bits, x),
        b'e' => matched(kit, x, Pattern::Var(kit.a), y),
        b'f' => matched(kit, x, constructed(kit, &[kit.b])?, y),
        b'g' => matched(kit, x, constructed(kit, &[])?, y),
        b'h' => Ok(TermNode::Let {
            vars: vec![in kit.alloc; kit.a]?,
            values: vec![in kit.alloc; x.clone()?]?,
            body: y.clone()?,
        }),
        _ => Ok(TermNode::Let {
            vars: vec![in kit.alloc; kit.b]?,
            values: vec![in kit.alloc; x.clone()?]?,
            body: y.clone()?,
        }),
    }
}

fn annotated(kit: &Kit, body: &TermRef, note: Note) -> Result<TermNode, Fail>
    ensures { IfOk result (λ n. (s : List PlainTerm) → IsInterned s body.now → IsNoteInterned s (numbered_note note) → ArePartsInterned s (numbered_node n)) }
{
    Ok(TermNode::Ann {
        body: body.clone()?,
        notes: vec![in kit.alloc; note]?,
    })
}

// Annotations.
fn annotated_row(kit: &Kit, row: u8, x: &TermRef, y: &TermRef) -> Result<TermNode, Fail>
    ensures { IfOk result (λ n. (s : List PlainTerm) → IsInterned s x.now → IsInterned s y.now → ArePartsInterned s (numbered_node n)) }
{
    let no = DeclNo(0);
    let value = None;
    match row {
        b'0' => annotated(kit, x, Note::Named { no, name: kit.a }),
        b'1' => annotated(kit, x, Note::Named { no, name: kit.b }),
        b'2' => annotated(kit, x, Note::Pattern(vec![in kit.alloc; y.clone()?]?)),
        b'3' => annotated(kit, x, Note::Pattern(vec![in kit.alloc; x.clone()?]?)),
        b'4' => annotated(kit, x, Note::Other { key: kit.a, value }),
        _ => annotated(kit, y, Note::Other { key: kit.a, value }),
    }
}

fn node(kit: &Kit, row: u8, x: &TermRef, y: &TermRef) -> Result<TermNode, Fail>
    ensures { IfOk result (λ n. (s : List PlainTerm) → IsInterned s x.now → IsInterned s y.now → ArePartsInterned s (numbered_node n)) }
{
    match row {
        b'A'..=b'Z' => applied_row(kit, row, x, y),
        b'a'..=b'z' => binding_row(kit, row, x, y),
        _ => annotated_row(kit, row, x, y),
    }
}

// The term of a row, in which x is a variable and y another variable or the same of another sort.
#[tactic(auto, using(crate::proofs::InternedTerms::grown_words))]
pub(super) fn made(kit: &Kit, store: &mut TermStore, row: u8) -> Result<TermRef, Fail>
    ensures interned { IfOk result (λ t. IsInterned store.new t) }
    ensures grows { IfOk result (λ _. Grows store.old store.new) }
    ensures distinct { IfOk result (λ _. HasNoRepeats store.new) }
{
    let x = store.make(TermNode::Var(kit.a), kit.int.clone()?)?;
    let y = store.make(TermNode::Var(kit.a), kit.bits.clone()?)?;
    let node = node(kit, row, &x, &y)?;
    let term = store.make(node, kit.int.clone()?)?;
    Ok(term)
}

// Whether the terms of two rows are one.
#[tactic(auto, using(crate::proofs::InternedTerms::together))]
fn same_rows(kit: &Kit, store: &mut TermStore, a: u8, b: u8) -> Result<bool, Fail> {
    let a = made(kit, store, a)?;
    let b = made(kit, store, b)?;
    Ok(same_term(&a, &b))
}

pub(super) fn make_kit(rt: &impl Abort, alloc: Global, sorts: &mut SortStore) -> Result<Kit, Fail> {
    let mut names = Names::new(alloc)?;
    assert!(rt; names.count() < 1000);
    let a = names.intern(b"a")?;
    assert!(rt; names.count() < 1000);
    let b = names.intern(b"b")?;
    Ok(Kit {
        alloc,
        a,
        b,
        int: sorts.make(Head::Int, &[])?,
        bits: sorts.make(Head::BitVec(8), &[])?,
    })
}

// The rows, each with how deep its text nests: `a`, `(a x)`, `((_ a b) x)`, `(let ((a x)) y)`,
// `(forall ((a (_ BitVec 8))) x)`, `(match x (((a b) y)))`, `(! x :named a)`.
static ROWS: [(u8, u32); 28] = [
    (b'A', 0),
    (b'B', 0),
    (b'C', 0),
    (b'D', 1),
    (b'E', 1),
    (b'F', 1),
    (b'G', 1),
    (b'H', 2),
    (b'I', 2),
    (b'J', 2),
    (b'K', 0),
    (b'L', 0),
    (b'M', 0),
    (b'a', 3),
    (b'b', 3),
    (b'c', 3),
    (b'd', 4),
    (b'e', 3),
    (b'f', 4),
    (b'g', 3),
    (b'h', 3),
    (b'i', 3),
    (b'0', 1),
    (b'1', 1),
    (b'2', 2),
    (b'3', 2),
    (b'4', 1),
    (b'5', 1),
];

#[test]
fn each_row_is_one_term(rt: HostRuntime) -> Result<(), Fail> {
    let alloc = rt.alloc();
    let mut sorts = SortStore::new(alloc);
    let mut store = TermStore::new(alloc);
    let kit = make_kit(&rt, alloc, &mut sorts)?;
    for (i, (row, _)) in ROWS.iter().enumerate() {
        for (j, (other, _)) in ROWS.iter().enumerate() {
            let same = same_rows(&kit, &mut store, *row, *other)?;
            assert_eq!(rt; same, i == j, "{row} {other}");
        }
    }
    // Those of the rows, and the two variables in them.
    assert_eq!(rt; store.count(), 30);
    Ok(())
}

#[test]
fn depths_of_texts(rt: HostRuntime) -> Result<(), Fail> {
    let alloc = rt.alloc();
    let mut sorts = SortStore::new(alloc);
    let mut store = TermStore::new(alloc);
    let kit = make_kit(&rt, alloc, &mut sorts)?;
    for (row, depth) in &ROWS {
        let term = made(&kit, &mut store, *row)?;
        assert_eq!(rt; term.print_depth(), *depth, "{row}");
    }
    Ok(())
}

//! Sorts, terms and near misses, and their parts, read by hand from the grammar of the standard.
ghost use Rattle.std.specs.Prelude.{◌+◌, ◌<◌, ◌≤◌, ◌^◌, length};

use crate::{
    RawAttribute, RawAttributeKind, RawIdentifierKind, RawNote, RawNoteKind, RawPatternKind,
    RawQualifiedKind, RawSexpr, RawSexprKind, RawSort, RawSortKind, RawTerm, RawTermKind,
    RawValueKind, read_sort, read_term, token_first, value_first,
};
use lex_core::{Names, Tok, tokens_of_text};
use sexp_core::{Builder, Part, Tree, Trees};
use std::alloc::Global;
use std::test::Fail;

fn give(builder: &mut Builder, tok: Tok) -> Option<Tree>
    requires { length builder.old.0 < 2 ^ 31 }
    ensures { length builder.new.0 ≤ length builder.old.0 + 1 }
{
    builder.take(tok).unwrap_or(None)
}

// The tree that the last token completes.
fn last_tree(builder: &mut Builder, toks: &[Tok]) -> Option<Tree>
    requires { length builder.old.0 + length toks.now < 2 ^ 31 }
{
    let mut last = None;
    for tok in toks {
        last = give(builder, *tok);
    }
    last
}

fn tree_of(alloc: Global, names: &mut Names, text: &[u8]) -> Option<Tree>
    requires short { length text.now < 2 ^ 30 }
    requires few { length names.old + length text.now < 2 ^ 31 }
{
    let Ok(toks) = tokens_of_text(alloc, names, text) else {
        return None;
    };
    if toks.len() > 1000 {
        return None;
    }
    last_tree(&mut Builder::new(alloc), &toks)
}

// The text of a list of one tree, and the byte of its fault as a sort, or `None` for a sort.
static SORTS: [(&[u8], Option<u32>); 20] = [
    (b"(Int)", None),
    (b"(|let|)", None),
    (b"((_ BitVec 8))", None),
    (b"((_ bv a 1))", None),
    (b"((Array Int (_ BitVec 8)))", None),
    (b"(((_ S 1) Int))", None),
    (b"(1)", Some(1)),
    (b"(let)", Some(1)),
    (b"(:a)", Some(1)),
    (b"(())", Some(1)),
    (b"((Array))", Some(1)),
    (b"((_ BitVec))", Some(1)),
    (b"((_ 1 2))", Some(1)),
    (b"((_ S \"a\"))", Some(1)),
    (b"((1 Int))", Some(1)),
    (b"(((Array Int) Int))", Some(1)),
    (b"((as S Int))", Some(1)),
    (b"((Array Int 1))", Some(12)),
    (b"((Array 1 ()))", Some(8)),
    (b"((Array (1) ()))", Some(8)),
];

// The text of a list of one tree, and the byte of its fault as a term, or `None` for a term.
static TERMS: [(&[u8], Option<u32>); 67] = [
    (b"(1)", None),
    (b"(1.5)", None),
    (b"(#xA)", None),
    (b"(#b1)", None),
    (b"(\"a\")", None),
    (b"(x)", None),
    (b"((_ bv5 8))", None),
    (b"((as x Int))", None),
    (b"((as (_ f 1) (Array Int Int)))", None),
    (b"((f x 1))", None),
    (b"(((_ extract 1 0) x))", None),
    (b"(((as f Int) x))", None),
    (b"((let ((x 1) (y 2)) (f x y)))", None),
    (b"((forall ((x Int)) p))", None),
    (b"((exists ((x Int) (y (_ BitVec 8))) p))", None),
    (b"((match l ((nil 1) ((cons h t) 2))))", None),
    (b"((! p :named n))", None),
    (b"((! p :pattern ((f x) y)))", None),
    (b"((! p :a))", None),
    (
        b"((! p :a 1 :b x :c (let :d \"s\" (())) :e :named n))",
        None,
    ),
    (b"(let)", Some(1)),
    (b"(:a)", Some(1)),
    (b"(())", Some(1)),
    (b"((f))", Some(1)),
    (b"((_ f))", Some(1)),
    (b"((1 x))", Some(1)),
    (b"((as x))", Some(1)),
    (b"((as 1 Int))", Some(1)),
    (b"((as x Int Int))", Some(1)),
    (b"((let () x))", Some(1)),
    (b"((let ((x 1))))", Some(1)),
    (b"((let ((x 1)) x y))", Some(1)),
    (b"((let (x) x))", Some(1)),
    (b"((let ((1 1)) x))", Some(1)),
    (b"((let ((x)) x))", Some(1)),
    (b"((let ((x 1 2)) x))", Some(1)),
    (b"((let ((x (f)))))", Some(1)),
    (b"((forall () p))", Some(1)),
    (b"((forall ((let Int)) p))", Some(1)),
    (b"((exists ((x)) p))", Some(1)),
    (b"((match l ()))", Some(1)),
    (b"((match l (x)))", Some(1)),
    (b"((match l ((nil))))", Some(1)),
    (b"((match l ((1 2))))", Some(1)),
    (b"((match l (((c) 1))))", Some(1)),
    (b"((match l (((c 1) 1))))", Some(1)),
    (b"((! p))", Some(1)),
    (b"((! p x))", Some(1)),
    (b"((! p :named))", Some(1)),
    (b"((! p :named 1))", Some(1)),
    (b"((! p :named (a)))", Some(1)),
    (b"((! p :pattern))", Some(1)),
    (b"((! p :pattern ()))", Some(1)),
    (b"((! p :pattern x))", Some(1)),
    (b"((! p :a let))", Some(1)),
    (b"((! p :a 1 2))", Some(1)),
    (b"((f 1 (g) let))", Some(6)),
    (b"((f (let ())))", Some(4)),
    (b"((let ((x (f))) ()))", Some(10)),
    (b"((forall ((x (S))) (f)))", Some(13)),
    (b"((forall ((x Int)) (f)))", Some(19)),
    (b"((as x (S)))", Some(7)),
    (b"(((as f 1) ()))", Some(8)),
    (b"((match (f) ((nil ()))))", Some(8)),
    (b"((match l ((nil ()))))", Some(16)),
    (b"((! (f) :pattern ((g))))", Some(4)),
    (b"((! p :pattern ((g)) :a))", Some(16)),
];

// The parts of a list.
fn list_parts<'t>(tree: &'t Tree) -> Option<Trees<'t>> {
    let (list, _) = Trees::of(tree).split()?;
    match list {
        Part::Atom(_) => None,
        Part::List { parts, .. } => Some(parts),
    }
}

fn first_part<'t>(tree: &'t Tree) -> Option<Part<'t>> {
    let parts = list_parts(tree)?;
    let (first, _) = parts.split()?;
    Some(first)
}

#[test]
fn sort_rows(rt: HostRuntime) -> Result<(), Fail> {
    let alloc = rt.alloc();
    for (text, want) in &SORTS {
        let mut names = Names::new(alloc)?;
        assert!(rt; names.count() < 1000);
        assert!(rt; text.len() < 100);
        let tree = tree_of(alloc, &mut names, text).expect(&rt, "one tree");
        let part = first_part(&tree).expect(&rt, "a part");
        assert_eq!(rt; read_sort(part).err(), *want, "{text:?}");
    }
    Ok(())
}

#[test]
fn term_rows(rt: HostRuntime) -> Result<(), Fail> {
    let alloc = rt.alloc();
    for (text, want) in &TERMS {
        let mut names = Names::new(alloc)?;
        assert!(rt; names.count() < 1000);
        assert!(rt; text.len() < 100);
        let tree = tree_of(alloc, &mut names, text).expect(&rt, "one tree");
        let part = first_part(&tree).expect(&rt, "a part");
        assert_eq!(rt; read_term(part).err(), *want, "{text:?}");
    }
    Ok(())
}

fn is_symbol_sort(sort: &RawSort, at: u32) -> bool {
    match sort.kind() {
        RawSortKind::Identifier(name) => match name.kind() {
            RawIdentifierKind::Symbol(tok) => tok.at == at && sort.at() == at,
            RawIdentifierKind::Indexed { .. } => false,
        },
        RawSortKind::Applied { .. } => false,
    }
}

fn is_indexed_sort(sort: &RawSort, at: u32, name_at: u32) -> bool {
    match sort.kind() {
        RawSortKind::Identifier(name) => match name.kind() {
            RawIdentifierKind::Symbol(_) => false,
            RawIdentifierKind::Indexed { name, .. } => name.at == name_at && sort.at() == at,
        },
        RawSortKind::Applied { .. } => false,
    }
}

// The parts of a sort, by their bytes.
#[test]
fn sort_parts(rt: HostRuntime) -> Result<(), Fail> {
    let alloc = rt.alloc();
    let mut names = Names::new(alloc)?;
    assert!(rt; names.count() < 1000);
    let tree = tree_of(alloc, &mut names, b"(Array Int (_ BitVec 8))").expect(&rt, "one tree");
    let trees = Trees::of(&tree);
    let (part, _) = trees.split().expect(&rt, "the tree");
    let sort = read_sort(part).expect(&rt, "a sort");
    assert_eq!(rt; sort.at(), 0);
    let RawSortKind::Applied { identifier, args } = sort.kind() else {
        assert!(rt; false, "an applied sort");
        return Ok(());
    };
    assert_eq!(rt; (identifier.at(), args.len()), (1, 2));
    let (first, rest) = args.split().expect(&rt, "the index sort");
    assert!(rt; is_symbol_sort(&first, 7));
    let (second, rest) = rest.split().expect(&rt, "the element sort");
    assert!(rt; is_indexed_sort(&second, 11, 14));
    assert!(rt; rest.split().is_none());
    Ok(())
}

// The parts of a term, by their bytes.
#[test]
fn term_parts(rt: HostRuntime) -> Result<(), Fail> {
    let alloc = rt.alloc();
    let mut names = Names::new(alloc)?;
    assert!(rt; names.count() < 1000);
    let text = b"(match l (((c h) (! (as h S) :named n)) (x 1)))";
    let tree = tree_of(alloc, &mut names, text).expect(&rt, "one tree");
    let (part, _) = Trees::of(&tree).split().expect(&rt, "the tree");
    let term = read_term(part).expect(&rt, "a term");
    let RawTermKind::Match { term, cases } = term.kind() else {
        assert!(rt; false, "a match");
        return Ok(());
    };
    assert!(rt; term.at() == 7 && cases.len() == 2 && cases.get(2).is_none());
    let first = cases.get(0).expect(&rt, "the first case");
    assert!(rt; first.at() == 10 && first.pattern.at() == 11);
    assert!(rt; matches!(first.pattern.kind(), RawPatternKind::Constructor { .. }));
    let RawTermKind::Annotated { term, .. } = first.term.kind() else {
        assert!(rt; false, "an annotation");
        return Ok(());
    };
    assert!(rt; is_as_term(&term, 20, 24, 26));
    let second = cases.get(1).expect(&rt, "the second case");
    assert!(rt; second.at() == 40 && matches!(second.term.kind(), RawTermKind::Constant(_)));
    Ok(())
}

fn is_as_term(term: &RawTerm, at: u32, name_at: u32, sort_at: u32) -> bool {
    match term.kind() {
        RawTermKind::Qualified(name) => match name.kind() {
            RawQualifiedKind::As { identifier, sort } => {
                name.at() == at && identifier.at() == name_at && sort.at() == sort_at
            }
            RawQualifiedKind::Identifier(_) => false,
        },
        _ => false,
    }
}

// The production of an attribute or its value, and a byte of its parts.
fn note_row(note: &RawNote) -> (u8, u32) {
    match note.kind() {
        RawNoteKind::Named { name } => (0, name.at),
        RawNoteKind::Pattern { terms } => match terms.get(0) {
            Some(term) => (1, term.at()),
            None => (1, 0),
        },
        RawNoteKind::Attribute(attribute) => attribute_row(&attribute),
    }
}

fn attribute_row(attribute: &RawAttribute) -> (u8, u32) {
    match attribute.kind() {
        RawAttributeKind::Keyword(keyword) => (2, keyword.at),
        RawAttributeKind::Valued { value, .. } => match value.kind() {
            RawValueKind::Constant(tok) => (3, tok.at),
            RawValueKind::Symbol(tok) => (4, tok.at),
            RawValueKind::List(_) => (5, value.at()),
        },
    }
}

fn sexpr_row(sexpr: &RawSexpr) -> (u8, u32) {
    match sexpr.kind() {
        RawSexprKind::Constant(tok) => (0, tok.at),
        RawSexprKind::Symbol(tok) => (1, tok.at),
        RawSexprKind::Reserved(tok) => (2, tok.at),
        RawSexprKind::Keyword(tok) => (3, tok.at),
        RawSexprKind::List(_) => (4, sexpr.at()),
    }
}

// Attributes with values of every shape, and the s-expressions of the last value.
#[test]
fn attribute_rows(rt: HostRuntime) -> Result<(), Fail> {
    let alloc = rt.alloc();
    let mut names = Names::new(alloc)?;
    assert!(rt; names.count() < 1000);
    let text = b"(! p :pattern ((f x)) :named n :a :b 1 :c s :d (2 s let :k (3)))";
    let tree = tree_of(alloc, &mut names, text).expect(&rt, "one tree");
    let (part, _) = Trees::of(&tree).split().expect(&rt, "the tree");
    let term = read_term(part).expect(&rt, "a term");
    let RawTermKind::Annotated { notes, .. } = term.kind() else {
        assert!(rt; false, "an annotation");
        return Ok(());
    };
    let rows: [(u8, u32); 6] = [(1, 15), (0, 29), (2, 31), (3, 37), (4, 42), (5, 47)];
    assert_eq!(rt; notes.len(), rows.len());
    for i in 0..rows.len() {
        let note = notes.get(i).expect(&rt, "an attribute");
        assert_eq!(rt; note_row(&note), rows[i]);
    }
    Ok(())
}

// The value of an attribute, and the s-expressions in it.
#[test]
fn value_rows(rt: HostRuntime) -> Result<(), Fail> {
    let alloc = rt.alloc();
    let mut names = Names::new(alloc)?;
    assert!(rt; names.count() < 1000);
    let text = b"(:d (2 s let :k (3)))";
    let tree = tree_of(alloc, &mut names, text).expect(&rt, "one tree");
    let part = list_parts(&tree).expect(&rt, "a list");
    let (_, rest) = token_first(&part).expect(&rt, "the keyword");
    let (value, _) = value_first(rest);
    let value = value.expect(&rt, "a value");
    assert_eq!(rt; value.copy(alloc)?.len(), 7);
    let RawValueKind::List(sexprs) = value.kind() else {
        assert!(rt; false, "a list");
        return Ok(());
    };
    let rows: [(u8, u32); 5] = [(0, 5), (1, 7), (2, 9), (3, 13), (4, 16)];
    assert_eq!(rt; sexprs.len(), rows.len());
    for i in 0..rows.len() {
        let sexpr = sexprs.get(i).expect(&rt, "an s-expression");
        assert_eq!(rt; sexpr_row(&sexpr), rows[i]);
    }
    Ok(())
}

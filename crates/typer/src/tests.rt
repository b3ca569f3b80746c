//! Sorts, terms and faults, worked by hand from the rules.
ghost use Rattle.std.specs.Prelude.{◌≡◌, ◌<◌, ◌+◌, ◌≤◌, ◌^◌, IfOk, IsTrue, length};
ghost use Rattle.typer.specs.Ready.{IsReady, IsReadySchema, IsReadySortEntry};

use crate::{TyError, World, is_theory_sort, type_sort, type_term};
use lex_core::{NameId, Names, Tok, tokens_of_text};
use scope_stack::SortEntry;
use sexp_core::{Builder, Part, Tree, Trees};
use sig_table::Theories;
use sort_store::{DeclNo, SortRef};
use std::alloc::Global;
use std::process::Abort;
use std::test::Fail;
use term_grammar::{
    RawIdentifier, RawIdentifierKind, RawSort, RawSortKind, RawTerm, read_sort, read_term,
};

type Row = (&'static [u8], &'static [u8], &'static [u8], u32);

static DOUBLED: [(&[u8], &[u8]); 7] = [
    (b"D2", b"(P D1 D1)"),
    (b"D3", b"(P D2 D2)"),
    (b"D4", b"(P D3 D3)"),
    (b"D5", b"(P D4 D4)"),
    (b"D6", b"(P D5 D5)"),
    (b"D7", b"(P D6 D6)"),
    (b"D8", b"(P D7 D7)"),
];

// What stands before each row: `(declare-sort E 0)`, `(declare-sort P 2)`, `(define-sort D () E)`,
// `(define-sort G (X) (P X E))` and D1 to D8, where D1 is (P E E) and each other D is P of the one
// before it twice. A row is the parameter of the command, if there is one, its sort, and the answer:
// the count of the sort's nodes, or a code and a byte.
static SORTS: [Row; 25] = [
    (b"", b"Bool", b"ok", 1),
    (b"", b"(P E Bool)", b"ok", 3),
    (b"", b"D", b"ok", 1),
    (b"", b"(G (P D D))", b"ok", 5),
    (b"", b"D8", b"ok", 511),
    // A parameter hides the sort symbol of its name, and takes no argument.
    (b"T", b"(P T D)", b"ok", 3),
    (b"P", b"P", b"ok", 1),
    (b"P", b"(P E E)", b"NA-4", 0),
    (b"Bool", b"Bool", b"ok", 1),
    // The arguments come first, left to right.
    (b"", b"(Foo Bar)", b"NA-3", 5),
    (b"", b"(P (P E) Bar)", b"NA-4", 3),
    (b"", b"(P Bar (P E))", b"NA-3", 3),
    // An unknown symbol, then the number of arguments.
    (b"", b"(Foo E)", b"NA-3", 0),
    (b"", b"(P Bool)", b"NA-4", 0),
    (b"", b"(E E)", b"NA-4", 0),
    (b"", b"G", b"NA-4", 0),
    (b"", b"(_ P 1)", b"NA-3", 0),
    (b"", b"BitVec", b"NA-3", 0),
    // More than 1,000 nodes, definitions expanded.
    (b"", b"(P D8 D8)", b"LI-3", 0),
    (b"", b"(P D (P D8 (P D8 E)))", b"LI-3", 5),
    // A definition that brings the name of a parameter.
    (b"E", b"(P E D)", b"NA-6", 5),
    (b"E", b"(G E)", b"NA-6", 0),
    (b"P", b"D1", b"NA-6", 0),
    (b"X", b"(G X)", b"ok", 3),
    (b"T", b"(T E)", b"NA-4", 0),
];

// The same where the logic has all theories.
static THEORY_SORTS: [Row; 14] = [
    (b"", b"Int", b"ok", 1),
    (b"", b"(Array Int (Array Bool E))", b"ok", 5),
    (b"", b"(Array Int)", b"NA-4", 0),
    (b"", b"(_ BitVec 16)", b"ok", 1),
    (b"", b"(_ BitVec 4294967295)", b"ok", 1),
    // The number of arguments, then the indices.
    (b"", b"((_ BitVec 0) E)", b"NA-4", 0),
    (b"", b"BitVec", b"NA-3", 0),
    (b"", b"(_ BitVec 8 8)", b"TY-7", 0),
    (b"", b"(_ BitVec m)", b"TY-7", 0),
    (b"", b"(_ BitVec 4294967296)", b"LI-4", 0),
    (b"", b"(P (_ BitVec 0) E)", b"TY-7", 3),
    (b"", b"(_ BitVector 8)", b"NA-3", 0),
    (b"Int", b"(Array Int Int)", b"ok", 3),
    (b"Array", b"(Array E E)", b"NA-4", 0),
];

type TermRow = (&'static [u8], &'static [u8], u32);

// Terms where the logic has Ints, and nothing is declared: the answer is a code and a byte.
static TERMS: [TermRow; 36] = [
    // The terms of a let stand in the outer variables, its body in all.
    (b"(let ((x true) (y false)) (and x y))", b"ok", 0),
    (b"(let ((x true) (y x)) y)", b"TY-1", 18),
    (
        b"(let ((x true)) (let ((x 1) (y x)) (and y (= x 1))))",
        b"ok",
        0,
    ),
    (b"(let ((x true) (x false)) x)", b"NA-5", 16),
    (b"(let ((x true) (y (and 1)) (x false)) x)", b"TY-2", 18),
    // A bound variable hides a function symbol, and takes no argument.
    (b"(let ((not true)) not)", b"ok", 0),
    (b"(let ((not true)) (not not))", b"TY-8", 18),
    (b"(let ((x 1)) (as x Int))", b"TY-8", 13),
    // A later variable of a quantifier hides an earlier one, and an outer one.
    (b"(forall ((x Int)) (= x x))", b"ok", 0),
    (b"(exists ((x Int) (x Bool)) x)", b"ok", 0),
    (b"(exists ((x Bool) (x Int)) x)", b"TY-6", 27),
    (b"(let ((x 1)) (forall ((x Bool)) x))", b"ok", 0),
    (b"(forall ((x Int)) x)", b"TY-6", 18),
    (b"(exists ((x Foo)) (and 1))", b"NA-3", 12),
    (b"(not (forall ((x Int)) (and 1)))", b"TY-2", 23),
    // The terms of a pattern are judged, other attributes are kept.
    (b"(! (= 1 1) :pattern (1 (+ 1 2)) :weight 3)", b"ok", 0),
    (b"(! true :weight (and 1) :pattern ((and 1)))", b"TY-2", 34),
    (
        b"(forall ((x Int)) (! (= x x) :pattern (x y)))",
        b"TY-1",
        41,
    ),
    // Each :named gives one name, which is not live yet.
    (b"(! (= 1 1) :named a)", b"ok", 0),
    (b"(! (! true :named c) :named d)", b"ok", 0),
    (b"(! true :named p :named q)", b"ok", 0),
    (b"(and (! true :named b) (! false :named b))", b"TY-9", 39),
    (b"(! (! true :named e) :named e)", b"TY-9", 28),
    (b"(and (! true :named n) n)", b"TY-1", 23),
    (b"(! true :named and)", b"TY-9", 15),
    (b"(let ((x (! true :named f))) x)", b"ok", 0),
    // No variable stands free in the term, also not in a pattern.
    (b"(let ((x true)) (! x :named g))", b"TY-9", 28),
    (b"(forall ((x Int)) (! (= x x) :named h))", b"TY-9", 36),
    (b"(forall ((x Int)) (! (= 1 1) :named h))", b"ok", 0),
    (
        b"(forall ((x Int)) (! (! true :pattern (x)) :named k))",
        b"TY-9",
        50,
    ),
    (
        b"(! true :pattern ((! (= 1 1) :named l)) :named m)",
        b"ok",
        0,
    ),
    (b"(! true :named o :pattern (y))", b"TY-1", 27),
    // The logic has no bit vectors.
    (b"#b1", b"TY-5", 0),
    (b"(bvand 1 1)", b"TY-1", 0),
    (b"(_ bv5 8)", b"TY-1", 0),
    (b"(! true :named bvand)", b"ok", 0),
];

// Terms on bit vectors where the logic has all theories, and nothing is declared.
static BIT_VECTORS: [TermRow; 54] = [
    // Each hexadecimal digit stands for four bits.
    (b"(= #xF #b0000)", b"ok", 0),
    (b"(= #xF #b000)", b"TY-2", 0),
    (b"1.5", b"TY-5", 0),
    // Symbols without indices.
    (b"(= (concat #b1 #xF) #b00000)", b"ok", 0),
    (b"(= (bvand #xF #xF #xF) (bvnot #x0))", b"ok", 0),
    (b"(= (bvcomp #xF #x0) #b1)", b"ok", 0),
    (b"(not (bvult #b0 #b1))", b"ok", 0),
    (b"(bvadd #xF)", b"TY-2", 0),
    (b"(bvult #xF #b1)", b"TY-2", 0),
    (b"(bvult 1 1)", b"TY-2", 0),
    (b"(concat #b1 (bvnot 1))", b"TY-2", 12),
    // Symbols with indices.
    (b"(= ((_ extract 2 1) #xF) #b00)", b"ok", 0),
    (b"(= ((_ repeat 3) #b10) #b101010)", b"ok", 0),
    (
        b"(= ((_ zero_extend 0) #xF) ((_ rotate_left 9) #xF))",
        b"ok",
        0,
    ),
    (b"(= ((_ sign_extend 4) #xF) #x00)", b"ok", 0),
    (b"((_ rotate_right 4294967295) #b1)", b"ok", 0),
    (b"(= (_ bv7 8) #x07)", b"ok", 0),
    (b"(_ bv18446744073709551616 1)", b"ok", 0),
    (b"(_ bv5 4294967295)", b"ok", 0),
    (b"((_ divisible 99999999999) 6)", b"ok", 0),
    (b"((_ divisible 0) 6)", b"TY-7", 0),
    // No symbol is written so.
    (b"(= (_ bv007 8) #x00)", b"TY-1", 3),
    (b"(_ bv 8)", b"TY-1", 0),
    (b"bv5", b"TY-1", 0),
    (b"(extract #xF)", b"TY-1", 0),
    (b"((_ concat 1) #b1 #b1)", b"TY-1", 0),
    // The number and the kind of the indices, their size, the condition on them, the arguments, the
    // width of the argument, and that of the result.
    (b"((_ extract 4294967296) #xF)", b"TY-7", 0),
    (b"((_ extract x 4294967296) #xF)", b"TY-7", 0),
    (b"((_ extract 0 4294967296) 1)", b"LI-4", 0),
    (b"(_ bv5 4294967296)", b"LI-4", 0),
    (b"((_ extract 1 2) 1)", b"TY-7", 0),
    (b"((_ repeat 0) 1)", b"TY-7", 0),
    (b"(_ bv5 0)", b"TY-7", 0),
    (b"((_ extract 4 0) 1)", b"TY-2", 0),
    (b"((_ bv5 8) #b1)", b"TY-2", 0),
    (b"((_ extract 4 0) #xF)", b"TY-7", 0),
    (b"((_ extract 3 0) #xF)", b"ok", 0),
    (b"(concat (_ bv0 4294967294) #b1)", b"ok", 0),
    (b"(concat (_ bv0 4294967295) #b1)", b"LI-4", 0),
    (b"((_ repeat 4294967295) #b00)", b"LI-4", 0),
    (b"((_ sign_extend 4294967294) #b1)", b"ok", 0),
    (b"((_ zero_extend 4294967295) #b1)", b"LI-4", 0),
    // The sort of `as` is judged first; a result that is too wide comes before the sort asked for.
    (b"((as concat (_ BitVec 5)) #b1 #xF)", b"ok", 0),
    (b"((as concat (_ BitVec 4)) #b1 #xF)", b"TY-4", 0),
    (b"((as (_ extract 4 0) Foo) #xF)", b"NA-3", 21),
    (b"((as (_ extract 4 0) (_ BitVec 5)) 1)", b"TY-2", 0),
    (
        b"((as concat (_ BitVec 4)) (_ bv0 4294967295) #b1)",
        b"LI-4",
        0,
    ),
    (b"(as (_ bv1 8) (_ BitVec 8))", b"ok", 0),
    (b"(as (_ bv1 8) (_ BitVec 7))", b"TY-4", 0),
    // A bound variable hides a symbol without indices alone.
    (b"(let ((concat #b1)) (concat #b1))", b"TY-8", 20),
    (b"(let ((extract #b1)) ((_ extract 0 0) extract))", b"ok", 0),
    // All names but those of literals are in use.
    (b"(! (= #b1 #b1) :named bvand)", b"TY-9", 22),
    (b"(! (= #b1 #b1) :named extract)", b"TY-9", 22),
    (b"(! (= #b1 #b1) :named bv5)", b"ok", 0),
];

fn is_named(names: &Names, name: NameId) -> bool
    ensures { IsTrue result → name < length names.now }
{
    (name.number() as usize) < names.count()
}

fn give(builder: &mut Builder, tok: Tok) -> Option<Tree>
    requires { length builder.old.0 < 2 ^ 31 }
    ensures { length builder.new.0 ≤ length builder.old.0 + 1 }
{
    builder.take(tok).unwrap_or(None)
}

// The tree that the last token completes.
fn last_tree(builder: &mut Builder, toks: &[Tok]) -> Option<Tree>
    requires { length builder.old.0 + length toks.now < 2 ^ 31 }
{
    let mut last = None;
    for tok in toks {
        last = give(builder, *tok);
    }
    last
}

// The text between parentheses, as a tree.
fn tree_of(rt: &impl Abort, world: &mut World, text: &[u8]) -> Result<Option<Tree>, Fail>
    requires { IsReady world.old }
    ensures { IsReady world.new }
{
    let mut list = Vec::new(world.alloc);
    list.push(b'(')?;
    list.extend_from_slice(text)?;
    list.push(b')')?;
    assert!(rt; list.len() < 1000 && world.names.count() < 1000);
    let Ok(toks) = tokens_of_text(world.alloc, &mut world.names, &list) else {
        return Ok(None);
    };
    if toks.len() > 1000 {
        return Ok(None);
    }
    Ok(last_tree(&mut Builder::new(world.alloc), &toks))
}

// The first tree of a list, as a sort.
fn sort_in<'t>(tree: &'t Tree) -> Option<RawSort<'t>> {
    let (list, _) = Trees::of(tree).split()?;
    let Part::List { parts, .. } = list else {
        return None;
    };
    let (part, _) = parts.split()?;
    let Ok(raw) = read_sort(part) else {
        return None;
    };
    Some(raw)
}

// The first tree of a list, as a term.
fn term_in<'t>(tree: &'t Tree) -> Option<RawTerm<'t>> {
    let (list, _) = Trees::of(tree).split()?;
    let Part::List { parts, .. } = list else {
        return None;
    };
    let (part, _) = parts.split()?;
    let Ok(raw) = read_term(part) else {
        return None;
    };
    Some(raw)
}

// The name that a text is.
fn name_of(rt: &impl Abort, world: &mut World, text: &[u8]) -> Result<NameId, Fail>
    requires { IsReady world.old }
    ensures ready { IsReady world.new }
    ensures name { IfOk result (λ name. name < length world.new.names) }
{
    let tree = tree_of(rt, world, text)?.expect(rt, "a list");
    let raw = sort_in(&tree).expect(rt, "a sort");
    let name = match raw.kind() {
        RawSortKind::Identifier(identifier) => symbol_of(&identifier),
        RawSortKind::Applied { .. } => None,
    };
    let name = name.expect(rt, "a symbol");
    assert!(rt; is_named(&world.names, name));
    Ok(name)
}

fn symbol_of(identifier: &RawIdentifier) -> Option<NameId> {
    match identifier.kind() {
        RawIdentifierKind::Symbol(tok) => Some(tok.name),
        RawIdentifierKind::Indexed { .. } => None,
    }
}

// The sort of a text, under one parameter or none.
fn sort_of(
    rt: &impl Abort,
    world: &mut World,
    params: &[NameId],
    text: &[u8],
) -> Result<Result<SortRef, TyError>, Fail>
    requires { IsReady world.old }
    ensures ready { IsReady world.new }
    ensures schema { IfOk result (λ r. IfOk r (λ s. IsReadySchema world.new.names world.new.sorts (length params.now) s)) }
{
    let tree = tree_of(rt, world, text)?.expect(rt, "a list");
    let raw = sort_in(&tree).expect(rt, "a sort");
    Ok(type_sort(world, params, raw))
}

// Declares a sort symbol that is not in use.
fn declare(world: &mut World, name: NameId, entry: SortEntry) -> bool
    requires ready { IsReady world.old }
    requires name { name < length world.old.names }
    requires entry { IsReadySortEntry world.old.names world.old.sorts entry }
    ensures { IsReady world.new }
{
    if is_theory_sort(&world.names, &world.theories, name) {
        return false;
    }
    match world.scopes.declare_sort(name, entry) {
        Ok(()) => true,
        Err(_) => false,
    }
}

// Defines a sort symbol with no parameter or one.
fn define(
    rt: &impl Abort,
    world: &mut World,
    symbol: &[u8],
    param: &[u8],
    body: &[u8],
) -> Result<(), Fail>
    requires { IsReady world.old }
    ensures { IsReady world.new }
{
    let params = params_of(rt, world, param)?;
    let name = name_of(rt, world, symbol)?;
    let sort = sort_of(rt, world, &params, body)?.ok().expect(rt, "a sort");
    assert!(rt; is_named(&world.names, name) && params.len() < 2);
    let entry = SortEntry::Defined {
        params: params.len() as u32,
        sort,
    };
    let declared = declare(world, name, entry);
    assert!(rt; declared);
    Ok(())
}

// Declares a free sort symbol.
fn declare_free(
    rt: &impl Abort,
    world: &mut World,
    symbol: &[u8],
    no: u32,
    arity: u32,
) -> Result<(), Fail>
    requires { IsReady world.old }
    ensures { IsReady world.new }
{
    let name = name_of(rt, world, symbol)?;
    let no = DeclNo(no);
    let declared = declare(world, name, SortEntry::Free { no, arity });
    assert!(rt; declared);
    Ok(())
}

// The parameter, if its text is not empty.
fn params_of(rt: &impl Abort, world: &mut World, param: &[u8]) -> Result<Vec<NameId>, Fail>
    requires { IsReady world.old }
    ensures { IsReady world.new }
{
    let mut params = Vec::new(world.alloc);
    if !param.is_empty() {
        params.push(name_of(rt, world, param)?)?;
    }
    Ok(params)
}

// The world of the rows, under some theories.
#[tactic(auto, using(crate::proofs::ReadyCalls::ready_calls))]
fn world_of(rt: &impl Abort, alloc: Global, theories: Theories) -> Result<World, Fail>
    ensures { IfOk result IsReady }
{
    let mut state = World::new(alloc)?;
    state.theories = theories;
    declare_free(rt, &mut state, b"E", 0, 0)?;
    declare_free(rt, &mut state, b"P", 1, 2)?;
    define(rt, &mut state, b"D", b"", b"E")?;
    define(rt, &mut state, b"G", b"X", b"(P X E)")?;
    define(rt, &mut state, b"D1", b"", b"(P E E)")?;
    for (symbol, body) in &DOUBLED {
        define(rt, &mut state, symbol, b"", body)?;
    }
    Ok(state)
}

// The answer of a row.
fn answer(
    rt: &impl Abort,
    world: &mut World,
    param: &[u8],
    text: &[u8],
) -> Result<(&'static [u8], u32), Fail>
    requires { IsReady world.old }
    ensures { IsReady world.new }
{
    let params = params_of(rt, world, param)?;
    match sort_of(rt, world, &params, text)? {
        Ok(sort) => Ok((b"ok", sort.node_count())),
        // The list round the text adds a byte.
        Err(TyError::Fault(place)) => Ok((place.code.text(), place.at.wrapping_sub(1))),
        Err(TyError::NoMemory) => Ok((b"no memory", 0)),
    }
}

fn compare(rt: &impl Abort, state: &mut World, rows: &[Row]) -> Result<(), Fail>
    requires { IsReady state.old }
{
    for (param, text, word, number) in rows {
        let (got, at) = answer(rt, state, param, text)?;
        assert!(rt; got == *word && at == *number, "{text:?}");
    }
    Ok(())
}

// The answer of a term, with no variables round it.
fn term_row(rt: &impl Abort, world: &mut World, text: &[u8]) -> Result<(&'static [u8], u32), Fail>
    requires { IsReady world.old }
    ensures { IsReady world.new }
{
    let tree = tree_of(rt, world, text)?.expect(rt, "a list");
    let raw = term_in(&tree).expect(rt, "a term");
    match type_term(world, &[], raw) {
        Ok(_) => Ok((b"ok", 0)),
        Err(TyError::Fault(place)) => Ok((place.code.text(), place.at.wrapping_sub(1))),
        Err(TyError::NoMemory) => Ok((b"no memory", 0)),
    }
}

fn compare_terms(rt: &impl Abort, state: &mut World, rows: &[TermRow]) -> Result<(), Fail>
    requires { IsReady state.old }
{
    for (text, word, number) in rows {
        let (got, at) = term_row(rt, state, text)?;
        assert!(rt; got == *word && at == *number, "{text:?}");
    }
    Ok(())
}

#[test]
fn terms_of_ints(rt: HostRuntime) -> Result<(), Fail> {
    let theories = Theories {
        ints: true,
        arrays: false,
        bits: false,
    };
    let mut world = world_of(&rt, rt.alloc(), theories)?;
    compare_terms(&rt, &mut world, &TERMS)
}

#[test]
fn terms_on_bit_vectors(rt: HostRuntime) -> Result<(), Fail> {
    let theories = Theories {
        ints: true,
        arrays: true,
        bits: true,
    };
    let mut world = world_of(&rt, rt.alloc(), theories)?;
    compare_terms(&rt, &mut world, &BIT_VECTORS)
}

#[test]
fn sorts_of_core(rt: HostRuntime) -> Result<(), Fail> {
    let theories = Theories {
        ints: false,
        arrays: false,
        bits: false,
    };
    let mut world = world_of(&rt, rt.alloc(), theories)?;
    compare(&rt, &mut world, &SORTS)
}

#[test]
fn sorts_of_theories(rt: HostRuntime) -> Result<(), Fail> {
    let theories = Theories {
        ints: true,
        arrays: true,
        bits: true,
    };
    let mut world = world_of(&rt, rt.alloc(), theories)?;
    compare(&rt, &mut world, &THEORY_SORTS)
}

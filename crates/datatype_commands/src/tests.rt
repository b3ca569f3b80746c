//! Declarations of datatypes, worked by hand from the rules.
ghost use Rattle.std.specs.Prelude.{◌≡◌, ◌<◌, ◌+◌, ◌≤◌, ◌^◌, [], IsTrue, length};
ghost use Rattle.scope_stack.specs.Environment.{empty};
ghost use Rattle.term_store.specs.Script.{empty_script};
ghost use Rattle.typer.specs.Ready.{IsReady};
ghost use Rattle.datatype_commands.specs.Answers.{HaveNames};

use crate::{declare_parts, type_group, type_single};
use cmd_grammar::{RawCommandKind, RawDataDec, RawDataDecs, RawSortDecs, read_command};
use dt_rules::TyError;
use lex_core::{NameId, Names, Place, Tok, tokens_of_text};
use scope_stack::FunKind;
use sexp_core::{Builder, Tree};
use sig_table::Code;
use std::alloc::Global;
use std::process::Abort;
use std::slice::from_ref;
use std::test::Fail;
use term_store::Datatype;
use typer::World;

// What became of a declaration: the constructors of the last datatype counted, with the number of the first of them; or the fault.
#[derive(Clone, Copy, Debug, PartialEq, Eq)]
enum Answer {
    Accepted(usize, u32),
    Fault(Code, u32),
    NoMemory,
    Unread,
}

// Declarations of one datatype, each in a world without declarations and of Core alone. The sort symbol has the number 0, and the
// first constructor the number after it.
static SINGLE: [(&[u8], Answer); 10] = [
    (b"(declare-datatype U ((u)))", Answer::Accepted(1, 1)),
    (
        b"(declare-datatype L ((nil) (cons (head Bool) (tail L))))",
        Answer::Accepted(2, 1),
    ),
    (
        b"(declare-datatype L (par (X) ((nil) (cons (head X) (tail (L X))))))",
        Answer::Accepted(2, 1),
    ),
    // The name of a constructor, and that of Core's `true`, is in use.
    (
        b"(declare-datatype U ((u) (u)))",
        Answer::Fault(Code::DatatypeNameInUse, 26),
    ),
    (
        b"(declare-datatype U ((true)))",
        Answer::Fault(Code::DatatypeNameInUse, 22),
    ),
    (
        b"(declare-datatype Bool ((b)))",
        Answer::Fault(Code::SortNameInUse, 18),
    ),
    // Each list holds another.
    (
        b"(declare-datatype L ((cons (head Bool) (tail L))))",
        Answer::Fault(Code::NotWellFounded, 18),
    ),
    (
        b"(declare-datatype L (par (X X) ((nil))))",
        Answer::Fault(Code::RepeatedVariable, 28),
    ),
    (
        b"(declare-datatype L ((nil (f Foo))))",
        Answer::Fault(Code::UnknownSort, 29),
    ),
    (
        b"(declare-datatype L ((c (f (L Bool)))))",
        Answer::Fault(Code::WrongSortArity, 27),
    ),
];

// Declarations of groups. The sort symbols have the first numbers, and then each constructor is followed by its selectors.
static GROUPS: [(&[u8], Answer); 7] = [
    (
        b"(declare-datatypes ((A 0) (B 0)) (((a (f B))) ((b))))",
        Answer::Accepted(1, 4),
    ),
    (
        b"(declare-datatypes ((A 0) (A 0)) (((a)) ((b))))",
        Answer::Fault(Code::SortNameInUse, 27),
    ),
    (
        b"(declare-datatypes ((A 4294967296)) (((a))))",
        Answer::Fault(Code::NumberTooLarge, 23),
    ),
    // More datatypes than sort symbols, and a parameter too few.
    (
        b"(declare-datatypes ((A 0)) (((a)) ((b))))",
        Answer::Fault(Code::WrongParameterCount, 0),
    ),
    (
        b"(declare-datatypes ((A 1)) (((a))))",
        Answer::Fault(Code::WrongParameterCount, 28),
    ),
    // Each datatype holds the other.
    (
        b"(declare-datatypes ((A 0) (B 0)) (((a (f B))) ((b (g A)))))",
        Answer::Fault(Code::NotWellFounded, 21),
    ),
    (
        b"(declare-datatypes ((A 0) (B 0)) (((a)) ((a))))",
        Answer::Fault(Code::DatatypeNameInUse, 42),
    ),
];

fn give(builder: &mut Builder, tok: Tok) -> Option<Tree>
    requires { length builder.old.0 < 2 ^ 31 }
    ensures { length builder.new.0 ≤ length builder.old.0 + 1 }
{
    builder.take(tok).unwrap_or(None)
}

// The tree that the last token completes.
fn last_tree(builder: &mut Builder, toks: &[Tok]) -> Option<Tree>
    requires { length builder.old.0 + length toks.now < 2 ^ 31 }
{
    let mut last = None;
    for tok in toks {
        last = give(builder, *tok);
    }
    last
}

fn tree_of(alloc: Global, names: &mut Names, text: &[u8]) -> Option<Tree> {
    if text.len() > 1000 || names.count() > 1000 {
        return None;
    }
    let Ok(toks) = tokens_of_text(alloc, names, text) else {
        return None;
    };
    if toks.len() > 1000 {
        return None;
    }
    last_tree(&mut Builder::new(alloc), &toks)
}

fn is_named(names: &Names, name: NameId) -> bool
    ensures { IsTrue result → name < length names.now }
{
    (name.number() as usize) < names.count()
}

// Whether the table has the names of the sort symbols.
fn are_named(names: &Names, sorts: &RawSortDecs) -> bool
    ensures { IsTrue result → HaveNames names.now sorts.now }
{
    let mut next = sorts.split();
    while let Some((first, rest)) = next {
        if !is_named(names, first.name.name) {
            return false;
        }
        next = rest.split();
    }
    true
}

fn fault_answer(error: &TyError) -> Answer {
    match error {
        TyError::Fault(Place { code, at }) => Answer::Fault(*code, *at),
        TyError::NoMemory => Answer::NoMemory,
    }
}

fn accepted(group: &[Datatype]) -> Answer {
    let Some(datatype) = group.last() else {
        return Answer::Unread;
    };
    let constructors = datatype.constructors.as_slice();
    let Some(first) = constructors.first() else {
        return Answer::Unread;
    };
    Answer::Accepted(constructors.len(), first.no.0)
}

// What becomes of the declaration of one datatype.
#[tactic(auto, using(crate::proofs::FreshWorlds::knows_none))]
fn single_answer(alloc: Global, world: &mut World, at: u32, name: &Tok, raw: RawDataDec) -> Answer
    requires ready { IsReady world.old }
    requires scopes { world.old.scopes ≡ empty }
    requires script { world.old.script ≡ empty_script }
    requires begins { world.old.seen.items ≡ [] }
{
    if !is_named(&world.names, name.name) {
        return Answer::Unread;
    }
    match type_single(alloc, world, at, name, raw) {
        Ok(datatype) => accepted(from_ref(&datatype)),
        Err(error) => fault_answer(&error),
    }
}

// .. of a group.
#[tactic(auto, using(crate::proofs::FreshWorlds::knows_none))]
fn group_answer(
    alloc: Global,
    world: &mut World,
    at: u32,
    sorts: &RawSortDecs,
    datatypes: &RawDataDecs,
) -> Answer
    requires ready { IsReady world.old }
    requires scopes { world.old.scopes ≡ empty }
    requires script { world.old.script ≡ empty_script }
    requires begins { world.old.seen.items ≡ [] }
{
    if !are_named(&world.names, sorts) {
        return Answer::Unread;
    }
    match type_group(alloc, world, at, sorts, datatypes) {
        Ok(group) => accepted(group.as_slice()),
        Err(error) => fault_answer(&error),
    }
}

fn tree_answer(alloc: Global, world: &mut World, tree: &Tree) -> Answer
    requires ready { IsReady world.old }
    requires scopes { world.old.scopes ≡ empty }
    requires script { world.old.script ≡ empty_script }
    requires begins { world.old.seen.items ≡ [] }
{
    let Ok(command) = read_command(alloc, &world.names, tree) else {
        return Answer::Unread;
    };
    let at = command.at();
    match command.kind() {
        RawCommandKind::DeclareDatatype { name, declaration } => {
            single_answer(alloc, world, at, &name, declaration)
        }
        RawCommandKind::DeclareDatatypes { sorts, datatypes } => {
            group_answer(alloc, world, at, &sorts, &datatypes)
        }
        _ => Answer::Unread,
    }
}

// The answer to a text in a new world.
#[tactic(auto, using(typer::proofs::ReadyCalls::ready_calls))]
fn answer_to(alloc: Global, text: &[u8]) -> Answer {
    let Ok(mut world) = World::new(alloc) else {
        return Answer::NoMemory;
    };
    let Some(tree) = tree_of(alloc, &mut world.names, text) else {
        return Answer::Unread;
    };
    tree_answer(alloc, &mut world, &tree)
}

#[test]
fn single_datatypes(rt: HostRuntime) {
    for (text, want) in &SINGLE {
        assert_eq!(rt; answer_to(rt.alloc(), text), *want, "{text:?}");
    }
}

#[test]
fn groups_of_datatypes(rt: HostRuntime) {
    for (text, want) in &GROUPS {
        assert_eq!(rt; answer_to(rt.alloc(), text), *want, "{text:?}");
    }
}

// What a live function symbol is: its number, its kind, and how many parameters and arguments it has.
fn live(world: &World, name: NameId) -> Option<(u32, FunKind, u32, usize)> {
    let entry = world.scopes.find_fun(name)?;
    Some((
        entry.no.0,
        entry.kind,
        entry.params,
        entry.args.as_slice().len(),
    ))
}

fn live_part(world: &World, datatype: &Datatype, i: usize) -> Option<(u32, FunKind, u32, usize)> {
    let cons = datatype.constructors.as_slice().get(1)?;
    match i {
        0 => live(world, cons.name),
        1 => live(world, cons.fields.as_slice().first()?.name),
        _ => live(world, cons.fields.as_slice().get(1)?.name),
    }
}

// The datatype of a declaration, whose parts are live.
#[tactic(auto, using(crate::proofs::FreshWorlds::knows_none))]
fn declared(alloc: Global, world: &mut World, tree: &Tree) -> Option<Datatype>
    requires ready { IsReady world.old }
    requires scopes { world.old.scopes ≡ empty }
    requires script { world.old.script ≡ empty_script }
    requires begins { world.old.seen.items ≡ [] }
{
    let Ok(command) = read_command(alloc, &world.names, tree) else {
        return None;
    };
    let RawCommandKind::DeclareDatatype { name, declaration } = command.kind() else {
        return None;
    };
    if !is_named(&world.names, name.name) {
        return None;
    }
    let Ok(datatype) = type_single(alloc, world, 0, &name, declaration) else {
        return None;
    };
    match declare_parts(alloc, world, from_ref(&datatype)) {
        Ok(()) => Some(datatype),
        Err(_) => None,
    }
}

#[test]
#[tactic(auto, using(typer::proofs::ReadyCalls::ready_calls))]
fn parts_are_live(rt: HostRuntime) -> Result<(), Fail> {
    let alloc = rt.alloc();
    let mut world = World::new(alloc)?;
    let text = b"(declare-datatype L (par (X) ((nil) (cons (head X) (tail (L X))))))";
    let tree = tree_of(alloc, &mut world.names, text).expect(&rt, "a tree");
    let datatype = declared(alloc, &mut world, &tree).expect(&rt, "a datatype");
    let cons = live_part(&world, &datatype, 0);
    assert_eq!(rt; cons, Some((2, FunKind::Constructor, 1, 2)));
    let head = live_part(&world, &datatype, 1);
    assert_eq!(rt; head, Some((3, FunKind::Selector, 1, 1)));
    let tail = live_part(&world, &datatype, 2);
    assert_eq!(rt; tail, Some((4, FunKind::Selector, 1, 1)));
    Ok(())
}

ghost use Rattle.std.specs.Prelude.{◌≡◌, false};

mod bits;
mod datatypes;
mod definitions;
mod fragments;
mod large;
mod linear;
mod logics;
mod naming;

use super::*;
use crate::rules::text_of;
use io_core::{MemSink, put_all};
use sig_table::Code;
use std::alloc::{AllocError, Global};
use std::process::Abort;
use std::test::Fail;
use term_store::{TermNode, TypedCommand};

// What a session answers that is fed the text in two chunks, the first of so many bytes, and then finished.
fn answer(
    rt: &impl Abort,
    alloc: Global,
    text: &[u8],
    first: usize,
) -> Result<(Result<(), Stop>, u32), Fail> {
    assert!(rt; first <= text.len());
    assert!(rt; text.len() < 10_000_000);
    let (front, back) = text.split_at(first);
    let mut session = Session::new(alloc)?;
    assert!(rt; session.taken() == 0);
    if let Err(stop) = session.feed(front) {
        return Ok((Err(stop), session.script().len() as u32));
    }
    assert!(rt; session.taken() < 10_000_000);
    if let Err(stop) = session.feed(back) {
        return Ok((Err(stop), session.script().len() as u32));
    }
    assert_eq!(rt; session.taken() as usize, text.len());
    if let Err(stop) = session.finish() {
        assert_eq!(rt; session.finish(), Err(stop));
        return Ok((Err(stop), session.script().len() as u32));
    }
    Ok((Ok(()), session.script().len() as u32))
}

fn refused(command: u32, at: u32, rule: Code) -> Result<(), Stop> {
    Err(Stop::Refused(Refusal { command, at, rule }))
}

fn try_refused(
    rt: &impl Abort,
    alloc: Global,
    text: &[u8],
    command: u32,
    at: u32,
    rule: Code,
) -> Result<(), Fail> {
    assert!(rt; 0 < command);
    assert_eq!(rt;
        answer(rt, alloc, text, 0)?,
        (refused(command, at, rule), command - 1)
    );
    Ok(())
}

// The text of these commands and then those.
fn joined(alloc: Global, front: &[u8], back: &[u8]) -> Result<MemSink, Fail> {
    let mut text = MemSink::new(alloc, 1_000, Vec::new(alloc))?;
    put_all(&mut text, front)?;
    put_all(&mut text, back)?;
    Ok(text)
}

fn try_accepted_after(
    rt: &impl Abort,
    alloc: Global,
    front: &[u8],
    back: &[u8],
    count: u32,
) -> Result<(), Fail> {
    let text = joined(alloc, front, back)?;
    assert_eq!(rt; answer(rt, alloc, text.bytes(), 0)?, (Ok(()), count));
    Ok(())
}

fn try_refused_after(
    rt: &impl Abort,
    alloc: Global,
    front: &[u8],
    back: &[u8],
    command: u32,
    at: u32,
    rule: Code,
) -> Result<(), Fail> {
    let text = joined(alloc, front, back)?;
    try_refused(rt, alloc, text.bytes(), command, at, rule)
}

#[test]
fn refuses_texts_at_their_bytes(rt: HostRuntime) -> Result<(), Fail> {
    let rows: [(&[u8], u32, u32, Code); 32] = [
        (b"a[", 1, 0, Code::AtomOutsideLists),
        (b"(echo \"a\"", 1, 0, Code::UnclosedList),
        (
            b"(set-logic QF_UF)(assert (= 007 7))",
            2,
            28,
            Code::MalformedWord,
        ),
        (b"(echo |a\\b|)", 1, 8, Code::BackslashInQuotedSymbol),
        (b"(echo \"a", 1, 6, Code::UnclosedString),
        (b"(echo [)", 1, 6, Code::UnexpectedByte),
        (
            b"(set-logic QF_UF)(check-sat))",
            3,
            28,
            Code::UnmatchedClose,
        ),
        (b"(set-logic QF_UF) x", 2, 18, Code::AtomOutsideLists),
        (b"(foo)", 1, 0, Code::UnknownCommand),
        (b"(check-sat 1)", 1, 0, Code::WrongCommandForm),
        (b"(assert (let () true))", 1, 8, Code::WrongTermForm),
        (b"(push 1)", 1, 0, Code::LogicNotSet),
        (b"(get-value (p))", 1, 0, Code::LogicNotSet),
        (
            b"(set-logic QF_UF)(assert (and true (match true ((y y)))))",
            2,
            42,
            Code::MatchOnNonDatatype,
        ),
        (
            b"(set-logic QF_UF)(assert (let ((x true)) (! x :weight 1 :named n)))",
            2,
            63,
            Code::WrongNamedTerm,
        ),
        (b"(assert true)", 1, 0, Code::LogicNotSet),
        (b"(get-model)", 1, 0, Code::LogicNotSet),
        (
            b"(set-logic QF_UF)(set-logic QF_UF)",
            2,
            17,
            Code::LogicAlreadySet,
        ),
        (b"(set-logic QF_XX)", 1, 0, Code::UnknownLogic),
        (
            b"(set-logic QF_UF)(set-option :global-declarations true)",
            2,
            17,
            Code::GlobalOptionTooLate,
        ),
        (
            b"(set-logic QF_UF)(declare-const p Bool)(declare-const p Bool)",
            3,
            54,
            Code::FunctionNameInUse,
        ),
        (
            b"(set-logic QF_UF)(declare-const and Bool)",
            2,
            32,
            Code::FunctionNameInUse,
        ),
        (
            b"(set-logic QF_UF)(declare-const p (Foo Bar))",
            2,
            39,
            Code::UnknownSort,
        ),
        (
            b"(set-logic QF_UF)(declare-const p (Bool Bool))",
            2,
            34,
            Code::WrongSortArity,
        ),
        (
            b"(set-logic QF_UF)(declare-const p (_ BitVec 8))",
            2,
            34,
            Code::UnknownSort,
        ),
        (b"(set-logic QF_UF)(assert q)", 2, 25, Code::UnknownFunction),
        (
            b"(set-logic QF_UF)(assert (and u v))",
            2,
            30,
            Code::UnknownFunction,
        ),
        (
            b"(set-logic QF_UF)(assert ((_ is c) true))",
            2,
            25,
            Code::WrongIndex,
        ),
        (b"(set-logic QF_UF)(assert not)", 2, 25, Code::NoRank),
        (b"(set-logic QF_UF)(assert (and true))", 2, 25, Code::NoRank),
        (
            b"(set-logic QF_UF)(assert (true false))",
            2,
            25,
            Code::NoRank,
        ),
        (
            b"(set-logic QF_UF)(assert (not 1))",
            2,
            30,
            Code::LiteralWithoutSort,
        ),
    ];
    for (text, command, at, rule) in &rows {
        try_refused(&rt, rt.alloc(), text, *command, *at, *rule)?;
    }
    Ok(())
}

#[test]
fn refuses_sorts_and_levels_at_their_bytes(rt: HostRuntime) -> Result<(), Fail> {
    let rows: [(&[u8], u32, u32, Code); 10] = [
        (
            b"(set-logic QF_UF)(declare-sort P 2)(declare-sort E 0)(define-sort D1 () (P E E))\
            (define-sort D2 () (P D1 D1))(define-sort D3 () (P D2 D2))(define-sort D4 () (P D3 D3))\
            (define-sort D5 () (P D4 D4))(define-sort D6 () (P D5 D5))(define-sort D7 () (P D6 D6))\
            (define-sort D8 () (P D7 D7))(define-sort D9 () (P D8 D8))",
            12,
            302,
            Code::SortTooLarge,
        ),
        (
            b"(set-logic QF_UF)(declare-sort P 2)(declare-const c (P Bool))",
            3,
            52,
            Code::WrongSortArity,
        ),
        (
            b"(set-logic QF_UF)(declare-sort S 0)(declare-sort P 2)(define-sort D () S)\
            (define-sort F (S) (P S D))",
            5,
            97,
            Code::CapturedSortParameter,
        ),
        (
            b"(set-logic QF_UF)(push 1)(declare-sort S 0)(pop 1)(declare-const c S)",
            5,
            67,
            Code::UnknownSort,
        ),
        (
            b"(set-option :global-declarations true)(set-logic QF_UF)(push 1)(declare-sort S 0)\
            (pop 1)(declare-sort S 2)",
            6,
            102,
            Code::SortNameInUse,
        ),
        (b"(set-logic QF_UF)(pop 1)", 2, 17, Code::TooFewLevels),
        (
            b"(set-logic QF_UF)(push 65535)(push 1)",
            3,
            29,
            Code::TooManyLevels,
        ),
        (
            b"(set-logic QF_UF)(define-sort D (X Y X) Bool)",
            2,
            37,
            Code::RepeatedVariable,
        ),
        (
            b"(set-logic QF_UF)(declare-sort S 4294967296)",
            2,
            33,
            Code::NumberTooLarge,
        ),
        (
            b"(set-logic QF_UF)(declare-sort S 0)(declare-fun f (S) S)(declare-const a S)\
            (assert (f a))",
            5,
            83,
            Code::WrongTermSort,
        ),
    ];
    for (text, command, at, rule) in &rows {
        try_refused(&rt, rt.alloc(), text, *command, *at, *rule)?;
    }
    Ok(())
}

#[test]
fn refuses_names_of_theories_at_their_bytes(rt: HostRuntime) -> Result<(), Fail> {
    let rows: [(&[u8], u32, u32, Code); 5] = [
        (
            b"(set-logic QF_UF)(declare-const x Int)",
            2,
            34,
            Code::UnknownSort,
        ),
        (
            b"(set-logic ALL)(reset)(set-logic QF_UF)(declare-const x Int)",
            4,
            56,
            Code::UnknownSort,
        ),
        (
            b"(set-logic ALL)(declare-const select Bool)",
            2,
            30,
            Code::FunctionNameInUse,
        ),
        (
            b"(set-logic ALL)(declare-sort Int 0)",
            2,
            29,
            Code::SortNameInUse,
        ),
        (
            b"(set-logic QF_UF)(declare-const or Bool)",
            2,
            32,
            Code::FunctionNameInUse,
        ),
    ];
    for (text, command, at, rule) in &rows {
        try_refused(&rt, rt.alloc(), text, *command, *at, *rule)?;
    }
    Ok(())
}

#[test]
fn refuses_terms_of_theories_at_their_bytes(rt: HostRuntime) -> Result<(), Fail> {
    let rows: [(&[u8], u32, u32, Code); 12] = [
        (
            b"(set-logic ALL)(declare-const x Int)(assert (= x true))",
            3,
            44,
            Code::NoRank,
        ),
        (
            b"(set-logic ALL)(declare-const x Int)(assert (= (as x Bool) 1))",
            3,
            47,
            Code::WrongQualifiedSort,
        ),
        (b"(set-logic ALL)(assert 1)", 2, 23, Code::WrongTermSort),
        (
            b"(set-logic ALL)(assert (forall ((x Int)) x))",
            2,
            41,
            Code::WrongTermSort,
        ),
        (
            b"(set-logic QF_UF)(assert (let ((y true)) (forall ((x Bool)) x)))",
            2,
            17,
            Code::QuantifierOutsideLogic,
        ),
        (
            b"(set-logic ALL)(assert (let ((x true) (x true)) x))",
            2,
            39,
            Code::RepeatedVariable,
        ),
        (
            b"(set-logic ALL)(assert (exists ((x Bool)) (and x y)))",
            2,
            49,
            Code::UnknownFunction,
        ),
        (
            b"(set-logic ALL)(assert (let ((x true)) (x x)))",
            2,
            39,
            Code::AppliedVariable,
        ),
        (
            b"(set-logic ALL)(assert \"a\")",
            2,
            23,
            Code::LiteralWithoutSort,
        ),
        (
            b"(set-logic ALL)(declare-const x Int)(assert ((_ divisible 0) x))",
            3,
            44,
            Code::WrongIndex,
        ),
        (
            b"(set-logic ALL)(declare-const x Int)(assert ((_ divisible) x))",
            3,
            44,
            Code::WrongTermForm,
        ),
        (
            b"(set-logic ALL)(declare-const x Int)(assert ((_ divisible 3) true))",
            3,
            44,
            Code::NoRank,
        ),
    ];
    for (text, command, at, rule) in &rows {
        try_refused(&rt, rt.alloc(), text, *command, *at, *rule)?;
    }
    Ok(())
}

#[test]
fn refuses_literals_at_their_bytes(rt: HostRuntime) -> Result<(), Fail> {
    let rows: [(&[u8], u32, u32, Code); 3] = [
        (
            b"(set-logic QF_UF)(declare-const p Bool)(check-sat-assuming (p (not p) q))",
            3,
            70,
            Code::UnknownFunction,
        ),
        (
            b"(set-logic QF_UF)(check-sat-assuming ((not q)))",
            2,
            43,
            Code::UnknownFunction,
        ),
        (
            b"(set-logic ALL)(declare-const x Int)(check-sat-assuming (x y))",
            3,
            57,
            Code::WrongTermSort,
        ),
    ];
    for (text, command, at, rule) in &rows {
        try_refused(&rt, rt.alloc(), text, *command, *at, *rule)?;
    }
    Ok(())
}

#[test]
fn accepts_terms_of_theories(rt: HostRuntime) -> Result<(), Fail> {
    let rows: [(&[u8], u32); 8] = [
        (
            b"(set-logic ALL)(declare-const a Bool)(declare-const x Int)\
            (assert (= x (- 5) (- 7 2 1)))(assert (=> a a a))(assert (distinct x 1 2))",
            6,
        ),
        (
            b"(set-logic ALL)(declare-const x Int)(assert (= (as x Int) 1))",
            3,
        ),
        (
            b"(set-logic ALL)(declare-const a (Array Int Int))\
            (assert (= (select (store a 0 1) 0) 1))",
            3,
        ),
        (
            b"(set-logic ALL)(declare-const x Int)(assert ((_ divisible 3) x))",
            3,
        ),
        (
            b"(set-logic QF_UF)(declare-const p Bool)(check-sat-assuming (p (not p)))",
            3,
        ),
        (b"(set-logic QF_UF)(declare-const select Bool)", 2),
        (
            b"(set-logic QF_UF)(declare-const p Bool)(assert (let ((q p) (p true)) (and q p)))",
            3,
        ),
        (
            b"(set-logic ALL)(declare-fun f (Int) Int)\
            (assert (forall ((x Int)) (! (= (f x) (f x)) :pattern ((f x)) :weight 2)))",
            3,
        ),
    ];
    for (text, count) in &rows {
        assert_eq!(rt; answer(&rt, rt.alloc(), text, 0)?, (Ok(()), *count));
    }
    Ok(())
}

#[test]
fn accepts_sorts_on_their_levels(rt: HostRuntime) -> Result<(), Fail> {
    let rows: [(&[u8], u32); 3] = [
        (
            b"(set-logic QF_UF)(declare-sort S 0)(declare-sort P 2)(define-sort D () S)\
            (define-sort F (T) (P T D))",
            5,
        ),
        (
            b"(set-logic QF_UF)(push 1)(declare-sort S 0)(pop 1)(declare-sort S 2)\
            (declare-const c (S Bool Bool))",
            6,
        ),
        (
            b"(set-logic QF_UF)(declare-sort S 0)(reset)(set-logic QF_UF)(declare-sort S 0)\
            (reset-assertions)(declare-sort S 0)",
            7,
        ),
    ];
    for (text, count) in &rows {
        assert_eq!(rt; answer(&rt, rt.alloc(), text, 0)?, (Ok(()), *count));
    }
    Ok(())
}

#[test]
fn accepts_every_spelling_of_a_symbol(rt: HostRuntime) -> Result<(), Fail> {
    let text: &[u8] = b"; note\n(set-logic |QF_UF|)(declare-const |a b| |Bool|)(assert |a b|);";
    assert_eq!(rt; answer(&rt, rt.alloc(), text, 0)?, (Ok(()), 3));
    assert_eq!(rt; answer(&rt, rt.alloc(), b"; note", 0)?, (Ok(()), 0));
    Ok(())
}

#[test]
fn answers_the_same_however_the_text_is_cut(rt: HostRuntime) -> Result<(), Fail> {
    let text: &[u8] = b"(set-logic QF_UF)(declare-const |ab";
    for first in 0..35 {
        let want = refused(2, 32, Code::UnclosedQuotedSymbol);
        assert_eq!(rt; answer(&rt, rt.alloc(), text, first)?, (want, 1));
    }
    Ok(())
}

// So many opening parentheses.
fn openings(alloc: Global, count: usize) -> Result<Vec<u8>, AllocError> {
    vec![in alloc; b'('; count]
}

#[test]
fn refuses_lists_too_deep(rt: HostRuntime) -> Result<(), Fail> {
    let text = openings(rt.alloc(), 4001)?;
    try_refused(
        &rt,
        rt.alloc(),
        text.as_slice(),
        1,
        4000,
        Code::ListsTooDeep,
    )
}

// Feeds the text byte by byte, and finishes.
fn bytewise(rt: &impl Abort, mut session: Session, text: &[u8]) -> Result<(), Stop>
    requires { session.finished ≡ false }
{
    assert!(rt; text.len() < 1_000_000);
    for byte in text {
        assert!(rt; session.taken() < 1_000_000);
        session.feed(&[*byte])?;
    }
    session.finish()
}

#[test]
fn takes_one_byte_at_a_time(rt: HostRuntime) -> Result<(), Fail> {
    let text: &[u8] = b"(set-logic QF_UF)(declare-const |ab";
    let session = Session::new(rt.alloc())?;
    assert_eq!(rt;
        bytewise(&rt, session, text),
        refused(2, 32, Code::UnclosedQuotedSymbol)
    );
    Ok(())
}

#[test]
fn accepts_the_commands_that_are_built(rt: HostRuntime) -> Result<(), Fail> {
    let text: &[u8] = b"(set-option :global-declarations true)(set-info :a (b))(get-option :a)\
        (get-info :name)(echo \"a\")(set-logic QF_UF)(declare-const p Bool)(declare-const q Bool)\
        (assert (and p (not q) true))(check-sat)(check-sat-assuming (p (not p)))(get-assertions)(get-assignment)(get-model)\
        (get-proof)(get-unsat-assumptions)(get-unsat-core)(set-option :a 1)";
    assert_eq!(rt; answer(&rt, rt.alloc(), text, 0)?, (Ok(()), 18));
    Ok(())
}

// An accepted `exit` ends the script, wherever the text is cut.
#[test]
fn ends_at_an_exit(rt: HostRuntime) -> Result<(), Fail> {
    let text: &[u8] = b"(exit)garbage [";
    for first in 0..15 {
        assert_eq!(rt; answer_of_two(&rt, rt.alloc(), text, first)?, (Ok(()), 1));
    }
    Ok(())
}

// What a session answers that is fed the text in two chunks, the first of so many bytes, where an `exit` may end it.
fn answer_of_two(
    rt: &impl Abort,
    alloc: Global,
    text: &[u8],
    first: usize,
) -> Result<(Result<(), Stop>, u32), Fail> {
    assert!(rt; first <= text.len());
    assert!(rt; text.len() < 1_000_000);
    let (front, back) = text.split_at(first);
    let mut session = Session::new(alloc)?;
    assert!(rt; session.taken() == 0);
    if let Err(stop) = session.feed(front) {
        return Ok((Err(stop), session.script().len() as u32));
    }
    assert!(rt; session.taken() < 1_000_000);
    if let Err(stop) = session.feed(back) {
        return Ok((Err(stop), session.script().len() as u32));
    }
    Ok((session.finish(), session.script().len() as u32))
}

// The word of a kept command with its name and two of its numbers.
fn told<'s>(session: &'s Session, i: usize) -> (&'static [u8], &'s [u8], usize, usize) {
    let names = session.names();
    match session.script().command(i) {
        Some(TypedCommand::SetLogic { name }) => (b"set-logic", text_of(names, *name), 0, 0),
        Some(TypedCommand::DeclareSort { no, name, arity }) => {
            (
                b"declare-sort",
                text_of(names, *name),
                no.0 as usize,
                *arity as usize,
            )
        }
        Some(TypedCommand::DefineSort { name, params, sort }) => (
            b"define-sort",
            text_of(names, *name),
            params.as_slice().len(),
            sort.node_count() as usize,
        ),
        Some(TypedCommand::DeclareFun { no, name, args, .. }) => (
            b"declare-fun",
            text_of(names, *name),
            no.0 as usize,
            args.as_slice().len(),
        ),
        Some(TypedCommand::DeclareConst { no, name, sort }) => (
            b"declare-const",
            text_of(names, *name),
            no.0 as usize,
            sort.node_count() as usize,
        ),
        Some(TypedCommand::Push { count }) => (b"push", b"", *count as usize, 0),
        Some(TypedCommand::Pop { count }) => (b"pop", b"", *count as usize, 0),
        Some(TypedCommand::Assert { term }) => match term.node() {
            TermNode::App { head, args } => {
                (b"assert", text_of(names, head.name), args.len(), 0)
            }
            _ => (b"assert", b"", 0, 0),
        },
        Some(TypedCommand::CheckSatAssuming { terms }) => {
            (b"check-sat-assuming", b"", terms.as_slice().len(), 0)
        }
        Some(TypedCommand::SetInfo { key, value }) => {
            (
                b"set-info",
                text_of(names, *key),
                value.is_some() as usize,
                0,
            )
        }
        Some(TypedCommand::SetOption { key, value }) => {
            (
                b"set-option",
                text_of(names, *key),
                value.is_some() as usize,
                0,
            )
        }
        Some(TypedCommand::Echo { text }) => (b"echo", text_of(names, *text), 0, 0),
        Some(TypedCommand::Exit) => (b"exit", b"", 0, 0),
        Some(_) => (b"other", b"", 0, 0),
        None => (b"", b"", 0, 0),
    }
}

// The script holds the typed commands that were accepted, also after a refusal.
#[test]
fn keeps_typed_commands(rt: HostRuntime) -> Result<(), Fail> {
    let rows: [(&[u8], &[u8], usize, usize); 14] = [
        (b"set-option", b":print-success", 1, 0),
        (b"set-logic", b"ALL", 0, 0),
        (b"declare-sort", b"S", 0, 1),
        (b"define-sort", b"T", 1, 2),
        (b"declare-fun", b"f", 1, 2),
        (b"declare-const", b"a", 2, 2),
        (b"push", b"", 2, 0),
        (b"assert", b"f", 2, 0),
        (b"check-sat-assuming", b"", 2, 0),
        (b"set-info", b":status", 1, 0),
        (b"echo", b"hi", 0, 0),
        (b"pop", b"", 1, 0),
        (b"declare-const", b"p", 3, 1),
        (b"", b"", 0, 0),
    ];
    let text: &[u8] = b"(set-option :print-success true)(set-logic ALL)(declare-sort S 1)\
        (define-sort T (A) (S A))(declare-fun f ((T Int) Int) Bool)(declare-const a (S Int))(push 2)\
        (assert (f a 7))(check-sat-assuming (true (not true)))(set-info :status (sat 1))(echo \"hi\")\
        (pop 1)(declare-const |p| Bool)(assert a)(exit)";
    let mut session = Session::new(rt.alloc())?;
    assert!(rt; session.taken() == 0);
    let stop = session.feed(text);
    assert_eq!(rt; stop.is_err(), true);
    for (i, row) in rows.iter().enumerate() {
        assert_eq!(rt; told(&session, i), *row);
    }
    Ok(())
}

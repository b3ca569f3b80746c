//! Commands that define functions.
use super::{answer, try_refused};
use crate::Session;
use crate::rules::text_of;
use sig_table::Code;
use sort_store::DeclNo;
use std::test::Fail;

#[test]
fn refuses_definitions_at_their_bytes(rt: HostRuntime) -> Result<(), Fail> {
    let rows: [(&[u8], u32, u32, Code); 12] = [
        (
            b"(set-logic ALL)(define-fun f ((n Int)) Int (f n))",
            2,
            43,
            Code::UnknownFunction,
        ),
        (
            b"(set-logic ALL)(define-fun and () Int 1)",
            2,
            27,
            Code::FunctionNameInUse,
        ),
        (
            b"(set-logic ALL)(define-fun f ((x Int) (x Bool)) Int 1)",
            2,
            39,
            Code::RepeatedVariable,
        ),
        (
            b"(set-logic ALL)(define-fun f ((x Foo)) Int 1)",
            2,
            33,
            Code::UnknownSort,
        ),
        (
            b"(set-logic ALL)(define-fun f () Foo 1)",
            2,
            32,
            Code::UnknownSort,
        ),
        (
            b"(set-logic ALL)(define-fun f ((x Int)) Int true)",
            2,
            43,
            Code::WrongTermSort,
        ),
        (
            b"(set-logic ALL)(define-fun f ((x Int)) Int x)(assert x)",
            3,
            53,
            Code::UnknownFunction,
        ),
        (
            b"(set-logic ALL)(define-fun-rec f ((x Int)) Int (f true))",
            2,
            47,
            Code::NoRank,
        ),
        (
            b"(set-logic ALL)(define-fun f () Int 1)(define-fun-rec f () Int 1)",
            3,
            54,
            Code::FunctionNameInUse,
        ),
        (
            b"(set-logic QF_UF)(define-fun-rec f ((x Bool)) Bool (f x))",
            2,
            17,
            Code::RecursionOutsideLogic,
        ),
        (
            b"(set-logic QF_UF)(define-fun-rec f ((x Foo)) Bool (f x))",
            2,
            39,
            Code::UnknownSort,
        ),
        (
            b"(set-logic ALL)(get-value (1 y))",
            2,
            29,
            Code::UnknownFunction,
        ),
    ];
    for (text, command, at, rule) in &rows {
        try_refused(&rt, rt.alloc(), text, *command, *at, *rule)?;
    }
    Ok(())
}

#[test]
fn refuses_groups_of_definitions_at_their_bytes(rt: HostRuntime) -> Result<(), Fail> {
    let rows: [(&[u8], u32, u32, Code); 6] = [
        (
            b"(set-logic ALL)(define-funs-rec ((f ((n Int)) Int) (f () Bool)) ((g n) true))",
            2,
            52,
            Code::FunctionNameInUse,
        ),
        (
            b"(set-logic ALL)(define-funs-rec ((f ((n Int)) Int) (g ((m Int)) Bool)) ((f m) true))",
            2,
            75,
            Code::UnknownFunction,
        ),
        (
            b"(set-logic ALL)(define-funs-rec ((f ((n Int)) Int) (g ((m Int) (m Int)) Bool)) (n true))",
            2,
            64,
            Code::RepeatedVariable,
        ),
        (
            b"(set-logic ALL)(define-funs-rec ((f ((n Int)) Int) (g ((m Int)) Bool)) (n m))",
            2,
            74,
            Code::WrongTermSort,
        ),
        (
            b"(set-logic ALL)(define-funs-rec ((f ((n Int)) Int) (g ((m Foo)) Bool)) (true true))",
            2,
            58,
            Code::UnknownSort,
        ),
        (
            b"(set-logic QF_UF)(define-funs-rec ((f ((x Bool)) Bool)) (x))",
            2,
            17,
            Code::RecursionOutsideLogic,
        ),
    ];
    for (text, command, at, rule) in &rows {
        try_refused(&rt, rt.alloc(), text, *command, *at, *rule)?;
    }
    Ok(())
}

#[test]
fn accepts_definitions(rt: HostRuntime) -> Result<(), Fail> {
    let rows: [(&[u8], u32); 6] = [
        (
            b"(set-logic ALL)(define-fun-rec f ((n Int)) Int (ite (= n 0) 0 (f (- n 1))))",
            2,
        ),
        (
            b"(set-logic ALL)(define-fun inc ((n Int)) Int (+ n 1))(assert (= (inc 2) 3))",
            3,
        ),
        (
            b"(set-logic QF_UF)(declare-const x Bool)(declare-sort S 0)(declare-fun p (S) Bool)\
            (define-fun q ((x S)) Bool (p x))",
            5,
        ),
        (
            b"(set-logic ALL)(define-fun one () Int 1)(get-value (one (+ one 1)))",
            3,
        ),
        (
            b"(set-logic ALL)(push 1)(define-fun f () Int 1)(pop 1)(define-fun f () Bool true)(assert f)",
            6,
        ),
        (
            b"(set-logic ALL)(define-funs-rec ((even ((n Int)) Bool) (odd ((n Int)) Bool))\
            ((ite (= n 0) true (odd (- n 1))) (ite (= n 0) false (even (- n 1)))))(assert (even 4))",
            3,
        ),
    ];
    for (text, count) in &rows {
        assert_eq!(rt; answer(&rt, rt.alloc(), text, 0)?, (Ok(()), *count));
    }
    Ok(())
}

// The name of the definition that is kept under a number, how many parameters it has, and whether it is recursive.
fn kept(session: &Session, no: u32) -> (&[u8], usize, bool) {
    match session.script().defs().def(DeclNo(no)) {
        Some(def) => (
            text_of(session.names(), def.name),
            def.params.as_slice().len(),
            def.recursive,
        ),
        None => (b"", 0, false),
    }
}

// The script holds what was defined, also once it is no longer live.
#[test]
fn keeps_definitions(rt: HostRuntime) -> Result<(), Fail> {
    let text: &[u8] =
        b"(set-logic ALL)(declare-const a Int)(define-fun f ((x Int)) Int (+ x a))(push 1)\
        (define-fun-rec g ((x Int) (b Bool)) Bool (g x b))(pop 1)\
        (define-funs-rec ((h () Int) (k ((x Int)) Int)) ((k 0) h))(reset)";
    let mut session = Session::new(rt.alloc())?;
    assert!(rt; session.taken() == 0);
    let stop = session.feed(text);
    assert_eq!(rt; stop.is_ok(), true);
    let rows: [(u32, (&[u8], usize, bool)); 6] = [
        (0, (b"", 0, false)),
        (1, (b"f", 1, false)),
        (2, (b"g", 2, true)),
        (3, (b"h", 0, true)),
        (4, (b"k", 1, true)),
        (5, (b"", 0, false)),
    ];
    for (no, row) in &rows {
        assert_eq!(rt; kept(&session, *no), *row);
    }
    Ok(())
}

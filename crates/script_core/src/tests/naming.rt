//! Terms that `:named` gives names.
use super::{answer, try_refused};
use crate::Session;
use crate::rules::text_of;
use sig_table::Code;
use sort_store::DeclNo;
use std::test::Fail;

#[test]
fn refuses_named_terms_at_their_bytes(rt: HostRuntime) -> Result<(), Fail> {
    let rows: [(&[u8], u32, u32, Code); 11] = [
        (
            b"(set-logic ALL)(assert (forall ((x Int)) (! (= x x) :named n)))",
            2,
            59,
            Code::WrongNamedTerm,
        ),
        (
            b"(set-logic QF_UF)(assert (! n :named n))",
            2,
            28,
            Code::UnknownFunction,
        ),
        (
            b"(set-logic QF_UF)(assert (and (! true :named n) n))",
            2,
            48,
            Code::UnknownFunction,
        ),
        (
            b"(set-logic QF_UF)(assert (! true :named n))(assert (! false :named n))",
            3,
            67,
            Code::WrongNamedTerm,
        ),
        (
            b"(set-logic QF_UF)(define-fun f () Bool (! true :named f))",
            2,
            54,
            Code::WrongNamedTerm,
        ),
        (
            b"(set-logic QF_UF)(define-fun f ((x Bool)) Bool (! x :named n))",
            2,
            59,
            Code::WrongNamedTerm,
        ),
        (
            b"(set-logic ALL)(define-funs-rec ((f () Bool) (g () Bool)) (true (! f :named g)))",
            2,
            76,
            Code::WrongNamedTerm,
        ),
        (
            b"(set-logic QF_UF)(push 1)(assert (! true :named n))(pop 1)(assert n)",
            5,
            66,
            Code::UnknownFunction,
        ),
        (
            b"(set-logic QF_UF)(assert (! true :named n))(reset)(set-logic QF_UF)(assert n)",
            5,
            75,
            Code::UnknownFunction,
        ),
        (
            b"(set-logic QF_UF)(assert (! true :named n))(declare-const n Bool)",
            3,
            58,
            Code::FunctionNameInUse,
        ),
        (
            b"(set-logic QF_UF)(assert (! true :named n))(assert (n true))",
            3,
            51,
            Code::NoRank,
        ),
    ];
    for (text, command, at, rule) in &rows {
        try_refused(&rt, rt.alloc(), text, *command, *at, *rule)?;
    }
    Ok(())
}

#[test]
fn accepts_named_terms(rt: HostRuntime) -> Result<(), Fail> {
    let rows: [(&[u8], u32); 8] = [
        (b"(set-logic QF_UF)(assert (! true :named n))(assert n)", 3),
        (
            b"(set-option :global-declarations true)(set-logic QF_UF)(push 1)\
            (assert (! true :named n))(pop 1)(assert n)",
            6,
        ),
        (
            b"(set-logic ALL)(get-value ((! (+ 1 2) :named n)))(assert (= n 3))",
            3,
        ),
        (
            b"(set-logic QF_UF)(assert (let ((x (! true :named n))) x))(assert n)",
            3,
        ),
        (
            b"(set-logic ALL)(define-fun-rec f ((x Int)) Int (! 1 :named one))\
            (assert (= one (f one)))",
            3,
        ),
        (
            b"(set-logic ALL)\
            (assert (forall ((x Int)) (! (= x x) :pattern ((! (= 1 1) :named p)))))(assert p)",
            3,
        ),
        (
            b"(set-logic QF_UF)(assert (! true :named n))(reset)(set-logic QF_UF)\
            (assert (! true :named n))",
            5,
        ),
        (
            b"(set-logic QF_UF)(declare-sort S 0)(declare-const a S)\
            (assert (= a (! a :named b)))(assert (= b a))",
            5,
        ),
    ];
    for (text, count) in &rows {
        assert_eq!(rt; answer(&rt, rt.alloc(), text, 0)?, (Ok(()), *count));
    }
    Ok(())
}

// The name of the definition that is kept under a number.
fn kept_name(session: &Session, no: u32) -> &[u8] {
    match session.script().defs().def(DeclNo(no)) {
        Some(def) => text_of(session.names(), def.name),
        None => b"",
    }
}

// A command's own name takes the next number, and its named terms those after it.
#[test]
fn keeps_named_terms(rt: HostRuntime) -> Result<(), Fail> {
    let text: &[u8] =
        b"(set-logic QF_UF)(declare-const a Bool)(define-fun f () Bool (! a :named n))\
        (assert (! (! a :named m) :named k))(declare-const b Bool)(assert (! b :named l))(reset)";
    let mut session = Session::new(rt.alloc())?;
    assert!(rt; session.taken() == 0);
    let stop = session.feed(text);
    assert_eq!(rt; stop.is_ok(), true);
    let rows: [(u32, &[u8]); 8] = [
        (0, b""),
        (1, b"f"),
        (2, b"n"),
        (3, b"m"),
        (4, b"k"),
        (5, b""),
        (6, b"l"),
        (7, b""),
    ];
    for (no, name) in &rows {
        assert_eq!(rt; kept_name(&session, *no), *name);
    }
    Ok(())
}

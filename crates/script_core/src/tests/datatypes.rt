//! Commands that declare datatypes, and `match` and testers in scripts.
use super::{answer, try_accepted_after, try_refused, try_refused_after};
use io_core::{Failed, MemSink, put_all, put_number};
use sig_table::Code;
use std::test::Fail;

// Lists of a sort, and one of integers.
const LIST: &[u8] =
    b"(set-logic ALL)(declare-datatypes ((List 1)) ((par (X) ((nil) (cons (head X) (tail (List X)))))))(declare-const l (List Int))";

#[test]
fn refuses_terms_on_datatypes_at_their_bytes(rt: HostRuntime) -> Result<(), Fail> {
    let rows: [(&[u8], u32, u32, Code); 11] = [
        (
            b"(set-logic ALL)(declare-datatypes ((List 1)) ((par (X) ((nil) (cons (head X) (tail (List X)))))))(declare-const l (List Int))(assert (= l (cons 1 nil)))",
            4,
            146,
            Code::AmbiguousConstructor,
        ),
        (
            b"(set-logic ALL)(declare-datatypes ((List 1)) ((par (X) ((nil) (cons (head X) (tail (List X)))))))(declare-const l (List Int))(assert (= l (cons 1 (as nil Int))))",
            4,
            146,
            Code::WrongQualifiedSort,
        ),
        (
            b"(set-logic ALL)(declare-datatypes ((List 1)) ((par (X) ((nil) (cons (head X) (tail (List X)))))))(declare-const l (List Int))(assert (match l (((cons h t) true))))",
            4,
            133,
            Code::UncoveredConstructor,
        ),
        (
            b"(set-logic ALL)(declare-datatypes ((List 1)) ((par (X) ((nil) (cons (head X) (tail (List X)))))))(declare-const l (List Int))(assert (match l (((other h) true) (x true))))",
            4,
            144,
            Code::UnknownConstructor,
        ),
        (
            b"(set-logic ALL)(declare-datatypes ((List 1)) ((par (X) ((nil) (cons (head X) (tail (List X)))))))(declare-const l (List Int))(assert (match l (((cons h) true) (x true))))",
            4,
            144,
            Code::WrongPatternArity,
        ),
        (
            b"(set-logic ALL)(declare-datatypes ((List 1)) ((par (X) ((nil) (cons (head X) (tail (List X)))))))(declare-const l (List Int))(assert (match l ((cons true) (x true))))",
            4,
            144,
            Code::WrongPatternArity,
        ),
        (
            b"(set-logic ALL)(declare-datatypes ((List 1)) ((par (X) ((nil) (cons (head X) (tail (List X)))))))(declare-const l (List Int))(assert (match l (((cons h h) true) (x true))))",
            4,
            152,
            Code::RepeatedVariable,
        ),
        (
            b"(set-logic ALL)(declare-datatypes ((List 1)) ((par (X) ((nil) (cons (head X) (tail (List X)))))))(declare-const l (List Int))(assert (match l (((cons h t) true) (x 1))))",
            4,
            164,
            Code::WrongBranchSort,
        ),
        (
            b"(set-logic ALL)(declare-datatypes ((List 1)) ((par (X) ((nil) (cons (head X) (tail (List X)))))))(declare-const l (List Int))(assert ((_ is head) l))",
            4,
            133,
            Code::WrongIndex,
        ),
        (
            b"(set-logic ALL)(declare-datatypes ((List 1)) ((par (X) ((nil) (cons (head X) (tail (List X)))))))(declare-const l (List Int))(assert ((_ is nil) true))",
            4,
            133,
            Code::NoRank,
        ),
        (
            b"(set-logic ALL)(declare-datatypes ((List 1)) ((par (X) ((nil) (cons (head X) (tail (List X)))))))(declare-const l (List Int))(assert (head l))",
            4,
            133,
            Code::WrongTermSort,
        ),
    ];
    for (text, command, at, rule) in rows {
        try_refused(&rt, rt.alloc(), text, command, at, rule)?;
    }
    Ok(())
}

#[test]
fn refuses_groups_at_their_bytes(rt: HostRuntime) -> Result<(), Fail> {
    let rows: [(&[u8], u32, u32, Code); 11] = [
        (
            b"(set-logic ALL)(declare-datatypes ((A 0) (B 0)) (((a (fa B))) ((b (fb A)))))",
            2,
            36,
            Code::NotWellFounded,
        ),
        (
            b"(set-logic ALL)(declare-datatype A ((a (fa (Array Int A)))))",
            2,
            33,
            Code::NotWellFounded,
        ),
        (
            b"(set-logic ALL)(declare-datatypes ((Box 1)) ((par (X) ((box (in_box X))))))(declare-datatypes ((T 0)) (((c (f (Box T))))))",
            3,
            96,
            Code::NotWellFounded,
        ),
        (
            b"(set-logic ALL)(declare-datatypes ((N 1)) ((par (X) ((z) (s (n (N (Array X X))))))))",
            2,
            15,
            Code::UnfoldingTooLarge,
        ),
        (
            b"(set-logic ALL)(declare-datatypes ((A 0)) (((a)) ((b))))",
            2,
            15,
            Code::WrongParameterCount,
        ),
        (
            b"(set-logic ALL)(declare-datatypes ((A 0) (B 0)) (((a))))",
            2,
            15,
            Code::WrongParameterCount,
        ),
        (
            b"(set-logic ALL)(declare-datatypes ((A 1)) (((a))))",
            2,
            43,
            Code::WrongParameterCount,
        ),
        (
            b"(set-logic ALL)(declare-datatypes ((A 1)) ((par (X Y) ((a)))))",
            2,
            43,
            Code::WrongParameterCount,
        ),
        (
            b"(set-logic ALL)(declare-datatypes ((A 0) (A 0)) (((a)) ((b))))",
            2,
            42,
            Code::SortNameInUse,
        ),
        (
            b"(set-logic ALL)(declare-datatype Int ((a)))",
            2,
            33,
            Code::SortNameInUse,
        ),
        (
            b"(set-logic ALL)(declare-datatypes ((A 4294967296)) (((a))))",
            2,
            38,
            Code::NumberTooLarge,
        ),
    ];
    for (text, command, at, rule) in rows {
        try_refused(&rt, rt.alloc(), text, command, at, rule)?;
    }
    Ok(())
}

#[test]
fn refuses_parts_of_datatypes_at_their_bytes(rt: HostRuntime) -> Result<(), Fail> {
    let rows: [(&[u8], u32, u32, Code); 10] = [
        (
            b"(set-logic ALL)(declare-datatype L (par (X X) ((nil))))",
            2,
            43,
            Code::RepeatedVariable,
        ),
        (
            b"(set-logic ALL)(declare-datatype U ((u) (u)))",
            2,
            41,
            Code::DatatypeNameInUse,
        ),
        (
            b"(set-logic ALL)(declare-datatypes ((A 0) (B 0)) (((a)) ((b (a A)))))",
            2,
            60,
            Code::DatatypeNameInUse,
        ),
        (
            b"(set-logic ALL)(declare-datatype U ((and)))",
            2,
            37,
            Code::DatatypeNameInUse,
        ),
        (
            b"(set-logic ALL)(declare-datatype U ((u (f Foo))))",
            2,
            42,
            Code::UnknownSort,
        ),
        (
            b"(set-logic ALL)(declare-datatype U (par (X) ((u (f (U X X))))))",
            2,
            51,
            Code::WrongSortArity,
        ),
        (
            b"(set-logic QF_UF)(declare-datatype U ((u)))",
            2,
            17,
            Code::DatatypeOutsideLogic,
        ),
        (b"(declare-datatype U ((u)))", 1, 0, Code::LogicNotSet),
        (
            b"(set-logic ALL)(declare-datatypes ((List 1)) ((par (X) ((nil) (cons (head X) (tail (List X)))))))(declare-const l (List Int))(declare-const nil Int)",
            4,
            140,
            Code::FunctionNameInUse,
        ),
        (
            b"(set-logic ALL)(push 1)(declare-datatype U ((u)))(pop 1)(assert (= u u))",
            5,
            67,
            Code::UnknownFunction,
        ),
    ];
    for (text, command, at, rule) in rows {
        try_refused(&rt, rt.alloc(), text, command, at, rule)?;
    }
    Ok(())
}

#[test]
fn accepts_datatypes(rt: HostRuntime) -> Result<(), Fail> {
    let rows: [(&[u8], u32); 10] = [
        (
            b"(set-logic ALL)(declare-datatypes ((List 1)) ((par (X) ((nil) (cons (head X) (tail (List X)))))))(declare-const l (List Int))(assert (= l (cons 1 (as nil (List Int)))))",
            4,
        ),
        (
            b"(set-logic ALL)(declare-datatypes ((List 1)) ((par (X) ((nil) (cons (head X) (tail (List X)))))))(declare-const l (List Int))(assert (match l (((cons h t) true) (other false))))",
            4,
        ),
        (
            b"(set-logic ALL)(declare-datatypes ((List 1)) ((par (X) ((nil) (cons (head X) (tail (List X)))))))(declare-const l (List Int))(declare-datatype Rose ((node (kids (List Rose)))))",
            4,
        ),
        (
            b"(set-logic ALL)(declare-datatypes ((List 1)) ((par (X) ((nil) (cons (head X) (tail (List X)))))))(declare-const l (List Int))(assert (match l ((nil true) ((cons h t) (= h (head t))) (nil false))))",
            4,
        ),
        (
            b"(set-logic ALL)(declare-datatypes ((List 1)) ((par (X) ((nil) (cons (head X) (tail (List X)))))))(declare-const l (List Int))(assert (match l (((cons l t) (= l 1)) (nil ((_ is nil) l)))))",
            4,
        ),
        (
            b"(set-logic ALL)(declare-datatypes ((A 0) (B 0) (C 0)) (((a (fa B))) ((b (fb C))) ((c) (d (fd A)))))",
            2,
        ),
        (
            b"(set-logic ALL)(declare-sort F 1)(declare-datatype A ((a (fa (F A)))))",
            3,
        ),
        (
            b"(set-logic ALL)(declare-datatype A ((a) (b (fb (Array A A)))))",
            2,
        ),
        (
            b"(set-logic ALL)(push 1)(declare-datatype U ((u)))(pop 1)(declare-datatype U ((u)))(assert (= u u))",
            6,
        ),
        (
            b"(set-logic ALL)(declare-datatypes ((P 2)) ((par (X Y) ((pair (one X) (two Y))))))(assert (= (pair 1 true) (pair 2 false)))",
            3,
        ),
    ];
    for (text, commands) in rows {
        assert_eq!(rt; answer(&rt, rt.alloc(), text, 7)?, (Ok(()), commands));
    }
    Ok(())
}

const NAMED_ACCEPTED: [(&[u8], u32); 7] = [
    (
        b"(get-value (l (head l) (tail l) (as nil (List Int)) ((_ is nil) l)))",
        4,
    ),
    (
        b"(get-value ((match l ((nil 0) ((cons h t) (+ h 1)))) (cons 1 (cons 2 l))))",
        4,
    ),
    (
        b"(assert (= (! (cons 1 l) :named k) l))\
            (get-value ((head k) (tail k) ((_ is cons) k)))",
        5,
    ),
    (
        b"(get-value ((! (as nil (List Int)) :named e)))(assert (= e l))\
            (assert (match e ((nil true) (x (= x e)))))",
        6,
    ),
    (b"(assert (! ((_ is nil) l) :named n))(assert (not n))", 5),
    (
        b"(assert (= l (! (match l ((nil l) ((cons h t) t))) :named rest)))\
            (get-value (rest (tail rest)))",
        5,
    ),
    (
        b"(declare-datatype U ((u (v (List Int)))))(get-value ((! (u l) :named w)))\
            (assert (= (v w) l))",
        6,
    ),
];

#[test]
fn accepts_values_and_names_of_datatypes(rt: HostRuntime) -> Result<(), Fail> {
    for (row, count) in NAMED_ACCEPTED {
        try_accepted_after(&rt, rt.alloc(), LIST, row, count)?;
    }
    Ok(())
}

const NAMED_REFUSED: [(&[u8], u32, u32, Code); 10] = [
    (b"(get-value (l nil))", 4, 139, Code::AmbiguousConstructor),
    (
        b"(get-value ((match l ((nil 0)))))",
        4,
        137,
        Code::UncoveredConstructor,
    ),
    (b"(get-value ((head 1)))", 4, 137, Code::NoRank),
    (
        b"(get-value ((! (cons 1 l) :named head)))",
        4,
        158,
        Code::WrongNamedTerm,
    ),
    (
        b"(assert (match l ((nil true) ((cons h t) (= (! h :named k) 1)))))",
        4,
        181,
        Code::WrongNamedTerm,
    ),
    (
        b"(assert (= (! l :named k) l))(assert (match l (((k h t) true) (x false))))",
        5,
        173,
        Code::UnknownConstructor,
    ),
    (
        b"(assert (= (! l :named k) l))(assert ((_ is k) l))",
        5,
        162,
        Code::WrongIndex,
    ),
    (
        b"(assert (! ((_ is nil) l) :named n))(declare-datatype U ((n)))",
        5,
        183,
        Code::DatatypeNameInUse,
    ),
    (
        b"(declare-datatype U ((u)))(get-value ((! u :named u)))",
        5,
        175,
        Code::WrongNamedTerm,
    ),
    (
        b"(push 1)(get-value ((! (tail l) :named k)))(pop 1)(get-value (k))",
        7,
        187,
        Code::UnknownFunction,
    ),
];

#[test]
fn refuses_values_and_names_of_datatypes(rt: HostRuntime) -> Result<(), Fail> {
    for (row, command, at, rule) in NAMED_REFUSED {
        try_refused_after(&rt, rt.alloc(), LIST, row, command, at, rule)?;
    }
    Ok(())
}

// Puts sort symbols D0, D1 and so on.
fn put_symbols(sink: &mut MemSink, count: u64) -> Result<(), Failed> {
    for number in 0..count {
        put_all(sink, b"(D")?;
        put_number(sink, number)?;
        put_all(sink, b" 0)")?;
    }
    Ok(())
}

// Puts a declaration for each, with a constructor that holds the next one.
fn put_ring(sink: &mut MemSink, count: u64) -> Result<(), Failed> {
    for number in 0..count {
        put_all(sink, b"((c")?;
        put_number(sink, number)?;
        put_all(sink, b"(f")?;
        put_number(sink, number)?;
        put_all(sink, b" D")?;
        put_number(sink, number + 1)?;
        put_all(sink, b")))")?;
    }
    Ok(())
}

// A ring of 300 datatypes, which is well-founded through the last alone, and none where that has no other constructor.
#[test]
fn accepts_a_ring_of_datatypes(rt: HostRuntime) -> Result<(), Fail> {
    let mut text = MemSink::new(rt.alloc(), 20_000, Vec::new(rt.alloc()))?;
    put_all(&mut text, b"(set-logic ALL)(declare-datatypes (")?;
    put_symbols(&mut text, 300)?;
    put_all(&mut text, b")(")?;
    put_ring(&mut text, 299)?;
    put_all(&mut text, b"((c)(d(g D0)))))")?;
    assert_eq!(rt; answer(&rt, rt.alloc(), text.bytes(), 7)?, (Ok(()), 2));
    Ok(())
}

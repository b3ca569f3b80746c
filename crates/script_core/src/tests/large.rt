//! Terms that are wide or deep, literals that are long, and long chains of definitions.
use super::{answer, try_refused};
use io_core::{Failed, MemSink, put_all, put_number};
use sig_table::Code;
use std::alloc::Global;
use std::test::Fail;

// Puts a text so many times.
fn put_times(sink: &mut MemSink, text: &[u8], count: u32) -> Result<(), Failed> {
    for _ in 0..count {
        put_all(sink, text)?;
    }
    Ok(())
}

// Puts bindings of x0, x1 and so on to a constant.
fn put_bindings(sink: &mut MemSink, count: u64) -> Result<(), Failed> {
    for number in 0..count {
        put_all(sink, b"(x")?;
        put_number(sink, number)?;
        put_all(sink, b" true)")?;
    }
    Ok(())
}

fn empty_text(alloc: Global) -> Result<MemSink, Fail> {
    Ok(MemSink::new(alloc, 200_000, Vec::new(alloc))?)
}

#[test]
fn accepts_a_let_of_many_bindings(rt: HostRuntime) -> Result<(), Fail> {
    let mut text = empty_text(rt.alloc())?;
    put_all(&mut text, b"(set-logic QF_UF)(assert (let (")?;
    put_bindings(&mut text, 10_000)?;
    put_all(&mut text, b") (and x0 x9999)))")?;
    assert_eq!(rt; answer(&rt, rt.alloc(), text.bytes(), 7)?, (Ok(()), 2));
    Ok(())
}

#[test]
fn accepts_many_nested_lets(rt: HostRuntime) -> Result<(), Fail> {
    let mut text = empty_text(rt.alloc())?;
    put_all(
        &mut text,
        b"(set-logic QF_UF)(declare-const x Bool)(assert ",
    )?;
    put_times(&mut text, b"(let ((x (not x))) ", 3_900)?;
    put_all(&mut text, b"x")?;
    put_times(&mut text, b")", 3_901)?;
    assert_eq!(rt; answer(&rt, rt.alloc(), text.bytes(), 7)?, (Ok(()), 3));
    Ok(())
}

// The text of an equation of a literal of 10,000 digits and a bit vector.
fn long_literal(alloc: Global, begin: &[u8], other: &[u8]) -> Result<MemSink, Fail> {
    let mut text = empty_text(alloc)?;
    put_all(&mut text, b"(set-logic ALL)(assert (= ")?;
    put_all(&mut text, begin)?;
    put_times(&mut text, b"0", 10_000)?;
    put_all(&mut text, other)?;
    Ok(text)
}

#[test]
fn knows_the_width_of_a_long_literal(rt: HostRuntime) -> Result<(), Fail> {
    let rows: [(&[u8], &[u8]); 2] = [
        (b"#b", b" ((_ zero_extend 9999) #b1)))"),
        (b"#x", b" ((_ zero_extend 39999) #b1)))"),
    ];
    for (begin, other) in &rows {
        let text = long_literal(rt.alloc(), begin, other)?;
        assert_eq!(rt; answer(&rt, rt.alloc(), text.bytes(), 7)?, (Ok(()), 2));
    }
    let text = long_literal(rt.alloc(), b"#b", b" ((_ zero_extend 9998) #b1)))")?;
    try_refused(&rt, rt.alloc(), text.bytes(), 2, 23, Code::NoRank)
}

// Lists, and a name for a sort of them, whose canonical text nests deeper than the name.
const LISTS: &[u8] =
    b"(set-logic ALL)(declare-datatypes ((List 1)) ((par (X) ((nil) (cons (head X) (tail (List X)))))))\
    (declare-const l (List Int))\
    (define-sort D () (List Int))";

// The text of commands, and of a term under so many negations.
fn under_negations(
    alloc: Global,
    front: &[u8],
    begin: &[u8],
    count: u32,
    term: &[u8],
    end: &[u8],
) -> Result<MemSink, Fail> {
    let mut text = empty_text(alloc)?;
    put_all(&mut text, front)?;
    put_all(&mut text, begin)?;
    put_times(&mut text, b"(not ", count)?;
    put_all(&mut text, term)?;
    put_times(&mut text, b")", count)?;
    put_all(&mut text, end)?;
    Ok(text)
}

// The canonical text nests 4,000 deep.
#[test]
fn accepts_texts_that_nest_as_deep_as_may_be(rt: HostRuntime) -> Result<(), Fail> {
    let rows: [(&[u8], u32, &[u8]); 3] = [
        (b"(assert ", 3996, b")"),
        (b"(get-value (", 3995, b"))"),
        (b"(assert (! true :pattern (", 3994, b")))"),
    ];
    let term: &[u8] = b"((_ is nil) (as nil D))";
    for (begin, count, end) in &rows {
        let text = under_negations(rt.alloc(), LISTS, begin, *count, term, end)?;
        assert_eq!(rt; answer(&rt, rt.alloc(), text.bytes(), 7)?, (Ok(()), 5));
    }
    Ok(())
}

// .. and 4,001 deep, though what is read nests 4,000 deep.
#[test]
fn refuses_canonical_texts_too_deep(rt: HostRuntime) -> Result<(), Fail> {
    let rows: [(&[u8], u32, &[u8]); 3] = [
        (b"(assert ", 3997, b")"),
        (b"(get-value (", 3996, b"))"),
        (b"(assert (! true :pattern (", 3995, b")))"),
    ];
    let term: &[u8] = b"((_ is nil) (as nil D))";
    for (begin, count, end) in &rows {
        let text = under_negations(rt.alloc(), LISTS, begin, *count, term, end)?;
        try_refused(&rt, rt.alloc(), text.bytes(), 5, 154, Code::TextTooDeep)?;
    }
    Ok(())
}

// The depth is judged before the logic.
#[test]
fn refuses_deep_quantifiers_by_their_depth(rt: HostRuntime) -> Result<(), Fail> {
    let rows: [(&[u8], u32, u32, Code); 3] = [
        (
            b"(set-logic UF)(declare-sort P 1)(define-sort D () (P Bool))",
            3996,
            59,
            Code::TextTooDeep,
        ),
        (
            b"(set-logic QF_UF)(declare-sort P 1)(define-sort D () (P Bool))",
            3996,
            62,
            Code::TextTooDeep,
        ),
        (
            b"(set-logic QF_UF)(declare-sort P 1)(define-sort D () (P Bool))",
            3995,
            62,
            Code::QuantifierOutsideLogic,
        ),
    ];
    let term: &[u8] = b"(forall ((x D)) true)";
    for (front, count, at, rule) in &rows {
        let text = under_negations(rt.alloc(), front, b"(assert ", *count, term, b")")?;
        try_refused(&rt, rt.alloc(), text.bytes(), 4, *at, *rule)?;
    }
    let text = under_negations(
        rt.alloc(),
        b"(set-logic UF)(declare-sort P 1)(define-sort D () (P Bool))",
        b"(assert ",
        3995,
        term,
        b")",
    )?;
    assert_eq!(rt; answer(&rt, rt.alloc(), text.bytes(), 7)?, (Ok(()), 4));
    Ok(())
}

// Puts definitions of c1, c2 and so on, each as the one before it.
fn put_chain(sink: &mut MemSink, count: u64) -> Result<(), Failed> {
    for number in 0..count {
        put_all(sink, b"(define-fun c")?;
        put_number(sink, number + 1)?;
        put_all(sink, b" () Int c")?;
        put_number(sink, number)?;
        put_all(sink, b")")?;
    }
    Ok(())
}

// The text of commands, of 99,999 definitions after c0, and of a product of the last.
fn long_chain(alloc: Global, front: &[u8]) -> Result<MemSink, Fail> {
    let mut text = MemSink::new(alloc, 4_000_000, Vec::new(alloc))?;
    put_all(&mut text, front)?;
    put_chain(&mut text, 99_999)?;
    put_all(&mut text, b"(assert (= (* c99999 x) 0))")?;
    Ok(text)
}

// The last of the chain stands for a numeral.
#[test]
fn accepts_a_product_at_the_end_of_a_chain(rt: HostRuntime) -> Result<(), Fail> {
    let front: &[u8] = b"(set-logic QF_LIA)(declare-const x Int)(define-fun c0 () Int 2)";
    let text = long_chain(rt.alloc(), front)?;
    assert_eq!(rt; answer(&rt, rt.alloc(), text.bytes(), 7)?, (Ok(()), 100003));
    Ok(())
}

// The last of the chain stands for a declared constant.
#[test]
fn refuses_a_product_at_the_end_of_a_chain(rt: HostRuntime) -> Result<(), Fail> {
    let front: &[u8] = b"(set-logic QF_LIA)(declare-const x Int)(define-fun c0 () Int x)";
    let text = long_chain(rt.alloc(), front)?;
    try_refused(
        &rt,
        rt.alloc(),
        text.bytes(),
        100003,
        3277814,
        Code::NotLinear,
    )
}

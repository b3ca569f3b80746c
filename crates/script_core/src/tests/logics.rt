//! What each logic allows, and what it lacks.
use super::{answer, try_refused};
use io_core::{Failed, MemSink, put_all};
use sig_table::Code;
use std::alloc::Global;
use std::process::Abort;
use std::test::Fail;

// Commands with what a logic may allow: quantifiers, declared sorts, functions with arguments, datatypes, recursion,
// integers of three kinds, arrays of three kinds, and bit vectors.
const QUANTIFIERS: &[u8] = b"(assert (forall ((p Bool)) (exists ((q Bool)) (= p q))))";

const SORTS: &[u8] = b"(declare-sort S 1)";

const FUNCTIONS: &[u8] = b"(declare-fun f (Bool Bool) Bool)";

const DATATYPES: &[u8] = b"(declare-datatype D ((c) (d (e D))))";

const RECURSION: &[u8] = b"(define-funs-rec ((r ((p Bool)) Bool) (s () Bool)) ((r p) (r s)))";

const LINEAR: &[u8] =
    b"(define-fun i ((n Int) (m Int)) Bool (< (* 2 n) (+ (div m 3) (mod n 2)) (- 5)))";

const DIFFERENCE: &[u8] =
    b"(define-fun i ((n Int) (m Int)) Bool (and (< (- n m) 3) (= n (+ m 1))))";

const NONLINEAR: &[u8] = b"(define-fun i ((n Int) (m Int)) Int (div (* n m) (mod n m)))";

const ARRAYS: &[u8] =
    b"(define-fun a ((b (Array Bool (Array Bool Bool)))) Bool (select (select b true) false))";

const INT_ARRAYS: &[u8] = b"(define-fun a ((b (Array Int Int))) Int (select (store b 0 1) 2))";

const BIT_ARRAYS: &[u8] =
    b"(define-fun a ((b (Array (_ BitVec 8) (_ BitVec 4)))) (_ BitVec 4) (select b #x00))";

const BITS: &[u8] = b"(define-fun v ((w (_ BitVec 8))) (_ BitVec 16) (concat (bvnot w) #x0f))";

fn put_logic(sink: &mut MemSink, name: &[u8]) -> Result<(), Failed> {
    put_all(sink, b"(set-logic ")?;
    put_all(sink, name)?;
    put_all(sink, b")")
}

fn put_each(sink: &mut MemSink, commands: &[&[u8]]) -> Result<(), Failed> {
    for command in commands {
        put_all(sink, command)?;
    }
    Ok(())
}

// A logic of this name allows these commands.
fn try_allowed(
    rt: &impl Abort,
    alloc: Global,
    name: &[u8],
    commands: &[&[u8]],
) -> Result<(), Fail> {
    assert!(rt; commands.len() < 20);
    let mut text = MemSink::new(alloc, 1_000, Vec::new(alloc))?;
    put_logic(&mut text, name)?;
    put_each(&mut text, commands)?;
    let count = commands.len() as u32 + 1;
    assert_eq!(rt; answer(rt, alloc, text.bytes(), 0)?, (Ok(()), count));
    Ok(())
}

// A logic of this name refuses a command, so many bytes past its beginning.
fn try_lack(
    rt: &impl Abort,
    alloc: Global,
    name: &[u8],
    command: &[u8],
    past: u32,
    rule: Code,
) -> Result<(), Fail> {
    assert!(rt; name.len() < 20);
    assert!(rt; past < 100);
    let mut text = MemSink::new(alloc, 1_000, Vec::new(alloc))?;
    put_logic(&mut text, name)?;
    put_all(&mut text, command)?;
    let begin = name.len() as u32 + 12;
    try_refused(rt, alloc, text.bytes(), 2, begin + past, rule)
}

// The logics, each with all that it allows.
const ALLOWED: [(&[u8], &[&[u8]]); 28] = [
    (b"QF_UF", &[SORTS, FUNCTIONS]),
    (b"UF", &[QUANTIFIERS, SORTS, FUNCTIONS, RECURSION]),
    (b"QF_IDL", &[DIFFERENCE]),
    (b"QF_LIA", &[LINEAR]),
    (b"LIA", &[QUANTIFIERS, LINEAR]),
    (b"QF_UFLIA", &[SORTS, FUNCTIONS, LINEAR]),
    (
        b"UFLIA",
        &[QUANTIFIERS, SORTS, FUNCTIONS, RECURSION, LINEAR],
    ),
    (b"QF_NIA", &[NONLINEAR]),
    (b"NIA", &[QUANTIFIERS, NONLINEAR]),
    (b"QF_UFNIA", &[SORTS, FUNCTIONS, NONLINEAR]),
    (
        b"UFNIA",
        &[QUANTIFIERS, SORTS, FUNCTIONS, RECURSION, NONLINEAR],
    ),
    (b"QF_AX", &[SORTS, ARRAYS]),
    (b"QF_AUFLIA", &[SORTS, FUNCTIONS, LINEAR, INT_ARRAYS]),
    (
        b"AUFLIA",
        &[QUANTIFIERS, SORTS, FUNCTIONS, RECURSION, LINEAR, INT_ARRAYS],
    ),
    (b"QF_BV", &[BITS]),
    (b"BV", &[QUANTIFIERS, BITS]),
    (b"QF_UFBV", &[SORTS, FUNCTIONS, BITS]),
    (b"UFBV", &[QUANTIFIERS, SORTS, FUNCTIONS, RECURSION, BITS]),
    (b"QF_ABV", &[BIT_ARRAYS, BITS]),
    (b"ABV", &[QUANTIFIERS, BIT_ARRAYS, BITS]),
    (b"QF_AUFBV", &[SORTS, FUNCTIONS, BIT_ARRAYS, BITS]),
    (
        b"AUFBV",
        &[QUANTIFIERS, SORTS, FUNCTIONS, RECURSION, BIT_ARRAYS, BITS],
    ),
    (b"QF_DT", &[SORTS, DATATYPES]),
    (b"QF_UFDT", &[SORTS, FUNCTIONS, DATATYPES]),
    (
        b"UFDT",
        &[QUANTIFIERS, SORTS, FUNCTIONS, DATATYPES, RECURSION],
    ),
    (b"QF_UFDTLIA", &[SORTS, FUNCTIONS, DATATYPES, LINEAR]),
    (
        b"UFDTLIA",
        &[QUANTIFIERS, SORTS, FUNCTIONS, DATATYPES, RECURSION, LINEAR],
    ),
    (
        b"ALL",
        &[
            QUANTIFIERS,
            SORTS,
            FUNCTIONS,
            DATATYPES,
            RECURSION,
            NONLINEAR,
            ARRAYS,
            BITS,
        ],
    ),
];

// The logics that lack something.
const WITHOUT_QUANTIFIERS: [&[u8]; 15] = [
    b"QF_UF",
    b"QF_IDL",
    b"QF_LIA",
    b"QF_UFLIA",
    b"QF_NIA",
    b"QF_UFNIA",
    b"QF_AX",
    b"QF_AUFLIA",
    b"QF_BV",
    b"QF_UFBV",
    b"QF_ABV",
    b"QF_AUFBV",
    b"QF_DT",
    b"QF_UFDT",
    b"QF_UFDTLIA",
];

const WITHOUT_SORTS: [&[u8]; 9] = [
    b"QF_IDL", b"QF_LIA", b"LIA", b"QF_NIA", b"NIA", b"QF_BV", b"BV", b"QF_ABV", b"ABV",
];

const WITHOUT_FUNCTIONS: [&[u8]; 11] = [
    b"QF_IDL", b"QF_LIA", b"LIA", b"QF_NIA", b"NIA", b"QF_AX", b"QF_BV", b"BV", b"QF_ABV", b"ABV",
    b"QF_DT",
];

const WITHOUT_DATATYPES: [&[u8]; 22] = [
    b"QF_UF",
    b"UF",
    b"QF_IDL",
    b"QF_LIA",
    b"LIA",
    b"QF_UFLIA",
    b"UFLIA",
    b"QF_NIA",
    b"NIA",
    b"QF_UFNIA",
    b"UFNIA",
    b"QF_AX",
    b"QF_AUFLIA",
    b"AUFLIA",
    b"QF_BV",
    b"BV",
    b"QF_UFBV",
    b"UFBV",
    b"QF_ABV",
    b"ABV",
    b"QF_AUFBV",
    b"AUFBV",
];

const WITHOUT_RECURSION: [&[u8]; 19] = [
    b"QF_UF",
    b"QF_IDL",
    b"QF_LIA",
    b"LIA",
    b"QF_UFLIA",
    b"QF_NIA",
    b"NIA",
    b"QF_UFNIA",
    b"QF_AX",
    b"QF_AUFLIA",
    b"QF_BV",
    b"BV",
    b"QF_UFBV",
    b"QF_ABV",
    b"ABV",
    b"QF_AUFBV",
    b"QF_DT",
    b"QF_UFDT",
    b"QF_UFDTLIA",
];

const WITHOUT_INTEGERS: [&[u8]; 14] = [
    b"QF_UF",
    b"UF",
    b"QF_AX",
    b"QF_BV",
    b"BV",
    b"QF_UFBV",
    b"UFBV",
    b"QF_ABV",
    b"ABV",
    b"QF_AUFBV",
    b"AUFBV",
    b"QF_DT",
    b"QF_UFDT",
    b"UFDT",
];

const WITHOUT_ARRAYS: [&[u8]; 20] = [
    b"QF_UF",
    b"UF",
    b"QF_IDL",
    b"QF_LIA",
    b"LIA",
    b"QF_UFLIA",
    b"UFLIA",
    b"QF_NIA",
    b"NIA",
    b"QF_UFNIA",
    b"UFNIA",
    b"QF_BV",
    b"BV",
    b"QF_UFBV",
    b"UFBV",
    b"QF_DT",
    b"QF_UFDT",
    b"UFDT",
    b"QF_UFDTLIA",
    b"UFDTLIA",
];

const WITH_SOME_ARRAYS: [&[u8]; 6] = [
    b"QF_AUFLIA",
    b"AUFLIA",
    b"QF_ABV",
    b"ABV",
    b"QF_AUFBV",
    b"AUFBV",
];

const WITHOUT_BITS: [&[u8]; 19] = [
    b"QF_UF",
    b"UF",
    b"QF_IDL",
    b"QF_LIA",
    b"LIA",
    b"QF_UFLIA",
    b"UFLIA",
    b"QF_NIA",
    b"NIA",
    b"QF_UFNIA",
    b"UFNIA",
    b"QF_AX",
    b"QF_AUFLIA",
    b"AUFLIA",
    b"QF_DT",
    b"QF_UFDT",
    b"UFDT",
    b"QF_UFDTLIA",
    b"UFDTLIA",
];

const LINEAR_LOGICS: [&[u8]; 8] = [
    b"QF_LIA",
    b"LIA",
    b"QF_UFLIA",
    b"UFLIA",
    b"QF_AUFLIA",
    b"AUFLIA",
    b"QF_UFDTLIA",
    b"UFDTLIA",
];

const ACCEPTED: [(&[u8], u32); 13] = [
    (
        b"(set-logic QF_UF)(declare-sort Int 0)(declare-const + Int)(assert (= + +))",
        4,
    ),
    (
        b"(set-logic QF_UF)(declare-sort Array 1)(declare-sort BitVec 0)\
            (declare-const x (Array BitVec))",
        4,
    ),
    (
        b"(set-logic QF_LIA)(declare-const select Bool)(declare-const bvadd Int)\
            (assert (= (- bvadd) 2))",
        4,
    ),
    (
        b"(set-logic QF_BV)(declare-const div Bool)(declare-const divisible Bool)\
            (assert (= div divisible))",
        4,
    ),
    (
        b"(set-logic QF_BV)(define-sort Int () (_ BitVec 32))(declare-const x Int)",
        3,
    ),
    (
        b"(set-logic QF_AX)(declare-sort Int 0)(declare-const a (Array Int Int))",
        3,
    ),
    (
        b"(set-logic QF_UFLIA)(declare-sort Array 0)(declare-const extract Array)",
        3,
    ),
    (
        b"(set-logic QF_UFBV)(declare-sort Int 0)(declare-fun abs (Int) Int)",
        3,
    ),
    (
        b"(set-logic QF_DT)(declare-datatype Int ((zero) (succ (pred Int))))\
            (assert (= zero (succ zero)))",
        3,
    ),
    (
        b"(set-logic QF_LIA)(reset)(set-logic QF_UF)(declare-sort Int 0)",
        4,
    ),
    (
        b"(set-logic |QF_LIA|)(declare-fun x () Int)(define-fun f ((n Int)) Int (+ n x))",
        3,
    ),
    (
        b"(set-logic QF_LIA)(declare-const a Bool)(declare-const x Int)\
            (assert (= x (- 5) (- 7 2 1)))(assert (=> a a a))(assert (distinct x 1 2))",
        6,
    ),
    (
        b"(set-info :smt-lib-version 2.6)\n\
            (set-option :produce-models true)\n\
            (set-logic AUFLIA)\n\
            (set-info :source |Written for\n\
            a test|)\n\
            (set-info :category \"industrial\")\n\
            (set-info :status unsat)\n\
            (declare-sort Loc 0)\n\
            (declare-fun mem () (Array Int Int))\n\
            (declare-fun next (Loc) Loc)\n\
            (declare-fun val (Loc) Int)\n\
            (declare-const root Loc)\n\
            (define-fun inc ((n Int)) Int (+ n 1))\n\
            (assert (forall ((l Loc)) (! (>= (val (next l)) (inc (val l))) :pattern ((next l)))))\n\
            (push 1)\n\
            (assert (! (= (select mem (val root)) 0) :named start))\n\
            (assert (let ((m (store mem 0 (* 2 (val root))))) (< (select m 0) (- 3))))\n\
            (check-sat)\n\
            (get-unsat-core)\n\
            (pop 1)\n\
            (exit)\n",
        20,
    ),
];

const REFUSED: [(&[u8], u32, u32, Code); 34] = [
    (b"(set-logic HORN)", 1, 0, Code::UnknownLogic),
    (b"(set-logic QF_LRA)", 1, 0, Code::UnknownLogic),
    (b"(set-logic QF_UFIDL)", 1, 0, Code::UnknownLogic),
    (b"(set-logic AUFLIRA)", 1, 0, Code::UnknownLogic),
    (b"(set-logic qf_lia)", 1, 0, Code::UnknownLogic),
    (b"(set-logic QF_LI)", 1, 0, Code::UnknownLogic),
    (b"(set-logic QF_LIAA)", 1, 0, Code::UnknownLogic),
    (b"(set-logic |QF_LIA |)", 1, 0, Code::UnknownLogic),
    (b"(set-logic ||)", 1, 0, Code::UnknownLogic),
    (b"(set-logic Bool)", 1, 0, Code::UnknownLogic),
    (
        b"(set-logic QF_LIA)(declare-const div Bool)",
        2,
        33,
        Code::FunctionNameInUse,
    ),
    (
        b"(set-logic QF_IDL)(declare-const divisible Bool)",
        2,
        33,
        Code::FunctionNameInUse,
    ),
    (
        b"(set-logic QF_AX)(declare-const store Bool)",
        2,
        32,
        Code::FunctionNameInUse,
    ),
    (
        b"(set-logic QF_BV)(declare-const bvadd Bool)",
        2,
        32,
        Code::FunctionNameInUse,
    ),
    (
        b"(set-logic BV)(define-fun extract () Bool true)",
        2,
        26,
        Code::FunctionNameInUse,
    ),
    (
        b"(set-logic QF_UFLIA)(declare-sort Int 0)",
        2,
        34,
        Code::SortNameInUse,
    ),
    (
        b"(set-logic QF_AX)(declare-sort Array 0)",
        2,
        31,
        Code::SortNameInUse,
    ),
    (
        b"(set-logic QF_UFBV)(declare-sort BitVec 0)",
        2,
        33,
        Code::SortNameInUse,
    ),
    (
        b"(set-logic QF_UFDTLIA)(declare-datatype Int ((c)))",
        2,
        40,
        Code::SortNameInUse,
    ),
    (
        b"(set-logic QF_LIA)(define-sort Int () Bool)",
        2,
        31,
        Code::SortNameInUse,
    ),
    (
        b"(set-logic QF_DT)(declare-datatype D ((and)))",
        2,
        39,
        Code::DatatypeNameInUse,
    ),
    (
        b"(set-logic QF_LIA)(assert (= 007 7))",
        2,
        29,
        Code::MalformedWord,
    ),
    (
        b"(set-logic QF_LIA)(assert (= 1.0 1.0))",
        2,
        29,
        Code::LiteralWithoutSort,
    ),
    (
        b"(set-logic QF_BV)(assert (= 1 1))",
        2,
        28,
        Code::LiteralWithoutSort,
    ),
    (
        b"(set-logic QF_LIA)(assert (= #b1 #b1))",
        2,
        29,
        Code::LiteralWithoutSort,
    ),
    (
        b"(set-logic QF_BV)(assert (= (+ #b1 #b1) #b1))",
        2,
        28,
        Code::UnknownFunction,
    ),
    (
        b"(set-logic QF_LIA)(assert (= (bvneg 1) 1))",
        2,
        29,
        Code::UnknownFunction,
    ),
    (
        b"(set-logic QF_LIA)(assert (= (select 1 1) 1))",
        2,
        29,
        Code::UnknownFunction,
    ),
    (
        b"(set-logic QF_AX)(assert ((_ divisible 3) true))",
        2,
        25,
        Code::UnknownFunction,
    ),
    (
        b"(set-logic QF_BV)(declare-const v (_ BitVec 16))\
            (assert (= ((_ extract 7 8) v) #b1))",
        3,
        59,
        Code::WrongIndex,
    ),
    (
        b"(set-logic QF_BV)(declare-const w (_ BitVec 4294967295))\
            (assert (= (concat w w) w))",
        3,
        67,
        Code::NumberTooLarge,
    ),
    (
        b"(set-logic QF_LIA)(reset)(set-logic QF_BV)(declare-const x Int)",
        4,
        59,
        Code::UnknownSort,
    ),
    (
        b"(set-logic QF_BV)(reset)(declare-const x Bool)",
        3,
        24,
        Code::LogicNotSet,
    ),
    (
        b"(set-logic QF_AX)(declare-sort E 0)(define-sort D1 () (Array E E))\
        (define-sort D2 () (Array D1 D1))(define-sort D3 () (Array D2 D2))\
        (define-sort D4 () (Array D3 D3))(define-sort D5 () (Array D4 D4))\
        (define-sort D6 () (Array D5 D5))(define-sort D7 () (Array D6 D6))\
        (define-sort D8 () (Array D7 D7))(define-sort D9 () (Array D8 D8))",
        11,
        316,
        Code::SortTooLarge,
    ),
];

// Logics of these names refuse a command, so many bytes past its beginning.
fn try_each_lack(
    rt: &impl Abort,
    alloc: Global,
    names: &[&[u8]],
    command: &[u8],
    past: u32,
    rule: Code,
) -> Result<(), Fail> {
    for name in names {
        try_lack(rt, alloc, name, command, past, rule)?;
    }
    Ok(())
}

#[test]
fn accepts_what_logics_allow(rt: HostRuntime) -> Result<(), Fail> {
    for (name, commands) in ALLOWED {
        try_allowed(&rt, rt.alloc(), name, commands)?;
    }
    Ok(())
}

#[test]
fn refuses_commands_that_logics_lack(rt: HostRuntime) -> Result<(), Fail> {
    let alloc = rt.alloc();
    try_each_lack(
        &rt,
        alloc,
        &WITHOUT_QUANTIFIERS,
        b"(assert (forall ((p Bool)) p))",
        0,
        Code::QuantifierOutsideLogic,
    )?;
    try_each_lack(
        &rt,
        alloc,
        &WITHOUT_SORTS,
        b"(declare-sort S 0)",
        0,
        Code::SortOutsideLogic,
    )?;
    try_each_lack(
        &rt,
        alloc,
        &WITHOUT_FUNCTIONS,
        b"(declare-fun f (Bool) Bool)",
        0,
        Code::FunctionOutsideLogic,
    )?;
    try_each_lack(
        &rt,
        alloc,
        &WITHOUT_DATATYPES,
        b"(declare-datatype D ((c)))",
        0,
        Code::DatatypeOutsideLogic,
    )?;
    try_each_lack(
        &rt,
        alloc,
        &WITHOUT_RECURSION,
        b"(define-fun-rec r ((p Bool)) Bool (r p))",
        0,
        Code::RecursionOutsideLogic,
    )?;
    Ok(())
}

#[test]
fn refuses_sorts_and_terms_that_logics_lack(rt: HostRuntime) -> Result<(), Fail> {
    let alloc = rt.alloc();
    try_each_lack(
        &rt,
        alloc,
        &WITHOUT_INTEGERS,
        b"(declare-const x Int)",
        17,
        Code::UnknownSort,
    )?;
    try_each_lack(
        &rt,
        alloc,
        &WITHOUT_ARRAYS,
        b"(declare-const a (Array Bool Bool))",
        17,
        Code::UnknownSort,
    )?;
    try_each_lack(
        &rt,
        alloc,
        &WITH_SOME_ARRAYS,
        b"(declare-const a (Array Bool Bool))",
        0,
        Code::ArrayOutsideLogic,
    )?;
    try_each_lack(
        &rt,
        alloc,
        &WITHOUT_BITS,
        b"(declare-const v (_ BitVec 8))",
        17,
        Code::UnknownSort,
    )?;
    try_each_lack(
        &rt,
        alloc,
        &LINEAR_LOGICS,
        b"(define-fun i ((n Int)) Int (* n n))",
        0,
        Code::NotLinear,
    )?;
    try_lack(
        &rt,
        alloc,
        b"QF_IDL",
        b"(define-fun i ((n Int)) Int (+ n n))",
        0,
        Code::NotDifference,
    )?;
    Ok(())
}

#[test]
fn accepts_scripts_of_the_logics(rt: HostRuntime) -> Result<(), Fail> {
    for (text, count) in ACCEPTED {
        assert_eq!(rt; answer(&rt, rt.alloc(), text, 0)?, (Ok(()), count));
    }
    Ok(())
}

#[test]
fn refuses_scripts_of_the_logics(rt: HostRuntime) -> Result<(), Fail> {
    for (text, command, at, rule) in REFUSED {
        try_refused(&rt, rt.alloc(), text, command, at, rule)?;
    }
    Ok(())
}

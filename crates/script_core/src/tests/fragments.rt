//! The other fragments of the logics: differences, arrays, and what a logic lacks.
use super::{try_accepted_after, try_refused_after};
use sig_table::Code;
use std::test::Fail;

const DIFFERENCE: &[u8] = b"(set-logic QF_IDL)(declare-const x Int)(declare-const y Int)";

// The commands before and those that are tried, with how many there are.
const OTHER_ACCEPTED: [(&[u8], &[u8], u32); 38] = [
    // differences and sides
    (DIFFERENCE, b"(assert (<= (- x y) (- 3)))", 4),
    (DIFFERENCE, b"(assert (= 3 (- x y)))", 4),
    (DIFFERENCE, b"(assert (distinct (- x y) 3))", 4),
    (DIFFERENCE, b"(assert (= (- x x) 0))", 4),
    (
        DIFFERENCE,
        b"(assert (< x (+ y 1) (+ (- 2) x) (- y 3) 4))",
        4,
    ),
    (DIFFERENCE, b"(assert (distinct x y 1))", 4),
    (DIFFERENCE, b"(assert (> 1 (- 2)))", 4),
    (DIFFERENCE, b"(assert (<= x 3))", 4),
    (DIFFERENCE, b"(assert (= (- x 3) y))", 4),
    (DIFFERENCE, b"(assert (= (< x y) (ite true false true)))", 4),
    (
        DIFFERENCE,
        b"(assert (! true :pattern ((+ x y) (* x x))))",
        4,
    ),
    (DIFFERENCE, b"(get-value (x 5 (- 5) (- x y) (+ x 1)))", 4),
    // through let, names and definitions
    (DIFFERENCE, b"(assert (let ((d (- x y))) (< d 3)))", 4),
    (
        DIFFERENCE,
        b"(assert (let ((z x) (k 3)) (>= (- z y) k)))",
        4,
    ),
    (
        DIFFERENCE,
        b"(assert (let ((z x) (k 3)) (= (+ k z) (- y k))))",
        4,
    ),
    (DIFFERENCE, b"(assert (let ((x y) (y x)) (< (- x y) 3)))", 4),
    (
        DIFFERENCE,
        b"(assert (= (let ((z x)) (+ z 1)) (! y :weight 1)))",
        4,
    ),
    (
        DIFFERENCE,
        b"(assert (= (! (+ x 1) :named s) y))(assert (< s x))",
        5,
    ),
    (
        DIFFERENCE,
        b"(assert (< (! (- x y) :named d) 3))(assert (> 5 d))",
        5,
    ),
    (
        DIFFERENCE,
        b"(define-fun d () Int (- x y))(assert (< d 3))",
        5,
    ),
    (
        DIFFERENCE,
        b"(define-fun k () Int (- 3))(define-fun z () Int x)(assert (< (- z y) k))",
        6,
    ),
    (
        DIFFERENCE,
        b"(define-fun p ((n Int) (m Int)) Bool (< (- n m) 3))(assert (p x (- y 1)))",
        5,
    ),
    (
        DIFFERENCE,
        b"(push 1)(define-fun k () Int x)(pop 1)(define-fun k () Int 3)\
            (assert (< (- x y) k))",
        8,
    ),
    // arrays of the logic
    (
        b"",
        b"(set-logic QF_AUFLIA)(declare-const a (Array Int Int))\
            (assert (= (select (store a 0 1) 2) 3))",
        3,
    ),
    (
        b"",
        b"(set-logic QF_AUFLIA)(define-sort A () (Array Int Bool))",
        2,
    ),
    (
        b"",
        b"(set-logic QF_AUFLIA)(define-sort A (X) (Array Int X))(declare-const a (A Int))",
        3,
    ),
    (
        b"",
        b"(set-logic QF_AUFLIA)(declare-sort P 1)(declare-const c (P (Array Int Int)))",
        3,
    ),
    (
        b"",
        b"(set-logic AUFLIA)(assert (forall ((a (Array Int Int))) (= a a)))",
        2,
    ),
    (
        b"",
        b"(set-logic AUFLIA)\
            (assert (! true :pattern ((exists ((a (Array Int Bool))) true))))",
        2,
    ),
    (
        b"",
        b"(set-logic QF_ABV)(declare-const a (Array (_ BitVec 8) (_ BitVec 4)))\
            (assert (= (select a #x00) #xf))",
        3,
    ),
    (
        b"",
        b"(set-logic QF_AX)(declare-sort S 0)(declare-const a (Array S (Array S Bool)))",
        3,
    ),
    (
        b"",
        b"(set-logic ALL)(declare-const a (Array Int (Array (_ BitVec 8) Bool)))",
        2,
    ),
    // what no rule judges
    (
        b"",
        b"(set-logic QF_UF)(assert (! true :pattern ((forall ((p Bool)) p))))",
        2,
    ),
    (
        b"",
        b"(set-logic QF_UF)(assert (! true :note (forall ((p Bool)) p)))",
        2,
    ),
    (
        b"",
        b"(set-logic QF_LIA)(define-sort N () Int)(declare-fun x () N)",
        3,
    ),
    (
        b"",
        b"(set-logic QF_LIA)(define-fun f ((n Int)) Int (+ n 1))(assert (= (f 1) 2))",
        3,
    ),
    (
        b"",
        b"(set-logic QF_IDL)(define-sort A (X) X)(declare-const x (A Int))(assert (= x 1))",
        4,
    ),
    (
        b"",
        b"(set-logic QF_DT)(declare-datatype D ((c) (d (e D))))(assert ((_ is d) (e (d c))))",
        3,
    ),
];

// .. with the command and the byte of the fault.
const OTHER_REFUSED: [(&[u8], &[u8], u32, u32, Code); 72] = [
    // terms of other forms
    (
        DIFFERENCE,
        b"(assert (= (+ x y) 0))",
        4,
        60,
        Code::NotDifference,
    ),
    (
        DIFFERENCE,
        b"(assert (= (* 2 x) y))",
        4,
        60,
        Code::NotDifference,
    ),
    (
        DIFFERENCE,
        b"(assert (= (- x) y))",
        4,
        60,
        Code::NotDifference,
    ),
    (
        DIFFERENCE,
        b"(assert (= (- (- 5)) x))",
        4,
        60,
        Code::NotDifference,
    ),
    (
        DIFFERENCE,
        b"(assert (= (- 1 x) y))",
        4,
        60,
        Code::NotDifference,
    ),
    (
        DIFFERENCE,
        b"(assert (= (+ 1 2) x))",
        4,
        60,
        Code::NotDifference,
    ),
    (
        DIFFERENCE,
        b"(assert (= (+ x 1 2) y))",
        4,
        60,
        Code::NotDifference,
    ),
    (
        DIFFERENCE,
        b"(assert (= (- x y 1) 0))",
        4,
        60,
        Code::NotDifference,
    ),
    (
        DIFFERENCE,
        b"(assert (= (+ (+ x 1) 1) y))",
        4,
        60,
        Code::NotDifference,
    ),
    (
        DIFFERENCE,
        b"(assert (= (- (+ x 1) y) 0))",
        4,
        60,
        Code::NotDifference,
    ),
    (
        DIFFERENCE,
        b"(assert (= (ite true x y) 0))",
        4,
        60,
        Code::NotDifference,
    ),
    (
        DIFFERENCE,
        b"(assert ((_ divisible 3) x))",
        4,
        60,
        Code::NotDifference,
    ),
    // relations on other forms
    (
        DIFFERENCE,
        b"(assert (= (- x y) x))",
        4,
        60,
        Code::NotDifference,
    ),
    (
        DIFFERENCE,
        b"(assert (< (- x y) (+ x 1)))",
        4,
        60,
        Code::NotDifference,
    ),
    (
        DIFFERENCE,
        b"(assert (= (- x y) (- y x)))",
        4,
        60,
        Code::NotDifference,
    ),
    (
        DIFFERENCE,
        b"(assert (< (- x y) 1 2))",
        4,
        60,
        Code::NotDifference,
    ),
    (
        DIFFERENCE,
        b"(assert (distinct 1 2 (- x y)))",
        4,
        60,
        Code::NotDifference,
    ),
    (
        DIFFERENCE,
        b"(assert (not (>= x (- x y))))",
        4,
        60,
        Code::NotDifference,
    ),
    (
        DIFFERENCE,
        b"(assert (let ((d (- x y))) (< d x)))",
        4,
        60,
        Code::NotDifference,
    ),
    (
        DIFFERENCE,
        b"(assert (> (! (- x y) :named d) y))",
        4,
        60,
        Code::NotDifference,
    ),
    (
        DIFFERENCE,
        b"(assert (= (- x 1) (- x y)))",
        4,
        60,
        Code::NotDifference,
    ),
    (
        DIFFERENCE,
        b"(define-fun p ((n Int) (m Int)) Bool (<= (- n m) n))",
        4,
        60,
        Code::NotDifference,
    ),
    // through let, names and definitions
    (
        DIFFERENCE,
        b"(assert (let ((x 5)) (< (- x y) 3)))",
        4,
        60,
        Code::NotDifference,
    ),
    (
        DIFFERENCE,
        b"(assert (let ((k x)) (= (+ y k) 0)))",
        4,
        60,
        Code::NotDifference,
    ),
    (
        DIFFERENCE,
        b"(assert (let ((z (+ x y))) true))",
        4,
        60,
        Code::NotDifference,
    ),
    (
        DIFFERENCE,
        b"(define-fun f ((n Int) (m Int)) Int (+ n m))",
        4,
        60,
        Code::NotDifference,
    ),
    (
        DIFFERENCE,
        b"(define-fun d () Int (- x y))(assert (< d x))",
        5,
        89,
        Code::NotDifference,
    ),
    (
        DIFFERENCE,
        b"(define-fun f ((n Int)) Int (+ n 1))(assert (= (f x) y))",
        5,
        96,
        Code::NotDifference,
    ),
    (
        DIFFERENCE,
        b"(define-fun s () Int (+ x 1))(assert (= (+ s 1) y))",
        5,
        89,
        Code::NotDifference,
    ),
    (
        DIFFERENCE,
        b"(assert (= (! (+ x 1) :named s) y))(assert (< (- s y) 3))",
        5,
        95,
        Code::NotDifference,
    ),
    (
        DIFFERENCE,
        b"(assert (! true :pattern ((! (+ x y) :named s))))(assert (= s 0))",
        5,
        109,
        Code::NotDifference,
    ),
    (
        DIFFERENCE,
        b"(push 1)(define-fun k () Int 3)(pop 1)(define-fun k () Int x)\
            (assert (< (- x y) k))",
        8,
        121,
        Code::NotDifference,
    ),
    (
        DIFFERENCE,
        b"(define-fun k () Int x)(reset)(set-logic QF_IDL)(define-fun k () Int 3)\
            (declare-const x Int)(assert (< (- k x) 3))",
        9,
        152,
        Code::NotDifference,
    ),
    // other arrays
    (
        b"",
        b"(set-logic QF_AUFLIA)(declare-const a (Array Int Bool))",
        2,
        21,
        Code::ArrayOutsideLogic,
    ),
    (
        b"",
        b"(set-logic QF_AUFLIA)(declare-const a (Array Int (Array Int Int)))",
        2,
        21,
        Code::ArrayOutsideLogic,
    ),
    (
        b"",
        b"(set-logic QF_AUFLIA)(declare-fun f ((Array Bool Int)) Int)",
        2,
        21,
        Code::ArrayOutsideLogic,
    ),
    (
        b"",
        b"(set-logic QF_AUFLIA)(declare-fun f (Int) (Array Bool Int))",
        2,
        21,
        Code::ArrayOutsideLogic,
    ),
    (
        b"",
        b"(set-logic QF_AUFLIA)(declare-sort P 1)(declare-const c (P (Array Int Bool)))",
        3,
        39,
        Code::ArrayOutsideLogic,
    ),
    (
        b"",
        b"(set-logic QF_AUFLIA)(define-sort A (X) (Array Int X))(declare-const a (A Bool))",
        3,
        54,
        Code::ArrayOutsideLogic,
    ),
    (
        b"",
        b"(set-logic QF_AUFLIA)(define-fun f ((a (Array Int Bool))) Bool true)",
        2,
        21,
        Code::ArrayOutsideLogic,
    ),
    (
        b"",
        b"(set-logic AUFLIA)(define-fun-rec f ((a (Array Int Bool))) Bool (select a 0))",
        2,
        18,
        Code::ArrayOutsideLogic,
    ),
    (
        b"",
        b"(set-logic AUFLIA)(assert (forall ((a (Array Int Bool))) true))",
        2,
        18,
        Code::ArrayOutsideLogic,
    ),
    (
        b"",
        b"(set-logic QF_ABV)(declare-const a (Array (_ BitVec 8) Bool))",
        2,
        18,
        Code::ArrayOutsideLogic,
    ),
    (
        b"",
        b"(set-logic QF_ABV)(declare-const a (Array Bool (_ BitVec 8)))",
        2,
        18,
        Code::ArrayOutsideLogic,
    ),
    (
        b"",
        b"(set-logic ABV)\
            (assert (exists ((a (Array (_ BitVec 8) (Array (_ BitVec 8) (_ BitVec 8))))) true))",
        2,
        15,
        Code::ArrayOutsideLogic,
    ),
    // quantifiers, recursion and datatypes
    (
        b"",
        b"(set-logic QF_UF)(define-fun f () Bool (exists ((p Bool)) p))",
        2,
        17,
        Code::QuantifierOutsideLogic,
    ),
    (
        b"",
        b"(set-logic QF_UF)(get-value ((forall ((p Bool)) p)))",
        2,
        17,
        Code::QuantifierOutsideLogic,
    ),
    (
        b"",
        b"(set-logic QF_UF)(assert (let ((q (forall ((p Bool)) p))) true))",
        2,
        17,
        Code::QuantifierOutsideLogic,
    ),
    (
        b"",
        b"(set-logic QF_UF)(assert (! (exists ((p Bool)) p) :named n))",
        2,
        17,
        Code::QuantifierOutsideLogic,
    ),
    (
        b"",
        b"(set-logic QF_DT)(declare-datatype D ((c)))\
            (assert (match c ((c (exists ((p Bool)) p)))))",
        3,
        43,
        Code::QuantifierOutsideLogic,
    ),
    (
        b"",
        b"(set-logic QF_UF)(define-funs-rec ((f () Bool)) (true))",
        2,
        17,
        Code::RecursionOutsideLogic,
    ),
    (
        b"",
        b"(set-logic QF_UF)(declare-datatypes ((D 0)) (((c))))",
        2,
        17,
        Code::DatatypeOutsideLogic,
    ),
    // the lowest code of several
    (
        b"",
        b"(set-logic QF_LIA)(assert (forall ((x Int)) (= (* x x) 0)))",
        2,
        18,
        Code::QuantifierOutsideLogic,
    ),
    (
        b"",
        b"(set-logic QF_IDL)(assert (forall ((x Int)) (= (+ x x) 0)))",
        2,
        18,
        Code::QuantifierOutsideLogic,
    ),
    (
        b"",
        b"(set-logic QF_AUFLIA)(assert (forall ((a (Array Int Bool))) true))",
        2,
        21,
        Code::QuantifierOutsideLogic,
    ),
    (
        b"",
        b"(set-logic QF_UF)(define-fun-rec r () Bool (forall ((p Bool)) p))",
        2,
        17,
        Code::QuantifierOutsideLogic,
    ),
    (
        b"",
        b"(set-logic QF_ABV)(declare-fun f ((Array Bool Bool)) Bool)",
        2,
        18,
        Code::FunctionOutsideLogic,
    ),
    (
        b"",
        b"(set-logic QF_LIA)(define-fun-rec r ((n Int)) Int (* n n))",
        2,
        18,
        Code::NotLinear,
    ),
    (
        b"",
        b"(set-logic QF_AUFLIA)(define-fun f ((a (Array Int Bool)) (n Int)) Int (* n n))",
        2,
        21,
        Code::NotLinear,
    ),
    (
        b"",
        b"(set-logic QF_IDL)(define-fun-rec r ((n Int)) Int (* n n))",
        2,
        18,
        Code::NotDifference,
    ),
    (
        b"",
        b"(set-logic QF_IDL)(define-fun-rec r () Int r)",
        2,
        18,
        Code::NotDifference,
    ),
    (
        b"",
        b"(set-logic QF_IDL)(define-fun-rec r () Int 5)",
        2,
        18,
        Code::RecursionOutsideLogic,
    ),
    (
        b"",
        b"(set-logic QF_AUFLIA)(define-fun-rec r ((a (Array Int Bool))) Bool true)",
        2,
        21,
        Code::ArrayOutsideLogic,
    ),
    // other rules come first
    (
        b"",
        b"(set-logic QF_LIA)(declare-fun f (Foo) Int)",
        2,
        34,
        Code::UnknownSort,
    ),
    (
        b"",
        b"(set-logic QF_LIA)(declare-sort Int 0)",
        2,
        32,
        Code::SortNameInUse,
    ),
    (
        b"",
        b"(set-logic QF_UF)(declare-datatype D ((c (f D))))",
        2,
        35,
        Code::NotWellFounded,
    ),
    (
        b"",
        b"(set-logic QF_UF)(assert (forall ((x Bool)) y))",
        2,
        44,
        Code::UnknownFunction,
    ),
    (
        b"",
        b"(set-logic QF_UF)(define-fun-rec r ((p Bool) (p Bool)) Bool p)",
        2,
        46,
        Code::RepeatedVariable,
    ),
    (
        b"",
        b"(set-logic QF_LIA)(declare-const x Int)(assert (* x x))",
        3,
        47,
        Code::WrongTermSort,
    ),
    (
        b"",
        b"(set-logic QF_LIA)(declare-const x Int)(assert (= (* x x) true))",
        3,
        47,
        Code::NoRank,
    ),
    (
        b"",
        b"(set-logic QF_LIA)(declare-const x Int)(assert (= (! (* x x) :named x) 0))",
        3,
        68,
        Code::WrongNamedTerm,
    ),
    (
        b"",
        b"(set-logic QF_AUFLIA)(declare-const a (Array Bool))",
        2,
        38,
        Code::WrongSortArity,
    ),
];

#[test]
fn accepts_differences_and_arrays(rt: HostRuntime) -> Result<(), Fail> {
    for (front, back, count) in OTHER_ACCEPTED {
        try_accepted_after(&rt, rt.alloc(), front, back, count)?;
    }
    Ok(())
}

#[test]
fn refuses_what_fragments_exclude(rt: HostRuntime) -> Result<(), Fail> {
    for (front, back, command, at, rule) in OTHER_REFUSED {
        try_refused_after(&rt, rt.alloc(), front, back, command, at, rule)?;
    }
    Ok(())
}

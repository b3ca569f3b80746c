//! Linear terms over the integers.
use super::{try_accepted_after, try_refused_after};
use sig_table::Code;
use std::test::Fail;

const LINEAR: &[u8] = b"(set-logic QF_LIA)(declare-const x Int)(declare-const y Int)";

const QUANTIFIED: &[u8] = b"(set-logic UFLIA)(declare-const x Int)(declare-fun f (Int) Int)";

const MATCHED: &[u8] =
    b"(set-logic QF_UFDTLIA)(declare-datatype L ((nil) (cons (head Int) (tail L))))(declare-const l L)";

// The commands before and those that are tried, with how many there are.
const LINEAR_TERMS: [(&[u8], &[u8], u32); 48] = [
    // products with coefficients
    (LINEAR, b"(assert (= (* 2 x) (* x 2)))", 4),
    (LINEAR, b"(assert (= (* 2 3 x) 0))", 4),
    (LINEAR, b"(assert (= (* (- 5) x) 0))", 4),
    (LINEAR, b"(assert (= (* 2 (+ x y)) 0))", 4),
    (LINEAR, b"(assert (= (* 2 3) (* 2 (- (- 5)))))", 4),
    (LINEAR, b"(assert (= (* (let ((k 2)) k) x) 0))", 4),
    (LINEAR, b"(assert (= (* (- (let ((k 2)) k)) x) 0))", 4),
    (
        LINEAR,
        b"(assert (= (* (! 2 :weight 1) x) (* x (! (- 2) :named k))))",
        4,
    ),
    (LINEAR, b"(assert (let ((k 2)) (= (* k x) 0)))", 4),
    (LINEAR, b"(assert (let ((x 2)) (= (* x y) 0)))", 4),
    (
        LINEAR,
        b"(assert (let ((k 2)) (let ((k k)) (= (* k x) 0))))",
        4,
    ),
    (
        LINEAR,
        b"(assert (let ((k 2)) (let ((k y) (j k)) (= (* j x) 0))))",
        4,
    ),
    // quotients and other terms
    (LINEAR, b"(assert (= (div x 2) (mod x 2)))", 4),
    (LINEAR, b"(assert (= (div x 2 3) 0))", 4),
    (LINEAR, b"(assert (= (div x (- 2)) (mod x (- 2))))", 4),
    (LINEAR, b"(assert (= (div 0 2) (mod 0 2)))", 4),
    (LINEAR, b"(assert (= (div (+ x y) 2) (mod (abs x) 3)))", 4),
    (
        LINEAR,
        b"(assert (let ((k 2)) (= (div x k) (mod x (- k)))))",
        4,
    ),
    (
        LINEAR,
        b"(define-fun k () Int 2)(assert (= (div x k) (mod x k)))",
        5,
    ),
    (LINEAR, b"(assert ((_ divisible 3) (+ x y)))", 4),
    (
        LINEAR,
        b"(assert (distinct (- x y 1) (- x) (- (- 5)) (ite (< x y) x y)))",
        4,
    ),
    // defined coefficients
    (LINEAR, b"(define-fun k () Int 2)(assert (= (* k x) 0))", 5),
    (
        LINEAR,
        b"(define-fun k () Int (- 2))(assert (= (* k x) (div y k)))",
        5,
    ),
    (
        LINEAR,
        b"(define-fun k () Int 2)(define-fun j () Int k)(assert (= (* (- j) x) 0))",
        6,
    ),
    (
        LINEAR,
        b"(define-fun k () Int (let ((j 2)) (! j :weight 1)))(assert (= (* k x) 0))",
        5,
    ),
    (
        LINEAR,
        b"(define-fun k () Int 2)(assert (let ((j k)) (= (* j x) 0)))",
        5,
    ),
    (
        LINEAR,
        b"(push 1)(define-fun k () Int x)(pop 1)(define-fun k () Int 2)\
            (assert (= (* k y) 0))",
        8,
    ),
    (
        LINEAR,
        b"(define-fun k () Int x)(reset)(set-logic QF_LIA)(define-fun k () Int 2)\
            (declare-const x Int)(assert (= (* k x) 0))",
        9,
    ),
    (
        LINEAR,
        b"(define-fun k () Int x)(reset-assertions)(define-fun k () Int 2)\
            (declare-const x Int)(assert (= (* k x) 0))",
        8,
    ),
    // named coefficients
    (
        LINEAR,
        b"(assert (= (! 2 :named k) x))(assert (= (* k y) 0))",
        5,
    ),
    (
        LINEAR,
        b"(assert (= (! (! 2 :named j) :named k) x))(assert (= (* k x) (* j y)))",
        5,
    ),
    (
        LINEAR,
        b"(assert (= (! 2 :named j :named k) x))(assert (= (* k x) (* j y)))",
        5,
    ),
    (
        LINEAR,
        b"(get-value ((! (- 2) :named k)))(assert (= (* k y) (div x k)))",
        5,
    ),
    (
        LINEAR,
        b"(push 1)(assert (= (! x :named k) 1))(pop 1)(assert (= (! 2 :named k) 1))\
            (assert (= (* k y) 0))",
        8,
    ),
    (
        LINEAR,
        b"(assert (! true :pattern ((! 2 :named k))))(assert (= (* k x) 0))",
        5,
    ),
    (LINEAR, b"(assert (! true :pattern ((* x y) (div x 0))))", 4),
    (
        LINEAR,
        b"(assert (! true :pattern ((! (* x y) :named k))))(assert (= (* 2 k) 0))",
        5,
    ),
    // under quantifiers, and recursive definitions
    (
        QUANTIFIED,
        b"(assert (forall ((n Int)) (< (* 2 n) (f (* 3 n)))))",
        4,
    ),
    (
        QUANTIFIED,
        b"(assert (let ((k 2)) (let ((j k)) (forall ((k Int)) (= (* j k) 0)))))",
        4,
    ),
    (
        QUANTIFIED,
        b"(assert (exists ((n Int)) (let ((k 2)) (= (* k n) (f n)))))",
        4,
    ),
    (
        QUANTIFIED,
        b"(assert (forall ((n Int)) (! (= n n) :pattern ((f (* n n))))))",
        4,
    ),
    (
        QUANTIFIED,
        b"(define-fun-rec r ((n Int)) Int (ite (< n 1) 0 (* 2 (r (- n 1)))))",
        4,
    ),
    (
        QUANTIFIED,
        b"(define-fun-rec r () Int 2)(assert (= (* 2 r) (f r)))",
        5,
    ),
    (
        QUANTIFIED,
        b"(define-funs-rec ((r () Int) (s () Int)) (2 (* 2 r)))",
        4,
    ),
    // in match
    (MATCHED, b"(assert (= (* 2 (head l)) 0))", 4),
    (
        MATCHED,
        b"(assert (match l ((nil true) ((cons h t) (= (* 2 h) 0)))))",
        4,
    ),
    (
        MATCHED,
        b"(assert (let ((h 2)) (match l ((nil (= (* h (head l)) 0)) (x true)))))",
        4,
    ),
    (
        MATCHED,
        b"(assert (let ((h 2)) (let ((k h)) (match l ((nil true) ((cons h t) (= (* k h) 0)))))))",
        4,
    ),
];

// .. with the command and the byte of the fault.
const NONLINEAR_TERMS: [(&[u8], &[u8], u32, u32, Code); 65] = [
    // products
    (LINEAR, b"(assert (= (* x y) 0))", 4, 60, Code::NotLinear),
    (LINEAR, b"(assert (= (* x x) 0))", 4, 60, Code::NotLinear),
    (LINEAR, b"(assert (= (* x 2 y) 0))", 4, 60, Code::NotLinear),
    (
        LINEAR,
        b"(assert (= (* (- (- 5)) x) 0))",
        4,
        60,
        Code::NotLinear,
    ),
    (
        LINEAR,
        b"(assert (= (* (* 2 3) x) 0))",
        4,
        60,
        Code::NotLinear,
    ),
    (
        LINEAR,
        b"(assert (= (* (- 5 3) x) 0))",
        4,
        60,
        Code::NotLinear,
    ),
    (
        LINEAR,
        b"(assert (= (* (ite true 2 3) x) 0))",
        4,
        60,
        Code::NotLinear,
    ),
    (
        LINEAR,
        b"(assert (= (- (abs (* x y)) 1) 0))",
        4,
        60,
        Code::NotLinear,
    ),
    (
        LINEAR,
        b"(assert (! (= (* x y) 0) :named p))",
        4,
        60,
        Code::NotLinear,
    ),
    (LINEAR, b"(get-value (x (* x y)))", 4, 60, Code::NotLinear),
    (
        LINEAR,
        b"(define-fun f ((n Int)) Int (* n n))",
        4,
        60,
        Code::NotLinear,
    ),
    (
        LINEAR,
        b"(define-fun f () Int (+ 1 (* x y)))",
        4,
        60,
        Code::NotLinear,
    ),
    // products through let and annotations
    (
        LINEAR,
        b"(assert (let ((z (* x y))) (= z 0)))",
        4,
        60,
        Code::NotLinear,
    ),
    (
        LINEAR,
        b"(assert (let ((z (* x y))) true))",
        4,
        60,
        Code::NotLinear,
    ),
    (
        LINEAR,
        b"(assert (let ((k y)) (= (* k x) 0)))",
        4,
        60,
        Code::NotLinear,
    ),
    (
        LINEAR,
        b"(assert (= (* (let ((k y)) k) x) 0))",
        4,
        60,
        Code::NotLinear,
    ),
    (
        LINEAR,
        b"(assert (= (* (! y :weight 1) x) 0))",
        4,
        60,
        Code::NotLinear,
    ),
    (
        LINEAR,
        b"(assert (let ((x x)) (= (* x y) 0)))",
        4,
        60,
        Code::NotLinear,
    ),
    (
        LINEAR,
        b"(assert (let ((k 2)) (let ((k y)) (= (* k x) 0))))",
        4,
        60,
        Code::NotLinear,
    ),
    (
        LINEAR,
        b"(assert (let ((k y)) (let ((k 2) (j k)) (= (* j x) 0))))",
        4,
        60,
        Code::NotLinear,
    ),
    (
        LINEAR,
        b"(assert (let ((k (- 2))) (= (* (- k) x) 0)))",
        4,
        60,
        Code::NotLinear,
    ),
    (
        LINEAR,
        b"(assert (let ((k 2)) (let ((j (+ k 0))) (= (* j x) 0))))",
        4,
        60,
        Code::NotLinear,
    ),
    // quotients
    (LINEAR, b"(assert (= (div x y) 0))", 4, 60, Code::NotLinear),
    (LINEAR, b"(assert (= (div 2 x) 0))", 4, 60, Code::NotLinear),
    (LINEAR, b"(assert (= (div x 0) 0))", 4, 60, Code::NotLinear),
    (
        LINEAR,
        b"(assert (= (div x (- 0)) 0))",
        4,
        60,
        Code::NotLinear,
    ),
    (
        LINEAR,
        b"(assert (= (div x 2 y) 0))",
        4,
        60,
        Code::NotLinear,
    ),
    (
        LINEAR,
        b"(assert (= (div x 0 2) 0))",
        4,
        60,
        Code::NotLinear,
    ),
    (
        LINEAR,
        b"(assert (= (div x (+ 1 1)) 0))",
        4,
        60,
        Code::NotLinear,
    ),
    (LINEAR, b"(assert (= (mod x y) 0))", 4, 60, Code::NotLinear),
    (LINEAR, b"(assert (= (mod x 0) 0))", 4, 60, Code::NotLinear),
    (
        LINEAR,
        b"(assert (= (mod x (- (- 2))) 0))",
        4,
        60,
        Code::NotLinear,
    ),
    (
        LINEAR,
        b"(assert (let ((k 0)) (= (mod x k) 0)))",
        4,
        60,
        Code::NotLinear,
    ),
    (
        LINEAR,
        b"(assert (let ((k y)) (= (div x k) 0)))",
        4,
        60,
        Code::NotLinear,
    ),
    // defined constants that are no coefficients
    (
        LINEAR,
        b"(define-fun k () Int x)(assert (= (* k y) 0))",
        5,
        83,
        Code::NotLinear,
    ),
    (
        LINEAR,
        b"(define-fun k () Int (- 2))(assert (= (* (- k) x) 0))",
        5,
        87,
        Code::NotLinear,
    ),
    (
        LINEAR,
        b"(define-fun k () Int (+ 1 1))(assert (= (* k x) 0))",
        5,
        89,
        Code::NotLinear,
    ),
    (
        LINEAR,
        b"(define-fun k ((n Int)) Int 2)(assert (= (* (k 1) x) 0))",
        5,
        90,
        Code::NotLinear,
    ),
    (
        LINEAR,
        b"(define-fun k () Int 2)(define-fun f ((k Int)) Int (* k x))",
        5,
        83,
        Code::NotLinear,
    ),
    (
        LINEAR,
        b"(define-fun k () Int 2)(assert (let ((k y)) (= (* k x) 0)))",
        5,
        83,
        Code::NotLinear,
    ),
    (
        LINEAR,
        b"(define-fun k () Int 0)(assert (= (div x k) 0))",
        5,
        83,
        Code::NotLinear,
    ),
    (
        LINEAR,
        b"(push 1)(define-fun k () Int 2)(pop 1)(define-fun k () Int x)\
            (assert (= (* k y) 0))",
        8,
        121,
        Code::NotLinear,
    ),
    (
        LINEAR,
        b"(define-fun k () Int 2)(reset)(set-logic QF_LIA)(declare-const k Int)\
            (declare-const x Int)(assert (= (* k x) 0))",
        9,
        150,
        Code::NotLinear,
    ),
    // named terms that are no coefficients
    (
        LINEAR,
        b"(assert (= (! x :named k) 1))(assert (= (* k y) 0))",
        5,
        89,
        Code::NotLinear,
    ),
    (
        LINEAR,
        b"(assert (= (! (+ x 1) :named k) y))(assert (= (* k x) 0))",
        5,
        95,
        Code::NotLinear,
    ),
    (
        LINEAR,
        b"(assert (= (! (- 2) :named k) 1))(assert (= (* (- k) x) 0))",
        5,
        93,
        Code::NotLinear,
    ),
    (
        LINEAR,
        b"(push 1)(assert (= (! 2 :named k) 1))(pop 1)(assert (= (! x :named k) 1))\
            (assert (= (* k y) 0))",
        8,
        133,
        Code::NotLinear,
    ),
    (
        LINEAR,
        b"(assert (! true :pattern ((! (* x y) :named k))))(assert (= (* k x) 0))",
        5,
        109,
        Code::NotLinear,
    ),
    (
        LINEAR,
        b"(get-value ((! x :named k)))(get-value ((* k y)))",
        5,
        88,
        Code::NotLinear,
    ),
    // under quantifiers, and recursive definitions
    (
        QUANTIFIED,
        b"(assert (forall ((n Int)) (= (* n n) 0)))",
        4,
        63,
        Code::NotLinear,
    ),
    (
        QUANTIFIED,
        b"(assert (exists ((n Int)) (= (f (* n x)) 0)))",
        4,
        63,
        Code::NotLinear,
    ),
    (
        QUANTIFIED,
        b"(assert (let ((k 2)) (forall ((k Int)) (= (* k x) 0))))",
        4,
        63,
        Code::NotLinear,
    ),
    (
        QUANTIFIED,
        b"(assert (let ((k 2)) (exists ((n Int)) (let ((k n)) (= (* k x) 0)))))",
        4,
        63,
        Code::NotLinear,
    ),
    (
        QUANTIFIED,
        b"(assert (forall ((n Int)) (! (= (* n x) 0) :pattern ((f n)))))",
        4,
        63,
        Code::NotLinear,
    ),
    (
        QUANTIFIED,
        b"(assert (= (* (f 2) x) 0))",
        4,
        63,
        Code::NotLinear,
    ),
    (
        QUANTIFIED,
        b"(define-fun-rec r () Int 2)(assert (= (* r x) 0))",
        5,
        90,
        Code::NotLinear,
    ),
    (
        QUANTIFIED,
        b"(define-fun-rec r () Int 2)(define-fun s () Int r)(assert (= (* s x) 0))",
        6,
        113,
        Code::NotLinear,
    ),
    (
        QUANTIFIED,
        b"(define-fun-rec r ((n Int)) Int (* n (r n)))",
        4,
        63,
        Code::NotLinear,
    ),
    (
        QUANTIFIED,
        b"(define-funs-rec ((r () Int) (s () Int)) (2 (* x r)))",
        4,
        63,
        Code::NotLinear,
    ),
    // in match
    (
        MATCHED,
        b"(assert (= (* (head l) (head l)) 0))",
        4,
        96,
        Code::NotLinear,
    ),
    (
        MATCHED,
        b"(assert (match l ((nil true) ((cons h t) (= (* h h) 0)))))",
        4,
        96,
        Code::NotLinear,
    ),
    (
        MATCHED,
        b"(assert (= (match l ((nil 0) ((cons h t) (* h h)))) 0))",
        4,
        96,
        Code::NotLinear,
    ),
    (
        MATCHED,
        b"(assert (let ((h 2)) (match l ((nil true) ((cons h t) (= (* h (head l)) 0))))))",
        4,
        96,
        Code::NotLinear,
    ),
    (
        MATCHED,
        b"(assert (= (* (match l ((x 2))) (head l)) 0))",
        4,
        96,
        Code::NotLinear,
    ),
    (
        MATCHED,
        b"(assert (= (head (cons (* (head l) (head l)) nil)) 0))",
        4,
        96,
        Code::NotLinear,
    ),
];

#[test]
fn accepts_linear_terms(rt: HostRuntime) -> Result<(), Fail> {
    for (front, back, count) in LINEAR_TERMS {
        try_accepted_after(&rt, rt.alloc(), front, back, count)?;
    }
    Ok(())
}

#[test]
fn refuses_terms_that_are_not_linear(rt: HostRuntime) -> Result<(), Fail> {
    for (front, back, command, at, rule) in NONLINEAR_TERMS {
        try_refused_after(&rt, rt.alloc(), front, back, command, at, rule)?;
    }
    Ok(())
}

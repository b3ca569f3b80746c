//! Terms on bit vectors, where the logic has all theories.
use super::{answer, try_refused};
use sig_table::Code;
use std::test::Fail;

#[test]
fn accepts_bit_vectors(rt: HostRuntime) -> Result<(), Fail> {
    let rows: [(&[u8], u32); 3] = [
        // Two bits of an adder, against the sum.
        (
            b"(set-logic ALL)(declare-const a (_ BitVec 4))(declare-const b (_ BitVec 4))\
            (define-fun carry ((x (_ BitVec 1)) (y (_ BitVec 1)) (c (_ BitVec 1))) (_ BitVec 1)\
            (bvor (bvand x y) (bvand c (bvxor x y))))\
            (define-fun low () (_ BitVec 1) (bvxor ((_ extract 0 0) a) ((_ extract 0 0) b)))\
            (define-fun over () (_ BitVec 1)\
            (carry ((_ extract 0 0) a) ((_ extract 0 0) b) #b0))\
            (define-fun high () (_ BitVec 1)\
            (bvxor (bvxor ((_ extract 1 1) a) ((_ extract 1 1) b)) over))\
            (assert (not (= (concat high low) ((_ extract 1 0) (bvadd a b)))))(check-sat)",
            9,
        ),
        // A shift by stages, against the shift by all of them.
        (
            b"(set-logic ALL)(declare-const x (_ BitVec 8))(declare-const k (_ BitVec 8))\
            (define-fun stage ((y (_ BitVec 8)) (on (_ BitVec 1)) (by (_ BitVec 8))) (_ BitVec 8)\
            (ite (= on #b1) (bvshl y by) y))\
            (assert (bvult k #x08))\
            (assert (not (= (bvshl x k) (stage (stage (stage x ((_ extract 0 0) k) #x01)\
            ((_ extract 1 1) k) #x02) ((_ extract 2 2) k) (_ bv4 8)))))(check-sat)",
            7,
        ),
        // A step of a cyclic redundancy check, which takes one bit.
        (
            b"(set-logic ALL)(declare-const sum (_ BitVec 32))(declare-const octet (_ BitVec 8))\
            (define-fun next ((r (_ BitVec 32))) (_ BitVec 32)\
            (ite (= ((_ extract 0 0) r) #b1) (bvxor (bvlshr r #x00000001) #xedb88320)\
            (bvlshr r #x00000001)))\
            (define-fun first () (_ BitVec 32) (bvxor sum ((_ zero_extend 24) octet)))\
            (assert (= (next (next first)) ((_ rotate_left 3) (_ bv7 32))))(check-sat)",
            7,
        ),
    ];
    for (text, count) in &rows {
        assert_eq!(rt; answer(&rt, rt.alloc(), text, 0)?, (Ok(()), *count));
    }
    Ok(())
}

#[test]
fn refuses_bit_vectors_at_their_bytes(rt: HostRuntime) -> Result<(), Fail> {
    let rows: [(&[u8], u32, u32, Code); 3] = [
        (
            b"(set-logic QF_UF)(assert (= #b1 #b1))",
            2,
            28,
            Code::LiteralWithoutSort,
        ),
        (
            b"(set-logic ALL)(assert (= ((_ extract 8 0) #x00) #b1))",
            2,
            26,
            Code::WrongIndex,
        ),
        (
            b"(set-logic ALL)(assert (= (concat #b1 #b1) #b1))",
            2,
            23,
            Code::NoRank,
        ),
    ];
    for (text, command, at, rule) in &rows {
        try_refused(&rt, rt.alloc(), text, *command, *at, *rule)?;
    }
    Ok(())
}

//! Symbols, indices and widths, worked by hand from the declarations of the theory.
use crate::{BvFault, BvResult, Index, bv_form, bv_name, bv_rank, index_of};
use BvFault::{BadIndex, TooWide};
use BvResult::{Bool, Width};
use Index::{Large, Numeral, Symbol};
use sig_table::NameForm;
use std::process::Abort;

type Answer = Result<Option<BvResult>, BvFault>;

// What a symbol answers that is written with indices or without, as these say.
fn rank(rt: &impl Abort, name: &[u8], indices: &[Index], args: &[Option<u32>]) -> Answer {
    match bv_form(name) {
        Some(NameForm::Plain) => assert!(rt; indices.is_empty()),
        Some(NameForm::Indexed) => assert!(rt; !indices.is_empty()),
        None => panic!(rt; "no symbol"),
    }
    bv_rank(name, indices, args)
}

#[test]
fn operations_take_two_of_one_width(rt: HostRuntime) {
    let names: [&[u8]; 12] = [
        b"bvudiv", b"bvurem", b"bvshl", b"bvlshr", b"bvnand", b"bvnor", b"bvxnor", b"bvsub",
        b"bvsdiv", b"bvsrem", b"bvsmod", b"bvashr",
    ];
    for name in names {
        assert_eq!(rt;
            rank(&rt, name, &[], &[Some(8), Some(8)]),
            Ok(Some(Width(8)))
        );
        assert_eq!(rt; rank(&rt, name, &[], &[Some(8)]), Ok(None));
        assert_eq!(rt;
            rank(&rt, name, &[], &[Some(8), Some(8), Some(8)]),
            Ok(None)
        );
        assert_eq!(rt; rank(&rt, name, &[], &[Some(8), Some(9)]), Ok(None));
        assert_eq!(rt; rank(&rt, name, &[], &[Some(8), None]), Ok(None));
    }
}

#[test]
fn left_associative_operations_take_two_or_more(rt: HostRuntime) {
    let names: [&[u8]; 5] = [b"bvand", b"bvor", b"bvxor", b"bvadd", b"bvmul"];
    for name in names {
        assert_eq!(rt;
            rank(&rt, name, &[], &[Some(8), Some(8)]),
            Ok(Some(Width(8)))
        );
        assert_eq!(rt; rank(&rt, name, &[], &[Some(8); 20]), Ok(Some(Width(8))));
        assert_eq!(rt; rank(&rt, name, &[], &[Some(8)]), Ok(None));
        assert_eq!(rt;
            rank(&rt, name, &[], &[Some(8), Some(8), Some(9)]),
            Ok(None)
        );
        assert_eq!(rt; rank(&rt, name, &[], &[None, None]), Ok(None));
    }
}

#[test]
fn predicates_give_bool(rt: HostRuntime) {
    let names: [&[u8]; 8] = [
        b"bvult", b"bvule", b"bvugt", b"bvuge", b"bvslt", b"bvsle", b"bvsgt", b"bvsge",
    ];
    for name in names {
        assert_eq!(rt; rank(&rt, name, &[], &[Some(8), Some(8)]), Ok(Some(Bool)));
        assert_eq!(rt;
            rank(&rt, name, &[], &[Some(8), Some(8), Some(8)]),
            Ok(None)
        );
        assert_eq!(rt; rank(&rt, name, &[], &[Some(8), Some(16)]), Ok(None));
    }
}

#[test]
fn other_symbols_without_indices(rt: HostRuntime) {
    for name in [b"bvnot", b"bvneg"] {
        assert_eq!(rt; rank(&rt, name, &[], &[Some(8)]), Ok(Some(Width(8))));
        assert_eq!(rt; rank(&rt, name, &[], &[]), Ok(None));
        assert_eq!(rt; rank(&rt, name, &[], &[Some(8), Some(8)]), Ok(None));
        assert_eq!(rt; rank(&rt, name, &[], &[None]), Ok(None));
    }
    assert_eq!(rt;
        rank(&rt, b"bvcomp", &[], &[Some(8), Some(8)]),
        Ok(Some(Width(1)))
    );
    assert_eq!(rt; rank(&rt, b"bvcomp", &[], &[Some(8)]), Ok(None));
    assert_eq!(rt; rank(&rt, b"bvcomp", &[], &[Some(8), Some(1)]), Ok(None));
    assert_eq!(rt;
        rank(&rt, b"concat", &[], &[Some(8), Some(3)]),
        Ok(Some(Width(11)))
    );
    assert_eq!(rt;
        rank(&rt, b"concat", &[], &[Some(8), Some(3), Some(1)]),
        Ok(None)
    );
    assert_eq!(rt; rank(&rt, b"concat", &[], &[Some(8), None]), Ok(None));
}

#[test]
fn symbols_with_one_index(rt: HostRuntime) {
    let rows: [(&[u8], u32, u32); 6] = [
        (b"repeat", 3, 24),
        (b"zero_extend", 0, 8),
        (b"sign_extend", 8, 16),
        (b"zero_extend", 4_294_967_287, 4_294_967_295),
        (b"rotate_left", 9, 8),
        (b"rotate_right", 4_294_967_295, 8),
    ];
    for (name, index, width) in rows {
        let indices = [Numeral(index)];
        assert_eq!(rt;
            rank(&rt, name, &indices, &[Some(8)]),
            Ok(Some(Width(width)))
        );
        assert_eq!(rt; rank(&rt, name, &indices, &[]), Ok(None));
        assert_eq!(rt; rank(&rt, name, &indices, &[Some(8), Some(8)]), Ok(None));
        assert_eq!(rt; rank(&rt, name, &indices, &[None]), Ok(None));
        assert_eq!(rt;
            rank(&rt, name, &[Numeral(1), Numeral(1)], &[Some(8)]),
            Err(BadIndex)
        );
        assert_eq!(rt; rank(&rt, name, &[Symbol], &[Some(8)]), Err(BadIndex));
        assert_eq!(rt; rank(&rt, name, &[Large], &[Some(8)]), Err(TooWide));
    }
}

#[test]
fn extract_and_literals(rt: HostRuntime) {
    let rows: [(u32, u32, u32, Answer); 7] = [
        (7, 0, 8, Ok(Some(Width(8)))),
        (7, 7, 8, Ok(Some(Width(1)))),
        (7, 8, 16, Err(BadIndex)),
        (8, 0, 8, Err(BadIndex)),
        (0, 0, 1, Ok(Some(Width(1)))),
        (
            4_294_967_294,
            0,
            4_294_967_295,
            Ok(Some(Width(4_294_967_295))),
        ),
        (4_294_967_295, 0, 4_294_967_295, Err(BadIndex)),
    ];
    for (i, j, m, answer) in rows {
        assert_eq!(rt;
            rank(&rt, b"extract", &[Numeral(i), Numeral(j)], &[Some(m)]),
            answer
        );
    }
    assert_eq!(rt; rank(&rt, b"bv5", &[Numeral(8)], &[]), Ok(Some(Width(8))));
    assert_eq!(rt;
        rank(&rt, b"bv4294967296", &[Numeral(1)], &[]),
        Ok(Some(Width(1)))
    );
    assert_eq!(rt; rank(&rt, b"bv5", &[Numeral(8)], &[Some(8)]), Ok(None));
    assert_eq!(rt; rank(&rt, b"bv5", &[Numeral(0)], &[]), Err(BadIndex));
    assert_eq!(rt; rank(&rt, b"bv5", &[Large], &[]), Err(TooWide));
}

#[test]
fn the_first_rule_that_is_not_met_decides(rt: HostRuntime) {
    let rows: [(&[u8], &[Index], &[Option<u32>], Answer); 9] = [
        // The number and the kind of the indices come before their size.
        (b"extract", &[Large], &[Some(8)], Err(BadIndex)),
        (b"extract", &[Large, Symbol], &[Some(8)], Err(BadIndex)),
        // The size comes before the condition on the indices, and both before the arguments.
        (b"extract", &[Numeral(0), Large], &[], Err(TooWide)),
        (b"extract", &[Numeral(7), Numeral(8)], &[], Err(BadIndex)),
        (b"repeat", &[Numeral(0)], &[None], Err(BadIndex)),
        (b"bv5", &[Numeral(0)], &[Some(8)], Err(BadIndex)),
        // The arguments come before the width of the argument and that of the result.
        (
            b"extract",
            &[Numeral(8), Numeral(0)],
            &[Some(8), Some(8)],
            Ok(None),
        ),
        (b"extract", &[Numeral(8), Numeral(0)], &[None], Ok(None)),
        (
            b"repeat",
            &[Numeral(4_294_967_295)],
            &[Some(2), Some(2)],
            Ok(None),
        ),
    ];
    for (name, indices, args, answer) in rows {
        assert_eq!(rt; rank(&rt, name, indices, args), answer);
    }
}

#[test]
fn results_have_a_greatest_width(rt: HostRuntime) {
    let rows: [(&[u8], &[Index], &[Option<u32>], Answer); 8] = [
        (
            b"concat",
            &[],
            &[Some(2_147_483_647), Some(2_147_483_648)],
            Ok(Some(Width(4_294_967_295))),
        ),
        (
            b"concat",
            &[],
            &[Some(2_147_483_648), Some(2_147_483_648)],
            Err(TooWide),
        ),
        (
            b"concat",
            &[],
            &[Some(4_294_967_295), Some(4_294_967_295)],
            Err(TooWide),
        ),
        (
            b"repeat",
            &[Numeral(65_535)],
            &[Some(65_537)],
            Ok(Some(Width(4_294_967_295))),
        ),
        (b"repeat", &[Numeral(65_536)], &[Some(65_536)], Err(TooWide)),
        (
            b"sign_extend",
            &[Numeral(4_294_967_295)],
            &[Some(1)],
            Err(TooWide),
        ),
        (
            b"bv5",
            &[Numeral(4_294_967_295)],
            &[],
            Ok(Some(Width(4_294_967_295))),
        ),
        (
            b"bvcomp",
            &[],
            &[Some(4_294_967_295), Some(4_294_967_295)],
            Ok(Some(Width(1))),
        ),
    ];
    for (name, indices, args, answer) in rows {
        assert_eq!(rt; rank(&rt, name, indices, args), answer);
    }
}

#[test]
fn names_and_how_they_are_written(rt: HostRuntime) {
    let rows: [(&[u8], bool, Option<NameForm>); 17] = [
        (b"concat", true, Some(NameForm::Plain)),
        (b"bvadd", true, Some(NameForm::Plain)),
        (b"bvxor", true, Some(NameForm::Plain)),
        (b"extract", true, Some(NameForm::Indexed)),
        (b"repeat", true, Some(NameForm::Indexed)),
        (b"rotate_right", true, Some(NameForm::Indexed)),
        (b"zero_extend", true, Some(NameForm::Indexed)),
        (b"bv0", false, Some(NameForm::Indexed)),
        (b"bv5", false, Some(NameForm::Indexed)),
        (b"bv18446744073709551616", false, Some(NameForm::Indexed)),
        (b"bv", false, None),
        (b"bv05", false, None),
        (b"bv5x", false, None),
        (b"b5", false, None),
        (b"BitVec", false, None),
        (b"and", false, None),
        (b"", false, None),
    ];
    for (name, in_use, form) in rows {
        assert_eq!(rt; bv_name(name), in_use);
        assert_eq!(rt; bv_form(name), form);
    }
}

#[test]
fn numerals_as_indices(rt: HostRuntime) {
    let rows: [(&[u8], Index); 6] = [
        (b"0", Numeral(0)),
        (b"42", Numeral(42)),
        (b"4294967295", Numeral(4_294_967_295)),
        (b"4294967296", Large),
        (b"42949672950", Large),
        (b"340282366920938463463374607431768211456", Large),
    ];
    for (numeral, index) in rows {
        assert_eq!(rt; index_of(numeral), index);
    }
}

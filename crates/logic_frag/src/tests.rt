//! The table of the logics, as it was fixed for this project, and commands worked by hand.
mod breaks;

use super::{ArrayPart as Arrays, NumPart as Ints, logic_of};

// What a name of the table allows: the letters of its flags, the integers, the arrays, the bit vectors.
type Row = (&'static [u8], &'static [u8], Ints, Arrays, bool);

fn agrees(row: Row) -> bool {
    let (name, letters, ints, arrays, bits) = row;
    match logic_of(name) {
        Some(logic) => {
            logic.name == name
                && logic.q == letters.contains(&b'q')
                && logic.s == letters.contains(&b's')
                && logic.f == letters.contains(&b'f')
                && logic.d == letters.contains(&b'd')
                && logic.r == letters.contains(&b'r')
                && logic.ints == ints
                && logic.arrays == arrays
                && logic.bits == bits
        }
        None => false,
    }
}

#[test]
fn each_logic_allows_what_the_table_says(rt: HostRuntime) {
    let rows: [Row; 28] = [
        (b"QF_UF", b"s f", Ints::Absent, Arrays::Absent, false),
        (b"UF", b"q s f r", Ints::Absent, Arrays::Absent, false),
        (b"QF_IDL", b"", Ints::Difference, Arrays::Absent, false),
        (b"QF_LIA", b"", Ints::Linear, Arrays::Absent, false),
        (b"LIA", b"q", Ints::Linear, Arrays::Absent, false),
        (b"QF_UFLIA", b"s f", Ints::Linear, Arrays::Absent, false),
        (b"UFLIA", b"q s f r", Ints::Linear, Arrays::Absent, false),
        (b"QF_NIA", b"", Ints::Any, Arrays::Absent, false),
        (b"NIA", b"q", Ints::Any, Arrays::Absent, false),
        (b"QF_UFNIA", b"s f", Ints::Any, Arrays::Absent, false),
        (b"UFNIA", b"q s f r", Ints::Any, Arrays::Absent, false),
        (b"QF_AX", b"s", Ints::Absent, Arrays::Any, false),
        (b"QF_AUFLIA", b"s f", Ints::Linear, Arrays::Ints, false),
        (b"AUFLIA", b"q s f r", Ints::Linear, Arrays::Ints, false),
        (b"QF_BV", b"", Ints::Absent, Arrays::Absent, true),
        (b"BV", b"q", Ints::Absent, Arrays::Absent, true),
        (b"QF_UFBV", b"s f", Ints::Absent, Arrays::Absent, true),
        (b"UFBV", b"q s f r", Ints::Absent, Arrays::Absent, true),
        (b"QF_ABV", b"", Ints::Absent, Arrays::Bits, true),
        (b"ABV", b"q", Ints::Absent, Arrays::Bits, true),
        (b"QF_AUFBV", b"s f", Ints::Absent, Arrays::Bits, true),
        (b"AUFBV", b"q s f r", Ints::Absent, Arrays::Bits, true),
        (b"QF_DT", b"s d", Ints::Absent, Arrays::Absent, false),
        (b"QF_UFDT", b"s f d", Ints::Absent, Arrays::Absent, false),
        (b"UFDT", b"q s f d r", Ints::Absent, Arrays::Absent, false),
        (b"QF_UFDTLIA", b"s f d", Ints::Linear, Arrays::Absent, false),
        (
            b"UFDTLIA",
            b"q s f d r",
            Ints::Linear,
            Arrays::Absent,
            false,
        ),
        (b"ALL", b"q s f d r", Ints::Any, Arrays::Any, true),
    ];
    for row in rows {
        assert!(rt; agrees(row));
    }
}

#[test]
fn other_names_are_no_logics(rt: HostRuntime) {
    let names: [&[u8]; 6] = [b"", b"qf_uf", b"QF_U", b"QF_UFF", b"HORN", b"QF_LRA"];
    for name in names {
        assert!(rt; logic_of(name).is_none());
    }
}

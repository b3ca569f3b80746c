//! The table of the logics.
ghost use Rattle.std.specs.Prelude.{◌≡◌, map, slice_get};
ghost use Rattle.std.specs.Option.{option_map};
ghost use Rattle.logic_frag.specs.Logics.{described, logic, logic_named, logics};
ghost use Rattle.logic_frag.specs.Places.{logic_rows};

use crate::logic::{ArrayPart as Arrays, Logic, NumPart as Ints};
use sig_table::{Table, rows};

// A logic that allows what the letters say, each that of a field of `Logic`.
fn logic(name: &'static [u8], letters: &[u8], ints: Ints, arrays: Arrays, bits: bool) -> Logic
    ensures { described result ≡ logic name.now letters.now ints arrays bits }
{
    Logic {
        name,
        q: letters.contains(&b'q'),
        s: letters.contains(&b's'),
        f: letters.contains(&b'f'),
        d: letters.contains(&b'd'),
        r: letters.contains(&b'r'),
        ints,
        arrays,
        bits,
    }
}

fn all_logics() -> [Logic; 28]
    ensures { map described result ≡ logics }
{
    [
        logic(b"QF_UF", b"sf", Ints::Absent, Arrays::Absent, false),
        logic(b"UF", b"qsfr", Ints::Absent, Arrays::Absent, false),
        logic(b"QF_IDL", b"", Ints::Difference, Arrays::Absent, false),
        logic(b"QF_LIA", b"", Ints::Linear, Arrays::Absent, false),
        logic(b"LIA", b"q", Ints::Linear, Arrays::Absent, false),
        logic(b"QF_UFLIA", b"sf", Ints::Linear, Arrays::Absent, false),
        logic(b"UFLIA", b"qsfr", Ints::Linear, Arrays::Absent, false),
        logic(b"QF_NIA", b"", Ints::Any, Arrays::Absent, false),
        logic(b"NIA", b"q", Ints::Any, Arrays::Absent, false),
        logic(b"QF_UFNIA", b"sf", Ints::Any, Arrays::Absent, false),
        logic(b"UFNIA", b"qsfr", Ints::Any, Arrays::Absent, false),
        logic(b"QF_AX", b"s", Ints::Absent, Arrays::Any, false),
        logic(b"QF_AUFLIA", b"sf", Ints::Linear, Arrays::Ints, false),
        logic(b"AUFLIA", b"qsfr", Ints::Linear, Arrays::Ints, false),
        logic(b"QF_BV", b"", Ints::Absent, Arrays::Absent, true),
        logic(b"BV", b"q", Ints::Absent, Arrays::Absent, true),
        logic(b"QF_UFBV", b"sf", Ints::Absent, Arrays::Absent, true),
        logic(b"UFBV", b"qsfr", Ints::Absent, Arrays::Absent, true),
        logic(b"QF_ABV", b"", Ints::Absent, Arrays::Bits, true),
        logic(b"ABV", b"q", Ints::Absent, Arrays::Bits, true),
        logic(b"QF_AUFBV", b"sf", Ints::Absent, Arrays::Bits, true),
        logic(b"AUFBV", b"qsfr", Ints::Absent, Arrays::Bits, true),
        logic(b"QF_DT", b"sd", Ints::Absent, Arrays::Absent, false),
        logic(b"QF_UFDT", b"sfd", Ints::Absent, Arrays::Absent, false),
        logic(b"UFDT", b"qsfdr", Ints::Absent, Arrays::Absent, false),
        logic(b"QF_UFDTLIA", b"sfd", Ints::Linear, Arrays::Absent, false),
        logic(b"UFDTLIA", b"qsfdr", Ints::Linear, Arrays::Absent, false),
        logic(b"ALL", b"qsfdr", Ints::Any, Arrays::Any, true),
    ]
}

// The place of each logic among them all.
fn places() -> Table<28>
    ensures { result ≡ logic_rows }
{
    Table::of(rows![
        b"ABV" => 19,
        b"ALL" => 27,
        b"AUFBV" => 21,
        b"AUFLIA" => 13,
        b"BV" => 15,
        b"LIA" => 4,
        b"NIA" => 8,
        b"QF_ABV" => 18,
        b"QF_AUFBV" => 20,
        b"QF_AUFLIA" => 12,
        b"QF_AX" => 11,
        b"QF_BV" => 14,
        b"QF_DT" => 22,
        b"QF_IDL" => 2,
        b"QF_LIA" => 3,
        b"QF_NIA" => 7,
        b"QF_UF" => 0,
        b"QF_UFBV" => 16,
        b"QF_UFDT" => 23,
        b"QF_UFDTLIA" => 25,
        b"QF_UFLIA" => 5,
        b"QF_UFNIA" => 9,
        b"UF" => 1,
        b"UFBV" => 17,
        b"UFDT" => 24,
        b"UFDTLIA" => 26,
        b"UFLIA" => 6,
        b"UFNIA" => 10,
    ])
}

fn logic_at(list: &[Logic], place: usize) -> Option<Logic>
    ensures { result ≡ slice_get list.now place }
{
    list.get(place).copied()
}

/// The logic of this name, or `None` where there is none.
#[tactic(auto, using(crate::proofs::NamedLogics::named_words))]
pub fn logic_of(name: &[u8]) -> Option<Logic>
    ensures { option_map described result ≡ logic_named name.now }
{
    let place = places().find(name)?;
    logic_at(&all_logics(), usize::from(place))
}

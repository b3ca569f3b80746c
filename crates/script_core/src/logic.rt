//! The theories of a logic (SMT-LIB 2.6, section 3.8).
ghost use Rattle.std.specs.Prelude.{◌≡◌, option_map};
ghost use Rattle.logic_frag.specs.Logics.{described};
ghost use Rattle.script_core.specs.Environment as spec;

use logic_frag::{ArrayPart, Logic, NumPart};
use sig_table::Theories;

/// Core alone, as where no logic is set.
pub fn core_alone() -> Theories
    ensures { result ≡ spec.core_alone }
{
    Theories {
        ints: false,
        arrays: false,
        bits: false,
    }
}

/// The theories of the logic that is set, and Core alone where none is.
pub fn theories_under(logic: &Option<Logic>) -> Theories
    ensures { result ≡ spec.theories_under (option_map described logic.now) }
{
    match logic {
        Some(logic) => Theories {
            ints: !matches!(logic.ints, NumPart::Absent),
            arrays: !matches!(logic.arrays, ArrayPart::Absent),
            bits: logic.bits,
        },
        None => core_alone(),
    }
}

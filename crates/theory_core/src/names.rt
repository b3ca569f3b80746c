//! The names that the theories use for functions.
ghost use Rattle.std.specs.Prelude.{◌≡◌};
ghost use Rattle.sort_store.specs.Ranks.{is_symbol};
ghost use Rattle.theory_core.specs.TheorySymbols.{theory_symbols, form_of};

use crate::symbols::{arrays_kind, core_kind, ints_kind};
use sig_table::{NameForm, Theories};

/// Whether the name is that of a function symbol of Core, or of Ints or ArraysEx where the logic
/// has it. Bit vectors are not looked at.
#[tactic(auto, using(crate::proofs::SymbolNames::in_use_words))]
pub fn theory_name(theories: Theories, name: &[u8]) -> bool
    ensures { result ≡ is_symbol name.now (theory_symbols theories) }
{
    core_kind(name).is_some()
        || (theories.ints && ints_kind(name).is_some())
        || (theories.arrays && arrays_kind(name).is_some())
}

/// How the name is written where it is such a name: with an index for `divisible`, as in
/// `(_ divisible 3)`, and as a symbol alone for each other one (the theory declaration Ints).
pub fn theory_form(theories: Theories, name: &[u8]) -> Option<NameForm>
    ensures { result ≡ form_of theories name.now }
{
    if !theory_name(theories, name) {
        return None;
    }
    if name == b"divisible".as_slice() {
        return Some(NameForm::Indexed);
    }
    Some(NameForm::Plain)
}

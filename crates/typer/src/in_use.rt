//! Names that no declaration may take.
ghost use Rattle.std.specs.Prelude.{◌≡◌};
ghost use Rattle.typer.specs.FunctionSymbols as spec;
ghost use Rattle.typer.specs.FunctionSymbols.{signature_of};

use crate::symbol::{is_theory_sort, text_of};
use crate::world::World;
use lex_core::NameId;
use sig_table::Theories;
use theory_bv::bv_name;
use theory_core::theory_form;

// Whether Core or a theory of the logic has a function symbol with this text, but for `bvX`.
fn is_theory_fun(theories: &Theories, text: &[u8]) -> bool
    ensures { result ≡ spec.is_theory_fun theories.now text.now }
{
    theory_form(*theories, text).is_some() || (theories.bits && bv_name(text))
}

/// Whether the function name is in use: Core or a theory of the logic has a function symbol of this name, or one is live
/// (SMT-LIB 2.6, section 4.2.3).
pub fn is_fun_in_use(world: &World, name: NameId) -> bool
    ensures { result ≡ spec.is_fun_in_use (signature_of world.now) name }
{
    let text = text_of(&world.names, name);
    is_theory_fun(&world.theories, text) || world.scopes.find_fun(name).is_some()
}

/// Whether the sort name is in use: Core or a theory of the logic has a sort symbol of this name, or
/// one is live (SMT-LIB 2.6, section 4.2.3).
pub fn is_sort_in_use(world: &World, name: NameId) -> bool
    ensures { result ≡ spec.is_sort_in_use (signature_of world.now) name }
{
    is_theory_sort(&world.names, &world.theories, name) || world.scopes.find_sort(name).is_some()
}

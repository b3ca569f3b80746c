//! Sort symbols: what their names stand for.
ghost use Rattle.std.specs.Prelude.{◌≡◌, ◌==◌, [], option_map, slice_index_or};
ghost use Rattle.std.specs.List.{list_any, position};
ghost use Rattle.sort_store.specs.Tree.{tree};
ghost use Rattle.typer.specs.SortRules.{is_captured as head_is_captured, has_captured as sort_has_captured};
ghost use Rattle.typer.specs.SortSymbols.{symbol_of, theory_symbol as symbol_of_theory, is_text as name_is_text, is_bit_vector as name_is_bit_vector, is_theory_sort as name_is_theory_sort};

use lex_core::{NameId, Names};
use sig_table::Theories;
use sort_store::{Head, SortRef};

/// The text of a name; the empty text where the table has no such number.
pub(crate) fn text_of(names: &Names, name: NameId) -> &[u8]
    ensures { result.now ≡ slice_index_or names.now name [] }
{
    if (name.number() as usize) < names.count() {
        names.text(name)
    } else {
        &[]
    }
}

/// Whether the name has the text.
pub(crate) fn is_text(names: &Names, name: NameId, text: &[u8]) -> bool
    ensures { result ≡ name_is_text names.now text.now name }
{
    text_of(names, name) == text
}

/// The place of the name among the parameters.
pub(crate) fn parameter(params: &[NameId], name: NameId) -> Option<usize>
    ensures { result ≡ position (λ p. p == name) params.now }
{
    params.iter().position(|param| *param == name)
}

/// The sort symbol of Core or of a theory that the name is, with its arity.
pub(crate) fn theory_symbol(names: &Names, theories: &Theories, name: NameId) -> Option<(Head, u32)>
    ensures { option_map (λ p. symbol_of p.0 p.1) result ≡ symbol_of_theory names.now theories.now name }
{
    if is_text(names, name, b"Bool") {
        return Some((Head::Bool, 0));
    }
    if theories.ints && is_text(names, name, b"Int") {
        return Some((Head::Int, 0));
    }
    if theories.arrays && is_text(names, name, b"Array") {
        return Some((Head::Array, 2));
    }
    None
}

// Whether one of the names has the text.
fn has_text(names: &Names, some: &[NameId], text: &[u8]) -> bool
    ensures { result ≡ list_any (name_is_text names.now text.now) some.now }
{
    for name in some {
        if is_text(names, *name, text) {
            return true;
        }
    }
    false
}

// Whether the name is one of some.
fn is_one_of(name: NameId, some: &[NameId]) -> bool
    ensures { result ≡ list_any (λ p. p == name) some.now }
{
    some.iter().any(|other| *other == name)
}

/// Whether a theory or Core uses the name for a sort: the names of its sort symbols (SMT-LIB 2.6,
/// theory declarations), `BitVec` among them.
pub fn is_theory_sort(names: &Names, theories: &Theories, name: NameId) -> bool
    ensures { result ≡ name_is_theory_sort names.now theories.now name }
{
    is_text(names, name, b"Bool")
        || (theories.ints && is_text(names, name, b"Int"))
        || (theories.arrays && is_text(names, name, b"Array"))
        || is_bit_vector(names, theories, name)
}

// Whether the name begins `(_ BitVec m)`.
pub(crate) fn is_bit_vector(names: &Names, theories: &Theories, name: NameId) -> bool
    ensures { result ≡ name_is_bit_vector names.now theories.now name }
{
    theories.bits && is_text(names, name, b"BitVec")
}

// Whether the sort symbol has the name of one of the parameters.
fn is_captured(names: &Names, params: &[NameId], head: Head) -> bool
    ensures { result ≡ head_is_captured names.now params.now head }
{
    match head {
        Head::Bool => has_text(names, params, b"Bool"),
        Head::Int => has_text(names, params, b"Int"),
        Head::Array => has_text(names, params, b"Array"),
        Head::Free { name, .. } => is_one_of(name, params),
        Head::Data { name, .. } => is_one_of(name, params),
        Head::BitVec(_) => false,
        Head::Param(_) => false,
    }
}

/// Whether some sort symbol of the sort has the name of one of the parameters.
#[tactic(auto, using(crate::proofs::CapturedSymbols::captured_words))]
pub(crate) fn has_captured(names: &Names, params: &[NameId], sort: &SortRef) -> bool
    ensures { result ≡ sort_has_captured names.now params.now (tree sort.now) }
{
    if is_captured(names, params, sort.head()) {
        return true;
    }
    for i in 0..sort.arg_count() {
        if let Some(arg) = sort.arg(i) {
            if has_captured(names, params, arg) {
                return true;
            }
        }
    }
    false
}

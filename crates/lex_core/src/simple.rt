//! Which symbols print without bars.
ghost use Rattle.std.specs.Prelude.{◌≡◌, ◌↔◌, IsTrue};
ghost use Rattle.std.specs.List.{list_all};
ghost use Rattle.lex_core.specs.Bytes.{is_symbol_byte};
ghost use Rattle.lex_core.specs.Spelling.{is_symbol_word, is_reserved, IsSimple};

use crate::bytes::{is_digit, is_symbol_byte};
use sig_table::reserved;

/// Whether a symbol with these bytes prints without bars: whether they are a simple symbol (SMT-LIB
/// 2.6, section 3.1), which is a nonempty run of symbol bytes that does not begin with a digit and
/// is no reserved word.
pub fn is_simple(text: &[u8]) -> bool
    ensures { IsTrue result ↔ IsSimple text.now }
{
    is_symbol_word(text) && !is_reserved(text)
}

// Whether the bytes are a simple symbol or a reserved word.
fn is_symbol_word(text: &[u8]) -> bool
    ensures { result ≡ is_symbol_word text.now }
{
    match text.first() {
        None => false,
        Some(first) => !is_digit(*first) && are_symbol_bytes(text),
    }
}

fn are_symbol_bytes(text: &[u8]) -> bool
    ensures { result ≡ list_all is_symbol_byte text.now }
{
    text.iter().all(|b| is_symbol_byte(*b))
}

fn is_reserved(text: &[u8]) -> bool
    ensures { result ≡ is_reserved text.now }
{
    reserved().find(text).is_some()
}

//! What a word, a maximal run of word bytes, may spell so far.
ghost use Rattle.std.specs.Prelude.{◌≡◌};
ghost use Rattle.lex_core.specs.WordClasses.{next_class, is_live};

use crate::bytes::{is_binary_digit, is_digit, is_hex_digit, is_symbol_byte};

/// What the bytes of a word spell so far.
#[derive(Clone, Copy, Debug, PartialEq, Eq)]
pub enum WordClass {
    /// no byte yet
    Empty,
    /// `0`
    Zero,
    /// a numeral other than `0`
    Digits,
    /// a numeral and a point
    DecimalPoint,
    /// a decimal
    Fraction,
    /// `#`
    Hash,
    /// `#x`
    HexPrefix,
    /// a hexadecimal
    HexDigits,
    /// `#b`
    BinaryPrefix,
    /// a binary
    BinaryDigits,
    /// a simple symbol or a reserved word
    SymbolBytes,
    /// `:`
    Colon,
    /// a keyword
    KeywordBytes,
    /// no token begins so
    Invalid,
}

// Whether some token begins with such bytes.
pub fn is_live(class: WordClass) -> bool
    ensures { result ≡ is_live class }
{
    match class {
        WordClass::Empty => false,
        WordClass::Invalid => false,
        _ => true,
    }
}

// The class of a word after one more byte.
pub fn next_class(class: WordClass, b: u8) -> WordClass
    ensures { result ≡ next_class class b }
{
    match class {
        WordClass::Empty => {
            if b == b'0' {
                WordClass::Zero
            } else if is_digit(b) {
                WordClass::Digits
            } else if b == b'#' {
                WordClass::Hash
            } else if b == b':' {
                WordClass::Colon
            } else if is_symbol_byte(b) {
                WordClass::SymbolBytes
            } else {
                WordClass::Invalid
            }
        }
        WordClass::Zero if b == b'.' => WordClass::DecimalPoint,
        WordClass::Digits if is_digit(b) => WordClass::Digits,
        WordClass::Digits if b == b'.' => WordClass::DecimalPoint,
        WordClass::DecimalPoint if is_digit(b) => WordClass::Fraction,
        WordClass::Fraction if is_digit(b) => WordClass::Fraction,
        WordClass::Hash if b == b'x' => WordClass::HexPrefix,
        WordClass::Hash if b == b'b' => WordClass::BinaryPrefix,
        WordClass::HexPrefix if is_hex_digit(b) => WordClass::HexDigits,
        WordClass::HexDigits if is_hex_digit(b) => WordClass::HexDigits,
        WordClass::BinaryPrefix if is_binary_digit(b) => WordClass::BinaryDigits,
        WordClass::BinaryDigits if is_binary_digit(b) => WordClass::BinaryDigits,
        WordClass::SymbolBytes if is_symbol_byte(b) => WordClass::SymbolBytes,
        WordClass::Colon if is_symbol_byte(b) => WordClass::KeywordBytes,
        WordClass::KeywordBytes if is_symbol_byte(b) => WordClass::KeywordBytes,
        _ => WordClass::Invalid,
    }
}

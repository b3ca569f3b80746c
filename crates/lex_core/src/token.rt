//! The tokens of a script.
use crate::names::NameId;

/// The kinds of tokens (SMT-LIB 2.6, section 3.1).
#[derive(Clone, Copy, Debug, PartialEq, Eq)]
pub enum TokKind {
    /// `(`
    Open,
    /// `)`
    Close,
    /// `0`, or digits that do not begin with `0`
    Numeral,
    /// a numeral, a point and digits
    Decimal,
    /// `#x` and hexadecimal digits
    Hexadecimal,
    /// `#b` and binary digits
    Binary,
    /// a string literal
    Str,
    /// a simple or a quoted symbol
    Symbol,
    /// a reserved word, the names of commands among them
    Reserved,
    /// `:` and symbol bytes
    Keyword,
}

/// A token. The name of a symbol is its bytes without bars, of a string literal its bytes with each
/// doubled quote as one, of a parenthesis the empty text, and of every other token its spelling.
#[derive(Clone, Copy, Debug, PartialEq, Eq)]
pub struct Tok {
    pub kind: TokKind,
    pub name: NameId,
    /// The offset of its first byte, from 0.
    pub at: u32,
}

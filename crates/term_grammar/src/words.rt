//! The words of the grammar, told by the numbers that they have in every table of names.
ghost use Rattle.std.specs.Prelude.{◌≡◌};
ghost use Rattle.term_grammar.specs.Words.{is_symbol as is_a_symbol, is_numeral as is_a_numeral, is_string as is_a_string, is_keyword as is_a_keyword, is_index as is_an_index, is_constant as is_a_constant, is_reserved as is_this_word, begins_with, word_numbered, is_key as is_this_key, is_value_token as is_a_value_token};

use lex_core::{Tok, TokKind};

/// The number of the reserved word `!`.
pub(crate) const ANNOTATION: u32 = 1;
/// The number of the reserved word `_`.
pub(crate) const UNDERSCORE: u32 = 7;
/// The number of the reserved word `as`.
pub(crate) const AS: u32 = 8;
/// The number of the reserved word `exists`.
pub(crate) const EXISTS: u32 = 22;
/// The number of the reserved word `forall`.
pub(crate) const FORALL: u32 = 24;
/// The number of the reserved word `let`.
pub(crate) const LET: u32 = 34;
/// The number of the reserved word `match`.
pub(crate) const MATCH: u32 = 35;
/// The number of the reserved word `par`.
pub const PAR: u32 = 36;
/// The number of the keyword `:named`.
pub(crate) const NAMED: u32 = 44;
/// The number of the keyword `:pattern`.
pub(crate) const PATTERN: u32 = 45;
/// The number of the keyword `:global-declarations`.
pub const GLOBAL_DECLARATIONS: u32 = 46;
/// The number of the symbol `true`.
pub const TRUE: u32 = 47;
/// The number of the symbol `false`.
pub const FALSE: u32 = 48;
/// The number of the symbol `not`.
pub const NOT: u32 = 49;

/// The reserved word that begins a term (SMT-LIB 2.6, section 3.6).
#[derive(Clone, Copy, Debug, PartialEq, Eq)]
pub(crate) enum TermWord {
    /// `let`
    Let,
    /// `forall`
    Forall,
    /// `exists`
    Exists,
    /// `match`
    Match,
    /// `!`
    Annotation,
    /// any other word
    Other,
}

/// Whether the token is a symbol, with bars or without.
pub fn is_symbol(tok: &Tok) -> bool
    ensures { result ≡ is_a_symbol tok.now }
{
    match tok.kind {
        TokKind::Symbol => true,
        _ => false,
    }
}

/// Whether the token is a numeral.
pub fn is_numeral(tok: &Tok) -> bool
    ensures { result ≡ is_a_numeral tok.now }
{
    match tok.kind {
        TokKind::Numeral => true,
        _ => false,
    }
}

/// Whether the token is a string literal.
pub fn is_string(tok: &Tok) -> bool
    ensures { result ≡ is_a_string tok.now }
{
    match tok.kind {
        TokKind::Str => true,
        _ => false,
    }
}

/// Whether the token is a keyword.
pub fn is_keyword(tok: &Tok) -> bool
    ensures { result ≡ is_a_keyword tok.now }
{
    match tok.kind {
        TokKind::Keyword => true,
        _ => false,
    }
}

/// Whether the token is a numeral or a symbol.
pub(crate) fn is_index(tok: &Tok) -> bool
    ensures { result ≡ is_an_index tok.now }
{
    match tok.kind {
        TokKind::Symbol | TokKind::Numeral => true,
        _ => false,
    }
}

/// Whether the token is a numeral, a decimal, a hexadecimal, a binary or a string literal.
pub(crate) fn is_constant(tok: &Tok) -> bool
    ensures { result ≡ is_a_constant tok.now }
{
    match tok.kind {
        TokKind::Numeral
        | TokKind::Decimal
        | TokKind::Hexadecimal
        | TokKind::Binary
        | TokKind::Str => true,
        TokKind::Open | TokKind::Close | TokKind::Symbol | TokKind::Reserved | TokKind::Keyword =>
            false,
    }
}

/// Whether the token is the reserved word of this number.
pub fn is_reserved(tok: &Tok, number: u32) -> bool
    ensures { result ≡ is_this_word number tok.now }
{
    match tok.kind {
        TokKind::Reserved => tok.name.number() == number,
        _ => false,
    }
}

/// The reserved word that the token is.
pub(crate) fn term_word(tok: &Tok) -> TermWord
    ensures { result ≡ begins_with tok.now }
{
    match tok.kind {
        TokKind::Reserved => reserved_word(tok.name.number()),
        _ => TermWord::Other,
    }
}

fn reserved_word(number: u32) -> TermWord
    ensures { result ≡ word_numbered number }
{
    if number == LET {
        TermWord::Let
    } else if number == FORALL {
        TermWord::Forall
    } else if number == EXISTS {
        TermWord::Exists
    } else if number == MATCH {
        TermWord::Match
    } else if number == ANNOTATION {
        TermWord::Annotation
    } else {
        TermWord::Other
    }
}

/// Whether the token is the keyword of this number.
pub fn is_key(tok: &Tok, number: u32) -> bool
    ensures { result ≡ is_this_key number tok.now }
{
    match tok.kind {
        TokKind::Keyword => tok.name.number() == number,
        _ => false,
    }
}

/// Whether the token can be a value: a constant or a symbol.
pub(crate) fn is_value_token(tok: &Tok) -> bool
    ensures { result ≡ is_a_value_token tok.now }
{
    is_constant(tok) || is_symbol(tok)
}

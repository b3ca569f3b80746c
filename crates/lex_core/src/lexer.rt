//! The lexer: bytes in, one by one, and tokens out.
ghost use Rattle.std.specs.Prelude.{◌≡◌, ◌<◌, ◌^◌, ◌++◌, ◌∷◌, length, IfOk, OnErr, ℕ, List, [], Some, None, Ok, Err};
ghost use Rattle.std.specs.Bool.{OnTrue};
ghost use Rattle.lex_core.specs.LexerCalls.{KeepsTexts, GainsNameOf, IsWordToken};
ghost use Rattle.lex_core.specs.Token.{token_of, fed_tokens, option_tokens, IsInterned};
ghost use Rattle.lex_core.specs.WordClasses.{kind_at};

use crate::bytes::{is_line_end, is_text_byte, is_white_space, is_word_byte};
use crate::names::Names;
use crate::place::Place;
use crate::token::{Tok, TokKind};
use crate::word::{WordClass, is_live, next_class};
use io_core::NoMemory;
use sig_table::Code;
use std::alloc::Global;
use std::marker::Model;
use thiserror::Error;

/// The tokens that a byte completes, in order.
#[derive(Clone, Copy, Debug, PartialEq, Eq)]
pub struct Fed {
    pub first: Option<Tok>,
    pub second: Option<Tok>,
}

/// A fault, and a token that ended at the faulty byte.
#[derive(Clone, Copy, Debug, PartialEq, Eq)]
pub struct LexFault {
    pub place: Place,
    pub before: Option<Tok>,
}

/// Why a byte, or the end, gives no tokens.
#[derive(Clone, Copy, Debug, PartialEq, Eq, Error)]
pub enum LexError {
    /// The bytes break the lexicon.
    #[error("the text breaks the lexicon at byte {}", .0.place.at)]
    Fault(LexFault),
    /// Memory ran out.
    #[error("out of memory")]
    NoMemory,
}

/// What a lexer is in the middle of.
#[derive(Clone, Copy, Debug, PartialEq, Eq)]
pub enum State {
    Between,
    Comment,
    Word(WordClass),
    StringLiteral,
    /// After a quote that ends a string literal, or is the first half of a doubled one.
    AfterQuote,
    QuotedSymbol,
    Failed(Place),
    OutOfMemory,
}

/// A lexer over bytes that come one by one (SMT-LIB 2.6, section 3.1). A parenthesis and a quoted
/// symbol are given with their last byte, every other token with the byte after it or by `finish`.
/// A lexer that answered an error answers the same error from then on.
#[derive(Drop)]
pub struct Lexer {
    state: State,
    // The name of the lexeme that is open.
    text: Vec<u8>,
    // Where that lexeme begins, and how many bytes were taken.
    start: u32,
    at: u32,
}

impl Model for Lexer {
    ghost use Rattle.std.specs.Prelude.{Option};
    ghost use Rattle.lex_core.specs.LexerSteps.{LexerState};
    ghost use Rattle.lex_core.specs.LexerCalls.{mode_in, state_with};

    ghost Value = { Option LexerState };

    ghost view = { λ l. state_with (mode_in l.state l.text.items) l.start l.at };
}

// Puts the byte last, and says whether there was room.
fn pushed(text: &mut Vec<u8>, byte: u8) -> bool
    ensures { OnTrue result (text.new.items ≡ text.old.items ++ byte ∷ []) }
{
    text.push(byte).is_ok()
}

// A token with this name.
fn token(names: &mut Names, kind: TokKind, name: &[u8], at: u32) -> Result<Tok, NoMemory>
    requires { length names.old < 2 ^ 31 }
    ensures value { IfOk result (λ tok.
        token_of names.new tok ≡ record { kind = kind; name = name.now; at = at }) }
    ensures interned { IfOk result (λ tok. IsInterned names.new (Some tok)) }
    ensures names { KeepsTexts names.old names.new }
    ensures gain { IfOk result (λ tok.
        GainsNameOf names.old names.new (option_tokens names.new (Some tok))) }
    ensures err { OnErr result (names.new ≡ names.old) }
{
    let name = names.intern(name)?;
    Ok(Tok { kind, name, at })
}

// The token of a word, if it spells one.
fn word_token(
    names: &mut Names,
    class: WordClass,
    text: &[u8],
    at: u32,
) -> Result<Option<Tok>, NoMemory>
    requires { length names.old < 2 ^ 31 }
    ensures token { IfOk result (λ found.
        IsWordToken names.new found (kind_at class text.now) text.now at) }
    ensures names { KeepsTexts names.old names.new }
    ensures gain { IfOk result (λ found.
        GainsNameOf names.old names.new (option_tokens names.new found)) }
    ensures err { OnErr result (names.new ≡ names.old) }
{
    let kind = match class {
        WordClass::Zero | WordClass::Digits => TokKind::Numeral,
        WordClass::Fraction => TokKind::Decimal,
        WordClass::HexDigits => TokKind::Hexadecimal,
        WordClass::BinaryDigits => TokKind::Binary,
        WordClass::KeywordBytes => TokKind::Keyword,
        WordClass::SymbolBytes => return Ok(Some(symbol_token(names, text, at)?)),
        _ => return Ok(None),
    };
    Ok(Some(token(names, kind, text, at)?))
}

// The token of a word of symbol bytes: a reserved word or a simple symbol.
fn symbol_token(names: &mut Names, text: &[u8], at: u32) -> Result<Tok, NoMemory>
    requires { length names.old < 2 ^ 31 }
    ensures token { IfOk result (λ tok.
        IsWordToken names.new (Some tok) (kind_at WordClass.SymbolBytes text.now) text.now at) }
    ensures names { KeepsTexts names.old names.new }
    ensures gain { IfOk result (λ tok.
        GainsNameOf names.old names.new (option_tokens names.new (Some tok))) }
    ensures err { OnErr result (names.new ≡ names.old) }
{
    let name = names.intern(text)?;
    if names.is_reserved(name, text) {
        let kind = TokKind::Reserved;
        Ok(Tok { kind, name, at })
    } else {
        let kind = TokKind::Symbol;
        Ok(Tok { kind, name, at })
    }
}

// A parenthesis, whose name is the empty text.
fn paren(names: &Names, kind: TokKind, at: u32) -> Tok
    ensures value { token_of names.now result ≡ record { kind = kind; name = []; at = at } }
    ensures interned { IsInterned names.now (Some result) }
{
    let name = names.empty();
    Tok { kind, name, at }
}

// The tokens of one byte, in order.
fn fed_of(first: Option<Tok>, second: Option<Tok>) -> Fed
    ensures value { (texts : List (List ℕ))
        → fed_tokens texts result ≡ option_tokens texts first ++ option_tokens texts second }
    ensures interned { (texts : List (List ℕ)) → IsInterned texts first → IsInterned texts second
        → IsInterned texts result.first × IsInterned texts result.second }
{
    match first {
        Some(_) => Fed { first, second },
        None => Fed {
            first: second,
            second: None,
        },
    }
}

impl Lexer {
    ghost use Rattle.std.specs.Prelude.{Some, None, [], ◌<◌, ◌^◌, ◌+◌, IfSome, IfOk, IfErr, OnOk, IsSomeAnd, false, true, length};
    ghost use Rattle.lex_core.specs.LexerSteps.{begin_lexeme, step, end_of, Between, InWord, InString, AfterQuote, InQuotedSymbol};
    ghost use Rattle.lex_core.specs.LexerCalls.{IsStep, after_tokens, IsInMode, FailsAt, IsEnding, HasRead, ReadsByte, FaultsAtByte, LexesAtEnd, FaultsAtEnd, IfFault, AnswersOnly, without_token, taken, DecidesViable, AllGivenInterned, GainsFed, GainsLeft};
    ghost use Rattle.lex_core.specs.Token.{Token};
    ghost use Rattle.lex_core.specs.Lexeme.{Lexes};
    ghost use Rattle.lex_core.specs.Faults.{ShowsFault};

    /// A lexer that has taken no bytes.
    pub fn new(alloc: Global) -> Lexer
        ensures value { result ≡ Some (record { start = 0; at = 0; mode = Between }) }
        ensures initial { HasRead [] [] result }
    {
        Lexer {
            state: State::Between,
            text: Vec::new(alloc),
            start: 0,
            at: 0,
        }
    }

    /// Takes the next byte, and gives the tokens that it completes. At most 2^30 bytes are taken.
    ///
    /// A fault comes with the first byte after which no continuation lexes: `UnexpectedByte`,
    /// `MalformedWord` or `BackslashInQuotedSymbol`. After an error each later call answers it
    /// again, without a token before it.
    pub fn feed(&mut self, names: &mut Names, byte: u8) -> Result<Fed, LexError>
        requires room { taken self.old < 2 ^ 30 }
        requires few { length names.old < 2 ^ 31 }

        // The tokens so far are those that are complete.
        ensures tokens { IfOk result (λ fed. ReadsByte self.old byte (fed_tokens names.new fed) self.new) }
        ensures taken { OnOk result (taken self.new ≡ taken self.old + 1) }

        // A fault is the first one, and comes exactly where no continuation lexes.
        ensures fault { IfErr result (λ e. IfFault e (λ fault.
            FaultsAtByte self.old byte (option_tokens names.new fault.before) fault.place)) }
        ensures viable { DecidesViable self.old byte result }

        // After an error each call answers it again.
        ensures failing { IfErr result (λ e. AnswersOnly e self.new) }
        ensures again { (e : LexError) → AnswersOnly e self.old
            → (result ≡ Err (without_token e)) × (self.new ≡ self.old) }

        // Names keep their numbers, and the table gains no text but the name of a token that is
        // given.
        ensures interned { AllGivenInterned names.new result }
        ensures names { KeepsTexts names.old names.new }
        ensures gain { GainsFed names.old names.new result }
    {
        self.advance(names, byte)
    }

    /// The token that is left at the end of the bytes.
    ///
    /// A fault comes where the bytes so far do not lex: `MalformedWord`, `UnclosedString` or
    /// `UnclosedQuotedSymbol`, with no token before it.
    pub fn finish(&mut self, names: &mut Names) -> Result<Option<Tok>, LexError>
        requires few { length names.old < 2 ^ 31 }

        // The bytes are these tokens.
        ensures lexes { IfOk result (λ left. LexesAtEnd self.old (option_tokens names.new left)) }

        // Or they end in a lexeme that lacks its end.
        ensures fault { IfErr result (λ e. IfFault e (λ fault. FaultsAtEnd self.old fault.place)) }
        ensures before { IfErr result (λ e. e ≡ without_token e) }

        // After an error each call answers it again.
        ensures ok { OnOk result (self.new ≡ self.old) }
        ensures failing { IfErr result (λ e. AnswersOnly e self.new) }
        ensures again { (e : LexError) → AnswersOnly e self.old
            → (result ≡ Err (without_token e)) × (self.new ≡ self.old) }

        // Names keep their numbers, and the table gains no text but the name of the token that is
        // given.
        ensures interned { IfOk result (IsInterned names.new) }
        ensures names { KeepsTexts names.old names.new }
        ensures gain { GainsLeft names.old names.new result }
    {
        self.end(names)
    }

    // From here on each call answers that memory ran out.
    fn out_of_memory(&mut self) -> Result<Fed, LexError>
        ensures gone { self.new ≡ None }
        ensures said { result ≡ Err LexError.NoMemory }
    {
        self.state = State::OutOfMemory;
        Err(LexError::NoMemory)
    }

    // A byte where no lexeme is open, after the token that it completed.
    fn begin_lexeme(
        &mut self,
        names: &Names,
        before: Option<Tok>,
        byte: u8,
    ) -> Result<Fed, LexError>
        requires room { IsSomeAnd self.old (λ p. p.at < 2 ^ 30) }
        requires interned { IsInterned names.now before }
        ensures { IfSome self.old (λ p. IsStep names.now
            (after_tokens (option_tokens names.now before) (begin_lexeme p.at byte)) self.new result) }
    {
        let at = self.at;
        self.at = at + 1;
        self.start = at;
        if is_word_byte(byte) {
            self.text.clear();
            if !pushed(&mut self.text, byte) {
                return self.out_of_memory();
            }
            self.state = State::Word(next_class(WordClass::Empty, byte));
            Ok(fed_of(before, None))
        } else if is_white_space(byte) {
            self.start = at + 1;
            self.state = State::Between;
            Ok(fed_of(before, None))
        } else if byte == b'(' {
            self.start = at + 1;
            self.state = State::Between;
            Ok(fed_of(before, Some(paren(names, TokKind::Open, at))))
        } else if byte == b')' {
            self.start = at + 1;
            self.state = State::Between;
            Ok(fed_of(before, Some(paren(names, TokKind::Close, at))))
        } else if byte == b';' {
            self.state = State::Comment;
            Ok(fed_of(before, None))
        } else if byte == b'"' {
            self.text.clear();
            self.state = State::StringLiteral;
            Ok(fed_of(before, None))
        } else if byte == b'|' {
            self.text.clear();
            self.state = State::QuotedSymbol;
            Ok(fed_of(before, None))
        } else {
            self.fail(Code::UnexpectedByte, at, before)
        }
    }

    // One step, whatever is open.
    fn advance(&mut self, names: &mut Names, byte: u8) -> Result<Fed, LexError>
        requires room { IfSome self.old (λ p. p.at < 2 ^ 30) }
        requires few { length names.old < 2 ^ 31 }
        ensures step { IfSome self.old (λ p. IsStep names.new (step p byte) self.new result) }
        ensures again { (e : LexError) → AnswersOnly e self.old
            → (result ≡ Err (without_token e)) × (self.new ≡ self.old) }
        ensures names { KeepsTexts names.old names.new }
        ensures gain { GainsFed names.old names.new result }
    {
        match self.state {
            State::Between => self.begin_lexeme(names, None, byte),
            State::Comment => {
                if is_line_end(byte) {
                    self.begin_lexeme(names, None, byte)
                } else {
                    self.at += 1;
                    Ok(fed_of(None, None))
                }
            }
            State::Word(class) => self.feed_word(names, class, byte),
            State::StringLiteral => self.feed_string(names, byte),
            State::AfterQuote => self.feed_after_quote(names, byte),
            State::QuotedSymbol => self.feed_quoted_symbol(names, byte),
            State::Failed(place) => Err(LexError::Fault(LexFault {
                place,
                before: None,
            })),
            State::OutOfMemory => Err(LexError::NoMemory),
        }
    }

    // What the end gives.
    fn end(&mut self, names: &mut Names) -> Result<Option<Tok>, LexError>
        requires few { length names.old < 2 ^ 31 }
        ensures end { IfSome self.old (λ p. IsEnding names.new (end_of p.mode p.start) self.new result) }
        ensures gone { self.old ≡ None → (self.new ≡ None) × (result ≡ Err LexError.NoMemory) }
        ensures ok { OnOk result (self.new ≡ self.old) }
        ensures again { (e : LexError) → AnswersOnly e self.old
            → (result ≡ Err (without_token e)) × (self.new ≡ self.old) }
        ensures names { KeepsTexts names.old names.new }
        ensures gain { GainsLeft names.old names.new result }
    {
        let start = self.start;
        match self.state {
            State::Between | State::Comment => Ok(None),
            State::Word(class) => match word_token(names, class, self.text.as_slice(), start) {
                Err(_) => self.out_of_memory_at_end(),
                Ok(None) => self.fail_at_end(Code::MalformedWord, start),
                Ok(Some(tok)) => Ok(Some(tok)),
            },
            State::StringLiteral => self.fail_at_end(Code::UnclosedString, start),
            State::AfterQuote => match token(names, TokKind::Str, self.text.as_slice(), start) {
                Err(_) => self.out_of_memory_at_end(),
                Ok(tok) => Ok(Some(tok)),
            },
            State::QuotedSymbol => self.fail_at_end(Code::UnclosedQuotedSymbol, start),
            State::Failed(place) => Err(LexError::Fault(LexFault {
                place,
                before: None,
            })),
            State::OutOfMemory => Err(LexError::NoMemory),
        }
    }

    fn out_of_memory_at_end(&mut self) -> Result<Option<Tok>, LexError>
        ensures gone { self.new ≡ None }
        ensures said { result ≡ Err LexError.NoMemory }
    {
        self.state = State::OutOfMemory;
        Err(LexError::NoMemory)
    }

    fn fail_at_end(&mut self, code: Code, at: u32) -> Result<Option<Tok>, LexError>
        ensures kept { FailsAt code at self.old self.new }
        ensures said { result ≡ Err (LexError.Fault (record {
          place = record { code = code; at = at };
          before = None;
        })) }
    {
        let place = Place { code, at };
        self.state = State::Failed(place);
        let before = None;
        Err(LexError::Fault(LexFault { place, before }))
    }

    // A byte in a string literal.
    fn feed_string(&mut self, names: &Names, byte: u8) -> Result<Fed, LexError>
        requires room { IsSomeAnd self.old (λ p. p.at < 2 ^ 30) }
        requires mode { IsInMode InString self.old }
        ensures { IfSome self.old (λ p. IsStep names.now (step p byte) self.new result) }
    {
        let at = self.at;
        self.at = at + 1;
        if byte == b'"' {
            self.state = State::AfterQuote;
            return Ok(fed_of(None, None));
        }
        if !is_text_byte(byte) {
            return self.fail(Code::UnexpectedByte, at, None);
        }
        if !pushed(&mut self.text, byte) {
            return self.out_of_memory();
        }
        self.state = State::StringLiteral;
        Ok(fed_of(None, None))
    }

    // A byte after a word, or in it.
    fn feed_word(&mut self, names: &mut Names, class: WordClass, byte: u8) -> Result<Fed, LexError>
        requires room { IsSomeAnd self.old (λ p. p.at < 2 ^ 30) }
        requires mode { IsInMode (InWord class) self.old }
        requires few { length names.old < 2 ^ 31 }
        ensures step { IfSome self.old (λ p. IsStep names.new (step p byte) self.new result) }
        ensures names { KeepsTexts names.old names.new }
        ensures gain { GainsFed names.old names.new result }
    {
        let start = self.start;
        if is_word_byte(byte) {
            let next = next_class(class, byte);
            self.at += 1;
            if !is_live(next) {
                return self.fail(Code::MalformedWord, start, None);
            }
            if !pushed(&mut self.text, byte) {
                return self.out_of_memory();
            }
            self.state = State::Word(next);
            return Ok(fed_of(None, None));
        }
        match word_token(names, class, self.text.as_slice(), start) {
            Err(_) => self.out_of_memory(),
            Ok(None) => {
                self.at += 1;
                self.fail(Code::MalformedWord, start, None)
            }
            Ok(Some(tok)) => self.begin_lexeme(names, Some(tok), byte),
        }
    }

    // A byte after a quote that ends a string literal, or is the first half of a doubled one.
    fn feed_after_quote(&mut self, names: &mut Names, byte: u8) -> Result<Fed, LexError>
        requires room { IsSomeAnd self.old (λ p. p.at < 2 ^ 30) }
        requires mode { IsInMode AfterQuote self.old }
        requires few { length names.old < 2 ^ 31 }
        ensures step { IfSome self.old (λ p. IsStep names.new (step p byte) self.new result) }
        ensures names { KeepsTexts names.old names.new }
        ensures gain { GainsFed names.old names.new result }
    {
        let doubled = byte == b'"';
        if doubled {
            if !pushed(&mut self.text, b'"') {
                return self.out_of_memory();
            }
            self.at += 1;
            self.state = State::StringLiteral;
            return Ok(fed_of(None, None));
        }
        match token(names, TokKind::Str, self.text.as_slice(), self.start) {
            Err(_) => self.out_of_memory(),
            Ok(tok) => self.begin_lexeme(names, Some(tok), byte),
        }
    }

    // A byte in a quoted symbol.
    fn feed_quoted_symbol(&mut self, names: &mut Names, byte: u8) -> Result<Fed, LexError>
        requires room { IsSomeAnd self.old (λ p. p.at < 2 ^ 30) }
        requires mode { IsInMode InQuotedSymbol self.old }
        requires few { length names.old < 2 ^ 31 }
        ensures step { IfSome self.old (λ p. IsStep names.new (step p byte) self.new result) }
        ensures names { KeepsTexts names.old names.new }
        ensures gain { GainsFed names.old names.new result }
    {
        let at = self.at;
        self.at = at + 1;
        if byte == b'|' {
            match token(names, TokKind::Symbol, self.text.as_slice(), self.start) {
                Err(_) => self.out_of_memory(),
                Ok(tok) => {
                    self.start = at + 1;
                    self.state = State::Between;
                    Ok(fed_of(Some(tok), None))
                }
            }
        } else if byte == b'\\' {
            self.fail(Code::BackslashInQuotedSymbol, at, None)
        } else if !is_text_byte(byte) {
            self.fail(Code::UnexpectedByte, at, None)
        } else if !pushed(&mut self.text, byte) {
            self.out_of_memory()
        } else {
            self.state = State::QuotedSymbol;
            Ok(fed_of(None, None))
        }
    }

    // From here on each call answers this fault.
    fn fail(&mut self, code: Code, at: u32, before: Option<Tok>) -> Result<Fed, LexError>
        ensures kept { FailsAt code at self.old self.new }
        ensures said { result ≡ Err (LexError.Fault (record {
          place = record { code = code; at = at };
          before = before;
        })) }
    {
        let place = Place { code, at };
        self.state = State::Failed(place);
        Err(LexError::Fault(LexFault { place, before }))
    }
}

//! Texts with numbers.
ghost use Rattle.std.specs.Prelude.{◌≡◌, ◌<◌, ◌+◌, ◌^◌, map, length, [], IfOk, OnOk, OnErr, Some, slice_get, slice_index_or};
ghost use Rattle.std.specs.List.{fold};
ghost use Rattle.lex_core.specs.NameTable.{number_of, with_text, fixed_texts, IsNameTable, texts_of};
ghost use Rattle.lex_core.specs.Spelling.{is_reserved};

use indexmap::IndexSet;
use io_core::NoMemory;
use std::alloc::{AllocError, Global};
use std::marker::Model;

// The texts that every table begins with: the empty text, the reserved words in the order of their
// bytes, and names that the standard or the theory of Core gives a meaning.
static FIXED: [&[u8]; 57] = [
    b"",
    b"!",
    b"BINARY",
    b"DECIMAL",
    b"HEXADECIMAL",
    b"NUMERAL",
    b"STRING",
    b"_",
    b"as",
    b"assert",
    b"check-sat",
    b"check-sat-assuming",
    b"declare-const",
    b"declare-datatype",
    b"declare-datatypes",
    b"declare-fun",
    b"declare-sort",
    b"define-fun",
    b"define-fun-rec",
    b"define-funs-rec",
    b"define-sort",
    b"echo",
    b"exists",
    b"exit",
    b"forall",
    b"get-assertions",
    b"get-assignment",
    b"get-info",
    b"get-model",
    b"get-option",
    b"get-proof",
    b"get-unsat-assumptions",
    b"get-unsat-core",
    b"get-value",
    b"let",
    b"match",
    b"par",
    b"pop",
    b"push",
    b"reset",
    b"reset-assertions",
    b"set-info",
    b"set-logic",
    b"set-option",
    b":named",
    b":pattern",
    b":global-declarations",
    b"true",
    b"false",
    b"not",
    b"=>",
    b"and",
    b"or",
    b"xor",
    b"=",
    b"distinct",
    b"ite",
];

/// The number of a name in its table. The fixed texts have the same numbers in every table: 0 is
/// the empty text, 1 to 43 are the reserved words in the order of their bytes, and 44 to 56 are
/// `:named`, `:pattern`, `:global-declarations`, `true`, `false`, `not`, `=>`, `and`, `or`, `xor`,
/// `=`, `distinct` and `ite`.
#[derive(Clone, Copy, Debug, PartialEq, Eq)]
pub struct NameId {
    number: u32,
}

impl Model for NameId {
    ghost use Rattle.std.specs.Prelude.{ℕ};

    ghost Value = { ℕ };

    ghost view = { λ id. id.number };

    ghost inverse = { λ n. record { number = n } };
}

impl NameId {
    /// The number itself.
    pub fn number(self) -> u32
        ensures { result ≡ self }
    {
        self.number
    }
}

/// A table of texts, each once, numbered from 0 in the order in which they came. Every table begins
/// with the fixed texts.
#[derive(Drop)]
pub struct Names {
    alloc: Global,
    texts: IndexSet<Vec<u8>>,
}

impl Model for Names {
    ghost use Rattle.std.specs.Prelude.{ℕ, List, map};
    ghost use Rattle.lex_core.specs.NameTable.{IsNameTable};

    ghost Value = { List (List ℕ) };

    ghost view = { λ names. map (λ text. text.items) names.texts.keys };

    ghost invariant = { λ names. IsNameTable (map (λ text. text.items) names.texts.keys) };
}

// The index of the text, which becomes the last where it is new.
fn add_text(texts: &mut IndexSet<Vec<u8>>, alloc: Global, text: &[u8]) -> Result<usize, AllocError>
    ensures number { IfOk result (λ index. index ≡ number_of text.now (texts_of texts.old)) }
    ensures texts { OnOk result (texts_of texts.new ≡ with_text (texts_of texts.old) text.now) }
    ensures err { OnErr result (texts_of texts.new ≡ texts_of texts.old) }
{
    match texts.get_index_of(text) {
        Some(index) => Ok(index),
        None => {
            let index = texts.len();
            let owned = text.to_vec(alloc)?;
            texts.insert(owned)?;
            Ok(index)
        }
    }
}

// Adds each text in order.
fn add_texts(texts: &mut IndexSet<Vec<u8>>, alloc: Global, more: &[&[u8]]) -> Result<(), AllocError>
    ensures { OnOk result (texts_of texts.new
        ≡ fold with_text (texts_of texts.old) (map (λ text. text.now) more.now)) }
{
    for text in more {
        add_text(texts, alloc, text)?;
    }
    Ok(())
}

impl Names {
    /// A table of the fixed texts. The only error is that memory runs out.
    pub fn new(alloc: Global) -> Result<Names, NoMemory>
        ensures { IfOk result (λ names. names ≡ fixed_texts) }
    {
        let mut texts = IndexSet::new(alloc);
        match add_texts(&mut texts, alloc, &FIXED) {
            Ok(()) => Ok(Names { alloc, texts }),
            Err(_) => Err(NoMemory),
        }
    }

    /// How many texts there are.
    pub fn count(&self) -> usize
        ensures count { result ≡ length self.now }
        ensures table { IsNameTable self.now }
    {
        self.texts.len()
    }

    /// The number of the text, which becomes the last where it is new. A text that is there already
    /// takes no memory. The only error is that memory runs out.
    pub fn intern(&mut self, text: &[u8]) -> Result<NameId, NoMemory>
        requires { length self.old < 2 ^ 31 }
        ensures number { IfOk result (λ id. id ≡ number_of text.now self.old) }
        ensures texts { OnOk result (self.new ≡ with_text self.old text.now) }
        ensures again { IfOk result (λ id. id ≡ number_of text.now self.new) }
        ensures text { IfOk result (λ id. slice_get self.new id ≡ Some text.now) }
        ensures err { OnErr result (self.new ≡ self.old) }
    {
        let Ok(index) = add_text(&mut self.texts, self.alloc, text) else {
            return Err(NoMemory);
        };
        Ok(NameId {
            number: index as u32,
        })
    }

    /// The text of a number.
    pub fn text(&self, id: NameId) -> &[u8]
        requires { id < length self.now }
        ensures text { slice_get self.now id ≡ Some result.now }
        ensures number { number_of result.now self.now ≡ id }
    {
        self.texts.as_slice()[id.number as usize].as_slice()
    }

    // Whether the text of this number is a reserved word.
    pub(crate) fn is_reserved(&self, id: NameId, text: &[u8]) -> bool
        requires { id ≡ number_of text.now self.now }
        ensures { result ≡ is_reserved text.now }
    {
        let _ = &self.texts;
        id.number >= 1 && id.number <= 43
    }

    // The number of the empty text.
    pub(crate) fn empty(&self) -> NameId
        ensures text { slice_index_or self.now result [] ≡ [] }
        ensures interned { result < length self.now }
    {
        let _ = &self.texts;
        NameId { number: 0 }
    }
}

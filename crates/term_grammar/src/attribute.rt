//! Attributes and their values, as views of their trees.
ghost use Rattle.std.specs.Prelude.{◌≡◌, IfOk};
ghost use Rattle.term_grammar.specs.Reads.{byte_of, attribute_of};
ghost use Rattle.term_grammar.specs.AttributeViews.{attribute_kind, value_kind};

use crate::parts::first_byte;
use crate::sexpr::RawSexprs;
use crate::words::is_constant;
use io_core::NoMemory;
use lex_core::Tok;
use sexp_core::{Part, Tree};
use std::alloc::Global;
use std::marker::Model;

/// An attribute (SMT-LIB 2.6, section 3.4).
#[derive(Drop)]
pub struct RawAttribute<'t> {
    keyword: Tok,
    value: Option<RawValue<'t>>,
}

impl<'t> Model for RawAttribute<'t> {
    ghost use Rattle.term_grammar.specs.Syntax.{Attribute};
    ghost use Rattle.term_grammar.specs.Codes.{attribute_code};
    ghost use Rattle.term_grammar.specs.Reads.{attribute_of};

    ghost Value = { Attribute };

    ghost coded = { attribute_code };

    ghost view = { λ r. attribute_of r.keyword r.value };
}

/// An attribute, by its production.
#[derive(Drop)]
pub enum RawAttributeKind<'t> {
    /// `keyword`
    Keyword(Tok),
    /// `keyword value`
    Valued { keyword: Tok, value: RawValue<'t> },
}

/// The value of an attribute (SMT-LIB 2.6, section 3.4).
#[derive(Drop)]
pub struct RawValue<'t> {
    pub(crate) tree: Part<'t>,
}

impl<'t> Model for RawValue<'t> {
    ghost use Rattle.std.specs.Prelude.{IsTrue};
    ghost use Rattle.lex_core.specs.declared.token.Tok.{Tok};
    ghost use Rattle.sexp_core.specs.Sexp.{Sexp};
    ghost use Rattle.sexp_core.specs.Items.{sexp_code};
    ghost use Rattle.sexp_core.specs.Parts.{whole};
    ghost use Rattle.term_grammar.specs.Values.{is_value};

    ghost Value = { Sexp Tok };

    ghost coded = { sexp_code };

    ghost view = { λ r. whole r.tree };

    ghost invariant = { λ r. IsTrue (is_value (whole r.tree)) };
}

/// A value, by its production.
#[derive(Drop)]
pub enum RawValueKind<'t> {
    /// `constant`
    Constant(Tok),
    /// `symbol`
    Symbol(Tok),
    /// `( sexpr* )`
    List(RawSexprs<'t>),
}

impl<'t> RawAttribute<'t> {
    /// The attribute of a keyword and its value, if there is one.
    pub fn new(keyword: Tok, value: Option<RawValue<'t>>) -> RawAttribute<'t>
        ensures { result ≡ attribute_of keyword value.entry }
    {
        RawAttribute { keyword, value }
    }

    /// The attribute, by its production.
    pub fn kind(&self) -> RawAttributeKind<'t>
        ensures { result ≡ attribute_kind self.now }
    {
        match &self.value {
            None => RawAttributeKind::Keyword(self.keyword),
            Some(value) => RawAttributeKind::Valued {
                keyword: self.keyword,
                value: value.reborrow(),
            },
        }
    }

    /// The same attribute once more.
    pub(crate) fn reborrow(&self) -> RawAttribute<'t>
        ensures { result ≡ self.now }
    {
        match &self.value {
            None => RawAttribute {
                keyword: self.keyword,
                value: None,
            },
            Some(value) => RawAttribute {
                keyword: self.keyword,
                value: Some(value.reborrow()),
            },
        }
    }
}

impl<'t> RawValue<'t> {
    /// The first byte of the value, from 0.
    pub fn at(&self) -> u32
        ensures { result ≡ byte_of self.now }
    {
        first_byte(&self.tree)
    }

    /// The value, by its production.
    pub fn kind(&self) -> RawValueKind<'t>
        ensures { result ≡ value_kind self.now }
    {
        match &self.tree {
            Part::Atom(tok) => {
                if is_constant(tok) {
                    RawValueKind::Constant(*tok)
                } else {
                    RawValueKind::Symbol(*tok)
                }
            }
            Part::List { parts, .. } => {
                let trees = parts.reborrow();
                RawValueKind::List(RawSexprs { trees })
            }
        }
    }

    /// The value's tree. The only error is that memory runs out.
    pub fn copy(&self, alloc: Global) -> Result<Tree, NoMemory>
        ensures { IfOk result (λ tree. tree ≡ self.now) }
    {
        match self.tree.copy(alloc) {
            Ok(tree) => Ok(tree),
            Err(_) => Err(NoMemory),
        }
    }

    fn reborrow(&self) -> RawValue<'t>
        ensures { result ≡ self.now }
    {
        let tree = self.tree.reborrow();
        RawValue { tree }
    }
}

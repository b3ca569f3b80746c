//! S-expressions in the values of attributes, as views of their trees.
ghost use Rattle.std.specs.Prelude.{◌≡◌, length, slice_get};
ghost use Rattle.term_grammar.specs.Reads.{byte_of};
ghost use Rattle.term_grammar.specs.AttributeViews.{sexpr_kind, sexpr_atom_kind, SplitsSexprs};
ghost use Rattle.term_grammar.specs.ListViews.{each_sexpr};

use crate::list::{PartList, count, few, nth};
use crate::parts::first_byte;
use crate::words::{is_constant, is_keyword, is_symbol};
use lex_core::Tok;
use sexp_core::{Part, Trees};
use std::marker::Model;

/// An s-expression (SMT-LIB 2.6, section 3.2).
#[derive(Drop)]
pub struct RawSexpr<'t> {
    tree: Part<'t>,
}

impl<'t> Model for RawSexpr<'t> {
    ghost use Rattle.lex_core.specs.declared.token.Tok.{Tok};
    ghost use Rattle.sexp_core.specs.Sexp.{Sexp};
    ghost use Rattle.sexp_core.specs.Items.{sexp_code};
    ghost use Rattle.sexp_core.specs.Parts.{whole};

    ghost Value = { Sexp Tok };

    ghost coded = { sexp_code };

    ghost view = { λ r. whole r.tree };
}

/// Some s-expressions.
#[derive(Drop)]
pub struct RawSexprs<'t> {
    pub(crate) trees: Trees<'t>,
}

impl<'t> Model for RawSexprs<'t> {
    ghost use Rattle.lex_core.specs.declared.token.Tok.{Tok};
    ghost use Rattle.sexp_core.specs.Sexp.{Sexps};
    ghost use Rattle.sexp_core.specs.Items.{sexps_code};

    ghost Value = { Sexps Tok };

    ghost coded = { sexps_code };

    ghost view = { λ r. r.trees };
}

impl<'t> PartList for RawSexprs<'t> {
    ghost use Rattle.term_grammar.specs.ListViews.{each_sexpr};

    type Part = RawSexpr<'t>;

    ghost parts = { each_sexpr };

    fn split_first(&self) -> Option<(RawSexpr<'t>, RawSexprs<'t>)> {
        self.split()
    }

    #[tactic(auto, using(crate::proofs::Lengths::sexprs_few))]
    fn bounded(&self) {
        few(&self.trees);
    }
}

/// An s-expression, by its production.
#[derive(Drop)]
pub enum RawSexprKind<'t> {
    /// `constant`
    Constant(Tok),
    /// `symbol`
    Symbol(Tok),
    /// `reserved`
    Reserved(Tok),
    /// `keyword`
    Keyword(Tok),
    /// `( sexpr* )`
    List(RawSexprs<'t>),
}

impl<'t> RawSexpr<'t> {
    /// The first byte of the s-expression, from 0.
    pub fn at(&self) -> u32
        ensures { result ≡ byte_of self.now }
    {
        first_byte(&self.tree)
    }

    /// The s-expression, by its production.
    pub fn kind(&self) -> RawSexprKind<'t>
        ensures { result ≡ sexpr_kind self.now }
    {
        match &self.tree {
            Part::Atom(tok) => atom_kind(tok),
            Part::List { parts, .. } => {
                let trees = parts.reborrow();
                RawSexprKind::List(RawSexprs { trees })
            }
        }
    }
}

fn atom_kind<'t>(tok: &Tok) -> RawSexprKind<'t>
    ensures { result ≡ sexpr_atom_kind tok.now }
{
    if is_constant(tok) {
        RawSexprKind::Constant(*tok)
    } else if is_symbol(tok) {
        RawSexprKind::Symbol(*tok)
    } else if is_keyword(tok) {
        RawSexprKind::Keyword(*tok)
    } else {
        RawSexprKind::Reserved(*tok)
    }
}

impl<'t> RawSexprs<'t> {
    /// How many s-expressions there are. It walks over them.
    pub fn len(&self) -> usize
        ensures { result ≡ length (each_sexpr self.now) }
    {
        count(self)
    }

    /// The s-expression at an index, from 0. It walks over those before it, and answers `None` exactly past the end.
    pub fn get(&self, i: usize) -> Option<RawSexpr<'t>>
        ensures { result ≡ slice_get (each_sexpr self.now) i }
    {
        nth(self, i)
    }

    /// The first s-expression, and the others. It answers `None` exactly where none is left.
    pub fn split(&self) -> Option<(RawSexpr<'t>, RawSexprs<'t>)>
        ensures { SplitsSexprs self.now result }
    {
        let Some((tree, trees)) = self.trees.split() else {
            return None;
        };
        Some((RawSexpr { tree }, RawSexprs { trees }))
    }
}

//! Literals, as views of their trees.
ghost use Rattle.std.specs.Prelude.{◌≡◌, length, slice_get};
ghost use Rattle.cmd_grammar.specs.TreeLists.{SplitsBy};
ghost use Rattle.cmd_grammar.specs.DeclarationViews.{literal_at, literal_kind, literal_term};

use crate::declaration_form::negated_parts;
use crate::tree_list::nth;
use lex_core::Tok;
use sexp_core::{Part, Trees};
use std::marker::Model;
use term_grammar::{RawTerm, read_term};

/// A literal of `check-sat-assuming` (SMT-LIB 2.6, section 3.9): a symbol or its negation.
#[derive(Drop)]
pub struct RawLiteral<'t> {
    tree: Part<'t>,
}

impl<'t> Model for RawLiteral<'t> {
    ghost use Rattle.std.specs.Prelude.{IsTrue};
    ghost use Rattle.std.specs.Coded.{codes};
    ghost use Rattle.sexp_core.specs.Parts.{whole};
    ghost use Rattle.cmd_grammar.specs.Commands.{Literal};
    ghost use Rattle.cmd_grammar.specs.DeclarationForms.{is_literal};
    ghost use Rattle.cmd_grammar.specs.DeclarationReads.{literal_of};

    ghost Value = { Literal };

    ghost coded = { Prim.hlevel codes };

    ghost view = { λ r. literal_of (whole r.tree) };

    ghost invariant = { λ r. IsTrue (is_literal (whole r.tree)) };
}

/// Some literals.
#[derive(Drop)]
pub struct RawLiterals<'t> {
    pub(crate) trees: Trees<'t>,
}

impl<'t> Model for RawLiterals<'t> {
    ghost use Rattle.std.specs.Prelude.{IsTrue, List, map};
    ghost use Rattle.std.specs.Coded.{codes};
    ghost use Rattle.cmd_grammar.specs.Commands.{Literal};
    ghost use Rattle.cmd_grammar.specs.TreeLists.{each_tree};
    ghost use Rattle.cmd_grammar.specs.DeclarationForms.{are_literals};
    ghost use Rattle.cmd_grammar.specs.DeclarationReads.{literal_of};

    ghost Value = { List Literal };

    ghost coded = { Prim.hlevel codes };

    ghost view = { λ r. map literal_of (each_tree r.trees) };

    ghost invariant = { λ r. IsTrue (are_literals r.trees) };
}

/// A literal, by its production.
#[derive(Drop)]
pub enum RawLiteralKind {
    /// `symbol`
    Symbol(Tok),
    /// `( not symbol )`
    Not(Tok),
}

impl<'t> RawLiteral<'t> {
    /// The first byte of the literal, from 0.
    pub fn at(&self) -> u32
        ensures { result ≡ literal_at self.now }
    {
        match &self.tree {
            Part::Atom(tok) => tok.at,
            Part::List { at, .. } => *at,
        }
    }

    /// The literal, by its production.
    pub fn kind(&self) -> RawLiteralKind
        ensures { result ≡ literal_kind self.now }
    {
        match &self.tree {
            Part::Atom(tok) => RawLiteralKind::Symbol(*tok),
            Part::List { parts, .. } => {
                let Some((_, symbol)) = negated_parts(parts) else {
                    unreachable!();
                };
                RawLiteralKind::Not(symbol)
            }
        }
    }

    /// The literal read as a term: the symbol, or the application of `not` to it.
    #[tactic(auto, using(crate::proofs::LiteralTerms::literals))]
    pub fn term(&self) -> RawTerm<'t>
        ensures { result ≡ literal_term self.now }
    {
        let Ok(term) = read_term(self.tree.reborrow()) else {
            unreachable!();
        };
        term
    }
}

impl<'t> RawLiterals<'t> {
    /// How many literals there are. It walks over them.
    #[tactic(auto, using(crate::proofs::EachTree::counts))]
    pub fn len(&self) -> usize
        ensures { result ≡ length self.now }
    {
        self.trees.len()
    }

    /// The literal at an index, from 0. It answers `None` exactly past the end. It walks over those before it.
    pub fn get(&self, i: usize) -> Option<RawLiteral<'t>>
        ensures { result ≡ slice_get self.now i }
    {
        let Some(tree) = nth(&self.trees, i) else {
            return None;
        };
        Some(RawLiteral { tree })
    }

    /// The first literal, and the others. It answers `None` exactly where none is left.
    pub fn split(&self) -> Option<(RawLiteral<'t>, RawLiterals<'t>)>
        ensures { SplitsBy (λ l. l) self.now result }
    {
        let Some((tree, trees)) = self.trees.split() else {
            return None;
        };
        Some((RawLiteral { tree }, RawLiterals { trees }))
    }
}

//! Identifiers, as views of their trees.
ghost use Rattle.std.specs.Prelude.{◌≡◌, IsTrue, length, slice_get};
ghost use Rattle.sexp_core.specs.Parts.{whole};
ghost use Rattle.term_grammar.specs.Forms.{is_identifier as is_an_identifier};
ghost use Rattle.term_grammar.specs.Reads.{identifier_of};
ghost use Rattle.term_grammar.specs.Syntax.{identifier_at};
ghost use Rattle.term_grammar.specs.IdentifierViews.{identifier_kind, SplitsTokens};
ghost use Rattle.term_grammar.specs.ListViews.{each_token};

use crate::form::indexed_parts;
use crate::list::{PartList, count, few, nth};
use crate::parts::token_first;
use lex_core::Tok;
use sexp_core::{Part, Trees};
use std::marker::Model;

/// An identifier (SMT-LIB 2.6, section 3.3).
#[derive(Drop)]
pub struct RawIdentifier<'t> {
    parts: IdentifierParts<'t>,
}

#[derive(Drop)]
enum IdentifierParts<'t> {
    Symbol(Tok),
    Indexed {
        at: u32,
        name: Tok,
        indices: RawIndices<'t>,
    },
}

impl<'t> Model for RawIdentifier<'t> {
    ghost use Rattle.term_grammar.specs.Syntax.{Identifier};
    ghost use Rattle.term_grammar.specs.Codes.{identifier_code};
    ghost use Rattle.term_grammar.specs.IdentifierParts.{identifier_in};

    ghost Value = { Identifier };

    ghost coded = { identifier_code };

    ghost view = { λ r. identifier_in r.parts };
}

/// The indices of an identifier.
#[derive(Drop)]
pub struct RawIndices<'t> {
    trees: Trees<'t>,
}

impl<'t> Model for RawIndices<'t> {
    ghost use Rattle.std.specs.Prelude.{List, IsTrue};
    ghost use Rattle.lex_core.specs.declared.token.Tok.{Tok};
    ghost use Rattle.term_grammar.specs.Codes.{tokens_code};
    ghost use Rattle.term_grammar.specs.Forms.{are_indices};
    ghost use Rattle.term_grammar.specs.Reads.{tokens_of};

    ghost Value = { List Tok };

    ghost coded = { tokens_code };

    ghost view = { λ r. tokens_of r.trees };

    ghost invariant = { λ r. IsTrue (are_indices r.trees) };
}

impl<'t> PartList for RawIndices<'t> {
    ghost use Rattle.term_grammar.specs.ListViews.{each_token};

    type Part = Tok;

    ghost parts = { each_token };

    fn split_first(&self) -> Option<(Tok, RawIndices<'t>)> {
        self.split()
    }

    #[tactic(auto, using(crate::proofs::Lengths::tokens_few))]
    fn bounded(&self) {
        few(&self.trees);
    }
}

/// An identifier, by its production.
#[derive(Drop)]
pub enum RawIdentifierKind<'t> {
    /// `symbol`
    Symbol(Tok),
    /// `( _ symbol index+ )`
    Indexed { name: Tok, indices: RawIndices<'t> },
}

/// The identifier that a tree is.
pub(crate) fn identifier<'t>(tree: &Part<'t>) -> RawIdentifier<'t>
    requires { IsTrue (is_an_identifier (whole tree.now)) }
    ensures { result ≡ identifier_of (whole tree.now) }
{
    let parts = match tree {
        Part::Atom(tok) => IdentifierParts::Symbol(*tok),
        Part::List { at, parts } => {
            let Some((name, trees)) = indexed_parts(parts) else {
                unreachable!();
            };
            let indices = RawIndices { trees };
            IdentifierParts::Indexed {
                at: *at,
                name,
                indices,
            }
        }
    };
    RawIdentifier { parts }
}

impl<'t> RawIdentifier<'t> {
    /// The first byte of the identifier, from 0.
    pub fn at(&self) -> u32
        ensures { result ≡ identifier_at self.now }
    {
        match &self.parts {
            IdentifierParts::Symbol(tok) => tok.at,
            IdentifierParts::Indexed { at, .. } => *at,
        }
    }

    /// The identifier, by its production.
    pub fn kind(&self) -> RawIdentifierKind<'t>
        ensures { result ≡ identifier_kind self.now }
    {
        match &self.parts {
            IdentifierParts::Symbol(tok) => RawIdentifierKind::Symbol(*tok),
            IdentifierParts::Indexed { name, indices, .. } => RawIdentifierKind::Indexed {
                name: *name,
                indices: indices.reborrow(),
            },
        }
    }

    /// The same identifier once more.
    pub(crate) fn reborrow(&self) -> RawIdentifier<'t>
        ensures { result ≡ self.now }
    {
        let parts = match &self.parts {
            IdentifierParts::Symbol(tok) => IdentifierParts::Symbol(*tok),
            IdentifierParts::Indexed { at, name, indices } => IdentifierParts::Indexed {
                at: *at,
                name: *name,
                indices: indices.reborrow(),
            },
        };
        RawIdentifier { parts }
    }
}

impl<'t> RawIndices<'t> {
    /// How many indices there are. It walks over them.
    pub fn len(&self) -> usize
        ensures { result ≡ length (each_token self.now) }
    {
        count(self)
    }

    /// The index at an index, from 0. It walks over those before it, and answers `None` exactly past the end.
    pub fn get(&self, i: usize) -> Option<Tok>
        ensures { result ≡ slice_get (each_token self.now) i }
    {
        nth(self, i)
    }

    /// The first index, and the others. It answers `None` exactly where none is left.
    pub fn split(&self) -> Option<(Tok, RawIndices<'t>)>
        ensures { SplitsTokens self.now result }
    {
        let Some((first, trees)) = token_first(&self.trees) else {
            return None;
        };
        Some((first, RawIndices { trees }))
    }

    fn reborrow(&self) -> RawIndices<'t>
        ensures { result ≡ self.now }
    {
        let trees = self.trees.reborrow();
        RawIndices { trees }
    }
}

//! Qualified identifiers, as views of their trees.
ghost use Rattle.std.specs.Prelude.{◌≡◌, IsOk};
ghost use Rattle.sexp_core.specs.Parts.{whole};
ghost use Rattle.term_grammar.specs.Reads.{read_qualified};
ghost use Rattle.term_grammar.specs.Readings.{qualified_of};
ghost use Rattle.term_grammar.specs.Syntax.{qualified_at};
ghost use Rattle.term_grammar.specs.QualifiedViews.{qualified_kind};

use crate::form::is_identifier;
use crate::identifier::{RawIdentifier, identifier};
use crate::sort::RawSort;
use crate::term_form::as_parts;
use sexp_core::Part;
use std::marker::Model;

/// An identifier, alone or with its sort (SMT-LIB 2.6, section 3.6).
#[derive(Drop)]
pub struct RawQualified<'t> {
    parts: QualifiedParts<'t>,
}

#[derive(Drop)]
enum QualifiedParts<'t> {
    Identifier(RawIdentifier<'t>),
    As {
        at: u32,
        identifier: RawIdentifier<'t>,
        sort: RawSort<'t>,
    },
}

impl<'t> Model for RawQualified<'t> {
    ghost use Rattle.term_grammar.specs.Syntax.{Qualified};
    ghost use Rattle.term_grammar.specs.Codes.{qualified_code};
    ghost use Rattle.term_grammar.specs.QualifiedParts.{qualified_in};

    ghost Value = { Qualified };

    ghost coded = { qualified_code };

    ghost view = { λ r. qualified_in r.parts };
}

/// A qualified identifier, by its production.
#[derive(Drop)]
pub enum RawQualifiedKind<'t> {
    /// `identifier`
    Identifier(RawIdentifier<'t>),
    /// `( as identifier sort )`
    As {
        identifier: RawIdentifier<'t>,
        sort: RawSort<'t>,
    },
}

/// The qualified identifier that a tree is.
pub(crate) fn qualified<'t>(tree: &Part<'t>) -> RawQualified<'t>
    requires { IsOk (read_qualified (whole tree.now)) }
    ensures { result ≡ qualified_of (whole tree.now) }
{
    if is_identifier(tree) {
        let parts = QualifiedParts::Identifier(identifier(tree));
        return RawQualified { parts };
    }
    match tree {
        Part::Atom(_) => unreachable!(),
        Part::List { at, parts } => {
            let Some((name, sort)) = as_parts(parts) else {
                unreachable!();
            };
            let parts = QualifiedParts::As {
                at: *at,
                identifier: identifier(&name),
                sort: RawSort { tree: sort },
            };
            RawQualified { parts }
        }
    }
}

impl<'t> RawQualified<'t> {
    /// The first byte of the qualified identifier, from 0.
    pub fn at(&self) -> u32
        ensures { result ≡ qualified_at self.now }
    {
        match &self.parts {
            QualifiedParts::Identifier(identifier) => identifier.at(),
            QualifiedParts::As { at, .. } => *at,
        }
    }

    /// The qualified identifier, by its production.
    pub fn kind(&self) -> RawQualifiedKind<'t>
        ensures { result ≡ qualified_kind self.now }
    {
        match &self.parts {
            QualifiedParts::Identifier(identifier) => RawQualifiedKind::Identifier(
                identifier.reborrow(),
            ),
            QualifiedParts::As {
                identifier,
                sort,
                ..
            } => RawQualifiedKind::As {
                identifier: identifier.reborrow(),
                sort: sort.reborrow(),
            },
        }
    }
}

//! The form of a sort or a term: the parts of its production, whose own forms are not judged yet.
ghost use Rattle.std.specs.Prelude.{◌≡◌};
ghost use Rattle.sexp_core.specs.Parts.{whole};
ghost use Rattle.term_grammar.specs.Forms.{is_identifier as is_an_identifier, are_indices as are_all_indices, indexed_parts as parts_indexed, applied_parts as parts_applied, sort_form as form_of_sort};

use crate::parts::{any_first, guard, is_empty, symbol_first, token_first};
use crate::words::{self, UNDERSCORE, is_index, is_symbol};
use lex_core::Tok;
use sexp_core::{Part, Trees};

/// A sort, by its production.
#[derive(Drop)]
pub(crate) enum SortForm<'t> {
    Identifier,
    Applied {
        identifier: Part<'t>,
        args: Trees<'t>,
    },
}

/// Whether each of some trees is an index.
pub(crate) fn are_indices(trees: &Trees) -> bool
    ensures { result ≡ are_all_indices trees.now }
{
    let mut next = trees.split();
    while let Some((first, rest)) = next {
        match first {
            Part::Atom(tok) => {
                if !is_index(&tok) {
                    return false;
                }
            }
            Part::List { .. } => return false,
        }
        next = rest.split();
    }
    true
}

/// The parts of `( _ symbol index+ )`.
pub(crate) fn indexed_parts<'t>(parts: &Trees<'t>) -> Option<(Tok, Trees<'t>)>
    ensures { result ≡ parts_indexed parts.now }
{
    let (word, rest) = token_first(parts)?;
    guard(words::is_reserved(&word, UNDERSCORE))?;
    let (name, indices) = symbol_first(&rest)?;
    guard(!is_empty(&indices))?;
    guard(are_indices(&indices))?;
    Some((name, indices))
}

/// Whether the tree is `symbol` or `( _ symbol index+ )`.
pub(crate) fn is_identifier(tree: &Part) -> bool
    ensures { result ≡ is_an_identifier (whole tree.now) }
{
    match tree {
        Part::Atom(tok) => is_symbol(tok),
        Part::List { parts, .. } => indexed_parts(parts).is_some(),
    }
}

/// The parts of `( identifier sort+ )`.
pub(crate) fn applied_parts<'t>(parts: &Trees<'t>) -> Option<(Part<'t>, Trees<'t>)>
    ensures { result ≡ parts_applied parts.now }
{
    let (identifier, args) = any_first(parts)?;
    guard(is_identifier(&identifier))?;
    guard(!is_empty(&args))?;
    Some((identifier, args))
}

/// The form of a sort, or the first byte of a tree that has none.
pub(crate) fn sort_form<'t>(tree: &Part<'t>) -> Result<SortForm<'t>, u32>
    ensures { result ≡ form_of_sort (whole tree.now) }
{
    if is_identifier(tree) {
        return Ok(SortForm::Identifier);
    }
    match tree {
        Part::Atom(tok) => Err(tok.at),
        Part::List { at, parts } => match applied_parts(parts) {
            Some((identifier, args)) => Ok(SortForm::Applied { identifier, args }),
            None => Err(*at),
        },
    }
}

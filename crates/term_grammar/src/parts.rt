//! The first of some trees, by its form, and the others.
ghost use Rattle.std.specs.Prelude.{◌≡◌};
ghost use Rattle.sexp_core.specs.Parts.{whole};
ghost use Rattle.term_grammar.specs.Reads.{byte_of};
ghost use Rattle.term_grammar.specs.FirstParts.{any_first as any_and_others, token_first as token_and_others, symbol_first as symbol_and_others, list_first as list_and_others, is_empty as are_none, guard as guarded};

use crate::words::is_symbol;
use lex_core::Tok;
use sexp_core::{Part, Trees};

/// Any tree, and the others. `None` where there is none.
pub fn any_first<'t>(trees: &Trees<'t>) -> Option<(Part<'t>, Trees<'t>)>
    ensures { result ≡ any_and_others trees.now }
{
    trees.split()
}

/// A token, and the others. `None` where the first tree is no token.
pub fn token_first<'t>(trees: &Trees<'t>) -> Option<(Tok, Trees<'t>)>
    ensures { result ≡ token_and_others trees.now }
{
    let (first, rest) = any_first(trees)?;
    match first {
        Part::Atom(tok) => Some((tok, rest)),
        Part::List { .. } => None,
    }
}

/// A symbol, and the others. `None` where the first tree is no symbol.
pub fn symbol_first<'t>(trees: &Trees<'t>) -> Option<(Tok, Trees<'t>)>
    ensures { result ≡ symbol_and_others trees.now }
{
    let (tok, rest) = token_first(trees)?;
    if is_symbol(&tok) {
        Some((tok, rest))
    } else {
        None
    }
}

/// The parts of a list, and the other trees. `None` where the first tree is no list.
pub fn list_first<'t>(trees: &Trees<'t>) -> Option<(Trees<'t>, Trees<'t>)>
    ensures { result ≡ list_and_others trees.now }
{
    let (first, rest) = any_first(trees)?;
    match first {
        Part::Atom(_) => None,
        Part::List { parts, .. } => Some((parts, rest)),
    }
}

/// Whether there is no tree.
pub fn is_empty(trees: &Trees) -> bool
    ensures { result ≡ are_none trees.now }
{
    trees.split().is_none()
}

/// `None` where the condition does not hold.
pub fn guard(condition: bool) -> Option<()>
    ensures { result ≡ guarded condition }
{
    if condition { Some(()) } else { None }
}

/// The first byte of a tree.
pub(crate) fn first_byte(tree: &Part) -> u32
    ensures { result ≡ byte_of (whole tree.now) }
{
    match tree {
        Part::Atom(tok) => tok.at,
        Part::List { at, .. } => *at,
    }
}

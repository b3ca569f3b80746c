//! The declarations of the sorts of datatypes, as views of their trees.
ghost use Rattle.std.specs.Prelude.{◌≡◌, IsTrue, length, option_map, slice_get};
ghost use Rattle.sexp_core.specs.Parts.{whole};
ghost use Rattle.cmd_grammar.specs.TreeLists.{SplitsBy};
ghost use Rattle.cmd_grammar.specs.DeclarationForms.{is_sort_dec as is_declaration};
ghost use Rattle.cmd_grammar.specs.DeclarationReads.{sort_dec_of};
ghost use Rattle.cmd_grammar.specs.DeclarationViews.{sort_dec_seen};

use crate::declaration_form::sort_dec_parts;
use crate::tree_list::nth;
use lex_core::Tok;
use sexp_core::{Part, Trees};
use std::marker::Model;

/// The declaration of a datatype's sort: `( symbol numeral )` (SMT-LIB 2.6, section 3.9).
#[derive(Drop)]
pub struct RawSortDec {
    at: u32,
    pub name: Tok,
    pub arity: Tok,
}

/// Some declarations of sorts.
#[derive(Drop)]
pub struct RawSortDecs<'t> {
    pub(crate) trees: Trees<'t>,
}

impl<'t> Model for RawSortDecs<'t> {
    ghost use Rattle.std.specs.Prelude.{IsTrue, List, map};
    ghost use Rattle.std.specs.Coded.{codes};
    ghost use Rattle.cmd_grammar.specs.Commands.{SortDec};
    ghost use Rattle.cmd_grammar.specs.TreeLists.{each_tree};
    ghost use Rattle.cmd_grammar.specs.DeclarationForms.{are_sort_decs};
    ghost use Rattle.cmd_grammar.specs.DeclarationReads.{sort_dec_of};

    ghost Value = { List SortDec };

    ghost coded = { Prim.hlevel codes };

    ghost view = { λ r. map sort_dec_of (each_tree r.trees) };

    ghost invariant = { λ r. IsTrue (are_sort_decs r.trees) };
}

// The declaration that a tree is.
fn sort_dec(tree: &Part) -> RawSortDec
    requires { IsTrue (is_declaration (whole tree.now)) }
    ensures { sort_dec_seen result ≡ sort_dec_of (whole tree.now) }
{
    let Part::List { at, parts } = tree else {
        unreachable!();
    };
    let Some((name, arity)) = sort_dec_parts(parts) else {
        unreachable!();
    };
    RawSortDec {
        at: *at,
        name,
        arity,
    }
}

impl RawSortDec {
    /// The first byte of the declaration, from 0.
    pub fn at(&self) -> u32
        ensures { result ≡ self.now.at }
    {
        self.at
    }
}

impl<'t> RawSortDecs<'t> {
    /// How many declarations there are. It walks over them.
    #[tactic(auto, using(crate::proofs::EachTree::counts))]
    pub fn len(&self) -> usize
        ensures { result ≡ length self.now }
    {
        self.trees.len()
    }

    /// The declaration at an index, from 0. It answers `None` exactly past the end. It walks over those before it.
    pub fn get(&self, i: usize) -> Option<RawSortDec>
        ensures { option_map sort_dec_seen result ≡ slice_get self.now i }
    {
        let Some(tree) = nth(&self.trees, i) else {
            return None;
        };
        Some(sort_dec(&tree))
    }

    /// The first declaration, and the others. It answers `None` exactly where none is left.
    pub fn split(&self) -> Option<(RawSortDec, RawSortDecs<'t>)>
        ensures { SplitsBy sort_dec_seen self.now result }
    {
        let Some((tree, trees)) = self.trees.split() else {
            return None;
        };
        Some((sort_dec(&tree), RawSortDecs { trees }))
    }
}

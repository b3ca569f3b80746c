//! Sorts, as views of their trees.
ghost use Rattle.std.specs.Prelude.{◌≡◌, length, slice_get};
ghost use Rattle.sexp_core.specs.Parts.{whole};
ghost use Rattle.term_grammar.specs.Reads.{read_sort as reading, read_sorts as readings};
ghost use Rattle.term_grammar.specs.Syntax.{each_sort, sort_at};
ghost use Rattle.term_grammar.specs.SortViews.{sort_kind, SplitsSorts};

use crate::form::{SortForm, sort_form};
use crate::identifier::{RawIdentifier, identifier};
use crate::judge::{judge_sort, judge_sorts};
use crate::list::{PartList, count, few, nth};
use crate::parts::first_byte;
use sexp_core::{Part, Trees};
use std::marker::Model;

/// A sort (SMT-LIB 2.6, section 3.5).
#[derive(Drop)]
pub struct RawSort<'t> {
    pub(crate) tree: Part<'t>,
}

impl<'t> Model for RawSort<'t> {
    ghost use Rattle.std.specs.Prelude.{IsOk};
    ghost use Rattle.sexp_core.specs.Parts.{whole};
    ghost use Rattle.term_grammar.specs.Syntax.{Sort};
    ghost use Rattle.term_grammar.specs.Codes.{sort_code};
    ghost use Rattle.term_grammar.specs.Reads.{read_sort};
    ghost use Rattle.term_grammar.specs.Readings.{sort_of};

    ghost Value = { Sort };

    ghost coded = { sort_code };

    ghost view = { λ r. sort_of (whole r.tree) };

    ghost invariant = { λ r. IsOk (read_sort (whole r.tree)) };
}

/// Some sorts.
#[derive(Drop)]
pub struct RawSorts<'t> {
    trees: Trees<'t>,
}

impl<'t> Model for RawSorts<'t> {
    ghost use Rattle.std.specs.Prelude.{IsOk};
    ghost use Rattle.term_grammar.specs.Syntax.{Sorts};
    ghost use Rattle.term_grammar.specs.Codes.{sorts_code};
    ghost use Rattle.term_grammar.specs.Reads.{read_sorts};
    ghost use Rattle.term_grammar.specs.Readings.{sorts_of};

    ghost Value = { Sorts };

    ghost coded = { sorts_code };

    ghost view = { λ r. sorts_of r.trees };

    ghost invariant = { λ r. IsOk (read_sorts r.trees) };
}

impl<'t> PartList for RawSorts<'t> {
    ghost use Rattle.term_grammar.specs.Syntax.{each_sort};

    type Part = RawSort<'t>;

    ghost parts = { each_sort };

    fn split_first(&self) -> Option<(RawSort<'t>, RawSorts<'t>)> {
        self.split()
    }

    #[tactic(auto, using(crate::proofs::Lengths::sorts_few))]
    fn bounded(&self) {
        few(&self.trees);
    }
}

/// A sort, by its production.
#[derive(Drop)]
pub enum RawSortKind<'t> {
    /// `identifier`
    Identifier(RawIdentifier<'t>),
    /// `( identifier sort+ )`
    Applied {
        identifier: RawIdentifier<'t>,
        args: RawSorts<'t>,
    },
}

/// Reads a tree as a sort. The error is the first byte of the first tree, in pre-order, that has the shape of no sort.
pub fn read_sort<'t>(tree: Part<'t>) -> Result<RawSort<'t>, u32>
    ensures { result ≡ reading (whole tree.entry) }
{
    match judge_sort(&tree) {
        Ok(()) => Ok(RawSort { tree }),
        Err(at) => Err(at),
    }
}

/// Reads some trees as sorts. The error is the first byte of the first tree, in pre-order, that has the shape of no sort.
pub fn read_sorts<'t>(trees: Trees<'t>) -> Result<RawSorts<'t>, u32>
    ensures { result ≡ readings trees.entry }
{
    match judge_sorts(&trees) {
        Ok(()) => Ok(RawSorts { trees }),
        Err(at) => Err(at),
    }
}

impl<'t> RawSort<'t> {
    /// The first byte of the sort, from 0.
    pub fn at(&self) -> u32
        ensures { result ≡ sort_at self.now }
    {
        first_byte(&self.tree)
    }

    /// The sort, by its production.
    pub fn kind(&self) -> RawSortKind<'t>
        ensures { result ≡ sort_kind self.now }
    {
        match sort_form(&self.tree) {
            Ok(SortForm::Identifier) => RawSortKind::Identifier(identifier(&self.tree)),
            Ok(
                SortForm::Applied {
                    identifier: head,
                    args,
                },
            ) => RawSortKind::Applied {
                identifier: identifier(&head),
                args: RawSorts { trees: args },
            },
            Err(_) => unreachable!(),
        }
    }

    /// The same sort once more.
    pub(crate) fn reborrow(&self) -> RawSort<'t>
        ensures { result ≡ self.now }
    {
        let tree = self.tree.reborrow();
        RawSort { tree }
    }
}

impl<'t> RawSorts<'t> {
    /// How many sorts there are. It walks over them.
    pub fn len(&self) -> usize
        ensures { result ≡ length (each_sort self.now) }
    {
        count(self)
    }

    /// The sort at an index, from 0. It walks over those before it, and answers `None` exactly past the end.
    pub fn get(&self, i: usize) -> Option<RawSort<'t>>
        ensures { result ≡ slice_get (each_sort self.now) i }
    {
        nth(self, i)
    }

    /// The first sort, and the others. It answers `None` exactly where none is left.
    pub fn split(&self) -> Option<(RawSort<'t>, RawSorts<'t>)>
        ensures { SplitsSorts self.now result }
    {
        let Some((first, rest)) = self.trees.split() else {
            return None;
        };
        Some((RawSort { tree: first }, RawSorts { trees: rest }))
    }
}

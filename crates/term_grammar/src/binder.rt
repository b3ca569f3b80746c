//! The bindings of a `let` and the variables of a quantifier or a definition, as views of their trees.
ghost use Rattle.std.specs.Prelude.{◌≡◌, length, slice_get};
ghost use Rattle.term_grammar.specs.Reads.{read_sorted};
ghost use Rattle.term_grammar.specs.TermViews.{each_variable, each_binding, SplitsBindings, SplitsVariables};

use crate::judge::judge_sorted;
use crate::list::{PartList, count, few, nth};
use crate::sort::RawSort;
use crate::term::RawTerm;
use crate::term_form::named_parts;
use lex_core::Tok;
use sexp_core::{Part, Trees};
use std::marker::Model;

/// A binding: `( symbol term )` (SMT-LIB 2.6, section 3.6).
#[derive(Drop)]
pub struct RawBinding<'t> {
    at: u32,
    pub name: Tok,
    pub term: RawTerm<'t>,
}

/// The bindings of a `let`.
#[derive(Drop)]
pub struct RawBindings<'t> {
    pub(crate) trees: Trees<'t>,
}

impl<'t> Model for RawBindings<'t> {
    ghost use Rattle.std.specs.Prelude.{IsOk};
    ghost use Rattle.term_grammar.specs.Syntax.{Bindings};
    ghost use Rattle.term_grammar.specs.Codes.{bindings_code};
    ghost use Rattle.term_grammar.specs.Reads.{read_bindings};
    ghost use Rattle.term_grammar.specs.Readings.{bindings_of};

    ghost Value = { Bindings };

    ghost coded = { bindings_code };

    ghost view = { λ r. bindings_of r.trees };

    ghost invariant = { λ r. IsOk (read_bindings r.trees) };
}

impl<'t> PartList for RawBindings<'t> {
    ghost use Rattle.term_grammar.specs.TermViews.{each_binding};

    type Part = RawBinding<'t>;

    ghost parts = { each_binding };

    fn split_first(&self) -> Option<(RawBinding<'t>, RawBindings<'t>)> {
        self.split()
    }

    #[tactic(auto, using(crate::proofs::Lengths::bindings_few))]
    fn bounded(&self) {
        few(&self.trees);
    }
}

/// A variable: `( symbol sort )` (SMT-LIB 2.6, section 3.6).
#[derive(Drop)]
pub struct RawVariable<'t> {
    at: u32,
    pub name: Tok,
    pub sort: RawSort<'t>,
}

/// The variables of a quantifier or a definition.
#[derive(Drop)]
pub struct RawVariables<'t> {
    pub(crate) trees: Trees<'t>,
}

impl<'t> Model for RawVariables<'t> {
    ghost use Rattle.std.specs.Prelude.{IsOk, List};
    ghost use Rattle.term_grammar.specs.Syntax.{SortedSymbol};
    ghost use Rattle.term_grammar.specs.Codes.{sorted_symbols_code};
    ghost use Rattle.term_grammar.specs.Reads.{read_sorted};
    ghost use Rattle.term_grammar.specs.Readings.{sorted_of};

    ghost Value = { List SortedSymbol };

    ghost coded = { sorted_symbols_code };

    ghost view = { λ r. sorted_of r.trees };

    ghost invariant = { λ r. IsOk (read_sorted r.trees) };
}

impl<'t> PartList for RawVariables<'t> {
    ghost use Rattle.term_grammar.specs.TermViews.{each_variable};

    type Part = RawVariable<'t>;

    ghost parts = { each_variable };

    fn split_first(&self) -> Option<(RawVariable<'t>, RawVariables<'t>)> {
        self.split()
    }

    #[tactic(auto, using(crate::proofs::Lengths::variables_few))]
    fn bounded(&self) {
        few(&self.trees);
    }
}

impl<'t> RawBinding<'t> {
    /// The first byte of the binding, from 0.
    pub fn at(&self) -> u32
        ensures { result ≡ self.now.at }
    {
        self.at
    }
}

impl<'t> RawBindings<'t> {
    /// How many bindings there are. It walks over them.
    pub fn len(&self) -> usize
        ensures { result ≡ length (each_binding self.now) }
    {
        count(self)
    }

    /// The binding at an index, from 0. It walks over those before it, and answers `None` exactly past the end.
    pub fn get(&self, i: usize) -> Option<RawBinding<'t>>
        ensures { result ≡ slice_get (each_binding self.now) i }
    {
        nth(self, i)
    }

    /// The first binding, and the others. It answers `None` exactly where none is left.
    pub fn split(&self) -> Option<(RawBinding<'t>, RawBindings<'t>)>
        ensures { SplitsBindings self.now result }
    {
        let Some((first, trees)) = self.trees.split() else {
            return None;
        };
        let Part::List { at, parts } = first else {
            return None;
        };
        let Some((name, tree)) = named_parts(&parts) else {
            return None;
        };
        let term = RawTerm { tree };
        Some((RawBinding { at, name, term }, RawBindings { trees }))
    }
}

impl<'t> RawVariable<'t> {
    /// The first byte of the variable, from 0.
    pub fn at(&self) -> u32
        ensures { result ≡ self.now.at }
    {
        self.at
    }
}

impl<'t> RawVariables<'t> {
    /// How many variables there are. It walks over them.
    pub fn len(&self) -> usize
        ensures { result ≡ length (each_variable self.now) }
    {
        count(self)
    }

    /// The variable at an index, from 0. It walks over those before it, and answers `None` exactly past the end.
    pub fn get(&self, i: usize) -> Option<RawVariable<'t>>
        ensures { result ≡ slice_get (each_variable self.now) i }
    {
        nth(self, i)
    }

    /// The first variable, and the others. It answers `None` exactly where none is left.
    pub fn split(&self) -> Option<(RawVariable<'t>, RawVariables<'t>)>
        ensures { SplitsVariables self.now result }
    {
        let Some((first, trees)) = self.trees.split() else {
            return None;
        };
        let Part::List { at, parts } = first else {
            return None;
        };
        let Some((name, tree)) = named_parts(&parts) else {
            return None;
        };
        let sort = RawSort { tree };
        Some((RawVariable { at, name, sort }, RawVariables { trees }))
    }
}

/// Reads the sorts of variables or selectors. The error is the first byte of the first tree, in pre-order, that has the
/// shape of no sort.
pub fn read_variables<'t>(trees: Trees<'t>) -> Result<RawVariables<'t>, u32>
    ensures { result ≡ read_sorted trees.entry }
{
    match judge_sorted(&trees) {
        Ok(()) => Ok(RawVariables { trees }),
        Err(at) => Err(at),
    }
}

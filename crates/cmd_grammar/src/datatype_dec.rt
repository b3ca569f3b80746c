//! The declarations of datatypes, as views of their trees.
ghost use Rattle.std.specs.Prelude.{◌≡◌, length, option_map, slice_get};
ghost use Rattle.sexp_core.specs.Parts.{whole};
ghost use Rattle.term_grammar.specs.Reads.{made_of};
ghost use Rattle.cmd_grammar.specs.TreeLists.{SplitsBy, read_all};
ghost use Rattle.cmd_grammar.specs.DeclarationReads.{read_constructor_dec as constructor_reading, read_data_dec as data_reading};
ghost use Rattle.cmd_grammar.specs.DeclarationViews.{constructor_dec_seen, data_dec_at, data_dec_kind, selector_seen, variable_seen};

use crate::declaration_form::{constructor_dec_parts, parametric_parts};
use crate::tree_list::nth;
use lex_core::Tok;
use sexp_core::{Part, Trees};
use std::marker::Model;
use term_grammar::{RawSort, RawSymbols, RawVariable, RawVariables, read_variables};

/// A selector: `( symbol sort )` (SMT-LIB 2.6, section 3.9).
#[derive(Drop)]
pub struct RawSelector<'t> {
    at: u32,
    pub name: Tok,
    pub sort: RawSort<'t>,
}

/// Some selectors. They have the form of variables.
#[derive(Drop)]
pub struct RawSelectors<'t> {
    fields: RawVariables<'t>,
}

impl<'t> Model for RawSelectors<'t> {
    ghost use Rattle.std.specs.Prelude.{List};
    ghost use Rattle.term_grammar.specs.Syntax.{SortedSymbol};
    ghost use Rattle.term_grammar.specs.Codes.{sorted_symbols_code};

    ghost Value = { List SortedSymbol };

    ghost coded = { sorted_symbols_code };

    ghost view = { λ r. r.fields };
}

/// The declaration of a constructor: `( symbol selector* )` (SMT-LIB 2.6, section 3.9).
#[derive(Drop)]
pub struct RawConDec<'t> {
    at: u32,
    pub name: Tok,
    pub selectors: RawSelectors<'t>,
}

/// Some declarations of constructors.
#[derive(Drop)]
pub struct RawConDecs<'t> {
    trees: Trees<'t>,
}

impl<'t> Model for RawConDecs<'t> {
    ghost use Rattle.std.specs.Prelude.{List, map};
    ghost use Rattle.std.specs.Coded.{codes};
    ghost use Rattle.term_grammar.specs.Codes.{sorted_symbols_code};
    ghost use Rattle.cmd_grammar.specs.Commands.{ConstructorDec};
    ghost use Rattle.cmd_grammar.specs.TreeLists.{each_tree, EachReads};
    ghost use Rattle.cmd_grammar.specs.DeclarationReads.{read_constructor_dec, constructor_dec_of};

    ghost Value = { List ConstructorDec };

    ghost coded = { Prim.hlevel (codes, sorted_symbols_code) };

    ghost view = { λ r. map constructor_dec_of (each_tree r.trees) };

    ghost invariant = { λ r. EachReads read_constructor_dec r.trees };
}

/// The declaration of a datatype (SMT-LIB 2.6, section 3.9): its constructors, with its sort parameters if it has some.
#[derive(Drop)]
pub struct RawDataDec<'t> {
    tree: Part<'t>,
}

impl<'t> Model for RawDataDec<'t> {
    ghost use Rattle.std.specs.Prelude.{IsOk};
    ghost use Rattle.std.specs.Coded.{codes};
    ghost use Rattle.sexp_core.specs.Parts.{whole};
    ghost use Rattle.term_grammar.specs.Codes.{tokens_code, sorted_symbols_code};
    ghost use Rattle.cmd_grammar.specs.Commands.{DataDec};
    ghost use Rattle.cmd_grammar.specs.DeclarationReads.{read_data_dec, data_dec_of};

    ghost Value = { DataDec };

    ghost coded = { Prim.hlevel (codes, tokens_code, sorted_symbols_code) };

    ghost view = { λ r. data_dec_of (whole r.tree) };

    ghost invariant = { λ r. IsOk (read_data_dec (whole r.tree)) };
}

/// Some declarations of datatypes.
#[derive(Drop)]
pub struct RawDataDecs<'t> {
    trees: Trees<'t>,
}

impl<'t> Model for RawDataDecs<'t> {
    ghost use Rattle.std.specs.Prelude.{List, map};
    ghost use Rattle.std.specs.Coded.{codes};
    ghost use Rattle.term_grammar.specs.Codes.{tokens_code, sorted_symbols_code};
    ghost use Rattle.cmd_grammar.specs.Commands.{DataDec};
    ghost use Rattle.cmd_grammar.specs.TreeLists.{each_tree, EachReads};
    ghost use Rattle.cmd_grammar.specs.DeclarationReads.{read_data_dec, data_dec_of};

    ghost Value = { List DataDec };

    ghost coded = { Prim.hlevel (codes, tokens_code, sorted_symbols_code) };

    ghost view = { λ r. map data_dec_of (each_tree r.trees) };

    ghost invariant = { λ r. EachReads read_data_dec r.trees };
}

/// The declaration of a datatype, by its production.
#[derive(Drop)]
pub enum RawDataDecKind<'t> {
    /// `( con_dec+ )`
    Plain {
        constructors: RawConDecs<'t>,
    },
    /// `( par ( symbol+ ) ( con_dec+ ) )`
    Parametric {
        params: RawSymbols<'t>,
        constructors: RawConDecs<'t>,
    },
}

// Reads a tree as the declaration of a constructor.
fn read_constructor_dec<'t>(tree: &Part<'t>) -> Result<RawConDec<'t>, u32>
    ensures { made_of constructor_dec_seen result ≡ constructor_reading (whole tree.now) }
{
    match tree {
        Part::Atom(tok) => Err(tok.at),
        Part::List { at, parts } => match constructor_dec_parts(parts) {
            Some((name, trees)) => {
                let fields = read_variables(trees)?;
                let selectors = RawSelectors { fields };
                Ok(RawConDec {
                    at: *at,
                    name,
                    selectors,
                })
            }
            None => Err(*at),
        },
    }
}

// Reads some trees as declarations of constructors.
fn read_constructor_decs<'t>(trees: Trees<'t>) -> Result<RawConDecs<'t>, u32>
    ensures { result ≡ read_all constructor_reading trees.entry }
{
    let mut next = trees.split();
    while let Some((first, rest)) = next {
        read_constructor_dec(&first)?;
        next = rest.split();
    }
    Ok(RawConDecs { trees })
}

/// Reads a tree as the declaration of a datatype. The error is the first byte of the first tree, in pre-order, that has the
/// shape of no production.
pub(crate) fn read_data_dec<'t>(tree: Part<'t>) -> Result<RawDataDec<'t>, u32>
    ensures { result ≡ data_reading (whole tree.entry) }
{
    match &tree {
        Part::Atom(tok) => return Err(tok.at),
        Part::List { parts, .. } => match parametric_parts(parts) {
            Some((_, constructors)) => {
                read_constructor_decs(constructors)?;
            }
            None => {
                read_constructor_decs(parts.reborrow())?;
            }
        },
    }
    Ok(RawDataDec { tree })
}

/// Reads some trees as declarations of datatypes. The error is as in `read_data_dec`.
pub(crate) fn read_data_decs<'t>(trees: Trees<'t>) -> Result<RawDataDecs<'t>, u32>
    ensures { result ≡ read_all data_reading trees.entry }
{
    let mut next = trees.split();
    while let Some((first, rest)) = next {
        read_data_dec(first)?;
        next = rest.split();
    }
    Ok(RawDataDecs { trees })
}

impl<'t> RawSelector<'t> {
    /// The first byte of the selector, from 0.
    pub fn at(&self) -> u32
        ensures { result ≡ self.now.at }
    {
        self.at
    }
}

// The selector of a field, which has the form of a variable.
fn selector<'t>(field: RawVariable<'t>) -> RawSelector<'t>
    ensures { selector_seen result ≡ variable_seen field.entry }
{
    let at = field.at();
    RawSelector {
        at,
        name: field.name,
        sort: field.sort,
    }
}

impl<'t> RawSelectors<'t> {
    /// How many selectors there are. It walks over them.
    #[tactic(auto, using(crate::proofs::Fields::fields))]
    pub fn len(&self) -> usize
        ensures { result ≡ length self.now }
    {
        self.fields.len()
    }

    /// The selector at an index, from 0. It answers `None` exactly past the end. It walks over those before it.
    pub fn get(&self, i: usize) -> Option<RawSelector<'t>>
        ensures { option_map selector_seen result ≡ slice_get self.now i }
    {
        let Some(field) = self.fields.get(i) else {
            return None;
        };
        Some(selector(field))
    }

    /// The first selector, and the others. It answers `None` exactly where none is left.
    pub fn split(&self) -> Option<(RawSelector<'t>, RawSelectors<'t>)>
        ensures { SplitsBy selector_seen self.now result }
    {
        let Some((field, fields)) = self.fields.split() else {
            return None;
        };
        Some((selector(field), RawSelectors { fields }))
    }
}

impl<'t> RawConDec<'t> {
    /// The first byte of the declaration, from 0.
    pub fn at(&self) -> u32
        ensures { result ≡ self.now.at }
    {
        self.at
    }
}

impl<'t> RawConDecs<'t> {
    /// How many declarations there are. It walks over them.
    #[tactic(auto, using(crate::proofs::EachTree::counts))]
    pub fn len(&self) -> usize
        ensures { result ≡ length self.now }
    {
        self.trees.len()
    }

    /// The declaration at an index, from 0. It answers `None` exactly past the end. It walks over those before it.
    pub fn get(&self, i: usize) -> Option<RawConDec<'t>>
        ensures { option_map constructor_dec_seen result ≡ slice_get self.now i }
    {
        let Some(tree) = nth(&self.trees, i) else {
            return None;
        };
        let Ok(constructor) = read_constructor_dec(&tree) else {
            unreachable!();
        };
        Some(constructor)
    }

    /// The first declaration, and the others. It answers `None` exactly where none is left.
    pub fn split(&self) -> Option<(RawConDec<'t>, RawConDecs<'t>)>
        ensures { SplitsBy constructor_dec_seen self.now result }
    {
        let Some((tree, trees)) = self.trees.split() else {
            return None;
        };
        let Ok(constructor) = read_constructor_dec(&tree) else {
            unreachable!();
        };
        Some((constructor, RawConDecs { trees }))
    }
}

impl<'t> RawDataDec<'t> {
    /// The first byte of the declaration, from 0.
    pub fn at(&self) -> u32
        ensures { result ≡ data_dec_at self.now }
    {
        match &self.tree {
            Part::Atom(tok) => tok.at,
            Part::List { at, .. } => *at,
        }
    }

    /// The declaration, by its production.
    pub fn kind(&self) -> RawDataDecKind<'t>
        ensures { result ≡ data_dec_kind self.now }
    {
        let Part::List { parts, .. } = &self.tree else {
            unreachable!();
        };
        match parametric_parts(parts) {
            Some((params, trees)) => {
                let params = RawSymbols::of(params);
                let constructors = RawConDecs { trees };
                RawDataDecKind::Parametric {
                    params,
                    constructors,
                }
            }
            None => {
                let trees = parts.reborrow();
                let constructors = RawConDecs { trees };
                RawDataDecKind::Plain { constructors }
            }
        }
    }
}

impl<'t> RawDataDecs<'t> {
    /// How many declarations there are. It walks over them.
    #[tactic(auto, using(crate::proofs::EachTree::counts))]
    pub fn len(&self) -> usize
        ensures { result ≡ length self.now }
    {
        self.trees.len()
    }

    /// The declaration at an index, from 0. It answers `None` exactly past the end. It walks over those before it.
    pub fn get(&self, i: usize) -> Option<RawDataDec<'t>>
        ensures { result ≡ slice_get self.now i }
    {
        let Some(tree) = nth(&self.trees, i) else {
            return None;
        };
        Some(RawDataDec { tree })
    }

    /// The first declaration, and the others. It answers `None` exactly where none is left.
    pub fn split(&self) -> Option<(RawDataDec<'t>, RawDataDecs<'t>)>
        ensures { SplitsBy (λ d. d) self.now result }
    {
        let Some((tree, trees)) = self.trees.split() else {
            return None;
        };
        Some((RawDataDec { tree }, RawDataDecs { trees }))
    }
}

//! The declarations and definitions of functions, as views of their trees.
ghost use Rattle.std.specs.Prelude.{◌≡◌, length, option_map, slice_get};
ghost use Rattle.sexp_core.specs.Parts.{whole};
ghost use Rattle.term_grammar.specs.Reads.{made_of};
ghost use Rattle.cmd_grammar.specs.TreeLists.{SplitsBy, read_all};
ghost use Rattle.cmd_grammar.specs.DeclarationReads.{read_fun_dec as declaration_reading, read_fun_def as definition_reading};
ghost use Rattle.cmd_grammar.specs.DeclarationViews.{fun_dec_seen, fun_def_seen};

use crate::declaration_form::{FunDefParts, fun_dec_parts};
use crate::tree_list::nth;
use lex_core::Tok;
use sexp_core::{Part, Trees};
use std::marker::Model;
use term_grammar::{RawSort, RawTerm, RawVariables, read_sort, read_term, read_variables};

/// The declaration of a function of `define-funs-rec`: `( symbol ( variable* ) sort )` (SMT-LIB 2.6, section 3.9).
#[derive(Drop)]
pub struct RawFunDec<'t> {
    at: u32,
    pub name: Tok,
    pub params: RawVariables<'t>,
    pub result: RawSort<'t>,
}

/// Some declarations of functions.
#[derive(Drop)]
pub struct RawFunDecs<'t> {
    trees: Trees<'t>,
}

impl<'t> Model for RawFunDecs<'t> {
    ghost use Rattle.std.specs.Prelude.{List, map};
    ghost use Rattle.std.specs.Coded.{codes};
    ghost use Rattle.term_grammar.specs.Codes.{sort_code, sorted_symbols_code};
    ghost use Rattle.cmd_grammar.specs.Commands.{FunDec};
    ghost use Rattle.cmd_grammar.specs.TreeLists.{each_tree, EachReads};
    ghost use Rattle.cmd_grammar.specs.DeclarationReads.{read_fun_dec, fun_dec_of};

    ghost Value = { List FunDec };

    ghost coded = { Prim.hlevel (codes, sort_code, sorted_symbols_code) };

    ghost view = { λ r. map fun_dec_of (each_tree r.trees) };

    ghost invariant = { λ r. EachReads read_fun_dec r.trees };
}

/// The definition of a function: `symbol ( variable* ) sort term` (SMT-LIB 2.6, section 3.9).
#[derive(Drop)]
pub struct RawFunDef<'t> {
    pub name: Tok,
    pub params: RawVariables<'t>,
    pub result: RawSort<'t>,
    pub body: RawTerm<'t>,
}

// Reads a tree as the declaration of a function.
fn read_fun_dec<'t>(tree: &Part<'t>) -> Result<RawFunDec<'t>, u32>
    ensures { made_of fun_dec_seen result ≡ declaration_reading (whole tree.now) }
{
    match tree {
        Part::Atom(tok) => Err(tok.at),
        Part::List { at, parts } => match fun_dec_parts(parts) {
            Some((name, params, result)) => {
                let params = read_variables(params)?;
                let result = read_sort(result)?;
                Ok(RawFunDec {
                    at: *at,
                    name,
                    params,
                    result,
                })
            }
            None => Err(*at),
        },
    }
}

/// Reads some trees as declarations of functions. The error is the first byte of the first tree, in pre-order, that has the
/// shape of no production.
pub(crate) fn read_fun_decs<'t>(trees: Trees<'t>) -> Result<RawFunDecs<'t>, u32>
    ensures { result ≡ read_all declaration_reading trees.entry }
{
    let mut next = trees.split();
    while let Some((first, rest)) = next {
        read_fun_dec(&first)?;
        next = rest.split();
    }
    Ok(RawFunDecs { trees })
}

/// Reads the sorts and the term of a definition. The error is as in `read_fun_decs`.
pub(crate) fn read_fun_def<'t>(parts: FunDefParts<'t>) -> Result<RawFunDef<'t>, u32>
    ensures { made_of fun_def_seen result ≡ definition_reading parts.entry }
{
    let FunDefParts {
        name,
        params,
        result,
        body,
    } = parts;
    let params = read_variables(params)?;
    let result = read_sort(result)?;
    let body = read_term(body)?;
    Ok(RawFunDef {
        name,
        params,
        result,
        body,
    })
}

impl<'t> RawFunDec<'t> {
    /// The first byte of the declaration, from 0.
    pub fn at(&self) -> u32
        ensures { result ≡ self.now.at }
    {
        self.at
    }
}

impl<'t> RawFunDecs<'t> {
    /// How many declarations there are. It walks over them.
    #[tactic(auto, using(crate::proofs::EachTree::counts))]
    pub fn len(&self) -> usize
        ensures { result ≡ length self.now }
    {
        self.trees.len()
    }

    /// The declaration at an index, from 0. It answers `None` exactly past the end. It walks over those before it.
    pub fn get(&self, i: usize) -> Option<RawFunDec<'t>>
        ensures { option_map fun_dec_seen result ≡ slice_get self.now i }
    {
        let Some(tree) = nth(&self.trees, i) else {
            return None;
        };
        let Ok(declaration) = read_fun_dec(&tree) else {
            unreachable!();
        };
        Some(declaration)
    }

    /// The first declaration, and the others. It answers `None` exactly where none is left.
    pub fn split(&self) -> Option<(RawFunDec<'t>, RawFunDecs<'t>)>
        ensures { SplitsBy fun_dec_seen self.now result }
    {
        let Some((tree, trees)) = self.trees.split() else {
            return None;
        };
        let Ok(declaration) = read_fun_dec(&tree) else {
            unreachable!();
        };
        Some((declaration, RawFunDecs { trees }))
    }
}

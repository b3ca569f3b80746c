ghost use Rattle.std.specs.Prelude.{◌≡◌, IfOk};
ghost use Rattle.term_store.specs.Depth.{text_depth};
ghost use Rattle.term_store.specs.NumberedNodes.{numbered_node};
ghost use Rattle.term_store.specs.Term.{term, tree, node_of, sort_of};

use crate::depth::depth_of_node;
use crate::parts::{Applied, Pattern};
use lex_core::{NameId, TokKind};
use sexp_core::Tree;
use sort_store::{DeclNo, SortRef};
use std::alloc::{AllocError, Global};
use std::marker::Model;
use std::rc::Rc;

/// A term that a store made, shared with all that use it.
#[cycle(term)]
#[derive(Drop)]
pub struct TermRef {
    pub(crate) shared: Rc<Entry>,
}

// A node with its entry's number in the store, its sort, and the depth of its text.
#[cycle(term)]
#[derive(Drop)]
pub(crate) struct Entry {
    pub(crate) number: usize,
    pub(crate) print_depth: u32,
    pub(crate) sort: SortRef,
    pub(crate) node: TermNode,
}

/// One node of a term (SMT-LIB 2.6, section 3.6).
#[cycle(term)]
#[derive(Drop)]
pub enum TermNode {
    /// A literal, spelt by the name.
    Lit {
        kind: TokKind,
        text: NameId,
    },
    /// A bound variable.
    Var(NameId),
    /// A function symbol with its arguments; a constant has none.
    App {
        head: Applied,
        args: Vec<TermRef>,
    },
    /// `let`, which binds each variable to the value at its place.
    Let {
        vars: Vec<NameId>,
        values: Vec<TermRef>,
        body: TermRef,
    },
    /// `forall` where `all` is true, else `exists`.
    Quant {
        all: bool,
        vars: Vec<(NameId, SortRef)>,
        body: TermRef,
    },
    /// `match`, with its cases in order.
    Match {
        of: TermRef,
        cases: Vec<(Pattern, TermRef)>,
    },
    /// `!`, with the attributes in order.
    Ann {
        body: TermRef,
        notes: Vec<Note>,
    },
}

/// An attribute of a term (SMT-LIB 2.6, section 3.6).
#[cycle(term)]
#[derive(Drop)]
pub enum Note {
    /// `:named`, which declares the name with this number.
    Named { no: DeclNo, name: NameId },
    /// `:pattern` with its terms.
    Pattern(Vec<TermRef>),
    /// Any other attribute, with its value as it was written.
    Other { key: NameId, value: Option<Tree> },
}

impl Model for TermRef {
    ghost use Rattle.std.specs.Prelude.{◌≡◌};
    ghost use Rattle.std.specs.Coded.{codes};
    ghost use Rattle.lex_core.specs.contracts.token.TokKind as tok_kind;
    ghost use Rattle.sexp_core.specs.Items.{sexp_code};
    ghost use Rattle.sort_store.specs.Coded.{numbered_code};
    ghost use Rattle.sort_store.specs.contracts.head.DeclNo as decl_no;
    ghost use Rattle.term_store.specs.Term.{NumberedTerm, term, tree};
    ghost use Rattle.term_store.specs.Coded.{numbered_term_code};
    ghost use Rattle.term_store.specs.contracts.parts.Applied as applied;
    ghost use Rattle.term_store.specs.contracts.parts.Pattern as patterns;

    ghost Value = { NumberedTerm };

    ghost coded = { numbered_term_code (Prim.hlevel (codes, numbered_code, sexp_code, tok_kind.the_row.coded, applied.the_row.coded, patterns.the_row.coded, decl_no.the_row.coded)) };

    ghost use Rattle.term_store.specs.NumberedNodes.{numbered_node};

    ghost view = { λ a. term a.shared.value.number a.shared.value.sort (numbered_node a.shared.value.node) };

    ghost use Rattle.term_store.specs.Depth.{text_depth};

    ghost invariant = { λ a. a.shared.value.print_depth ≡ text_depth (tree (term a.shared.value.number a.shared.value.sort (numbered_node a.shared.value.node))) };

    ghost use Rattle.term_store.specs.Size.{node_count};

    ghost size = { node_count };

    ghost use Rattle.std.proofs.Common.{arith};
    ghost use Rattle.term_store.specs.PartSizes.{parts_smaller};

    ghost size_decreases = { λ a h. omega (arith, parts_smaller a.shared.value.node) };
}

impl TermRef {
    /// The node, with references to its parts.
    pub fn node(&self) -> &TermNode
        ensures { numbered_node result.now ≡ node_of self.now }
    {
        &self.shared.node
    }

    /// The sort of the term.
    pub fn sort(&self) -> &SortRef
        ensures { result.now ≡ sort_of self.now }
    {
        &self.shared.sort
    }

    /// How many lists are nested in the term's canonical text, or 4,294,967,295 where there are more.
    pub fn print_depth(&self) -> u32
        ensures { result ≡ text_depth (tree self.now) }
    {
        self.shared.print_depth
    }
}

impl Clone for TermRef {
    ghost is_clone = { λ t copy. copy ≡ t };

    fn clone(&self) -> Result<TermRef, AllocError> {
        let shared = self.shared.clone()?;
        Ok(TermRef { shared })
    }
}

// A node with a sort and a number for its entry.
pub(crate) fn new_term(
    alloc: Global,
    number: usize,
    node: TermNode,
    sort: SortRef,
) -> Result<TermRef, AllocError>
    ensures { IfOk result (λ r. r ≡ term number sort (numbered_node node)) }
{
    let print_depth = depth_of_node(&node, &sort);
    let entry = Entry {
        number,
        print_depth,
        sort,
        node,
    };
    let shared = Rc::new(alloc, entry)?;
    Ok(TermRef { shared })
}

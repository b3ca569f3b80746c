//! Terms, as views of their trees.
ghost use Rattle.std.specs.Prelude.{◌≡◌, length, slice_get};
ghost use Rattle.sexp_core.specs.Parts.{whole};
ghost use Rattle.term_grammar.specs.Reads.{read_term as reading, read_terms as readings};
ghost use Rattle.term_grammar.specs.Syntax.{each_term, term_at};
ghost use Rattle.term_grammar.specs.TermViews.{term_kind, SplitsTerms};

use crate::binder::{RawBindings, RawVariables};
use crate::judge::{judge_term, judge_terms};
use crate::list::{PartList, count, few, nth};
use crate::note::RawNotes;
use crate::parts::first_byte;
use crate::pattern::RawCases;
use crate::qualified::{RawQualified, qualified};
use crate::term_form::{TermForm, term_form};
use lex_core::Tok;
use sexp_core::{Part, Trees};
use std::marker::Model;

/// A term (SMT-LIB 2.6, section 3.6).
#[derive(Drop)]
pub struct RawTerm<'t> {
    pub(crate) tree: Part<'t>,
}

impl<'t> Model for RawTerm<'t> {
    ghost use Rattle.std.specs.Prelude.{IsOk};
    ghost use Rattle.sexp_core.specs.Parts.{whole};
    ghost use Rattle.term_grammar.specs.Syntax.{Term};
    ghost use Rattle.term_grammar.specs.Codes.{term_code};
    ghost use Rattle.term_grammar.specs.Reads.{read_term};
    ghost use Rattle.term_grammar.specs.Readings.{term_of};

    ghost Value = { Term };

    ghost coded = { term_code };

    ghost view = { λ r. term_of (whole r.tree) };

    ghost invariant = { λ r. IsOk (read_term (whole r.tree)) };
}

/// Some terms.
#[derive(Drop)]
pub struct RawTerms<'t> {
    pub(crate) trees: Trees<'t>,
}

impl<'t> Model for RawTerms<'t> {
    ghost use Rattle.std.specs.Prelude.{IsOk};
    ghost use Rattle.term_grammar.specs.Syntax.{Terms};
    ghost use Rattle.term_grammar.specs.Codes.{terms_code};
    ghost use Rattle.term_grammar.specs.Reads.{read_terms};
    ghost use Rattle.term_grammar.specs.Readings.{terms_of};

    ghost Value = { Terms };

    ghost coded = { terms_code };

    ghost view = { λ r. terms_of r.trees };

    ghost invariant = { λ r. IsOk (read_terms r.trees) };
}

impl<'t> PartList for RawTerms<'t> {
    ghost use Rattle.term_grammar.specs.Syntax.{each_term};

    type Part = RawTerm<'t>;

    ghost parts = { each_term };

    fn split_first(&self) -> Option<(RawTerm<'t>, RawTerms<'t>)> {
        self.split()
    }

    #[tactic(auto, using(crate::proofs::Lengths::terms_few))]
    fn bounded(&self) {
        few(&self.trees);
    }
}

/// A term, by its production.
#[derive(Drop)]
pub enum RawTermKind<'t> {
    /// `constant`
    Constant(Tok),
    /// `qualified`
    Qualified(RawQualified<'t>),
    /// `( qualified term+ )`
    Application {
        head: RawQualified<'t>,
        args: RawTerms<'t>,
    },
    /// `( let ( binding+ ) term )`
    Let {
        bindings: RawBindings<'t>,
        body: RawTerm<'t>,
    },
    /// `( forall ( variable+ ) term )`
    Forall {
        variables: RawVariables<'t>,
        body: RawTerm<'t>,
    },
    /// `( exists ( variable+ ) term )`
    Exists {
        variables: RawVariables<'t>,
        body: RawTerm<'t>,
    },
    /// `( match term ( case+ ) )`
    Match {
        term: RawTerm<'t>,
        cases: RawCases<'t>,
    },
    /// `( ! term note+ )`
    Annotated {
        term: RawTerm<'t>,
        notes: RawNotes<'t>,
    },
}

/// Reads a tree as a term. The error is the first byte of the first tree, in pre-order, in the position of a sort or a
/// term that has the shape of no production.
pub fn read_term<'t>(tree: Part<'t>) -> Result<RawTerm<'t>, u32>
    ensures { result ≡ reading (whole tree.entry) }
{
    match judge_term(&tree) {
        Ok(()) => Ok(RawTerm { tree }),
        Err(at) => Err(at),
    }
}

/// Reads some trees as terms. The error is the first byte of the first tree, in pre-order, in the position of a sort or
/// a term that has the shape of no production.
pub fn read_terms<'t>(trees: Trees<'t>) -> Result<RawTerms<'t>, u32>
    ensures { result ≡ readings trees.entry }
{
    match judge_terms(&trees) {
        Ok(()) => Ok(RawTerms { trees }),
        Err(at) => Err(at),
    }
}

impl<'t> RawTerm<'t> {
    /// The first byte of the term, from 0.
    pub fn at(&self) -> u32
        ensures { result ≡ term_at self.now }
    {
        first_byte(&self.tree)
    }

    /// The term, by its production.
    pub fn kind(&self) -> RawTermKind<'t>
        ensures { result ≡ term_kind self.now }
    {
        let Ok(form) = term_form(&self.tree) else {
            unreachable!();
        };
        match form {
            TermForm::Constant(tok) => RawTermKind::Constant(tok),
            TermForm::Qualified => RawTermKind::Qualified(qualified(&self.tree)),
            TermForm::Application { head, args } => RawTermKind::Application {
                head: qualified(&head),
                args: RawTerms { trees: args },
            },
            TermForm::Let { bindings, body } => RawTermKind::Let {
                bindings: RawBindings { trees: bindings },
                body: RawTerm { tree: body },
            },
            TermForm::Forall { variables, body } => RawTermKind::Forall {
                variables: RawVariables { trees: variables },
                body: RawTerm { tree: body },
            },
            TermForm::Exists { variables, body } => RawTermKind::Exists {
                variables: RawVariables { trees: variables },
                body: RawTerm { tree: body },
            },
            TermForm::Match { term, cases } => RawTermKind::Match {
                term: RawTerm { tree: term },
                cases: RawCases { trees: cases },
            },
            TermForm::Annotated { term, notes } => RawTermKind::Annotated {
                term: RawTerm { tree: term },
                notes: RawNotes { trees: notes },
            },
        }
    }
}

impl<'t> RawTerms<'t> {
    /// How many terms there are. It walks over them.
    pub fn len(&self) -> usize
        ensures { result ≡ length (each_term self.now) }
    {
        count(self)
    }

    /// The term at an index, from 0. It walks over those before it, and answers `None` exactly past the end.
    pub fn get(&self, i: usize) -> Option<RawTerm<'t>>
        ensures { result ≡ slice_get (each_term self.now) i }
    {
        nth(self, i)
    }

    /// The first term, and the others. It answers `None` exactly where none is left.
    pub fn split(&self) -> Option<(RawTerm<'t>, RawTerms<'t>)>
        ensures { SplitsTerms self.now result }
    {
        let Some((first, rest)) = self.trees.split() else {
            return None;
        };
        Some((RawTerm { tree: first }, RawTerms { trees: rest }))
    }

    /// The same terms once more.
    pub(crate) fn reborrow(&self) -> RawTerms<'t>
        ensures { result ≡ self.now }
    {
        let trees = self.trees.reborrow();
        RawTerms { trees }
    }
}

//! Patterns and the cases of a `match`, as views of their trees.
ghost use Rattle.std.specs.Prelude.{◌≡◌, IsTrue, length, slice_get};
ghost use Rattle.term_grammar.specs.Syntax.{pattern_at};
ghost use Rattle.term_grammar.specs.TermForms.{are_symbols};
ghost use Rattle.term_grammar.specs.Reads.{tokens_of};
ghost use Rattle.term_grammar.specs.IdentifierViews.{SplitsTokens};
ghost use Rattle.term_grammar.specs.TermViews.{each_case, pattern_kind, SplitsCases};
ghost use Rattle.term_grammar.specs.ListViews.{each_token};

use crate::list::{PartList, count, few, nth};
use crate::parts::{first_byte, token_first};
use crate::term::RawTerm;
use crate::term_form::{case_parts, constructor_parts};
use lex_core::Tok;
use sexp_core::{Part, Trees};
use std::marker::Model;

/// A pattern: a symbol, or a constructor with variables (SMT-LIB 2.6, section 3.6).
#[derive(Drop)]
pub struct RawPattern<'t> {
    tree: Part<'t>,
}

impl<'t> Model for RawPattern<'t> {
    ghost use Rattle.std.specs.Prelude.{IsTrue};
    ghost use Rattle.sexp_core.specs.Parts.{whole};
    ghost use Rattle.term_grammar.specs.Syntax.{Pattern};
    ghost use Rattle.term_grammar.specs.Codes.{pattern_code};
    ghost use Rattle.term_grammar.specs.TermForms.{is_pattern};
    ghost use Rattle.term_grammar.specs.Reads.{pattern_of};

    ghost Value = { Pattern };

    ghost coded = { pattern_code };

    ghost view = { λ r. pattern_of (whole r.tree) };

    ghost invariant = { λ r. IsTrue (is_pattern (whole r.tree)) };
}

/// Some symbols.
#[derive(Drop)]
pub struct RawSymbols<'t> {
    trees: Trees<'t>,
}

impl<'t> Model for RawSymbols<'t> {
    ghost use Rattle.std.specs.Prelude.{List, IsTrue};
    ghost use Rattle.lex_core.specs.declared.token.Tok.{Tok};
    ghost use Rattle.term_grammar.specs.Codes.{tokens_code};
    ghost use Rattle.term_grammar.specs.TermForms.{are_symbols};
    ghost use Rattle.term_grammar.specs.Reads.{tokens_of};

    ghost Value = { List Tok };

    ghost coded = { tokens_code };

    ghost view = { λ r. tokens_of r.trees };

    ghost invariant = { λ r. IsTrue (are_symbols r.trees) };
}

impl<'t> PartList for RawSymbols<'t> {
    ghost use Rattle.term_grammar.specs.ListViews.{each_token};

    type Part = Tok;

    ghost parts = { each_token };

    fn split_first(&self) -> Option<(Tok, RawSymbols<'t>)> {
        self.split()
    }

    #[tactic(auto, using(crate::proofs::Lengths::tokens_few))]
    fn bounded(&self) {
        few(&self.trees);
    }
}

/// A pattern, by its production.
#[derive(Drop)]
pub enum RawPatternKind<'t> {
    /// `symbol`
    Symbol(Tok),
    /// `( symbol symbol+ )`
    Constructor {
        name: Tok,
        variables: RawSymbols<'t>,
    },
}

/// A case of a `match`: `( pattern term )`.
#[derive(Drop)]
pub struct RawCase<'t> {
    at: u32,
    pub pattern: RawPattern<'t>,
    pub term: RawTerm<'t>,
}

/// The cases of a `match`.
#[derive(Drop)]
pub struct RawCases<'t> {
    pub(crate) trees: Trees<'t>,
}

impl<'t> Model for RawCases<'t> {
    ghost use Rattle.std.specs.Prelude.{IsOk};
    ghost use Rattle.term_grammar.specs.Syntax.{Cases};
    ghost use Rattle.term_grammar.specs.Codes.{cases_code};
    ghost use Rattle.term_grammar.specs.Reads.{read_cases};
    ghost use Rattle.term_grammar.specs.Readings.{cases_of};

    ghost Value = { Cases };

    ghost coded = { cases_code };

    ghost view = { λ r. cases_of r.trees };

    ghost invariant = { λ r. IsOk (read_cases r.trees) };
}

impl<'t> PartList for RawCases<'t> {
    ghost use Rattle.term_grammar.specs.TermViews.{each_case};

    type Part = RawCase<'t>;

    ghost parts = { each_case };

    fn split_first(&self) -> Option<(RawCase<'t>, RawCases<'t>)> {
        self.split()
    }

    #[tactic(auto, using(crate::proofs::Lengths::cases_few))]
    fn bounded(&self) {
        few(&self.trees);
    }
}

impl<'t> RawPattern<'t> {
    /// The first byte of the pattern, from 0.
    pub fn at(&self) -> u32
        ensures { result ≡ pattern_at self.now }
    {
        first_byte(&self.tree)
    }

    /// The pattern, by its production.
    pub fn kind(&self) -> RawPatternKind<'t>
        ensures { result ≡ pattern_kind self.now }
    {
        match &self.tree {
            Part::Atom(tok) => RawPatternKind::Symbol(*tok),
            Part::List { parts, .. } => {
                let Some((name, trees)) = constructor_parts(parts) else {
                    unreachable!();
                };
                let variables = RawSymbols { trees };
                RawPatternKind::Constructor { name, variables }
            }
        }
    }
}

impl<'t> RawSymbols<'t> {
    /// The symbols that some trees are.
    pub fn of(trees: Trees<'t>) -> RawSymbols<'t>
        requires { IsTrue (are_symbols trees) }
        ensures { result ≡ tokens_of trees.entry }
    {
        RawSymbols { trees }
    }

    /// How many symbols there are. It walks over them.
    pub fn len(&self) -> usize
        ensures { result ≡ length (each_token self.now) }
    {
        count(self)
    }

    /// The symbol at an index, from 0. It walks over those before it, and answers `None` exactly past the end.
    pub fn get(&self, i: usize) -> Option<Tok>
        ensures { result ≡ slice_get (each_token self.now) i }
    {
        nth(self, i)
    }

    /// The first symbol, and the others. It answers `None` exactly where none is left.
    pub fn split(&self) -> Option<(Tok, RawSymbols<'t>)>
        ensures { SplitsTokens self.now result }
    {
        let Some((first, trees)) = token_first(&self.trees) else {
            return None;
        };
        Some((first, RawSymbols { trees }))
    }
}

impl<'t> RawCase<'t> {
    /// The first byte of the case, from 0.
    pub fn at(&self) -> u32
        ensures { result ≡ self.now.at }
    {
        self.at
    }
}

impl<'t> RawCases<'t> {
    /// How many cases there are. It walks over them.
    pub fn len(&self) -> usize
        ensures { result ≡ length (each_case self.now) }
    {
        count(self)
    }

    /// The case at an index, from 0. It walks over those before it, and answers `None` exactly past the end.
    pub fn get(&self, i: usize) -> Option<RawCase<'t>>
        ensures { result ≡ slice_get (each_case self.now) i }
    {
        nth(self, i)
    }

    /// The first case, and the others. It answers `None` exactly where none is left.
    pub fn split(&self) -> Option<(RawCase<'t>, RawCases<'t>)>
        ensures { SplitsCases self.now result }
    {
        let Some((first, trees)) = self.trees.split() else {
            return None;
        };
        let Part::List { at, parts } = first else {
            return None;
        };
        let Some((head, tree)) = case_parts(&parts) else {
            return None;
        };
        let pattern = RawPattern { tree: head };
        let term = RawTerm { tree };
        Some((RawCase { at, pattern, term }, RawCases { trees }))
    }
}

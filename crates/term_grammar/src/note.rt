//! The attributes of a term, as views of their trees.
ghost use Rattle.std.specs.Prelude.{◌≡◌, length, slice_get};
ghost use Rattle.term_grammar.specs.NoteForms.{note_of, NoteReads};
ghost use Rattle.term_grammar.specs.TermViews.{note_kind, SplitsNotes};
ghost use Rattle.term_grammar.specs.Syntax.{each_note};

use crate::attribute::RawAttribute;
use crate::list::{PartList, count, few, nth};
use crate::term::RawTerms;
use crate::term_form::{NoteForm, note_parts};
use lex_core::Tok;
use sexp_core::Trees;
use std::marker::Model;

/// An attribute of a term (SMT-LIB 2.6, sections 3.4 and 3.6).
#[derive(Drop)]
pub struct RawNote<'t> {
    kind: RawNoteKind<'t>,
}

impl<'t> Model for RawNote<'t> {
    ghost use Rattle.term_grammar.specs.Syntax.{Note};
    ghost use Rattle.term_grammar.specs.Codes.{note_code};
    ghost use Rattle.term_grammar.specs.NoteParts.{note_in};

    ghost Value = { Note };

    ghost coded = { note_code };

    ghost view = { λ r. note_in r.kind };
}

/// The attributes of a term.
#[derive(Drop)]
pub struct RawNotes<'t> {
    pub(crate) trees: Trees<'t>,
}

impl<'t> Model for RawNotes<'t> {
    ghost use Rattle.std.specs.Prelude.{IsOk};
    ghost use Rattle.term_grammar.specs.Syntax.{Notes};
    ghost use Rattle.term_grammar.specs.Codes.{notes_code};
    ghost use Rattle.term_grammar.specs.Reads.{read_notes};
    ghost use Rattle.term_grammar.specs.Readings.{notes_of};

    ghost Value = { Notes };

    ghost coded = { notes_code };

    ghost view = { λ r. notes_of r.trees };

    ghost invariant = { λ r. IsOk (read_notes r.trees) };
}

impl<'t> PartList for RawNotes<'t> {
    ghost use Rattle.term_grammar.specs.Syntax.{each_note};

    type Part = RawNote<'t>;

    ghost parts = { each_note };

    fn split_first(&self) -> Option<(RawNote<'t>, RawNotes<'t>)> {
        self.split()
    }

    #[tactic(auto, using(crate::proofs::Lengths::notes_few))]
    fn bounded(&self) {
        few(&self.trees);
    }
}

/// An attribute of a term, by its production.
#[derive(Drop)]
pub enum RawNoteKind<'t> {
    /// `:named symbol`
    Named { name: Tok },
    /// `:pattern ( term+ )`
    Pattern { terms: RawTerms<'t> },
    /// `attribute`, where the keyword is another one
    Attribute(RawAttribute<'t>),
}

impl<'t> RawNote<'t> {
    /// The attribute, by its production.
    pub fn kind(&self) -> RawNoteKind<'t>
        ensures { result ≡ note_kind self.now }
    {
        match &self.kind {
            RawNoteKind::Named { name } => RawNoteKind::Named { name: *name },
            RawNoteKind::Pattern { terms } => RawNoteKind::Pattern {
                terms: terms.reborrow(),
            },
            RawNoteKind::Attribute(attribute) => RawNoteKind::Attribute(attribute.reborrow()),
        }
    }
}

impl<'t> RawNotes<'t> {
    /// How many attributes there are. It walks over them.
    pub fn len(&self) -> usize
        ensures { result ≡ length (each_note self.now) }
    {
        count(self)
    }

    /// The attribute at an index, from 0. It walks over those before it, and answers `None` exactly past the end.
    pub fn get(&self, i: usize) -> Option<RawNote<'t>>
        ensures { result ≡ slice_get (each_note self.now) i }
    {
        nth(self, i)
    }

    /// The first attribute, and the others. It answers `None` exactly where none is left.
    pub fn split(&self) -> Option<(RawNote<'t>, RawNotes<'t>)>
        ensures { SplitsNotes self.now result }
    {
        let Some((form, trees)) = note_parts(&self.trees) else {
            return None;
        };
        Some((note(form), RawNotes { trees }))
    }
}

// The attribute of a form.
fn note<'t>(form: NoteForm<'t>) -> RawNote<'t>
    requires { NoteReads form }
    ensures { result ≡ note_of form.entry }
{
    let kind = match form {
        NoteForm::Named { name } => RawNoteKind::Named { name },
        NoteForm::Pattern { terms } => {
            let terms = RawTerms { trees: terms };
            RawNoteKind::Pattern { terms }
        }
        NoteForm::Attribute { keyword, value } => {
            RawNoteKind::Attribute(RawAttribute::new(keyword, value))
        }
    };
    RawNote { kind }
}

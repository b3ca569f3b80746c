//! Finds the first tree in the position of a sort or a term that has the shape of no production.
ghost use Rattle.std.specs.Prelude.{◌≡◌};
ghost use Rattle.sexp_core.specs.Parts.{whole};
ghost use Rattle.term_grammar.specs.Reads.{read_sort, read_sorts, read_sorted, read_qualified, read_term, read_terms, read_bindings, read_cases, read_notes};
ghost use Rattle.term_grammar.specs.FormReading.{judged};

use crate::form::{SortForm, is_identifier, sort_form};
use crate::term_form::{
    NoteForm, TermForm, as_parts, case_parts, named_parts, note_parts, term_form,
};
use sexp_core::{Part, Trees};

/// Judges a sort: the first byte of the first tree of no shape, in pre-order.
#[cycle(sorts)]
#[tactic(auto, using(crate::proofs::FormSizes::sort_rules))]
pub(crate) fn judge_sort(tree: &Part) -> Result<(), u32>
    ensures { result ≡ judged (read_sort (whole tree.now)) }
{
    match sort_form(tree)? {
        SortForm::Identifier => Ok(()),
        SortForm::Applied { args, .. } => judge_sorts(&args),
    }
}

/// Judges some sorts, left to right.
#[cycle(sorts)]
#[tactic(auto, using(crate::proofs::JudgedLists::sorts_rules))]
pub(crate) fn judge_sorts(trees: &Trees) -> Result<(), u32>
    ensures { result ≡ judged (read_sorts trees.now) }
{
    let mut next = trees.split();
    while let Some((first, rest)) = next {
        judge_sort(&first)?;
        next = rest.split();
    }
    Ok(())
}

/// Judges the sorts of some variables or selectors, left to right.
#[tactic(auto, using(crate::proofs::JudgedLists::sorted_rules))]
pub(crate) fn judge_sorted(trees: &Trees) -> Result<(), u32>
    ensures { result ≡ judged (read_sorted trees.now) }
{
    let mut next = trees.split();
    while let Some((first, rest)) = next {
        let Part::List { parts, .. } = first else {
            return Ok(());
        };
        let Some((_, sort)) = named_parts(&parts) else {
            return Ok(());
        };
        judge_sort(&sort)?;
        next = rest.split();
    }
    Ok(())
}

/// Judges the sort of a qualified identifier, where there is one.
#[tactic(auto, unfolding(crate::specs::Reads::read_qualified))]
pub(crate) fn judge_qualified(tree: &Part) -> Result<(), u32>
    ensures { result ≡ judged (read_qualified (whole tree.now)) }
{
    if is_identifier(tree) {
        return Ok(());
    }
    match tree {
        Part::Atom(tok) => Err(tok.at),
        Part::List { at, parts } => match as_parts(parts) {
            Some((_, sort)) => judge_sort(&sort),
            None => Err(*at),
        },
    }
}

/// Judges a term: the first byte of the first tree of no shape, in pre-order.
#[cycle(terms)]
#[tactic(auto, using(crate::proofs::FormSizes::term_rules))]
pub(crate) fn judge_term(tree: &Part) -> Result<(), u32>
    ensures { result ≡ judged (read_term (whole tree.now)) }
{
    match term_form(tree)? {
        TermForm::Constant(_) => Ok(()),
        TermForm::Qualified => judge_qualified(tree),
        TermForm::Application { head, args } => {
            judge_qualified(&head)?;
            judge_terms(&args)
        }
        TermForm::Let { bindings, body } => {
            judge_bindings(&bindings)?;
            judge_term(&body)
        }
        TermForm::Forall { variables, body } => {
            judge_sorted(&variables)?;
            judge_term(&body)
        }
        TermForm::Exists { variables, body } => {
            judge_sorted(&variables)?;
            judge_term(&body)
        }
        TermForm::Match { term, cases } => {
            judge_term(&term)?;
            judge_cases(&cases)
        }
        TermForm::Annotated { term, notes } => {
            judge_term(&term)?;
            judge_notes(&notes)
        }
    }
}

/// Judges some terms, left to right.
#[cycle(terms)]
#[tactic(auto, using(crate::proofs::JudgedLists::terms_rules))]
pub(crate) fn judge_terms(trees: &Trees) -> Result<(), u32>
    ensures { result ≡ judged (read_terms trees.now) }
{
    let mut next = trees.split();
    while let Some((first, rest)) = next {
        judge_term(&first)?;
        next = rest.split();
    }
    Ok(())
}

#[cycle(terms)]
#[tactic(auto, using(crate::proofs::JudgedLists::bindings_rules))]
fn judge_bindings(trees: &Trees) -> Result<(), u32>
    ensures { result ≡ judged (read_bindings trees.now) }
{
    let mut next = trees.split();
    while let Some((first, rest)) = next {
        let Part::List { parts, .. } = first else {
            return Ok(());
        };
        let Some((_, term)) = named_parts(&parts) else {
            return Ok(());
        };
        judge_term(&term)?;
        next = rest.split();
    }
    Ok(())
}

#[cycle(terms)]
#[tactic(auto, using(crate::proofs::JudgedLists::cases_rules))]
fn judge_cases(trees: &Trees) -> Result<(), u32>
    ensures { result ≡ judged (read_cases trees.now) }
{
    let mut next = trees.split();
    while let Some((first, rest)) = next {
        let Part::List { parts, .. } = first else {
            return Ok(());
        };
        let Some((_, term)) = case_parts(&parts) else {
            return Ok(());
        };
        judge_term(&term)?;
        next = rest.split();
    }
    Ok(())
}

#[cycle(terms)]
#[tactic(auto, using(crate::proofs::JudgedLists::notes_rules))]
fn judge_notes(trees: &Trees) -> Result<(), u32>
    ensures { result ≡ judged (read_notes trees.now) }
{
    let mut next = note_parts(trees);
    while let Some((note, rest)) = next {
        match note {
            NoteForm::Pattern { terms, .. } => judge_terms(&terms)?,
            NoteForm::Named { .. } | NoteForm::Attribute { .. } => {}
        }
        next = note_parts(&rest);
    }
    Ok(())
}

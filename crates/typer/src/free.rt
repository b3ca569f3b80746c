//! Variables that stand free in a term.
ghost use Rattle.std.specs.Prelude.{◌≡◌, ◌++◌, ◌∷◌, ◌||◌, IfErr, IfOk, OnOk, [], map};
ghost use Rattle.term_store.specs.NumberedNodes.{cases, numbered_note, numbered_notes, terms};
ghost use Rattle.term_store.specs.Term.{case_trees, note_tree, note_trees, tree, trees};
ghost use Rattle.typer.specs.FreeVariables as spec;

use dt_rules::TyError;
use lex_core::NameId;
use sort_store::SortRef;
use std::alloc::Global;
use term_store::{Note, Pattern, TermNode, TermRef};

/// Whether the name is one of some.
pub(crate) fn is_one_of(names: &[NameId], name: NameId) -> bool
    ensures { result ≡ spec.is_one_of names.now name }
{
    names.iter().any(|other| *other == name)
}

fn push_name(bound: &mut Vec<NameId>, name: NameId) -> Result<(), TyError>
    ensures ok { OnOk result (bound.new.items ≡ bound.old.items ++ name ∷ []) }
    ensures err { IfErr result (λ e. e ≡ TyError.NoMemory) }
{
    match bound.push(name) {
        Ok(()) => Ok(()),
        Err(_) => Err(TyError::NoMemory),
    }
}

fn push_names(bound: &mut Vec<NameId>, names: &[NameId]) -> Result<(), TyError>
    ensures ok { OnOk result (bound.new.items ≡ bound.old.items ++ names.now) }
    ensures err { IfErr result (λ e. e ≡ TyError.NoMemory) }
{
    for name in names {
        push_name(bound, *name)?;
    }
    Ok(())
}

fn push_variable_names(bound: &mut Vec<NameId>, vars: &[(NameId, SortRef)]) -> Result<(), TyError>
    ensures ok { OnOk result (bound.new.items ≡ bound.old.items ++ map (λ v. v.0) vars.now) }
    ensures err { IfErr result (λ e. e ≡ TyError.NoMemory) }
{
    for var in vars {
        push_name(bound, var.0)?;
    }
    Ok(())
}

fn push_pattern_names(bound: &mut Vec<NameId>, pattern: &Pattern) -> Result<(), TyError>
    ensures ok { OnOk result (bound.new.items ≡ bound.old.items ++ spec.pattern_names pattern.now) }
    ensures err { IfErr result (λ e. e ≡ TyError.NoMemory) }
{
    match pattern {
        Pattern::Var(name) => push_name(bound, *name),
        Pattern::Con { vars, .. } => push_names(bound, vars.as_slice()),
    }
}

// Whether a variable stands free in the term, where these names are bound round it.
#[cycle(free)]
#[tactic(auto, using(crate::proofs::FreeWalks::walk_words))]
fn has_free(bound: &mut Vec<NameId>, term: &TermRef) -> Result<bool, TyError>
    ensures answer { IfOk result (λ b. b ≡ spec.has_free bound.old.items (tree term.now)) }
    ensures kept { IfOk result (λ b. bound.new.items ≡ bound.old.items) }
    ensures err { IfErr result (λ e. e ≡ TyError.NoMemory) }
{
    match term.node() {
        TermNode::Lit { .. } => Ok(false),
        TermNode::Var(name) => Ok(!is_one_of(bound, *name)),
        TermNode::App { args, .. } => any_has_free(bound, args),
        TermNode::Let { vars, values, body } => let_has_free(bound, vars, values, body),
        TermNode::Quant { vars, body, .. } => quantifier_has_free(bound, vars, body),
        TermNode::Match { of, cases } => match_has_free(bound, of, cases),
        TermNode::Ann { body, notes } => annotated_has_free(bound, body, notes),
    }
}

#[cycle(free)]
fn any_has_free(bound: &mut Vec<NameId>, args: &[TermRef]) -> Result<bool, TyError>
    ensures answer { IfOk result (λ b. b ≡ spec.any_has_free bound.old.items (trees (terms args.now))) }
    ensures kept { IfOk result (λ b. bound.new.items ≡ bound.old.items) }
    ensures err { IfErr result (λ e. e ≡ TyError.NoMemory) }
{
    for arg in args {
        if has_free(bound, arg)? {
            return Ok(true);
        }
    }
    Ok(false)
}

#[cycle(free)]
fn let_has_free(
    bound: &mut Vec<NameId>,
    vars: &[NameId],
    values: &[TermRef],
    body: &TermRef,
) -> Result<bool, TyError>
    ensures answer { IfOk result (λ b. b ≡ (spec.any_has_free bound.old.items (trees (terms values.now)) || spec.has_free (bound.old.items ++ vars.now) (tree body.now))) }
    ensures kept { IfOk result (λ b. bound.new.items ≡ bound.old.items) }
    ensures err { IfErr result (λ e. e ≡ TyError.NoMemory) }
{
    if any_has_free(bound, values)? {
        return Ok(true);
    }
    let outer = bound.len();
    push_names(bound, vars)?;
    let free = has_free(bound, body)?;
    bound.truncate(outer);
    Ok(free)
}

#[cycle(free)]
fn quantifier_has_free(
    bound: &mut Vec<NameId>,
    vars: &[(NameId, SortRef)],
    body: &TermRef,
) -> Result<bool, TyError>
    ensures answer { IfOk result (λ b. b ≡ spec.has_free (bound.old.items ++ map (λ v. v.0) vars.now) (tree body.now)) }
    ensures kept { IfOk result (λ b. bound.new.items ≡ bound.old.items) }
    ensures err { IfErr result (λ e. e ≡ TyError.NoMemory) }
{
    let outer = bound.len();
    push_variable_names(bound, vars)?;
    let free = has_free(bound, body)?;
    bound.truncate(outer);
    Ok(free)
}

#[cycle(free)]
fn case_has_free(bound: &mut Vec<NameId>, arm: &(Pattern, TermRef)) -> Result<bool, TyError>
    ensures answer { IfOk result (λ b. b ≡ spec.has_free (bound.old.items ++ spec.pattern_names arm.now.0) (tree arm.now.1)) }
    ensures kept { IfOk result (λ b. bound.new.items ≡ bound.old.items) }
    ensures err { IfErr result (λ e. e ≡ TyError.NoMemory) }
{
    let outer = bound.len();
    push_pattern_names(bound, &arm.0)?;
    let free = has_free(bound, &arm.1)?;
    bound.truncate(outer);
    Ok(free)
}

#[cycle(free)]
fn any_case_has_free(bound: &mut Vec<NameId>, arms: &[(Pattern, TermRef)]) -> Result<bool, TyError>
    ensures answer { IfOk result (λ b. b ≡ spec.any_case_has_free bound.old.items (case_trees (cases arms.now))) }
    ensures kept { IfOk result (λ b. bound.new.items ≡ bound.old.items) }
    ensures err { IfErr result (λ e. e ≡ TyError.NoMemory) }
{
    for arm in arms {
        if case_has_free(bound, arm)? {
            return Ok(true);
        }
    }
    Ok(false)
}

#[cycle(free)]
fn match_has_free(
    bound: &mut Vec<NameId>,
    of: &TermRef,
    arms: &[(Pattern, TermRef)],
) -> Result<bool, TyError>
    ensures answer { IfOk result (λ b. b ≡ (spec.has_free bound.old.items (tree of.now) || spec.any_case_has_free bound.old.items (case_trees (cases arms.now)))) }
    ensures kept { IfOk result (λ b. bound.new.items ≡ bound.old.items) }
    ensures err { IfErr result (λ e. e ≡ TyError.NoMemory) }
{
    if has_free(bound, of)? {
        return Ok(true);
    }
    any_case_has_free(bound, arms)
}

#[cycle(free)]
fn note_has_free(bound: &mut Vec<NameId>, note: &Note) -> Result<bool, TyError>
    ensures answer { IfOk result (λ b. b ≡ spec.note_has_free bound.old.items (note_tree (numbered_note note.now))) }
    ensures kept { IfOk result (λ b. bound.new.items ≡ bound.old.items) }
    ensures err { IfErr result (λ e. e ≡ TyError.NoMemory) }
{
    match note {
        Note::Pattern(args) => any_has_free(bound, args),
        Note::Named { .. } => Ok(false),
        Note::Other { .. } => Ok(false),
    }
}

#[cycle(free)]
fn any_note_has_free(bound: &mut Vec<NameId>, notes: &[Note]) -> Result<bool, TyError>
    ensures answer { IfOk result (λ b. b ≡ spec.any_note_has_free bound.old.items (note_trees (numbered_notes notes.now))) }
    ensures kept { IfOk result (λ b. bound.new.items ≡ bound.old.items) }
    ensures err { IfErr result (λ e. e ≡ TyError.NoMemory) }
{
    for note in notes {
        if note_has_free(bound, note)? {
            return Ok(true);
        }
    }
    Ok(false)
}

#[cycle(free)]
fn annotated_has_free(
    bound: &mut Vec<NameId>,
    body: &TermRef,
    notes: &[Note],
) -> Result<bool, TyError>
    ensures answer { IfOk result (λ b. b ≡ (spec.has_free bound.old.items (tree body.now) || spec.any_note_has_free bound.old.items (note_trees (numbered_notes notes.now)))) }
    ensures kept { IfOk result (λ b. bound.new.items ≡ bound.old.items) }
    ensures err { IfErr result (λ e. e ≡ TyError.NoMemory) }
{
    if has_free(bound, body)? {
        return Ok(true);
    }
    any_note_has_free(bound, notes)
}

/// Whether a variable stands free in the term, in a `:pattern` too. The only error is that memory runs out.
pub fn has_free_variable(alloc: Global, term: &TermRef) -> Result<bool, TyError>
    ensures ok { IfOk result (λ b. b ≡ spec.has_free [] (tree term.now)) }
    ensures err { IfErr result (λ e. e ≡ TyError.NoMemory) }
{
    let mut bound = Vec::new(alloc);
    has_free(&mut bound, term)
}

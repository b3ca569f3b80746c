//! The named terms of a command (SMT-LIB 2.6, section 3.6), as definitions without parameters.
ghost use Rattle.std.specs.Prelude.{◌≡◌, ◌<◌, ◌++◌, ◌∷◌, [], IfErr, IfOk, OnOk, length, map};
ghost use Rattle.std.specs.Option.{IsSome};
ghost use Rattle.term_store.specs.Command.{plain_command, plain_def};
ghost use Rattle.term_store.specs.Declarations.{names_in, names_in_all, names_in_cases, names_in_each, names_in_note, names_in_notes};
ghost use Rattle.term_store.specs.NumberedNodes.{cases, numbered_note, numbered_notes, terms};
ghost use Rattle.term_store.specs.SoundScript.{named_def as def_of_name};
ghost use Rattle.term_store.specs.Term.{case_trees, note_tree, note_trees, tree as term_tree, trees};
ghost use Rattle.script_core.specs.Checking.{IsReadyScope, environment_of};
ghost use Rattle.script_core.specs.Effects.{seen_by};
ghost use Rattle.script_core.specs.Keeping.{defined_in};
ghost use Rattle.script_core.specs.Rules.{named_by, with_name, with_names_given};

use crate::effects::copy_of;
use crate::keeping::copy_of_term;
use crate::scope::{Scope, StepError};
use lex_core::NameId;
use scope_stack::{FunEntry, FunKind};
use sort_store::{DeclNo, Sorts};
use std::alloc::Global;
use term_store::{Def, ListOf, Note, Pattern, TermNode, TermRef, TypedCommand};

// The definition that a named term is. The only error is that memory runs out.
#[tactic(auto, using(crate::proofs::NamedWalks::sort_words))]
fn named_def(alloc: Global, no: DeclNo, name: NameId, body: &TermRef) -> Result<Def, StepError>
    ensures ok { IfOk result (λ d. plain_def d ≡ def_of_name no name (term_tree body.now)) }
    ensures err { IfErr result (λ e. e ≡ StepError.NoMemory) }
{
    let result = copy_of(body.sort())?;
    let body = copy_of_term(body)?;
    Ok(Def {
        no,
        name,
        params: ListOf::new(alloc),
        result,
        body,
        recursive: false,
    })
}

// Puts a definition last. The only error is that memory runs out.
fn push_def(named: &mut Vec<Def>, def: Def) -> Result<(), StepError>
    ensures ok { OnOk result (named.new.items ≡ named.old.items ++ def ∷ []) }
    ensures err { IfErr result (λ e. e ≡ StepError.NoMemory) }
{
    match named.push(def) {
        Ok(()) => Ok(()),
        Err(_) => Err(StepError::NoMemory),
    }
}

// Puts the named terms in a term last, in reading order. The only error is that memory runs out.
#[cycle(names)]
#[tactic(auto, using(crate::proofs::NamedWalks::name_words))]
fn take_term(alloc: Global, named: &mut Vec<Def>, term: &TermRef) -> Result<(), StepError>
    ensures ok { OnOk result (map plain_def named.new.items ≡ map plain_def named.old.items ++ defined_in (names_in (term_tree term.now))) }
    ensures err { IfErr result (λ e. e ≡ StepError.NoMemory) }
{
    match term.node() {
        TermNode::Lit { .. } => Ok(()),
        TermNode::Var(_) => Ok(()),
        TermNode::App { args, .. } => take_terms(alloc, named, args),
        TermNode::Let { values, body, .. } => {
            take_terms(alloc, named, values)?;
            take_term(alloc, named, body)
        }
        TermNode::Quant { body, .. } => take_term(alloc, named, body),
        TermNode::Match { of, cases } => {
            take_term(alloc, named, of)?;
            take_cases(alloc, named, cases)
        }
        TermNode::Ann { body, notes } => {
            take_term(alloc, named, body)?;
            take_notes(alloc, named, body, notes)
        }
    }
}

// The same of terms one after the other.
#[cycle(names)]
#[tactic(auto, using(crate::proofs::NamedWalks::name_words))]
fn take_terms(alloc: Global, named: &mut Vec<Def>, args: &[TermRef]) -> Result<(), StepError>
    ensures ok { OnOk result (map plain_def named.new.items ≡ map plain_def named.old.items ++ defined_in (names_in_each (trees (terms args.now)))) }
    ensures err { IfErr result (λ e. e ≡ StepError.NoMemory) }
{
    for arg in args {
        take_term(alloc, named, arg)?;
    }
    Ok(())
}

// The same of the branches of cases.
#[cycle(names)]
#[tactic(auto, using(crate::proofs::NamedWalks::name_words))]
fn take_cases(
    alloc: Global,
    named: &mut Vec<Def>,
    arms: &[(Pattern, TermRef)],
) -> Result<(), StepError>
    ensures ok { OnOk result (map plain_def named.new.items ≡ map plain_def named.old.items ++ defined_in (names_in_cases (case_trees (cases arms.now)))) }
    ensures err { IfErr result (λ e. e ≡ StepError.NoMemory) }
{
    for arm in arms {
        take_term(alloc, named, &arm.1)?;
    }
    Ok(())
}

// The same of an attribute of the term.
#[cycle(names)]
#[tactic(auto, using(crate::proofs::NamedWalks::name_words))]
fn take_note(
    alloc: Global,
    named: &mut Vec<Def>,
    body: &TermRef,
    note: &Note,
) -> Result<(), StepError>
    ensures ok { OnOk result (map plain_def named.new.items ≡ map plain_def named.old.items ++ defined_in (names_in_note (term_tree body.now) (note_tree (numbered_note note.now)))) }
    ensures err { IfErr result (λ e. e ≡ StepError.NoMemory) }
{
    match note {
        Note::Named { no, name } => {
            let def = named_def(alloc, *no, *name, body)?;
            push_def(named, def)
        }
        Note::Pattern(args) => take_terms(alloc, named, args),
        Note::Other { .. } => Ok(()),
    }
}

// The same of the attributes of the term.
#[cycle(names)]
#[tactic(auto, using(crate::proofs::NamedWalks::name_words))]
fn take_notes(
    alloc: Global,
    named: &mut Vec<Def>,
    body: &TermRef,
    notes: &[Note],
) -> Result<(), StepError>
    ensures ok { OnOk result (map plain_def named.new.items ≡ map plain_def named.old.items ++ defined_in (names_in_notes (term_tree body.now) (note_trees (numbered_notes notes.now)))) }
    ensures err { IfErr result (λ e. e ≡ StepError.NoMemory) }
{
    for note in notes {
        take_note(alloc, named, body, note)?;
    }
    Ok(())
}

// The same of the bodies of definitions.
#[tactic(auto, using(crate::proofs::NamedWalks::name_words))]
fn take_bodies(alloc: Global, named: &mut Vec<Def>, defs: &[Def]) -> Result<(), StepError>
    ensures ok { OnOk result (map plain_def named.new.items ≡ map plain_def named.old.items ++ defined_in (names_in_all (map (λ d. d.body) (map plain_def defs.now)))) }
    ensures err { IfErr result (λ e. e ≡ StepError.NoMemory) }
{
    for def in defs {
        take_term(alloc, named, &def.body)?;
    }
    Ok(())
}

/// The named terms of a command in reading order, as definitions. The only error is that memory runs out.
#[tactic(auto, using(crate::proofs::NamedWalks::name_words))]
pub fn named_terms(alloc: Global, command: &TypedCommand) -> Result<Vec<Def>, StepError>
    ensures ok { IfOk result (λ v. map plain_def v.items ≡ defined_in (named_by (plain_command command.now))) }
    ensures err { IfErr result (λ e. e ≡ StepError.NoMemory) }
{
    let mut named = Vec::new(alloc);
    match command {
        TypedCommand::Assert { term } => take_term(alloc, &mut named, term)?,
        TypedCommand::CheckSatAssuming { terms } => {
            take_terms(alloc, &mut named, terms.as_slice())?;
        }
        TypedCommand::GetValue { terms } => take_terms(alloc, &mut named, terms.as_slice())?,
        TypedCommand::DefineFun { def } => take_term(alloc, &mut named, &def.body)?,
        TypedCommand::DefineFunRec { def } => take_term(alloc, &mut named, &def.body)?,
        TypedCommand::DefineFunsRec { defs } => take_bodies(alloc, &mut named, defs.as_slice())?,
        _ => {}
    }
    Ok(named)
}

// Declares a named term. The only error is that memory runs out.
fn declare_named(scope: &mut Scope, def: &Def) -> Result<(), StepError>
    requires stands { IsReadyScope scope.old }
    requires logic { IsSome scope.old.logic }
    ensures effect { let names = scope.old.world.names in
        OnOk result (environment_of names scope.new ≡ with_name (environment_of names scope.old) (plain_def def.now)) }
    ensures error { IfErr result (λ e. e ≡ StepError.NoMemory) }
    ensures names { scope.new.world.names ≡ scope.old.world.names }
    ensures script { scope.new.world.script ≡ scope.old.world.script }
    ensures seen { seen_by scope.new ≡ seen_by scope.old }
    ensures logic { scope.new.logic ≡ scope.old.logic }
    ensures stands { IsReadyScope scope.new }
{
    let Some(next) = scope.next.checked_add(1) else {
        return Err(StepError::NoMemory);
    };
    let result = match scope.world.sorts.copy(&def.result) {
        Ok(result) => result,
        Err(_) => return Err(StepError::NoMemory),
    };
    let entry = FunEntry {
        no: def.no,
        kind: FunKind::Named,
        params: 0,
        args: Sorts::new(scope.alloc),
        result,
    };
    match scope.world.scopes.declare_fun(def.name, entry) {
        Ok(()) => {
            scope.next = next;
            Ok(())
        }
        Err(_) => Err(StepError::NoMemory),
    }
}

/// Declares the named terms of a command. The only error is that memory runs out.
pub fn declare_named_terms(scope: &mut Scope, named: &[Def]) -> Result<(), StepError>
    requires stands { IsReadyScope scope.old }
    requires logic { 0 < length named.now → IsSome scope.old.logic }
    ensures effect { let names = scope.old.world.names in
        OnOk result (environment_of names scope.new ≡ with_names_given (environment_of names scope.old) (map plain_def named.now)) }
    ensures error { IfErr result (λ e. e ≡ StepError.NoMemory) }
    ensures names { scope.new.world.names ≡ scope.old.world.names }
    ensures script { scope.new.world.script ≡ scope.old.world.script }
    ensures seen { seen_by scope.new ≡ seen_by scope.old }
    ensures stands { IsReadyScope scope.new }
{
    for def in named {
        declare_named(scope, def)?;
    }
    Ok(())
}

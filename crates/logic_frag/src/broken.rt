//! The search of a command for a term that breaks a rule.
ghost use Rattle.std.specs.Prelude.{◌≡◌, ◌↔◌, ◌++◌, IfOk, OnOk, IsTrue, map};
ghost use Rattle.term_store.specs.Command.{PlainDef, plain_command, plain_def};
ghost use Rattle.term_store.specs.Term.{tree};
ghost use Rattle.logic_frag.specs.FragmentRules.{HasTerm, context_of, own_definitions};
ghost use Rattle.logic_frag.specs.Following.{AppliesLower, context_in, plain_defs};
ghost use Rattle.logic_frag.specs.Quantifiers.{is_quantifier};
ghost use Rattle.logic_frag.specs.SeenTerms.{occurrence};
ghost use Rattle.logic_frag.specs.TermRules.{Breaks};
ghost use Rattle.logic_frag.specs.Walk.{HasAny, all_in};

use crate::difference::is_outside;
use crate::known::Known;
use crate::linear::is_nonlinear;
use crate::logic::ArrayPart;
use crate::seen::Seen;
use crate::sorts::has_array_at;
use crate::walk::{push_parts, push_roots};
use io_core::NoMemory;
use lex_core::Names;
use sort_store::DeclNo;
use std::alloc::{AllocError, Global};
use term_store::{Def, Defs, TermNode, TermRef, TypedCommand};

/// A rule on the terms of a command.
#[derive(Clone, Copy, Debug, PartialEq, Eq)]
pub(crate) enum Rule {
    /// No quantifiers.
    QuantifierFree,
    /// Linear terms over the integers alone.
    Linear,
    /// Difference logic.
    Difference,
    /// No array sorts but those that such a logic has.
    Arrays(ArrayPart),
}

#[tactic(auto, using(crate::proofs::WalkedTerms::walk_words))]
fn is_quantifier(term: &TermRef) -> bool
    ensures { result ≡ is_quantifier (tree term.now) }
{
    matches!(term.node(), TermNode::Quant { .. })
}

fn is_broken(known: &Known, rule: Rule, seen: &Seen) -> Result<bool, AllocError>
    requires { AppliesLower (plain_defs known.now.defs.now) }
    ensures { IfOk result (λ broken. IsTrue broken ↔ Breaks rule (context_in known.now) (occurrence seen.now)) }
{
    match rule {
        Rule::QuantifierFree => Ok(is_quantifier(&seen.term)),
        Rule::Linear => is_nonlinear(known, seen),
        Rule::Difference => is_outside(known, seen),
        Rule::Arrays(part) => Ok(has_array_at(part, &seen.term)),
    }
}

// Whether one of the terms, or a term in one, breaks the rule.
fn any_broken(known: &Known, rule: Rule, roots: Vec<Seen>) -> Result<bool, AllocError>
    requires { AppliesLower (plain_defs known.now.defs.now) }
    ensures { IfOk result (λ broken. IsTrue broken ↔ HasAny (Breaks rule (context_in known.now)) (all_in (map occurrence roots.items))) }
{
    let mut pending = roots;
    while let Some(seen) = pending.pop() {
        match is_broken(known, rule, &seen) {
            Ok(true) => return Ok(true),
            Ok(false) => {}
            Err(error) => return Err(error),
        }
        match push_parts(&mut pending, known.alloc, &seen) {
            Ok(()) => {}
            Err(error) => return Err(error),
        }
    }
    Ok(false)
}

// Whether a term of the command breaks the rule, by what is known beside it.
fn has_broken(known: &Known, rule: Rule, command: &TypedCommand) -> Result<bool, AllocError>
    requires { AppliesLower (plain_defs known.now.defs.now) }
    ensures { IfOk result (λ broken. IsTrue broken ↔ HasTerm (plain_command command.now) (Breaks rule (context_in known.now))) }
{
    let mut roots = Vec::new(known.alloc);
    push_roots(&mut roots, known.alloc, command)?;
    any_broken(known, rule, roots)
}

fn push_numbers(own: &mut Vec<DeclNo>, defs: &[Def]) -> Result<(), AllocError>
    ensures { OnOk result (own.new.items ≡ own.old.items ++ map (λ (d : PlainDef). d.no) (map plain_def defs.now)) }
{
    for def in defs {
        own.push(def.no)?;
    }
    Ok(())
}

// The numbers of the definitions that the command itself makes.
fn own_numbers(alloc: Global, command: &TypedCommand) -> Result<Vec<DeclNo>, AllocError>
    ensures { IfOk result (λ own. own.items ≡ map (λ (d : PlainDef). d.no) (own_definitions (plain_command command.now))) }
{
    let mut own = Vec::new(alloc);
    match command {
        TypedCommand::DefineFun { def } => own.push(def.no)?,
        TypedCommand::DefineFunRec { def } => own.push(def.no)?,
        TypedCommand::DefineFunsRec { defs } => push_numbers(&mut own, defs.as_slice())?,
        _ => {}
    }
    Ok(own)
}

fn find_broken(
    alloc: Global,
    names: &Names,
    command: &TypedCommand,
    defs: &Defs,
    rule: Rule,
) -> Result<bool, AllocError>
    requires { AppliesLower (plain_defs defs.now) }
    ensures { IfOk result (λ broken. IsTrue broken ↔ HasTerm (plain_command command.now) (Breaks rule (context_of names.now (plain_defs defs.now) (plain_command command.now)))) }
{
    let own = own_numbers(alloc, command)?;
    let known = Known {
        alloc,
        names,
        defs,
        own,
    };
    has_broken(&known, rule, command)
}

/// Whether a term of the command breaks the rule. Each definition that is not recursive applies in its
/// body only functions with lower numbers. The only error is that memory runs out.
pub(crate) fn has_term_outside(
    alloc: Global,
    names: &Names,
    command: &TypedCommand,
    defs: &Defs,
    rule: Rule,
) -> Result<bool, NoMemory>
    requires { AppliesLower (plain_defs defs.now) }
    ensures { IfOk result (λ broken. IsTrue broken ↔ HasTerm (plain_command command.now) (Breaks rule (context_of names.now (plain_defs defs.now) (plain_command command.now)))) }
{
    match find_broken(alloc, names, command, defs, rule) {
        Ok(broken) => Ok(broken),
        Err(_) => Err(NoMemory),
    }
}

//! The terms of a command with their scopes, from each term to those right below it.
ghost use Rattle.std.specs.Prelude.{◌≡◌, ◌++◌, ◌∷◌, [], ℕ, List, IfOk, OnOk, map};
ghost use Rattle.sort_store.specs.Tree.{Sort};
ghost use Rattle.term_store.specs.Command.{plain_command, plain_def};
ghost use Rattle.term_store.specs.NumberedNodes.{cases, numbered_node, terms};
ghost use Rattle.term_store.specs.Term.{case_trees, let_in, node_of, node_tree, plain_var, tree, trees};
ghost use Rattle.logic_frag.specs.IntegerTerms.{each_seen_in};
ghost use Rattle.logic_frag.specs.Occurrences.{no_variables, seen_in, with_let, with_pattern, with_quantified};
ghost use Rattle.logic_frag.specs.ScopeFrames.{scope_of};
ghost use Rattle.logic_frag.specs.SeenTerms.{occurrence};
ghost use Rattle.logic_frag.specs.Walk.{body_seen, each_case_seen_in, parts_of, pattern_names, roots_of};

use crate::binder::Binder;
use crate::coefficients::seen_in;
use crate::scope::Scope;
use crate::seen::Seen;
use lex_core::NameId;
use sort_store::SortRef;
use std::alloc::{AllocError, Global};
use term_store::{Def, ListOf, Pattern, TermNode, TermRef, TypedCommand};

fn push_seen(list: &mut Vec<Seen>, scope: &Scope, term: &TermRef) -> Result<(), AllocError>
    ensures { OnOk result (map occurrence list.new.items ≡ map occurrence list.old.items ++ seen_in (scope_of scope.now) (tree term.now) ∷ []) }
{
    let seen = seen_in(scope, term)?;
    list.push(seen)?;
    Ok(())
}

#[tactic(auto, using(crate::proofs::Walking::pushed_words))]
fn push_each(list: &mut Vec<Seen>, scope: &Scope, args: &[TermRef]) -> Result<(), AllocError>
    ensures { OnOk result (map occurrence list.new.items ≡ map occurrence list.old.items ++ each_seen_in (scope_of scope.now) (trees (terms args.now))) }
{
    for arg in args {
        push_seen(list, scope, arg)?;
    }
    Ok(())
}

fn push_name(names: &mut ListOf<NameId>, name: NameId) -> Result<(), AllocError>
    ensures { OnOk result (names.new ≡ names.old ++ name ∷ []) }
{
    match names.push(name) {
        Ok(()) => Ok(()),
        Err(_) => Err(AllocError),
    }
}

// The scope of the body of a quantifier or a definition.
#[tactic(auto, using(crate::proofs::Walking::pushed_words))]
fn inside_variables(
    alloc: Global,
    vars: &[(NameId, SortRef)],
    outer: Scope,
) -> Result<Scope, AllocError>
    ensures { IfOk result (λ scope. scope_of scope ≡ with_quantified (map plain_var vars.now) (scope_of outer)) }
{
    let names = names_of(alloc, vars)?;
    Scope::inside(alloc, Binder::Quantified(names), outer)
}

fn names_of(alloc: Global, vars: &[(NameId, SortRef)]) -> Result<ListOf<NameId>, AllocError>
    ensures { IfOk result (λ names. names ≡ map (λ v. v.0) (map plain_var vars.now)) }
{
    let mut names = ListOf::new(alloc);
    for var in vars {
        push_name(&mut names, var.0)?;
    }
    Ok(names)
}

fn copied_names(alloc: Global, vars: &[NameId]) -> Result<ListOf<NameId>, AllocError>
    ensures { IfOk result (λ names. names ≡ vars.now) }
{
    let mut names = ListOf::new(alloc);
    for var in vars {
        push_name(&mut names, *var)?;
    }
    Ok(names)
}

fn pattern_names(alloc: Global, pattern: &Pattern) -> Result<ListOf<NameId>, AllocError>
    ensures { IfOk result (λ names. names ≡ pattern_names pattern.now) }
{
    match pattern {
        Pattern::Var(name) => {
            let mut names = ListOf::new(alloc);
            push_name(&mut names, *name)?;
            Ok(names)
        }
        Pattern::Con { vars, .. } => copied_names(alloc, vars.as_slice()),
    }
}

// The scope of the term of a case.
#[tactic(auto, using(crate::proofs::Walking::pushed_words))]
fn inside_pattern(alloc: Global, pattern: &Pattern, outer: Scope) -> Result<Scope, AllocError>
    ensures { IfOk result (λ scope. scope_of scope ≡ with_pattern pattern.now (scope_of outer)) }
{
    let names = pattern_names(alloc, pattern)?;
    Scope::inside(alloc, Binder::Matched(names), outer)
}

fn push_case(
    list: &mut Vec<Seen>,
    alloc: Global,
    outer: &Scope,
    arm: &(Pattern, TermRef),
) -> Result<(), AllocError>
    ensures { OnOk result (map occurrence list.new.items ≡ map occurrence list.old.items ++ seen_in (with_pattern arm.now.0 (scope_of outer.now)) (tree arm.now.1) ∷ []) }
{
    let outer = outer.clone()?;
    let scope = inside_pattern(alloc, &arm.0, outer)?;
    push_seen(list, &scope, &arm.1)
}

#[tactic(auto, using(crate::proofs::Walking::pushed_words))]
fn push_cases(
    list: &mut Vec<Seen>,
    alloc: Global,
    outer: &Scope,
    arms: &[(Pattern, TermRef)],
) -> Result<(), AllocError>
    ensures { OnOk result (map occurrence list.new.items ≡ map occurrence list.old.items ++ each_case_seen_in (scope_of outer.now) (case_trees (cases arms.now))) }
{
    for arm in arms {
        push_case(list, alloc, outer, arm)?;
    }
    Ok(())
}

// A term that is a `let`, with its values and its body.
#[tactic(auto, using(crate::proofs::Walking::pushed_words))]
fn push_let(
    list: &mut Vec<Seen>,
    alloc: Global,
    seen: &Seen,
    values: &[TermRef],
    body: &TermRef,
) -> Result<(), AllocError>
    ensures { (vars : List ℕ) → node_tree (node_of seen.now.term) ≡ let_in vars (trees (terms values.now)) (tree body.now)
        → OnOk result (map occurrence list.new.items ≡ map occurrence list.old.items ++ parts_of (scope_of seen.now.scope) (node_tree (node_of seen.now.term))) }
{
    push_each(list, &seen.scope, values)?;
    let binder = Binder::Let(seen.term.clone()?);
    let outer = seen.scope.clone()?;
    let scope = Scope::inside(alloc, binder, outer)?;
    push_seen(list, &scope, body)
}

fn push_quantified(
    list: &mut Vec<Seen>,
    alloc: Global,
    outer: &Scope,
    vars: &[(NameId, SortRef)],
    body: &TermRef,
) -> Result<(), AllocError>
    ensures { OnOk result (map occurrence list.new.items ≡ map occurrence list.old.items ++ seen_in (with_quantified (map plain_var vars.now) (scope_of outer.now)) (tree body.now) ∷ []) }
{
    let outer = outer.clone()?;
    let scope = inside_variables(alloc, vars, outer)?;
    push_seen(list, &scope, body)
}

/// Puts the terms right below a term last. The only error is that memory runs out.
#[tactic(auto, using(crate::proofs::Walking::pushed_words))]
pub(crate) fn push_parts(list: &mut Vec<Seen>, alloc: Global, seen: &Seen) -> Result<(), AllocError>
    ensures { OnOk result (map occurrence list.new.items ≡ map occurrence list.old.items ++ parts_of (scope_of seen.now.scope) (node_tree (node_of seen.now.term))) }
{
    match seen.term.node() {
        TermNode::Lit { .. } => Ok(()),
        TermNode::Var(_) => Ok(()),
        TermNode::App { args, .. } => push_each(list, &seen.scope, args),
        TermNode::Let { values, body, .. } => push_let(list, alloc, seen, values, body),
        TermNode::Quant { vars, body, .. } => {
            push_quantified(list, alloc, &seen.scope, vars, body)
        }
        TermNode::Match { of, cases } => {
            push_seen(list, &seen.scope, of)?;
            push_cases(list, alloc, &seen.scope, cases)
        }
        TermNode::Ann { body, .. } => push_seen(list, &seen.scope, body),
    }
}

// Terms that see no variables.
#[tactic(auto, using(crate::proofs::Walking::pushed_words))]
fn push_terms(list: &mut Vec<Seen>, alloc: Global, terms: &[TermRef]) -> Result<(), AllocError>
    ensures { OnOk result (map occurrence list.new.items ≡ map occurrence list.old.items ++ map (seen_in no_variables) (map tree terms.now)) }
{
    let scope = Scope::outermost(alloc)?;
    push_each(list, &scope, terms)
}

fn push_term(list: &mut Vec<Seen>, alloc: Global, term: &TermRef) -> Result<(), AllocError>
    ensures { OnOk result (map occurrence list.new.items ≡ map occurrence list.old.items ++ seen_in no_variables (tree term.now) ∷ []) }
{
    let scope = Scope::outermost(alloc)?;
    push_seen(list, &scope, term)
}

fn push_body(list: &mut Vec<Seen>, alloc: Global, def: &Def) -> Result<(), AllocError>
    ensures { OnOk result (map occurrence list.new.items ≡ map occurrence list.old.items ++ body_seen (plain_def def.now) ∷ []) }
{
    let outer = Scope::outermost(alloc)?;
    push_quantified(list, alloc, &outer, def.params.as_slice(), &def.body)
}

#[tactic(auto, using(crate::proofs::Walking::pushed_words))]
fn push_bodies(list: &mut Vec<Seen>, alloc: Global, defs: &[Def]) -> Result<(), AllocError>
    ensures { OnOk result (map occurrence list.new.items ≡ map occurrence list.old.items ++ map body_seen (map plain_def defs.now)) }
{
    for def in defs {
        push_body(list, alloc, def)?;
    }
    Ok(())
}

/// Puts the terms that stand in a command itself last. The only error is that memory runs out.
#[tactic(auto, using(crate::proofs::Walking::pushed_words))]
pub(crate) fn push_roots(
    list: &mut Vec<Seen>,
    alloc: Global,
    command: &TypedCommand,
) -> Result<(), AllocError>
    ensures { OnOk result (map occurrence list.new.items ≡ map occurrence list.old.items ++ roots_of (plain_command command.now)) }
{
    match command {
        TypedCommand::Assert { term } => push_term(list, alloc, term),
        TypedCommand::CheckSatAssuming { terms } => push_terms(list, alloc, terms.as_slice()),
        TypedCommand::DefineFun { def } => push_body(list, alloc, def),
        TypedCommand::DefineFunRec { def } => push_body(list, alloc, def),
        TypedCommand::DefineFunsRec { defs } => push_bodies(list, alloc, defs.as_slice()),
        TypedCommand::GetValue { terms } => push_terms(list, alloc, terms.as_slice()),
        _ => Ok(()),
    }
}

//! The rule of difference logic.
ghost use Rattle.std.specs.Prelude.{◌≡◌, IfOk};
ghost use Rattle.std.specs.List.{list_all};
ghost use Rattle.term_store.specs.declared.parts.Fun.TheVariants as fun;
ghost use Rattle.term_store.specs.NumberedNodes.{terms};
ghost use Rattle.term_store.specs.Term.{tree, trees};
ghost use Rattle.logic_frag.specs.DifferenceTests.{are_comparable, has_int, is_atom, is_coefficient, is_declared_only, is_difference, is_difference_and, is_difference_at, is_difference_named, is_difference_pair, is_offset, is_offset_at, is_offset_named, is_other_integer, is_outside, is_outside_application, is_outside_named, is_own, is_relation, is_shifted, is_side, is_unknown_at, is_unknown_constant, pair_test};
ghost use Rattle.logic_frag.specs.Following.{AppliesLower, context_in, plain_defs};
ghost use Rattle.logic_frag.specs.IntegerTerms.{each_seen_in};
ghost use Rattle.logic_frag.specs.IntegerTests.{theory_text};
ghost use Rattle.logic_frag.specs.Occurrences.{seen_in};
ghost use Rattle.logic_frag.specs.ScopeFrames.{scope_of};
ghost use Rattle.logic_frag.specs.SeenTerms.{occurrence};

use crate::coefficients::{coefficient, is_theory, seen_in};
use crate::follow::resolve;
use crate::known::Known;
use crate::logic::ArrayPart;
use crate::lookup::is_quantified;
use crate::scope::Scope;
use crate::seen::Seen;
use crate::sorts::is_element;
use sort_store::DeclNo;
use std::alloc::AllocError;
use term_store::{Applied, Fun, TermNode, TermRef};

#[tactic(auto, using(crate::proofs::WalkedTerms::walk_words))]
fn has_int(scope: &Scope, term: &TermRef) -> bool
    ensures { result ≡ has_int (seen_in (scope_of scope.now) (tree term.now)) }
{
    let _ = scope;
    is_element(ArrayPart::Ints, term.sort())
}

fn is_own(own: &[DeclNo], no: DeclNo) -> bool
    ensures { result ≡ is_own own.now no }
{
    for other in own {
        if no.0 == other.0 {
            return true;
        }
    }
    false
}

// Whether the function has no definition.
#[tactic(auto, using(crate::proofs::KnownDefinitions::definition_plain))]
fn is_declared_only(known: &Known, head: Fun) -> bool
    ensures { result ≡ is_declared_only (context_in known.now) head }
{
    match head {
        Fun::Declared(no) => known.defs.def(no).is_none() && !is_own(&known.own, no),
        _ => false,
    }
}

#[tactic(auto, using(crate::proofs::Pairs::some_arguments))]
fn is_unknown_constant(known: &Known, head: Fun, args: &[TermRef]) -> bool
    ensures { result ≡ is_unknown_constant (context_in known.now) head (trees (terms args.now)) }
{
    match args {
        [] => is_declared_only(known, head),
        [_, ..] => false,
    }
}

// A declared constant, a quantified variable or a parameter.
#[tactic(auto, using(crate::proofs::WalkedTerms::walk_words))]
fn is_unknown(known: &Known, last: &Seen) -> bool
    ensures { result ≡ is_unknown_at (context_in known.now) (occurrence last.now) }
{
    match last.term.node() {
        TermNode::App { head, args } => is_unknown_constant(known, head.fun, args),
        TermNode::Var(name) => is_quantified(&last.scope, *name),
        _ => false,
    }
}

fn is_atom(known: &Known, scope: &Scope, term: &TermRef) -> Result<bool, AllocError>
    requires { AppliesLower (plain_defs known.now.defs.now) }
    ensures { IfOk result (λ atom. atom ≡ is_atom (context_in known.now) (seen_in (scope_of scope.now) (tree term.now))) }
{
    if !has_int(scope, term) {
        return Ok(false);
    }
    let seen = seen_in(scope, term)?;
    let last = resolve(known, seen)?;
    Ok(is_unknown(known, &last))
}

fn is_coefficient(known: &Known, scope: &Scope, term: &TermRef) -> Result<bool, AllocError>
    requires { AppliesLower (plain_defs known.now.defs.now) }
    ensures { IfOk result (λ is. is ≡ is_coefficient (context_in known.now) (seen_in (scope_of scope.now) (tree term.now))) }
{
    let seen = seen_in(scope, term)?;
    match coefficient(known, seen) {
        Ok(Some(_)) => Ok(true),
        Ok(None) => Ok(false),
        Err(error) => Err(error),
    }
}

// An atom variable and a coefficient.
fn is_shifted(
    known: &Known,
    scope: &Scope,
    atom: &TermRef,
    offset: &TermRef,
) -> Result<bool, AllocError>
    requires { AppliesLower (plain_defs known.now.defs.now) }
    ensures { IfOk result (λ is. is ≡ is_shifted (context_in known.now) (seen_in (scope_of scope.now) (tree atom.now)) (seen_in (scope_of scope.now) (tree offset.now))) }
{
    match is_atom(known, scope, atom) {
        Ok(true) => is_coefficient(known, scope, offset),
        Ok(false) => Ok(false),
        Err(error) => Err(error),
    }
}

fn is_offset_named(
    known: &Known,
    head: &Applied,
    scope: &Scope,
    first: &TermRef,
    second: &TermRef,
) -> Result<bool, AllocError>
    requires { AppliesLower (plain_defs known.now.defs.now) }
    ensures { IfOk result (λ is. is ≡ is_offset_named (context_in known.now) (theory_text known.now.names.now head.now) (seen_in (scope_of scope.now) (tree first.now)) (seen_in (scope_of scope.now) (tree second.now))) }
{
    if is_theory(known, head, b"+") {
        return match is_shifted(known, scope, first, second) {
            Ok(true) => Ok(true),
            Ok(false) => is_shifted(known, scope, second, first),
            Err(error) => Err(error),
        };
    }
    if is_theory(known, head, b"-") {
        return is_shifted(known, scope, first, second);
    }
    Ok(false)
}

#[tactic(auto, using(crate::proofs::Pairs::pair_words))]
fn is_offset_application(
    known: &Known,
    head: &Applied,
    scope: &Scope,
    args: &[TermRef],
) -> Result<bool, AllocError>
    requires { AppliesLower (plain_defs known.now.defs.now) }
    ensures { IfOk result (λ is. is ≡ pair_test (is_offset_named (context_in known.now) (theory_text known.now.names.now head.now)) (scope_of scope.now) (trees (terms args.now))) }
{
    match args {
        [] => Ok(false),
        [_] => Ok(false),
        [first, second] => is_offset_named(known, head, scope, first, second),
        [_, _, _, ..] => Ok(false),
    }
}

#[tactic(auto, using(crate::proofs::WalkedTerms::walk_words))]
fn is_offset_at(known: &Known, last: &Seen) -> Result<bool, AllocError>
    requires { AppliesLower (plain_defs known.now.defs.now) }
    ensures { IfOk result (λ is. is ≡ is_offset_at (context_in known.now) (occurrence last.now)) }
{
    match last.term.node() {
        TermNode::App { head, args } => is_offset_application(known, head, &last.scope, args),
        _ => Ok(false),
    }
}

fn is_offset(known: &Known, scope: &Scope, term: &TermRef) -> Result<bool, AllocError>
    requires { AppliesLower (plain_defs known.now.defs.now) }
    ensures { IfOk result (λ is. is ≡ is_offset (context_in known.now) (seen_in (scope_of scope.now) (tree term.now))) }
{
    let seen = seen_in(scope, term)?;
    let last = resolve(known, seen)?;
    is_offset_at(known, &last)
}

fn is_difference_named(
    known: &Known,
    head: &Applied,
    scope: &Scope,
    first: &TermRef,
    second: &TermRef,
) -> Result<bool, AllocError>
    requires { AppliesLower (plain_defs known.now.defs.now) }
    ensures { IfOk result (λ is. is ≡ is_difference_named (context_in known.now) (theory_text known.now.names.now head.now) (seen_in (scope_of scope.now) (tree first.now)) (seen_in (scope_of scope.now) (tree second.now))) }
{
    if !is_theory(known, head, b"-") {
        return Ok(false);
    }
    match is_atom(known, scope, first) {
        Ok(true) => is_atom(known, scope, second),
        Ok(false) => Ok(false),
        Err(error) => Err(error),
    }
}

#[tactic(auto, using(crate::proofs::Pairs::pair_words))]
fn is_difference_application(
    known: &Known,
    head: &Applied,
    scope: &Scope,
    args: &[TermRef],
) -> Result<bool, AllocError>
    requires { AppliesLower (plain_defs known.now.defs.now) }
    ensures { IfOk result (λ is. is ≡ pair_test (is_difference_named (context_in known.now) (theory_text known.now.names.now head.now)) (scope_of scope.now) (trees (terms args.now))) }
{
    match args {
        [] => Ok(false),
        [_] => Ok(false),
        [first, second] => is_difference_named(known, head, scope, first, second),
        [_, _, _, ..] => Ok(false),
    }
}

#[tactic(auto, using(crate::proofs::WalkedTerms::walk_words))]
fn is_difference_at(known: &Known, last: &Seen) -> Result<bool, AllocError>
    requires { AppliesLower (plain_defs known.now.defs.now) }
    ensures { IfOk result (λ is. is ≡ is_difference_at (context_in known.now) (occurrence last.now)) }
{
    match last.term.node() {
        TermNode::App { head, args } => is_difference_application(known, head, &last.scope, args),
        _ => Ok(false),
    }
}

fn is_difference(known: &Known, scope: &Scope, term: &TermRef) -> Result<bool, AllocError>
    requires { AppliesLower (plain_defs known.now.defs.now) }
    ensures { IfOk result (λ is. is ≡ is_difference (context_in known.now) (seen_in (scope_of scope.now) (tree term.now))) }
{
    let seen = seen_in(scope, term)?;
    let last = resolve(known, seen)?;
    is_difference_at(known, &last)
}

fn is_side(known: &Known, scope: &Scope, term: &TermRef) -> Result<bool, AllocError>
    requires { AppliesLower (plain_defs known.now.defs.now) }
    ensures { IfOk result (λ is. is ≡ is_side (context_in known.now) (seen_in (scope_of scope.now) (tree term.now))) }
{
    match is_atom(known, scope, term) {
        Ok(true) => return Ok(true),
        Ok(false) => {}
        Err(error) => return Err(error),
    }
    match is_coefficient(known, scope, term) {
        Ok(true) => Ok(true),
        Ok(false) => is_offset(known, scope, term),
        Err(error) => Err(error),
    }
}

fn is_difference_and(
    known: &Known,
    scope: &Scope,
    first: &TermRef,
    second: &TermRef,
) -> Result<bool, AllocError>
    requires { AppliesLower (plain_defs known.now.defs.now) }
    ensures { IfOk result (λ is. is ≡ is_difference_and (context_in known.now) (seen_in (scope_of scope.now) (tree first.now)) (seen_in (scope_of scope.now) (tree second.now))) }
{
    match is_difference(known, scope, first) {
        Ok(true) => is_coefficient(known, scope, second),
        Ok(false) => Ok(false),
        Err(error) => Err(error),
    }
}

fn is_difference_pair(
    known: &Known,
    scope: &Scope,
    first: &TermRef,
    second: &TermRef,
) -> Result<bool, AllocError>
    requires { AppliesLower (plain_defs known.now.defs.now) }
    ensures { IfOk result (λ is. is ≡ is_difference_pair (context_in known.now) (seen_in (scope_of scope.now) (tree first.now)) (seen_in (scope_of scope.now) (tree second.now))) }
{
    match is_difference_and(known, scope, first, second) {
        Ok(true) => Ok(true),
        Ok(false) => is_difference_and(known, scope, second, first),
        Err(error) => Err(error),
    }
}

#[tactic(auto, using(crate::proofs::Pairs::pair_words))]
fn are_difference_pair(known: &Known, scope: &Scope, args: &[TermRef]) -> Result<bool, AllocError>
    requires { AppliesLower (plain_defs known.now.defs.now) }
    ensures { IfOk result (λ are. are ≡ pair_test (is_difference_pair (context_in known.now)) (scope_of scope.now) (trees (terms args.now))) }
{
    match args {
        [] => Ok(false),
        [_] => Ok(false),
        [first, second] => is_difference_pair(known, scope, first, second),
        [_, _, _, ..] => Ok(false),
    }
}

fn are_sides(known: &Known, scope: &Scope, args: &[TermRef]) -> Result<bool, AllocError>
    requires { AppliesLower (plain_defs known.now.defs.now) }
    ensures { IfOk result (λ are. are ≡ list_all (is_side (context_in known.now)) (each_seen_in (scope_of scope.now) (trees (terms args.now)))) }
{
    for arg in args {
        match is_side(known, scope, arg) {
            Ok(true) => {}
            Ok(false) => return Ok(false),
            Err(error) => return Err(error),
        }
    }
    Ok(true)
}

fn are_comparable(known: &Known, scope: &Scope, args: &[TermRef]) -> Result<bool, AllocError>
    requires { AppliesLower (plain_defs known.now.defs.now) }
    ensures { IfOk result (λ are. are ≡ are_comparable (context_in known.now) (scope_of scope.now) (trees (terms args.now))) }
{
    match are_sides(known, scope, args) {
        Ok(true) => Ok(true),
        Ok(false) => are_difference_pair(known, scope, args),
        Err(error) => Err(error),
    }
}

fn are_int(scope: &Scope, args: &[TermRef]) -> bool
    ensures { result ≡ list_all has_int (each_seen_in (scope_of scope.now) (trees (terms args.now))) }
{
    for arg in args {
        if !has_int(scope, arg) {
            return false;
        }
    }
    true
}

fn is_relation(known: &Known, head: &Applied) -> bool
    ensures { result ≡ is_relation (theory_text known.now.names.now head.now) }
{
    if is_theory(known, head, b"=")
        || is_theory(known, head, b"distinct")
        || is_theory(known, head, b"<")
    {
        return true;
    }
    is_theory(known, head, b"<=") || is_theory(known, head, b">") || is_theory(known, head, b">=")
}

fn is_outside_application(
    known: &Known,
    head: &Applied,
    scope: &Scope,
    args: &[TermRef],
) -> Result<bool, AllocError>
    requires { AppliesLower (plain_defs known.now.defs.now) }
    ensures { IfOk result (λ is. is ≡ is_outside_application (context_in known.now) (scope_of scope.now) (theory_text known.now.names.now head.now) (trees (terms args.now))) }
{
    if is_theory(known, head, b"divisible") {
        return Ok(true);
    }
    if !is_relation(known, head) {
        return Ok(false);
    }
    if !are_int(scope, args) {
        return Ok(false);
    }
    match are_comparable(known, scope, args) {
        Ok(are) => Ok(!are),
        Err(error) => Err(error),
    }
}

#[tactic(auto, using(crate::proofs::WalkedTerms::walk_words))]
fn is_outside_named(known: &Known, seen: &Seen) -> Result<bool, AllocError>
    requires { AppliesLower (plain_defs known.now.defs.now) }
    ensures { IfOk result (λ is. is ≡ is_outside_named (context_in known.now) (scope_of seen.now.scope) (tree seen.now.term)) }
{
    match seen.term.node() {
        TermNode::App { head, args } => is_outside_application(known, head, &seen.scope, args),
        _ => Ok(false),
    }
}

fn is_other_integer(known: &Known, scope: &Scope, term: &TermRef) -> Result<bool, AllocError>
    requires { AppliesLower (plain_defs known.now.defs.now) }
    ensures { IfOk result (λ is. is ≡ is_other_integer (context_in known.now) (seen_in (scope_of scope.now) (tree term.now))) }
{
    if !has_int(scope, term) {
        return Ok(false);
    }
    match is_side(known, scope, term) {
        Ok(true) => return Ok(false),
        Ok(false) => {}
        Err(error) => return Err(error),
    }
    match is_difference(known, scope, term) {
        Ok(is) => Ok(!is),
        Err(error) => Err(error),
    }
}

/// Whether the term is outside of difference logic. The only error is that memory runs out.
pub(crate) fn is_outside(known: &Known, seen: &Seen) -> Result<bool, AllocError>
    requires { AppliesLower (plain_defs known.now.defs.now) }
    ensures { IfOk result (λ is. is ≡ is_outside (context_in known.now) (scope_of seen.now.scope) (tree seen.now.term)) }
{
    match is_other_integer(known, &seen.scope, &seen.term) {
        Ok(true) => Ok(true),
        Ok(false) => is_outside_named(known, seen),
        Err(error) => Err(error),
    }
}

//! The rule on linear terms.
ghost use Rattle.std.specs.Prelude.{◌≡◌, IfOk};
ghost use Rattle.std.specs.List.{list_any};
ghost use Rattle.term_store.specs.NumberedNodes.{terms};
ghost use Rattle.term_store.specs.Term.{tree, trees};
ghost use Rattle.logic_frag.specs.Following.{AppliesLower, context_in, plain_defs};
ghost use Rattle.logic_frag.specs.IntegerTerms.{each_seen_in};
ghost use Rattle.logic_frag.specs.IntegerTests.{bad_divisors, is_bad_divisor, is_factor, is_nonlinear, is_nonlinear_named, theory_text, two_factors};
ghost use Rattle.logic_frag.specs.Occurrences.{seen_in};
ghost use Rattle.logic_frag.specs.ScopeFrames.{scope_of};

use crate::coefficients::{coefficient, is_theory, seen_in};
use crate::known::Known;
use crate::scope::Scope;
use crate::seen::Seen;
use std::alloc::AllocError;
use term_store::{Applied, TermNode, TermRef};

fn is_factor(known: &Known, scope: &Scope, term: &TermRef) -> Result<bool, AllocError>
    requires { AppliesLower (plain_defs known.now.defs.now) }
    ensures { IfOk result (λ factor. factor ≡ is_factor (context_in known.now) (seen_in (scope_of scope.now) (tree term.now))) }
{
    let seen = seen_in(scope, term)?;
    match coefficient(known, seen) {
        Ok(Some(_)) => Ok(false),
        Ok(None) => Ok(true),
        Err(error) => Err(error),
    }
}

fn any_factor(known: &Known, scope: &Scope, args: &[TermRef]) -> Result<bool, AllocError>
    requires { AppliesLower (plain_defs known.now.defs.now) }
    ensures { IfOk result (λ any. any ≡ list_any (is_factor (context_in known.now)) (each_seen_in (scope_of scope.now) (trees (terms args.now)))) }
{
    for arg in args {
        match is_factor(known, scope, arg) {
            Ok(true) => return Ok(true),
            Ok(false) => {}
            Err(error) => return Err(error),
        }
    }
    Ok(false)
}

// Whether two of the arguments are no coefficients.
fn two_factors(known: &Known, scope: &Scope, args: &[TermRef]) -> Result<bool, AllocError>
    requires { AppliesLower (plain_defs known.now.defs.now) }
    ensures { IfOk result (λ two. two ≡ two_factors (context_in known.now) (each_seen_in (scope_of scope.now) (trees (terms args.now)))) }
{
    let mut rest = args;
    while let [first, others @ ..] = rest {
        match is_factor(known, scope, first) {
            Ok(true) => return any_factor(known, scope, others),
            Ok(false) => {}
            Err(error) => return Err(error),
        }
        rest = others;
    }
    Ok(false)
}

fn is_bad_divisor(known: &Known, scope: &Scope, term: &TermRef) -> Result<bool, AllocError>
    requires { AppliesLower (plain_defs known.now.defs.now) }
    ensures { IfOk result (λ bad. bad ≡ is_bad_divisor (context_in known.now) (seen_in (scope_of scope.now) (tree term.now))) }
{
    let seen = seen_in(scope, term)?;
    match coefficient(known, seen) {
        Ok(Some(is_zero)) => Ok(is_zero),
        Ok(None) => Ok(true),
        Err(error) => Err(error),
    }
}

fn any_bad_divisor(known: &Known, scope: &Scope, args: &[TermRef]) -> Result<bool, AllocError>
    requires { AppliesLower (plain_defs known.now.defs.now) }
    ensures { IfOk result (λ any. any ≡ list_any (is_bad_divisor (context_in known.now)) (each_seen_in (scope_of scope.now) (trees (terms args.now)))) }
{
    for arg in args {
        match is_bad_divisor(known, scope, arg) {
            Ok(true) => return Ok(true),
            Ok(false) => {}
            Err(error) => return Err(error),
        }
    }
    Ok(false)
}

// Whether an argument past the first is no coefficient, or is zero.
fn bad_divisors(known: &Known, scope: &Scope, args: &[TermRef]) -> Result<bool, AllocError>
    requires { AppliesLower (plain_defs known.now.defs.now) }
    ensures { IfOk result (λ bad. bad ≡ bad_divisors (context_in known.now) (each_seen_in (scope_of scope.now) (trees (terms args.now)))) }
{
    match args {
        [] => Ok(false),
        [_, divisors @ ..] => any_bad_divisor(known, scope, divisors),
    }
}

fn is_nonlinear_named(
    known: &Known,
    head: &Applied,
    scope: &Scope,
    args: &[TermRef],
) -> Result<bool, AllocError>
    requires { AppliesLower (plain_defs known.now.defs.now) }
    ensures { IfOk result (λ nonlinear. nonlinear ≡ is_nonlinear_named (context_in known.now) (theory_text known.now.names.now head.now) (each_seen_in (scope_of scope.now) (trees (terms args.now)))) }
{
    if is_theory(known, head, b"*") {
        return two_factors(known, scope, args);
    }
    if is_theory(known, head, b"div") || is_theory(known, head, b"mod") {
        return bad_divisors(known, scope, args);
    }
    Ok(false)
}

/// Whether the term is a product, a quotient or a remainder that is not linear. The only error is that
/// memory runs out.
#[tactic(auto, using(crate::proofs::WalkedTerms::walk_words))]
pub(crate) fn is_nonlinear(known: &Known, seen: &Seen) -> Result<bool, AllocError>
    requires { AppliesLower (plain_defs known.now.defs.now) }
    ensures { IfOk result (λ nonlinear. nonlinear ≡ is_nonlinear (context_in known.now) (scope_of seen.now.scope) (tree seen.now.term)) }
{
    match seen.term.node() {
        TermNode::App { head, args } => is_nonlinear_named(known, head, &seen.scope, args),
        _ => Ok(false),
    }
}

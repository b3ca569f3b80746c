//! Numerals and coefficients, and the names of functions of a theory.
ghost use Rattle.std.specs.Prelude.{◌≡◌, IfOk, codes, option_map, slice_get};
ghost use Rattle.std.specs.Option.{option_copied};
ghost use Rattle.term_store.specs.Term.{tree};
ghost use Rattle.logic_frag.specs.Following.{AppliesLower, context_in, plain_defs};
ghost use Rattle.logic_frag.specs.IntegerTests.{coefficient, is_text, is_zero_text, minus_argument, numeral, numeral_zero, theory_text};
ghost use Rattle.logic_frag.specs.Occurrences.{seen_in};
ghost use Rattle.logic_frag.specs.ScopeFrames.{scope_of};
ghost use Rattle.logic_frag.specs.SeenTerms.{occurrence};

use crate::follow::resolve;
use crate::known::Known;
use crate::scope::Scope;
use crate::seen::Seen;
use lex_core::{NameId, Names, TokKind};
use std::alloc::AllocError;
use term_store::{Applied, Fun, TermNode, TermRef};

#[tactic(auto, using(crate::proofs::Texts::text_words))]
fn is_text(names: &Names, id: NameId, text: &[u8]) -> bool
    ensures { result ≡ is_text (slice_get names.now id) text.now }
{
    if id.number() as usize >= names.count() {
        return false;
    }
    names.text(id) == text
}

/// Whether this is the function of a theory with the name.
pub(crate) fn is_theory(known: &Known, head: &Applied, name: &[u8]) -> bool
    ensures { result ≡ is_text (theory_text known.now.names.now head.now) name.now }
{
    match head.fun {
        Fun::Theory => is_text(known.names, head.name, name),
        _ => false,
    }
}

#[tactic(auto, using(crate::proofs::Texts::text_words))]
fn zero_at(names: &Names, id: NameId) -> Option<bool>
    ensures { result ≡ option_map is_zero_text (slice_get names.now id) }
{
    if id.number() as usize >= names.count() {
        return None;
    }
    Some(names.text(id) == b"0".as_slice())
}

// For a numeral whether it is zero.
#[tactic(auto, using(crate::proofs::WalkedTerms::walk_words))]
fn numeral_zero(known: &Known, term: &TermRef) -> Option<bool>
    ensures { result ≡ numeral_zero known.now.names.now (tree term.now) }
{
    match term.node() {
        TermNode::Lit { kind, text } => match kind {
            TokKind::Numeral => zero_at(known.names, *text),
            _ => None,
        },
        _ => None,
    }
}

// The argument of a minus of one argument.
#[tactic(auto, using(crate::proofs::Texts::minus_words))]
fn minus_argument<'a>(known: &Known, term: &'a TermRef) -> Option<&'a TermRef>
    ensures { option_map tree (option_copied result) ≡ minus_argument known.now.names.now (tree term.now) }
{
    let TermNode::App { head, args } = term.node() else {
        return None;
    };
    match args.as_slice() {
        [arg] => {
            if is_theory(known, head, b"-") {
                Some(arg)
            } else {
                None
            }
        }
        [] => None,
        [_, _, ..] => None,
    }
}

/// The term in this scope.
pub(crate) fn seen_in(scope: &Scope, term: &TermRef) -> Result<Seen, AllocError>
    ensures { IfOk result (λ seen. occurrence seen ≡ seen_in (scope_of scope.now) (tree term.now)) }
{
    let term = term.clone()?;
    let scope = scope.clone()?;
    Ok(Seen { term, scope })
}

// For a term that stands for a numeral whether that is zero.
fn numeral(known: &Known, seen: Seen) -> Result<Option<bool>, AllocError>
    requires { AppliesLower (plain_defs known.now.defs.now) }
    ensures { IfOk result (λ zero_or. zero_or ≡ numeral (context_in known.now) (occurrence seen)) }
{
    let last = resolve(known, seen)?;
    Ok(numeral_zero(known, &last.term))
}

/// For a coefficient whether it is zero. The only error is that memory runs out.
pub(crate) fn coefficient(known: &Known, seen: Seen) -> Result<Option<bool>, AllocError>
    requires { AppliesLower (plain_defs known.now.defs.now) }
    ensures { IfOk result (λ zero_or. zero_or ≡ coefficient (context_in known.now) (occurrence seen)) }
{
    let last = resolve(known, seen)?;
    match minus_argument(known, &last.term) {
        Some(arg) => {
            let arg = seen_in(&last.scope, arg)?;
            numeral(known, arg)
        }
        None => Ok(numeral_zero(known, &last.term)),
    }
}

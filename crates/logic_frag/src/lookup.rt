//! What the name of a variable means in a scope.
ghost use Rattle.std.specs.Prelude.{◌≡◌, IfOk};
ghost use Rattle.std.specs.Option.{option_copied, option_map};
ghost use Rattle.term_store.specs.NumberedNodes.{terms};
ghost use Rattle.term_store.specs.Term.{node_of, node_tree, tree, trees};
ghost use Rattle.logic_frag.specs.Occurrences.{let_value, is_quantified};
ghost use Rattle.logic_frag.specs.ScopeFrames.{is_name, named_value, scope_of, value_in};
ghost use Rattle.logic_frag.specs.SeenTerms.{occurrence};

use crate::binder::Binder;
use crate::scope::Scope;
use crate::seen::Seen;
use lex_core::NameId;
use std::alloc::AllocError;
use term_store::{TermNode, TermRef};

// The last of the values whose variable has the name.
fn named_value<'a>(vars: &[NameId], values: &'a [TermRef], name: NameId) -> Option<&'a TermRef>
    ensures { option_map tree (option_copied result) ≡ named_value vars.now (trees (terms values.now)) name }
{
    let mut found = None;
    for (var, value) in vars.iter().zip(values) {
        if *var == name {
            found = Some(value);
        }
    }
    found
}

// The value that the term gives the name, where it is a `let`.
#[tactic(auto, using(crate::proofs::WalkedTerms::walk_words))]
fn value_in<'a>(term: &'a TermRef, name: NameId) -> Option<&'a TermRef>
    ensures { option_map tree (option_copied result) ≡ value_in (node_tree (node_of term.now)) name }
{
    match term.node() {
        TermNode::Let { vars, values, .. } => named_value(vars, values, name),
        _ => None,
    }
}

fn is_among(names: &[NameId], name: NameId) -> bool
    ensures { result ≡ is_name name names.now }
{
    for other in names {
        if name == *other {
            return true;
        }
    }
    false
}

/// The term that `let` binds the variable to, where `let` binds it. The only error is that memory runs out.
#[tactic(auto, using(crate::proofs::Lookups::value_words))]
pub(crate) fn let_value(scope: &Scope, name: NameId) -> Result<Option<Seen>, AllocError>
    ensures { IfOk result (λ value. option_map occurrence value ≡ let_value (scope_of scope.now) name) }
{
    let Some((binder, outer)) = scope.innermost() else {
        return Ok(None);
    };
    match binder {
        Binder::Let(term) => match value_in(term, name) {
            Some(value) => {
                let term = value.clone()?;
                let scope = outer.clone()?;
                Ok(Some(Seen { term, scope }))
            }
            None => let_value(outer, name),
        },
        Binder::Quantified(names) | Binder::Matched(names) => {
            if is_among(names.as_slice(), name) {
                return Ok(None);
            }
            let_value(outer, name)
        }
    }
}

/// Whether the variable is one of a quantifier, or a parameter.
#[tactic(auto, using(crate::proofs::Lookups::quantified_words))]
pub(crate) fn is_quantified(scope: &Scope, name: NameId) -> bool
    ensures { result ≡ is_quantified (scope_of scope.now) name }
{
    let Some((binder, outer)) = scope.innermost() else {
        return false;
    };
    match binder {
        Binder::Let(term) => value_in(term, name).is_none() && is_quantified(outer, name),
        Binder::Quantified(names) => {
            is_among(names.as_slice(), name) || is_quantified(outer, name)
        }
        Binder::Matched(names) => !is_among(names.as_slice(), name) && is_quantified(outer, name),
    }
}

//! What a term stands for.
ghost use Rattle.std.specs.Prelude.{◌≡◌, ◌∷◌, IfOk};
ghost use Rattle.std.specs.Option.{option_map};
ghost use Rattle.term_store.specs.declared.parts.Fun.TheVariants as fun;
ghost use Rattle.term_store.specs.NumberedNodes.{terms};
ghost use Rattle.term_store.specs.Term.{tree, trees};
ghost use Rattle.logic_frag.specs.declared.binder.Binder.TheVariants as binders;
ghost use Rattle.logic_frag.specs.Following.{AppliesLower, application_next, body_of, next_of, plain_defs};
ghost use Rattle.logic_frag.specs.ScopeFrames.{scope_of};
ghost use Rattle.logic_frag.specs.SeenTerms.{occurrence};
ghost use Rattle.logic_frag.specs.Weights.{end_of};

use crate::binder::Binder;
use crate::known::Known;
use crate::lookup::let_value;
use crate::scope::Scope;
use crate::seen::Seen;
use sort_store::DeclNo;
use std::alloc::AllocError;
use term_store::{Fun, TermNode, TermRef};

// The body of a definition without parameters that is not recursive.
#[tactic(auto, using(crate::proofs::KnownDefinitions::kept_words))]
fn constant_body(known: &Known, no: DeclNo) -> Result<Option<Seen>, AllocError>
    ensures { IfOk result (λ next. option_map occurrence next ≡ body_of (plain_defs known.now.defs.now) (fun.Declared no)) }
{
    let Some(def) = known.defs.def(no) else {
        return Ok(None);
    };
    if def.recursive || !def.params.as_slice().is_empty() {
        return Ok(None);
    }
    let term = def.body.clone()?;
    let scope = Scope::outermost(known.alloc)?;
    Ok(Some(Seen { term, scope }))
}

#[tactic(auto, using(crate::proofs::Weights::arguments_end))]
fn application_next(known: &Known, head: Fun, args: &[TermRef]) -> Result<Option<Seen>, AllocError>
    ensures { IfOk result (λ next. option_map occurrence next ≡ application_next (plain_defs known.now.defs.now) head (trees (terms args.now))) }
{
    match args {
        [] => match head {
            Fun::Declared(no) => constant_body(known, no),
            _ => Ok(None),
        },
        [_, ..] => Ok(None),
    }
}

// The scope of the body of the `let` that is seen.
fn inside_let(known: &Known, seen: &Seen) -> Result<Scope, AllocError>
    ensures { IfOk result (λ s. s ≡ binders.Let seen.now.term ∷ seen.now.scope) }
{
    let binder = Binder::Let(seen.term.clone()?);
    let outer = seen.scope.clone()?;
    Scope::inside(known.alloc, binder, outer)
}

// The next term that the term stands for. The only error is that memory runs out.
#[tactic(auto, using(crate::proofs::WalkedTerms::walk_words))]
fn next_of(known: &Known, seen: &Seen) -> Result<Option<Seen>, AllocError>
    ensures { IfOk result (λ next. option_map occurrence next ≡ next_of (plain_defs known.now.defs.now) (scope_of seen.now.scope) (tree seen.now.term)) }
{
    match seen.term.node() {
        TermNode::Ann { body, .. } => {
            let term = body.clone()?;
            let scope = seen.scope.clone()?;
            Ok(Some(Seen { term, scope }))
        }
        TermNode::Let { body, .. } => {
            let term = body.clone()?;
            let scope = inside_let(known, seen)?;
            Ok(Some(Seen { term, scope }))
        }
        TermNode::Var(name) => let_value(&seen.scope, *name),
        TermNode::App { head, args } => application_next(known, head.fun, args),
        _ => Ok(None),
    }
}

/// The last of the terms that the term stands for. The only error is that memory runs out.
pub(crate) fn resolve(known: &Known, seen: Seen) -> Result<Seen, AllocError>
    requires { AppliesLower (plain_defs known.now.defs.now) }
    ensures { IfOk result (λ last. occurrence last ≡ end_of (plain_defs known.now.defs.now) (occurrence seen)) }
{
    let mut last = seen;
    'links: loop {
        match next_of(known, &last) {
            Ok(Some(next)) => last = next,
            Ok(None) => return Ok(last),
            Err(error) => return Err(error),
        }
    }
}

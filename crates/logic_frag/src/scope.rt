//! The variables that a term sees, by the binders round it.
use crate::binder::Binder;
use std::alloc::{AllocError, Global};
use std::marker::Model;
use std::rc::Rc;

/// The binders round a term, the innermost first. Terms share them.
#[cycle(scope)]
#[derive(Drop)]
pub(crate) struct Scope {
    shared: Rc<Frame>,
}

#[cycle(scope)]
#[derive(Drop)]
enum Frame {
    Outermost,
    Inner(Binder, Scope),
}

impl Model for Scope {
    ghost use Rattle.std.specs.Prelude.{List, length};
    ghost use Rattle.std.specs.Coded.{coded_list};
    ghost use Rattle.logic_frag.specs.declared.binder.Binder.{Binder};
    ghost use Rattle.logic_frag.specs.contracts.binder.Binder as binder;

    ghost Value = { List Binder };

    ghost coded = { coded_list binder.the_row.coded };

    ghost use Rattle.logic_frag.specs.ScopeLinks.{binders_from};

    ghost view = { λ a. binders_from a.shared.value };

    ghost size = { length };

    ghost use Rattle.std.proofs.Common.{arith};

    ghost size_decreases = { λ a h. Prim.grind arith };
}

impl Clone for Scope {
    ghost use Rattle.std.specs.Prelude.{◌≡◌};

    ghost is_clone = { λ s copy. copy ≡ s };

    fn clone(&self) -> Result<Scope, AllocError> {
        let shared = self.shared.clone()?;
        Ok(Scope { shared })
    }
}

impl Scope {
    ghost use Rattle.std.specs.Prelude.{◌≡◌, ◌∷◌, [], IfOk, IfSome, IfNone};

    /// The scope of no variables.
    pub(crate) fn outermost(alloc: Global) -> Result<Scope, AllocError>
        ensures { IfOk result (λ s. s ≡ []) }
    {
        let shared = Rc::new(alloc, Frame::Outermost)?;
        Ok(Scope { shared })
    }

    /// The scope with one more binder.
    pub(crate) fn inside(alloc: Global, binder: Binder, outer: Scope) -> Result<Scope, AllocError>
        ensures { IfOk result (λ s. s ≡ binder ∷ outer) }
    {
        let shared = Rc::new(alloc, Frame::Inner(binder, outer))?;
        Ok(Scope { shared })
    }

    /// The innermost binder, and the scope outside of it.
    pub(crate) fn innermost(&self) -> Option<(&Binder, &Scope)>
        ensures some { IfSome result (λ p. self.now ≡ p.0.now ∷ p.1.now) }
        ensures none { IfNone result (self.now ≡ []) }
    {
        match &*self.shared {
            Frame::Outermost => None,
            Frame::Inner(binder, outer) => Some((binder, outer)),
        }
    }
}

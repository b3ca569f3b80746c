//! The laws of scopes.
ghost use Rattle.std.specs.Prelude.{ℕ, ◌≡◌, ◌↔◌, List, Some};
ghost use Rattle.std.specs.List.{Contains};
ghost use Rattle.scope_stack.specs.Calls.{Call, Follows};
ghost use Rattle.scope_stack.specs.Environment.{Environment, IsConsistent, empty};
ghost use Rattle.scope_stack.specs.Levels.{found, live};
ghost use Rattle.scope_stack.specs.declared.entry.FunEntry.{FunEntry};
ghost use Rattle.scope_stack.specs.declared.entry.SortEntry.{SortEntry};

/// The laws of scopes. It computes nothing: its contract states them.
pub fn scope_laws()
    // After any list of calls, what is found under a name is what the levels joined with the global
    // list hold under it.
    ensures funs { (calls : List Call) (e : Environment) (name : ℕ) (entry : FunEntry)
        → Follows calls empty e
        → (found name e.funs ≡ Some entry) ↔ Contains (live e.funs) (name, entry) }
    ensures sorts { (calls : List Call) (e : Environment) (name : ℕ) (entry : SortEntry)
        → Follows calls empty e
        → (found name e.sorts ≡ Some entry) ↔ Contains (live e.sorts) (name, entry) }

    // After any list of calls no two live declarations of one name space have one name, and both
    // have as many levels.
    ensures consistent { (calls : List Call) (e : Environment)
        → Follows calls empty e → IsConsistent e.funs e.sorts }
{}

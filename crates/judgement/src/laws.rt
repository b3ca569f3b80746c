//! The laws of judgements.
ghost use Rattle.std.specs.Prelude.{◌≡◌, ℕ, ◌⊎◌, Bool, IsTrue, Option, Some};
ghost use Rattle.judgement.specs.Judging.{done, check, find, refuse, names, declare, Lawful};
ghost use Rattle.sig_table.specs.declared.code.Code.{Code};

/// The laws of judgements: each kind of item has exactly one outcome. It computes nothing: its
/// contract states them.
pub fn judgement_laws<T>()
    ensures done { (x : T) → Lawful (done x) }
    ensures check { (test : Bool) (code : Code) (at : ℕ) → Lawful (check (IsTrue test) code at) }
    ensures find { (found : Option T) (code : Code) (at : ℕ) → Lawful (find (λ x. found ≡ Some x) code at) }
    ensures refuse { (code : Code) (at : ℕ) → Lawful (refuse {A = T} code at) }
    ensures names { Lawful names }
    ensures declare { (name : ℕ) → Lawful (declare name) }
{}

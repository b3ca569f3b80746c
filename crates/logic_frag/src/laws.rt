ghost use Rattle.logic_frag.specs.Laws.{FirstOnce, NoneInLogic, SomeFirst};

/// The first broken rule is none exactly where the command is in the logic, and each command has one
/// alone. It does nothing.
pub fn fragment_laws()
    ensures none { NoneInLogic }
    ensures some { SomeFirst }
    ensures once { FirstOnce }
{}

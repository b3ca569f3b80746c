//! The laws of the theories' ranks.
ghost use Rattle.sig_table.specs.declared.theories.Theories.{Theories};
ghost use Rattle.sort_store.specs.CoreRanks.{core_symbols};
ghost use Rattle.theory_core.specs.IntsRanks.{ints_symbols};
ghost use Rattle.theory_core.specs.ArraysRanks.{arrays_symbols};
ghost use Rattle.theory_core.specs.TheorySymbols.{theory_symbols};
ghost use Rattle.theory_core.specs.Laws.{AreApart, HaveOneResult, HaveDecidedRanks};

/// The laws of the ranks of Core, Ints and ArraysEx: no name is a symbol of two of the theories, and
/// a name with argument sorts has one result sort at most, in each theory and in those of a logic
/// together. In a logic a name has a rank with some argument sorts or has none, and it is decided
/// which. It computes nothing: its contract states them.
pub fn rank_laws()
    ensures core_and_ints { AreApart core_symbols ints_symbols }
    ensures core_and_arrays { AreApart core_symbols arrays_symbols }
    ensures ints_and_arrays { AreApart ints_symbols arrays_symbols }
    ensures core_result { HaveOneResult core_symbols }
    ensures ints_result { HaveOneResult ints_symbols }
    ensures arrays_result { HaveOneResult arrays_symbols }
    ensures theories_result { (theories : Theories) → HaveOneResult (theory_symbols theories) }
    ensures decided { (theories : Theories) → HaveDecidedRanks (theory_symbols theories) }
{}

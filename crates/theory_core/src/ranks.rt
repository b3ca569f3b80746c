//! The result sorts of the theories' function symbols.
ghost use Rattle.std.specs.Prelude.{◌↔◌, IsSome, IfSome, length, map};
ghost use Rattle.sort_store.specs.Tree.{tree};
ghost use Rattle.sort_store.specs.Ranks.{ranks_of};
ghost use Rattle.sort_store.specs.CoreRanks.{core_symbols};
ghost use Rattle.theory_core.specs.IntsRanks.{ints_symbols};
ghost use Rattle.theory_core.specs.ArraysRanks.{arrays_symbols};
ghost use Rattle.theory_core.specs.Interned.{AreInternedTogether};
ghost use Rattle.theory_core.specs.Answers.{Answers, HasSomeRank, IsWithin, TellsResults};
ghost use Rattle.theory_core.specs.Kinds.{ranks_of_kind};

use crate::kind::SymbolKind;
use crate::rank_found::RankFound;
use crate::symbols::{arrays_kind, core_kind, ints_kind};
use sort_store::SortRef;

// The result sort of a symbol of the kind, applied to arguments of these sorts.
#[tactic(auto, using(crate::proofs::KindRanks::answer_words))]
fn kind_rank(kind: Option<SymbolKind>, args: &[SortRef]) -> Option<RankFound>
    requires { AreInternedTogether args.now }
    ensures { Answers result (ranks_of_kind kind) (map tree args.now) }
{
    let kind = kind?;
    if kind.fits(args) {
        Some(kind.result())
    } else {
        None
    }
}

/// The result sort of the symbol of Core with this name, applied to arguments of these sorts, which
/// one store made. It is none exactly where no rank of the symbol has these argument sorts, or Core
/// has no such symbol (SMT-LIB 2.6, section 3.7, and the theory declaration Core).
#[tactic(auto, using(crate::proofs::KindRanks::named_words))]
pub fn core_rank(name: &[u8], args: &[SortRef]) -> Option<RankFound>
    requires { AreInternedTogether args.now }

    // The sort that the answer tells is the one result sort of these ranks and argument sorts.
    ensures result { TellsResults result (ranks_of name.now core_symbols) (map tree args.now) }

    // There is an answer exactly where one of the ranks has these argument sorts.
    ensures some { IsSome result ↔ HasSomeRank (ranks_of name.now core_symbols) (map tree args.now) }

    // An argument that it names is one of these.
    ensures place { IfSome result (λ found. IsWithin found (length args.now)) }
{
    kind_rank(core_kind(name), args)
}

/// The same for the symbols of Ints (the theory declaration Ints). `divisible` is taken with its
/// argument alone, and nothing is said of its index.
#[tactic(auto, using(crate::proofs::KindRanks::named_words))]
pub fn ints_rank(name: &[u8], args: &[SortRef]) -> Option<RankFound>
    requires { AreInternedTogether args.now }
    ensures result { TellsResults result (ranks_of name.now ints_symbols) (map tree args.now) }
    ensures some { IsSome result ↔ HasSomeRank (ranks_of name.now ints_symbols) (map tree args.now) }
    ensures place { IfSome result (λ found. IsWithin found (length args.now)) }
{
    kind_rank(ints_kind(name), args)
}

/// The same for the symbols of ArraysEx (the theory declaration ArraysEx).
#[tactic(auto, using(crate::proofs::KindRanks::named_words))]
pub fn arrays_rank(name: &[u8], args: &[SortRef]) -> Option<RankFound>
    requires { AreInternedTogether args.now }
    ensures result { TellsResults result (ranks_of name.now arrays_symbols) (map tree args.now) }
    ensures some { IsSome result ↔ HasSomeRank (ranks_of name.now arrays_symbols) (map tree args.now) }
    ensures place { IfSome result (λ found. IsWithin found (length args.now)) }
{
    kind_rank(arrays_kind(name), args)
}

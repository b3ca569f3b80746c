//! The kinds of function symbols.
ghost use Rattle.std.specs.Prelude.{◌≡◌, ◌↔◌, IsTrue, map};
ghost use Rattle.sort_store.specs.Tree.{tree};
ghost use Rattle.theory_core.specs.Interned.{AreInternedTogether};
ghost use Rattle.theory_core.specs.Kinds.{Fits, found_at, kind_at};

use crate::arguments::{are_all, are_same, is_conditional, is_select, is_store};
use crate::rank_found::RankFound;
use crate::sorts::BasicSort;
use sort_store::SortRef;

/// Function symbols that have the same ranks.
#[derive(Clone, Copy, Debug, PartialEq, Eq)]
pub(crate) enum SymbolKind {
    /// `true` and `false`
    TruthValue,
    /// `not`
    Negation,
    /// `=>`
    Implication,
    /// `and`, `or` and `xor`
    Connective,
    /// `=`
    Equality,
    /// `distinct`
    Distinctness,
    /// `ite`
    Conditional,
    /// `-`, of one argument and of more
    Minus,
    /// `+`, `*` and `div`
    Arithmetic,
    /// `mod`
    Modulus,
    /// `abs`
    AbsoluteValue,
    /// `<=`, `<`, `>=` and `>`
    Order,
    /// `divisible`
    Divisibility,
    /// `select`
    Select,
    /// `store`
    Store,
}

impl SymbolKind {
    /// The kind with this number.
    pub(crate) fn of_number(number: u16) -> SymbolKind
        ensures { result ≡ kind_at number }
    {
        match number {
            0 => SymbolKind::TruthValue,
            1 => SymbolKind::Negation,
            2 => SymbolKind::Implication,
            3 => SymbolKind::Connective,
            4 => SymbolKind::Equality,
            5 => SymbolKind::Distinctness,
            6 => SymbolKind::Conditional,
            7 => SymbolKind::Minus,
            8 => SymbolKind::Arithmetic,
            9 => SymbolKind::Modulus,
            10 => SymbolKind::AbsoluteValue,
            11 => SymbolKind::Order,
            12 => SymbolKind::Divisibility,
            13 => SymbolKind::Select,
            _ => SymbolKind::Store,
        }
    }

    /// Whether a symbol of this kind has a rank with these argument sorts.
    pub(crate) fn fits(self, args: &[SortRef]) -> bool
        requires { AreInternedTogether args.now }
        ensures { IsTrue result ↔ Fits self (map tree args.now) }
    {
        let count = args.len();
        match self {
            SymbolKind::TruthValue => count == 0,
            SymbolKind::Negation => count == 1 && are_all(args, BasicSort::Bool),
            SymbolKind::Implication | SymbolKind::Connective => {
                count >= 2 && are_all(args, BasicSort::Bool)
            }
            SymbolKind::Equality | SymbolKind::Distinctness => count >= 2 && are_same(args),
            SymbolKind::Conditional => is_conditional(args),
            SymbolKind::Minus => count >= 1 && are_all(args, BasicSort::Int),
            SymbolKind::Modulus => count == 2 && are_all(args, BasicSort::Int),
            SymbolKind::AbsoluteValue | SymbolKind::Divisibility => {
                count == 1 && are_all(args, BasicSort::Int)
            }
            SymbolKind::Arithmetic | SymbolKind::Order => {
                count >= 2 && are_all(args, BasicSort::Int)
            }
            SymbolKind::Select => is_select(args),
            SymbolKind::Store => is_store(args),
        }
    }

    /// The result sort where the symbol has such a rank.
    pub(crate) fn result(self) -> RankFound
        ensures { result ≡ found_at self }
    {
        match self {
            SymbolKind::TruthValue
            | SymbolKind::Negation
            | SymbolKind::Implication
            | SymbolKind::Connective
            | SymbolKind::Equality
            | SymbolKind::Distinctness
            | SymbolKind::Order
            | SymbolKind::Divisibility => RankFound::Bool,
            SymbolKind::Minus
            | SymbolKind::Arithmetic
            | SymbolKind::Modulus
            | SymbolKind::AbsoluteValue => RankFound::Int,
            SymbolKind::Conditional => RankFound::Arg(1),
            SymbolKind::Select => RankFound::Element(0),
            SymbolKind::Store => RankFound::Arg(0),
        }
    }
}

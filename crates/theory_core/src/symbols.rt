//! The names of the theories' function symbols, each with its kind.
ghost use Rattle.std.specs.Prelude.{◌≡◌};
ghost use Rattle.sig_table.specs.Row.{codes_of};
ghost use Rattle.sort_store.specs.Ranks.{ranks_of};
ghost use Rattle.sort_store.specs.CoreRanks.{core_symbols};
ghost use Rattle.theory_core.specs.IntsRanks.{ints_symbols};
ghost use Rattle.theory_core.specs.ArraysRanks.{arrays_symbols};
ghost use Rattle.theory_core.specs.Kinds.{core_rows, ints_rows, arrays_rows, kind_of_codes, ranks_of_kind};

use crate::kind::SymbolKind;
use sig_table::{Table, rows};

fn core_table() -> Table<10>
    ensures { result ≡ core_rows }
{
    Table::of(rows![
        b"=" => SymbolKind::Equality as u16,
        b"=>" => SymbolKind::Implication as u16,
        b"and" => SymbolKind::Connective as u16,
        b"distinct" => SymbolKind::Distinctness as u16,
        b"false" => SymbolKind::TruthValue as u16,
        b"ite" => SymbolKind::Conditional as u16,
        b"not" => SymbolKind::Negation as u16,
        b"or" => SymbolKind::Connective as u16,
        b"true" => SymbolKind::TruthValue as u16,
        b"xor" => SymbolKind::Connective as u16,
    ])
}

fn ints_table() -> Table<11>
    ensures { result ≡ ints_rows }
{
    Table::of(rows![
        b"*" => SymbolKind::Arithmetic as u16,
        b"+" => SymbolKind::Arithmetic as u16,
        b"-" => SymbolKind::Minus as u16,
        b"<" => SymbolKind::Order as u16,
        b"<=" => SymbolKind::Order as u16,
        b">" => SymbolKind::Order as u16,
        b">=" => SymbolKind::Order as u16,
        b"abs" => SymbolKind::AbsoluteValue as u16,
        b"div" => SymbolKind::Arithmetic as u16,
        b"divisible" => SymbolKind::Divisibility as u16,
        b"mod" => SymbolKind::Modulus as u16,
    ])
}

fn arrays_table() -> Table<2>
    ensures { result ≡ arrays_rows }
{
    Table::of(rows![
        b"select" => SymbolKind::Select as u16,
        b"store" => SymbolKind::Store as u16,
    ])
}

// The kind of the symbol that the table has under the name.
#[tactic(auto, using(crate::proofs::SymbolNames::listed_words))]
fn kind_in<const N: usize>(table: &Table<N>, name: &[u8]) -> Option<SymbolKind>
    ensures { result ≡ kind_of_codes (codes_of name.now table.now) }
{
    let code = table.find(name)?;
    Some(SymbolKind::of_number(code))
}

/// The kind of the symbol of Core with this name.
#[tactic(auto, using(crate::proofs::SymbolNames::core_kind_found))]
pub(crate) fn core_kind(name: &[u8]) -> Option<SymbolKind>
    ensures { ranks_of name.now core_symbols ≡ ranks_of_kind result }
{
    kind_in(&core_table(), name)
}

/// The kind of the symbol of Ints with this name.
#[tactic(auto, using(crate::proofs::SymbolNames::ints_kind_found))]
pub(crate) fn ints_kind(name: &[u8]) -> Option<SymbolKind>
    ensures { ranks_of name.now ints_symbols ≡ ranks_of_kind result }
{
    kind_in(&ints_table(), name)
}

/// The kind of the symbol of ArraysEx with this name.
#[tactic(auto, using(crate::proofs::SymbolNames::arrays_kind_found))]
pub(crate) fn arrays_kind(name: &[u8]) -> Option<SymbolKind>
    ensures { ranks_of name.now arrays_symbols ≡ ranks_of_kind result }
{
    kind_in(&arrays_table(), name)
}

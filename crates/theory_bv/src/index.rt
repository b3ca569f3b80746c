//! Indices of a function symbol.
ghost use Rattle.std.specs.Prelude.{◌≡◌, slice_get};
ghost use Rattle.theory_bv.specs.Indices.{index_with, numeral_value, no_symbol, no_large, index_at};

/// An index of a function symbol (SMT-LIB 2.6, section 3.3).
#[derive(Clone, Copy, Debug, PartialEq, Eq)]
pub enum Index {
    /// A numeral with this value.
    Numeral(u32),
    /// A numeral above 4,294,967,295.
    Large,
    /// A symbol.
    Symbol,
}

/// The index that a numeral (SMT-LIB 2.6, section 3.1) is: its value, or `Large` exactly where that
/// is above 4,294,967,295.
pub fn index_of(numeral: &[u8]) -> Index
    ensures { result ≡ index_with (numeral_value numeral.now) }
{
    let mut value: u64 = 0;
    for digit in numeral {
        value = value * 10 + u64::from(digit.saturating_sub(b'0'));
        if value > u64::from(u32::MAX) {
            return Index::Large;
        }
    }
    Index::Numeral(value as u32)
}

pub(crate) fn has_no_symbol(indices: &[Index]) -> bool
    ensures { result ≡ no_symbol indices.now }
{
    indices.iter().all(|index| !matches!(index, Index::Symbol))
}

pub(crate) fn has_no_large(indices: &[Index]) -> bool
    ensures { result ≡ no_large indices.now }
{
    indices.iter().all(|index| !matches!(index, Index::Large))
}

// The value of the index at a place, or 0.
pub(crate) fn value_at(indices: &[Index], place: usize) -> u32
    ensures { result ≡ index_at indices.now place }
{
    match indices.get(place) {
        Some(Index::Numeral(value)) => *value,
        _ => 0,
    }
}

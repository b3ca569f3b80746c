//! The ranks of the function symbols.
ghost use Rattle.std.specs.Prelude.{◌≡◌, ◌↔◌, Some, None, Ok, Err};
ghost use Rattle.theory_bv.specs.declared.rank.BvResult.{BvResult};
ghost use Rattle.theory_bv.specs.Answers.{bv_answer};
ghost use Rattle.theory_bv.specs.Ranks.{HasBvRank, HasNoBvRank, HasBvBadIndex, IsBvTooWide};
ghost use Rattle.theory_bv.specs.Symbols.{form_of, IsWrittenWith};

use crate::index::Index;
use crate::symbols::shape_of;
use thiserror::Error;

/// The result sort of a rank.
#[derive(Clone, Copy, Debug, PartialEq, Eq)]
pub enum BvResult {
    /// Bool.
    Bool,
    /// The bit vectors of this width.
    Width(u32),
}

/// Why a symbol with indices has no result.
#[derive(Clone, Copy, Debug, PartialEq, Eq, Error)]
pub enum BvFault {
    /// A wrong index, or a wrong number of indices.
    #[error("wrong index")]
    BadIndex,
    /// An index or the width of the result is above 4,294,967,295.
    #[error("index or width too large")]
    TooWide,
}

/// The result sort of a function symbol on bit vectors with indices and arguments (SMT-LIB 2.6,
/// theory declaration `FixedSizeBitVectors`, and the logic declaration `QF_BV`). An argument is the
/// width of its sort, or `None` where that is no bit vector. The answer is `None` where no rank has
/// these arguments. The first rule that is not met decides, in this order: the number of indices,
/// and that they are numerals (`BadIndex`); that none is too large (`TooWide`); the condition on
/// the indices alone (`BadIndex`); the arguments (`None`); the first index of `extract` below the
/// width (`BadIndex`); the width of the result (`TooWide`).
pub fn bv_rank(
    name: &[u8],
    indices: &[Index],
    args: &[Option<u32>],
) -> Result<Option<BvResult>, BvFault>
    requires { IsWrittenWith (form_of name.now) indices.now }
    ensures answer { result ≡ bv_answer name.now indices.now args.now }

    // Each answer comes exactly where its rule says.
    ensures rank { (r : BvResult)
        → (result ≡ Ok (Some r)) ↔ HasBvRank name.now indices.now args.now r }
    ensures no_rank { (result ≡ Ok None) ↔ HasNoBvRank name.now indices.now args.now }
    ensures bad_index { (result ≡ Err BvFault.BadIndex)
        ↔ HasBvBadIndex name.now indices.now args.now }
    ensures too_wide { (result ≡ Err BvFault.TooWide) ↔ IsBvTooWide name.now indices.now args.now }
{
    match shape_of(name) {
        Some(shape) => shape.answer(indices, args),
        None => Ok(None),
    }
}

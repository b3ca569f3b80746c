ghost use Rattle.std.specs.Prelude.{◌≡◌};
ghost use Rattle.dt_rules.specs.declared.error.TyError.{TyError};

use lex_core::Place;
use sig_table::Code;
use thiserror::Error;

/// Why a thing is not well sorted.
#[derive(Debug, Drop, Error)]
pub enum TyError {
    /// The first rule that the thing does not meet.
    #[error("not well sorted")]
    Fault(Place),
    /// Memory ran out.
    #[error("out of memory")]
    NoMemory,
}

/// The fault with this code at a byte.
pub fn fault(code: Code, at: u32) -> TyError
    ensures { result ≡ TyError.Fault (record { code = code; at = at }) }
{
    TyError::Fault(Place { code, at })
}

/// Why a group of datatypes may not be declared (SMT-LIB 2.6, section 4.2.3).
#[derive(Debug, Drop, Error)]
pub enum DtError {
    /// The unfolding of the group has more than 2,000 sorts, or one of more than 1,000 nodes.
    #[error("unfolding too large")]
    TooWide,
    /// The first datatype of the group that is not well-founded, counted from 0.
    #[error("not well-founded")]
    NotSettled(usize),
    /// Memory ran out.
    #[error("out of memory")]
    NoMemory,
}

use thiserror::Error;

/// Why a level was not opened or a name not declared. All is as it was before.
#[derive(Debug, Drop, Error)]
pub enum ScopeError {
    /// More levels would be open than 65,535.
    #[error("too many levels")]
    TooDeep,
    /// The name is live in its name space.
    #[error("name in use")]
    InUse,
    /// Memory ran out.
    #[error("out of memory")]
    NoMemory,
}

/// More levels were to be closed than are open.
#[derive(Debug, Drop, Error)]
#[error("too few levels")]
pub struct TooFew;

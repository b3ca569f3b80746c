use thiserror::Error;

/// A read, a put or a flush failed. The source or the sink counted the failure, and no byte was
/// given or taken by that call.
#[derive(Debug, Drop, Error)]
#[error("a read, a put or a flush failed")]
pub struct Failed;

/// The memory that was asked for is not there.
#[derive(Debug, Drop, Error)]
#[error("out of memory")]
pub struct NoMemory;

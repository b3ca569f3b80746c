use thiserror::Error;

/// Why a sort was not made. The store holds what it held before.
#[derive(Debug, Drop, Error)]
pub enum SortError {
    /// The sort would have more than 1,000 nodes.
    #[error("sort too large")]
    TooLarge,
    /// Memory ran out.
    #[error("out of memory")]
    NoMemory,
}

//! Where a text is refused.
use sig_table::Code;

/// Why and where a text is refused.
#[derive(Clone, Copy, Debug, PartialEq, Eq)]
pub struct Place {
    pub code: Code,
    /// The offset of a byte, from 0.
    pub at: u32,
}

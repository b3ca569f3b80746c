//! The function symbols on bit vectors: which names they have, how these are written, and their
//! ranks.
#![tactic(auto)]

mod index;
mod rank;
mod shape;
mod symbols;
#[cfg(test)]
mod tests;

pub use index::{Index, index_of};
pub use rank::{BvFault, BvResult, bv_rank};
pub use symbols::{bv_form, bv_name};

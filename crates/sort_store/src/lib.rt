//! Sorts as shared trees, each made once in its store, and sort schemas with their instances.
#![tactic(auto)]

mod binding;
mod copy;
mod equality;
mod error;
mod head;
mod instance;
mod matching;
mod sort_key;
mod sort_list;
mod sort_ref;
mod store;
#[cfg(test)]
mod tests;

pub use binding::Binding;
pub use equality::{same, same_tree};
pub use error::SortError;
pub use head::{DeclNo, Head, param};
pub use sort_list::Sorts;
pub use sort_ref::{MAX_NODES, SortRef};
pub use store::SortStore;

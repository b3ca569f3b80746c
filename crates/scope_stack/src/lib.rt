//! Scopes: which function and sort symbols are live, over the levels of the assertion stack.
#![tactic(auto)]

mod entry;
mod error;
mod laws;
mod name_space;
mod scopes;
#[cfg(test)]
mod tests;

pub use entry::{FunEntry, FunKind, SortEntry};
pub use error::{ScopeError, TooFew};
pub use laws::scope_laws;
pub use scopes::{MAX_LEVELS, Scopes};

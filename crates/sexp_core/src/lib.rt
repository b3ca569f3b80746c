//! S-expressions as flat trees, and the builder that makes them from tokens.
#![tactic(auto)]

mod builder;
mod laws;
mod parts;
mod tree;

pub use builder::{Builder, MAX_DEPTH, SexpError};
pub use laws::{reading_laws, tree_laws};
pub use parts::{Part, Trees};
pub use tree::{Item, Tree};

#[cfg(test)]
mod tests;

//! The rules on datatypes and on the patterns of `match`.
#![tactic(auto)]

mod check;
mod coverage;
mod error;
mod group;
mod pattern;
mod settled;

pub use check::check_group;
pub use coverage::covers;
pub use error::{DtError, TyError, fault};
pub use group::{args_of, own_sort};
pub use pattern::{check_pattern, constructor_named, variables_of};

#[cfg(test)]
mod tests;

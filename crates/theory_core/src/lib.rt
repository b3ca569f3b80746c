//! The function symbols of the theories Core, Ints and ArraysEx, with their ranks.
#![tactic(auto)]

mod arguments;
mod kind;
mod laws;
mod names;
mod rank_found;
mod ranks;
mod sorts;
mod symbols;
#[cfg(test)]
mod tests;

pub use laws::rank_laws;
pub use names::{theory_form, theory_name};
pub use rank_found::RankFound;
pub use ranks::{arrays_rank, core_rank, ints_rank};

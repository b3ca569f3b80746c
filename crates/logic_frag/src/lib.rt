//! The logics that a script can set, and the rules of their fragments.
#![tactic(auto)]

mod arrays;
mod binder;
mod broken;
mod coefficients;
mod declarations;
mod difference;
mod follow;
mod fragment;
mod known;
mod laws;
mod linear;
mod logic;
mod lookup;
mod scope;
mod seen;
mod sorts;
mod table;
#[cfg(test)]
mod tests;
mod walk;

pub use fragment::first_break;
pub use laws::fragment_laws;
pub use logic::{ArrayPart, Logic, NumPart};
pub use table::logic_of;

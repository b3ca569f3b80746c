//! The rules of the commands that declare datatypes: which group a command declares, or the first rule that it breaks.
#![tactic(auto)]

mod group;
mod laws;
mod live;
mod parts;
mod symbols;

pub use group::{type_group, type_single};
pub use laws::group_laws;
pub use live::declare_parts;
pub use symbols::{DatatypeSymbol, value_of};

#[cfg(test)]
mod tests;

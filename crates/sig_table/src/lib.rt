//! Names with codes: the codes of refusals, the theories, and tables of names whose rows are in
//! ascending order.
#![tactic(auto)]

mod code;
mod reserved_words;
mod table;
mod theories;

pub use code::Code;
pub use reserved_words::reserved;
pub use table::{SymRow, Table, row};
pub use theories::{NameForm, Theories};

#[cfg(test)]
mod tests;

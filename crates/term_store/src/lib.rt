//! Typed terms as shared trees, each made once in its store, the typed commands, and the script that
//! keeps them with its definitions.
#![tactic(auto)]

mod command;
mod command_depth;
mod defs;
mod depth;
mod equality;
mod key;
mod laws;
mod list;
mod parts;
mod script;
mod store;
mod term;
#[cfg(test)]
mod tests;
mod value;

pub use command::{Constructor, Datatype, Def, Field, TypedCommand};
pub use command_depth::depth_of_command;
pub use defs::Defs;
pub use equality::same_term;
pub use laws::text_laws;
pub use list::ListOf;
pub use parts::{Applied, Fun, Pattern};
pub use script::Script;
pub use store::TermStore;
pub use term::{Note, TermNode, TermRef};

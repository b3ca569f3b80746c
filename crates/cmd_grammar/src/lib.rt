//! The grammar of the commands of SMT-LIB 2.6: views of a tree, one for each nonterminal.
#![tactic(auto)]

mod command;
mod command_form;
mod command_kind;
mod command_word;
mod datatype_dec;
mod declaration_form;
mod fun_dec;
mod laws;
mod literal;
mod sort_dec;
mod tree_list;

pub use command::{GrError, RawCommand, read_command};
pub use command_kind::RawCommandKind;
pub use datatype_dec::{
    RawConDec, RawConDecs, RawDataDec, RawDataDecKind, RawDataDecs, RawSelector, RawSelectors,
};
pub use fun_dec::{RawFunDec, RawFunDecs, RawFunDef};
pub use laws::{grammar_laws, word_laws};
pub use literal::{RawLiteral, RawLiteralKind, RawLiterals};
pub use sort_dec::{RawSortDec, RawSortDecs};

#[cfg(test)]
mod kind_tests;
#[cfg(test)]
mod tests;

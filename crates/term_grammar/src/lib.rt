//! The grammar of the sorts and terms of SMT-LIB 2.6: views of a tree, one for each nonterminal.
#![tactic(auto)]

mod attribute;
mod binder;
mod form;
mod identifier;
mod judge;
mod laws;
mod list;
mod note;
mod parts;
mod pattern;
mod qualified;
mod sexpr;
mod sort;
mod term;
mod term_form;
mod words;

pub use attribute::{RawAttribute, RawAttributeKind, RawValue, RawValueKind};
pub use binder::{RawBinding, RawBindings, RawVariable, RawVariables, read_variables};
pub use identifier::{RawIdentifier, RawIdentifierKind, RawIndices};
pub use laws::{grammar_laws, word_laws};
pub use note::{RawNote, RawNoteKind, RawNotes};
pub use parts::{any_first, guard, is_empty, list_first, symbol_first, token_first};
pub use pattern::{RawCase, RawCases, RawPattern, RawPatternKind, RawSymbols};
pub use qualified::{RawQualified, RawQualifiedKind};
pub use sexpr::{RawSexpr, RawSexprKind, RawSexprs};
pub use sort::{RawSort, RawSortKind, RawSorts, read_sort, read_sorts};
pub use term::{RawTerm, RawTermKind, RawTerms, read_term, read_terms};
pub use term_form::{are_named, are_symbols, value_first};
pub use words::{
    FALSE, GLOBAL_DECLARATIONS, NOT, PAR, TRUE, is_key, is_keyword, is_numeral, is_reserved,
    is_string, is_symbol,
};

#[cfg(test)]
mod tests;

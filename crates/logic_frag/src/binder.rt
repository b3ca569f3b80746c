use lex_core::NameId;
use term_store::{ListOf, TermRef};

/// What binds variables.
#[derive(Drop)]
pub(crate) enum Binder {
    /// A term that is a `let`.
    Let(TermRef),
    /// A quantifier, or the parameters of a definition.
    Quantified(ListOf<NameId>),
    /// The pattern of a match case.
    Matched(ListOf<NameId>),
}

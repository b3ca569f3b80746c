use crate::scope::Scope;
use term_store::TermRef;

/// A term with the variables that it sees.
#[derive(Drop)]
pub(crate) struct Seen {
    pub term: TermRef,
    pub scope: Scope,
}

use lex_core::Names;
use sort_store::DeclNo;
use std::alloc::Global;
use term_store::Defs;

/// What the rules of a fragment look at beside a term: the names, the definitions that are kept, and
/// the numbers of those that the command itself makes.
#[derive(Drop)]
pub(crate) struct Known<'a> {
    pub alloc: Global,
    pub names: &'a Names,
    pub defs: &'a Defs,
    pub own: Vec<DeclNo>,
}

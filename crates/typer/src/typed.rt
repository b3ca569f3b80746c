//! Typed terms with their sorts, as a world makes them.
ghost use Rattle.std.specs.Prelude.{◌≡◌, ◌++◌, ◌∷◌, [], IfErr, IfOk, None, OnOk, Some};
ghost use Rattle.sort_store.specs.Interned as sorts;
ghost use Rattle.term_store.specs.Interned.{ArePartsInterned};
ghost use Rattle.term_store.specs.NumberedNodes.{numbered_node, term_of};
ghost use Rattle.term_store.specs.Term.{tree};
ghost use Rattle.typer.specs.Ready.{IsReady};
ghost use Rattle.typer.specs.SortSymbols.{or_else};
ghost use Rattle.typer.specs.Typed.{AreTyped, HasGrown, IsTyped};

use crate::made::copy_of;
use crate::world::World;
use dt_rules::TyError;
use lex_core::NameId;
use sort_store::SortRef;
use std::alloc::Global;
use term_store::{Pattern, TermNode, TermRef};

/// A typed term, and its sort as the world's store made it.
#[derive(Drop)]
pub(crate) struct TypedTerm {
    pub term: TermRef,
    pub sort: SortRef,
}

/// Typed terms with their sorts.
#[derive(Drop)]
pub(crate) struct TypedTerms {
    pub terms: Vec<TermRef>,
    pub sorts: Vec<SortRef>,
}

/// A variable of a let with its typed term.
#[derive(Drop)]
pub(crate) struct TypedBinding {
    pub name: NameId,
    pub value: TypedTerm,
}

/// A pattern of a match, and its variables with their sorts.
#[derive(Drop)]
pub(crate) struct TypedPattern {
    pub pattern: Pattern,
    pub variables: Vec<(NameId, SortRef)>,
}

/// A case of a match.
#[derive(Drop)]
pub(crate) struct TypedCase {
    pub pattern: Pattern,
    pub branch: TypedTerm,
}

/// Cases of a match, and the sort of the first branch.
#[derive(Drop)]
pub(crate) struct TypedCases {
    pub cases: Vec<(Pattern, TermRef)>,
    pub sort: Option<SortRef>,
}

/// The term with this node and this sort.
pub(crate) fn new_term(
    world: &mut World,
    node: TermNode,
    sort: SortRef,
) -> Result<TypedTerm, TyError>
    requires ready { IsReady world.old }
    requires parts { ArePartsInterned world.old.terms (numbered_node node) }
    requires sort { sorts.IsInterned world.old.sorts sort }
    ensures term { IfOk result (λ t. tree t.term ≡ term_of sort node) }
    ensures typed { IfOk result (IsTyped world.new) }
    ensures grown { HasGrown world.old world.new }
    ensures ready { IsReady world.new }
    ensures err { IfErr result (λ e. e ≡ TyError.NoMemory) }
{
    let copy = copy_of(&sort)?;
    match world.terms.make(node, copy) {
        Ok(term) => Ok(TypedTerm { term, sort }),
        Err(_) => Err(TyError::NoMemory),
    }
}

impl TypedTerms {
    /// No terms.
    pub fn new(alloc: Global) -> TypedTerms
        ensures terms { result.terms.items ≡ [] }
        ensures sorts { result.sorts.items ≡ [] }
    {
        TypedTerms {
            terms: Vec::new(alloc),
            sorts: Vec::new(alloc),
        }
    }

    /// Puts a term last.
    pub fn push(&mut self, typed: TypedTerm) -> Result<(), TyError>
        ensures terms { OnOk result (self.new.terms.items ≡ self.old.terms.items ++ typed.term ∷ []) }
        ensures sorts { OnOk result (self.new.sorts.items ≡ self.old.sorts.items ++ typed.sort ∷ []) }
        ensures err { IfErr result (λ e. e ≡ TyError.NoMemory) }
    {
        let TypedTerm { term, sort } = typed;
        match self.terms.push(term) {
            Ok(()) => {}
            Err(_) => return Err(TyError::NoMemory),
        }
        match self.sorts.push(sort) {
            Ok(()) => Ok(()),
            Err(_) => Err(TyError::NoMemory),
        }
    }
}

impl TypedCases {
    /// No cases.
    pub fn new(alloc: Global) -> TypedCases
        ensures cases { result.cases.items ≡ [] }
        ensures sort { result.sort ≡ None }
    {
        TypedCases {
            cases: Vec::new(alloc),
            sort: None,
        }
    }

    /// Puts a case last.
    pub fn push(&mut self, case: TypedCase) -> Result<(), TyError>
        ensures cases { OnOk result (self.new.cases.items ≡ self.old.cases.items ++ (case.pattern, case.branch.term) ∷ []) }
        ensures sort { OnOk result (self.new.sort ≡ or_else self.old.sort (Some case.branch.sort)) }
        ensures err { IfErr result (λ e. e ≡ TyError.NoMemory) }
    {
        let TypedCase { pattern, branch } = case;
        let TypedTerm { term, sort } = branch;
        match self.cases.push((pattern, term)) {
            Ok(()) => {}
            Err(_) => return Err(TyError::NoMemory),
        }
        if self.sort.is_none() {
            self.sort = Some(sort);
        }
        Ok(())
    }
}

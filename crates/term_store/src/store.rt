ghost use Rattle.std.specs.Prelude.{◌≡◌, ◌++◌, [], ◌∷◌, IfOk, OnErr, IfSome, IfNone, length};
ghost use Rattle.std.specs.List.{Contains};
ghost use Rattle.std.specs.Map.{values_of};
ghost use Rattle.term_store.specs.Interned.{IsInterned, ArePartsInterned, HasNoRepeats, Interns, Grows};
ghost use Rattle.term_store.specs.NumberedNodes.{numbered_node, term_of};
ghost use Rattle.term_store.specs.Outline.{outline, IsMadeOf};
ghost use Rattle.term_store.specs.Term.{tree, term};
ghost use Rattle.term_store.specs.TermKeys.{IsKeyedStore, IsKeyFor, IsNewKey, LacksMade};

use crate::equality::is_made_of;
use crate::key::{TermKey, find, insert_new, key_of};
use crate::term::{TermNode, TermRef, new_term};
use indexmap::IndexMap;
use io_core::NoMemory;
use sort_store::SortRef;
use std::alloc::{AllocError, Global};
use std::marker::Model;

/// Terms, each made once. Contracts see a store as the list of its trees, in the order in which they
/// were made; the first has the number 0. What holds terms of a store is to be dropped before it, since
/// the store gives its terms up last to first, so that no drop runs deep.
pub struct TermStore {
    alloc: Global,
    table: IndexMap<TermKey, TermRef>,
}

// Last to first, so that no drop runs deep.
impl Drop for TermStore {
    fn drop(self) {
        let TermStore {
            alloc: _,
            mut table,
        } = self;
        while let Some(_entry) = table.pop() {}
    }
}

impl Model for TermStore {
    ghost use Rattle.std.specs.Prelude.{List};
    ghost use Rattle.std.specs.Coded.{codes, coded_list};
    ghost use Rattle.lex_core.specs.contracts.token.TokKind as tok_kind;
    ghost use Rattle.sexp_core.specs.Items.{sexp_code};
    ghost use Rattle.sort_store.specs.Coded.{sort_code};
    ghost use Rattle.sort_store.specs.contracts.head.DeclNo as decl_no;
    ghost use Rattle.term_store.specs.Term.{PlainTerm};
    ghost use Rattle.term_store.specs.Coded.{plain_term_code};
    ghost use Rattle.term_store.specs.contracts.parts.Applied as applied;
    ghost use Rattle.term_store.specs.contracts.parts.Pattern as patterns;

    ghost Value = { List PlainTerm };

    ghost coded = { coded_list (plain_term_code (Prim.hlevel (codes, sort_code, sexp_code, tok_kind.the_row.coded, applied.the_row.coded, patterns.the_row.coded, decl_no.the_row.coded))) };

    ghost use Rattle.term_store.specs.TermKeys.{stored_trees, IsKeyedStore};

    ghost view = { λ a. stored_trees a.table.entries };

    ghost invariant = { λ a. IsKeyedStore a.table.entries };
}

// The term that has this node and this sort. Where there is none, the key becomes one for a new term.
#[tactic(auto, using(crate::proofs::KeyedTerms::search_words))]
fn find_made<'a>(
    table: &'a IndexMap<TermKey, TermRef>,
    key: &mut TermKey,
    node: &TermNode,
    sort: &SortRef,
) -> Option<&'a TermRef>
    requires store { IsKeyedStore table.now.entries }
    requires key { IsKeyFor key.old (outline (numbered_node node.now)) }
    requires first { key.old.ordinal ≡ 0 }
    ensures found { IfSome result (λ t. Contains (values_of table.now.entries) t.now) }
    ensures made { IfSome result (λ t. IsMadeOf t.now node.now sort.now) }
    ensures missing { IfNone result (LacksMade table.now.entries node.now sort.now) }
    ensures new_key { IfNone result (IsNewKey table.now.entries key.new (outline (numbered_node node.now))) }
{
    while let Some(term) = find(table, key) {
        if is_made_of(term, node, sort) {
            return Some(term);
        }
        prove!(key.ordinal < table.len());
        key.ordinal += 1;
    }
    None
}

// Makes a term with a new key.
fn add_entry(
    table: &mut IndexMap<TermKey, TermRef>,
    alloc: Global,
    key: TermKey,
    node: TermNode,
    sort: SortRef,
) -> Result<TermRef, AllocError>
    requires { IsNewKey table.old.entries key (outline (numbered_node node)) }
    ensures term { IfOk result (λ t. t ≡ term (length table.old.entries) sort (numbered_node node)) }
    ensures put { IfOk result (λ t. table.new.entries ≡ table.old.entries ++ (key, t) ∷ []) }
    ensures err { OnErr result (table.new.entries ≡ table.old.entries) }
{
    let term = new_term(alloc, table.len(), node, sort)?;
    insert_new(table, key, term.clone()?)?;
    Ok(term)
}

impl TermStore {
    /// A store of no terms.
    pub fn new(alloc: Global) -> TermStore
        ensures { result ≡ [] }
    {
        TermStore {
            alloc,
            table: IndexMap::new(alloc),
        }
    }

    /// How many terms the store made.
    pub fn count(&self) -> usize
        ensures { result ≡ length self.now }
    {
        self.table.len()
    }

    /// The term with this node and this sort, where the store made the terms in the node. Sorts are
    /// compared as trees, and may be of any sort stores. The only error is that memory runs out; it
    /// leaves the store as it was.
    #[tactic(auto, using(crate::proofs::InternedTerms::grown_words))]
    pub fn make(&mut self, node: TermNode, sort: SortRef) -> Result<TermRef, NoMemory>
        requires { ArePartsInterned self.old (numbered_node node) }

        ensures tree { IfOk result (λ t. tree t ≡ term_of sort node) }
        ensures interned { IfOk result (λ t. IsInterned self.new t) }
        ensures interns { IfOk result (λ t. Interns self.old self.new (tree t)) }
        ensures grows { Grows self.old self.new }
        ensures distinct { HasNoRepeats self.new }
        ensures err { OnErr result (self.new ≡ self.old) }
    {
        let _table = &self.table;
        match self.intern(node, sort) {
            Ok(term) => Ok(term),
            Err(_) => Err(NoMemory),
        }
    }

    fn intern(&mut self, node: TermNode, sort: SortRef) -> Result<TermRef, AllocError>
        requires { ArePartsInterned self.old (numbered_node node) }
        ensures tree { IfOk result (λ t. tree t ≡ term_of sort node) }
        ensures interned { IfOk result (λ t. IsInterned self.new t) }
        ensures interns { IfOk result (λ t. Interns self.old self.new (tree t)) }
        ensures distinct { HasNoRepeats self.new }
        ensures err { OnErr result (self.new ≡ self.old) }
    {
        let mut key = key_of(self.alloc, &node)?;
        if let Some(term) = find_made(&self.table, &mut key, &node, &sort) {
            return term.clone();
        }
        let term = add_entry(&mut self.table, self.alloc, key, node, sort)?;
        Ok(term)
    }
}

ghost use Rattle.std.specs.Prelude.{◌≡◌, ◌+◌, ◌<◌, ◌≤◌, ◌↔◌, ◌++◌, [], ◌∷◌, IsNone, IfOk, OnErr, IsErrOf, IfSome, IfNone, map, take};
ghost use Rattle.std.specs.List.{Contains};
ghost use Rattle.sort_store.specs.Size.{size_of_all};
ghost use Rattle.sort_store.specs.Interned.{IsInterned, AllInterned, HasNoRepeats, Interns};
ghost use Rattle.sort_store.specs.Tree as spec;
ghost use Rattle.sort_store.specs.Tree.{tree, sort, sorts};

use crate::error::SortError;
use crate::head::Head;
use crate::sort_key::{SortKey, find, insert_new, numbers_of};
use crate::sort_ref::{MAX_NODES, SortRef, new_node};
use indexmap::IndexMap;
use std::alloc::{AllocError, Global};
use std::marker::Model;

/// Sorts, each made once. Contracts see a store as the list of its trees, in the order in which they
/// were made; the first has the number 0.
pub struct SortStore {
    pub(crate) alloc: Global,
    pub(crate) table: IndexMap<SortKey, SortRef>,
}

// Last to first, so that no drop runs deep.
impl Drop for SortStore {
    fn drop(self) {
        let SortStore {
            alloc: _,
            mut table,
        } = self;
        while let Some(_entry) = table.pop() {}
    }
}

impl Model for SortStore {
    ghost use Rattle.std.specs.Prelude.{List, map};
    ghost use Rattle.std.specs.Coded.{coded_list};
    ghost use Rattle.sort_store.specs.Tree.{Sort, tree};
    ghost use Rattle.sort_store.specs.Coded.{sort_code};
    ghost use Rattle.indexmap.specs.IndexMap.{values};
    ghost use Rattle.sort_store.specs.SortKeys.{IsKeyedStore};

    ghost Value = { List Sort };

    ghost coded = { coded_list sort_code };

    ghost view = { λ a. map tree (values a.table) };

    ghost invariant = { λ a. IsKeyedStore a.table.entries };
}

// How many nodes a sort with these arguments has, unless there are too many.
pub(crate) fn count_nodes(args: &[SortRef]) -> Option<u32>
    ensures none { IsNone result ↔ (1000 ≤ size_of_all args.now) }
    ensures some { IfSome result (λ n. n ≡ size_of_all args.now + 1) }
    ensures small { IfSome result (λ n. n ≤ 1000) }
{
    let mut count = 1;
    for arg in args {
        count += arg.node_count();
        if count > MAX_NODES {
            return None;
        }
    }
    Some(count)
}

impl SortStore {
    /// A store of no sorts.
    pub fn new(alloc: Global) -> SortStore
        ensures { result ≡ [] }
    {
        SortStore {
            alloc,
            table: IndexMap::new(alloc),
        }
    }

    /// The sort with this head and these arguments, which the store made. The errors are `TooLarge`,
    /// exactly where the sort has more than 1,000 nodes, and that memory runs out; either leaves the
    /// store as it was.
    #[tactic(auto, using(crate::proofs::NewEntries::make_words))]
    pub fn make(&mut self, head: Head, args: &[SortRef]) -> Result<SortRef, SortError>
        requires { AllInterned self.old args.now }

        ensures tree { IfOk result (λ r. tree r ≡ sort head (sorts (map tree args.now))) }
        ensures interned { IfOk result (λ r. IsInterned self.new r) }
        ensures interns { IfOk result (λ r. Interns self.old self.new (tree r)) }
        ensures distinct { HasNoRepeats self.new }

        ensures too_large { IsErrOf result SortError.TooLarge ↔ (1000 < spec.node_count (sort head (sorts (map tree args.now)))) }
        ensures err { OnErr result (self.new ≡ self.old) }
    {
        let _table = &self.table;
        let Some(node_count) = count_nodes(args) else {
            return Err(SortError::TooLarge);
        };
        match self.intern(head, args, node_count) {
            Ok(sort) => Ok(sort),
            Err(_) => Err(SortError::NoMemory),
        }
    }

    // The sort with this head and these arguments, which are few enough.
    #[tactic(auto, using(crate::proofs::NewEntries::intern_words))]
    pub(crate) fn intern(
        &mut self,
        head: Head,
        args: &[SortRef],
        node_count: u32,
    ) -> Result<SortRef, AllocError>
        requires interned { AllInterned self.old args.now }
        requires count { node_count ≡ size_of_all args.now + 1 }
        requires small { node_count ≤ 1000 }
        ensures tree { IfOk result (λ r. tree r ≡ sort head (sorts (map tree args.now))) }
        ensures interned { IfOk result (λ r. IsInterned self.new r) }
        ensures interns { IfOk result (λ r. Interns self.old self.new (tree r)) }
        ensures distinct { HasNoRepeats self.new }
        ensures err { OnErr result (self.new ≡ self.old) }
    {
        let key = SortKey {
            head,
            args: numbers_of(self.alloc, args)?,
        };
        if let Some(sort) = self.find_interned(&key, args) {
            return sort.clone();
        }
        self.add_entry(key, args, node_count)
    }

    // The reference with the key's head and these arguments, if the store made it.
    fn find_interned(&self, key: &SortKey, args: &[SortRef]) -> Option<&SortRef>
        requires interned { AllInterned self.now args.now }
        requires numbers { key.now.args.items ≡ map spec.number args.now }
        ensures found { IfSome result (λ r. tree r.now ≡ sort key.now.head (sorts (map tree args.now))) }
        ensures interned { IfSome result (λ r. IsInterned self.now r.now) }
        ensures missing { IfNone result (¬ Contains self.now (sort key.now.head (sorts (map tree args.now)))) }
        ensures distinct { HasNoRepeats self.now }
    {
        find(&self.table, key)
    }

    // Makes a sort that the store lacks.
    fn add_entry(
        &mut self,
        key: SortKey,
        args: &[SortRef],
        node_count: u32,
    ) -> Result<SortRef, AllocError>
        requires interned { AllInterned self.old args.now }
        requires numbers { key.args.items ≡ map spec.number args.now }
        requires count { node_count ≡ size_of_all args.now + 1 }
        requires small { node_count ≤ 1000 }
        requires absent { ¬ Contains self.old (sort key.head (sorts (map tree args.now))) }
        ensures tree { IfOk result (λ r. tree r ≡ sort key.head (sorts (map tree args.now))) }
        ensures interned { IfOk result (λ r. IsInterned self.new r) }
        ensures pushes { IfOk result (λ r. self.new ≡ self.old ++ tree r ∷ []) }
        ensures distinct { HasNoRepeats self.new }
        ensures err { OnErr result (self.new ≡ self.old) }
    {
        let sort = new_node(self.alloc, self.table.len(), key.head, args, node_count)?;
        insert_new(&mut self.table, key, sort.clone()?)?;
        Ok(sort)
    }

    // Keeps the first entries alone, so that the store is what it was when it had that many.
    pub(crate) fn keep_first(&mut self, len: usize)
        ensures { self.new ≡ take len self.old }
    {
        self.table.truncate(len);
    }
}

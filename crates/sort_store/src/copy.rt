ghost use Rattle.std.specs.Prelude.{◌≡◌, IfOk, OnOk, OnErr};
ghost use Rattle.sort_store.specs.Interned.{IsInterned, HasNoRepeats, Grows};
ghost use Rattle.sort_store.specs.Tree.{tree};

use crate::sort_ref::SortRef;
use crate::store::SortStore;
use io_core::NoMemory;
use std::alloc::AllocError;

impl SortStore {
    /// This store's sort with the tree of a sort that any store made. The only error is that memory
    /// runs out; it leaves the store as it was.
    #[tactic(auto, using(crate::proofs::GrownStores::grown_words))]
    pub fn copy(&mut self, sort: &SortRef) -> Result<SortRef, NoMemory>
        ensures tree { IfOk result (λ r. tree r ≡ tree sort.now) }
        ensures interned { IfOk result (λ r. IsInterned self.new r) }
        ensures grows { OnOk result (Grows self.old self.new) }
        ensures distinct { HasNoRepeats self.new }
        ensures err { OnErr result (self.new ≡ self.old) }
    {
        let len = self.table.len();
        match self.copy_tree(sort) {
            Ok(copy) => {
                let _table = &self.table;
                Ok(copy)
            }
            Err(_) => {
                self.keep_first(len);
                Err(NoMemory)
            }
        }
    }

    // The same, which may leave parts behind where memory runs out.
    #[tactic(auto, using(crate::proofs::GrownStores::grown_words))]
    fn copy_tree(&mut self, sort: &SortRef) -> Result<SortRef, AllocError>
        ensures tree { IfOk result (λ r. tree r ≡ tree sort.now) }
        ensures interned { IfOk result (λ r. IsInterned self.new r) }
        ensures grows { Grows self.old self.new }
    {
        let mut args = Vec::new(self.alloc);
        for arg in &sort.shared.args {
            let copy = self.copy_tree(arg)?;
            args.push(copy)?;
        }
        self.intern(sort.shared.head, &args, sort.shared.node_count)
    }
}

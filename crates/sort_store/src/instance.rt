ghost use Rattle.std.specs.Prelude.{◌≡◌, ◌<◌, ◌≤◌, ◌↔◌, IfOk, OnOk, OnErr, IsErrOf, length, map, min};
ghost use Rattle.sort_store.specs.Instance.{inst, ParamsBelow};
ghost use Rattle.sort_store.specs.Interned.{IsInterned, AllInterned, HasNoRepeats, Grows};
ghost use Rattle.sort_store.specs.Tree as spec;
ghost use Rattle.sort_store.specs.Tree.{tree};

use crate::error::SortError;
use crate::head::param;
use crate::sort_ref::{MAX_NODES, SortRef};
use crate::store::{SortStore, count_nodes};
use std::alloc::AllocError;

// How many nodes an instance has, or 1001 where it has more. This takes no memory.
#[tactic(auto, using(crate::proofs::InstanceLaws::inst_words))]
fn instance_size(schema: &SortRef, args: &[SortRef]) -> u32
    requires params { ParamsBelow (length args.now) (tree schema.now) }
    ensures size { result ≡ min 1001 (spec.node_count (inst (map tree args.now) (tree schema.now))) }
{
    if let Some(i) = param(schema.shared.head) {
        return args[i as usize].node_count();
    }
    let mut size = 1;
    for part in &schema.shared.args {
        size = (size + instance_size(part, args)).min(1001);
    }
    size
}

impl SortStore {
    /// The schema with each parameter replaced by the argument at its number; `args` has an entry
    /// for each parameter of the schema. The errors are `TooLarge`, exactly where the instance has
    /// more than 1,000 nodes, and that memory runs out; either leaves the store as it was.
    #[tactic(auto, using(crate::proofs::GrownStores::grown_words))]
    pub fn inst(&mut self, schema: &SortRef, args: &[SortRef]) -> Result<SortRef, SortError>
        requires interned { AllInterned self.old args.now }
        requires params { ParamsBelow (length args.now) (tree schema.now) }

        ensures tree { IfOk result (λ r. tree r ≡ inst (map tree args.now) (tree schema.now)) }
        ensures interned { IfOk result (λ r. IsInterned self.new r) }
        ensures grows { OnOk result (Grows self.old self.new) }
        ensures distinct { HasNoRepeats self.new }

        ensures too_large { IsErrOf result SortError.TooLarge ↔ (1000 < spec.node_count (inst (map tree args.now) (tree schema.now))) }
        ensures err { OnErr result (self.new ≡ self.old) }
    {
        let len = self.table.len();
        if instance_size(schema, args) > MAX_NODES {
            return Err(SortError::TooLarge);
        }
        match self.inst_tree(schema, args) {
            Ok(sort) => {
                let _table = &self.table;
                Ok(sort)
            }
            Err(_) => {
                self.keep_first(len);
                Err(SortError::NoMemory)
            }
        }
    }

    // The same for an instance that is small enough, which may leave parts behind where memory runs
    // out.
    #[tactic(auto, using(crate::proofs::GrownStores::grown_words, crate::proofs::InstanceLaws::all_interned_at, crate::proofs::InstanceLaws::params_at))]
    fn inst_tree(&mut self, schema: &SortRef, args: &[SortRef]) -> Result<SortRef, AllocError>
        requires interned { AllInterned self.old args.now }
        requires params { ParamsBelow (length args.now) (tree schema.now) }
        requires small { spec.node_count (inst (map tree args.now) (tree schema.now)) ≤ 1000 }
        ensures tree { IfOk result (λ r. tree r ≡ inst (map tree args.now) (tree schema.now)) }
        ensures interned { IfOk result (λ r. IsInterned self.new r) }
        ensures grows { Grows self.old self.new }
    {
        if let Some(i) = param(schema.shared.head) {
            return args[i as usize].clone();
        }
        let mut list = Vec::new(self.alloc);
        for part in &schema.shared.args {
            let instance = self.inst_tree(part, args)?;
            list.push(instance)?;
        }
        match count_nodes(&list) {
            Some(count) => self.intern(schema.shared.head, &list, count),
            None => unreachable!(),
        }
    }
}

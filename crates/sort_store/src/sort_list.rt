ghost use Rattle.std.specs.Prelude.{◌≡◌, ◌++◌, ◌∷◌, [], OnOk, OnErr};

use crate::sort_ref::SortRef;
use io_core::NoMemory;
use std::alloc::Global;
use std::marker::Model;

/// A list of sorts.
#[derive(Drop)]
pub struct Sorts {
    items: Vec<SortRef>,
}

impl Model for Sorts {
    ghost use Rattle.std.specs.Prelude.{List};
    ghost use Rattle.std.specs.Coded.{coded_list};
    ghost use Rattle.sort_store.specs.Tree.{NumberedSort};
    ghost use Rattle.sort_store.specs.Coded.{numbered_code};

    ghost Value = { List NumberedSort };

    ghost coded = { coded_list numbered_code };

    ghost view = { λ a. a.items.items };
}

impl Sorts {
    /// A list of no sorts.
    pub fn new(alloc: Global) -> Sorts
        ensures { result ≡ [] }
    {
        Sorts {
            items: Vec::new(alloc),
        }
    }

    /// Puts a sort last. The only error is that memory runs out; it leaves the list as it was.
    pub fn push(&mut self, item: SortRef) -> Result<(), NoMemory>
        ensures ok { OnOk result (self.new ≡ self.old ++ item ∷ []) }
        ensures err { OnErr result (self.new ≡ self.old) }
    {
        match self.items.push(item) {
            Ok(()) => Ok(()),
            Err(_) => Err(NoMemory),
        }
    }

    /// The sorts in order.
    pub fn as_slice(&self) -> &[SortRef]
        ensures { result.now ≡ self.now }
    {
        &self.items
    }
}

ghost use Rattle.std.specs.Prelude.{◌≡◌, ◌<◌, IfOk, OnOk, Some, None, length, replicate, set};
ghost use Rattle.std.specs.Option.{option_copied};
ghost use Rattle.sort_store.specs.Binding.{value_at};

use crate::sort_ref::{SortRef, item_at};
use io_core::NoMemory;
use std::alloc::{AllocError, Global};
use std::marker::Model;

/// Sorts for some parameters of a schema, which are numbered from 0.
#[derive(Drop)]
pub struct Binding {
    slots: Vec<Option<SortRef>>,
}

impl Model for Binding {
    ghost use Rattle.std.specs.Prelude.{List, Option};
    ghost use Rattle.std.specs.Coded.{coded_list, coded_option};
    ghost use Rattle.sort_store.specs.Tree.{NumberedSort};
    ghost use Rattle.sort_store.specs.Coded.{numbered_code};

    ghost Value = { List (Option NumberedSort) };

    ghost coded = { coded_list (coded_option numbered_code) };

    ghost view = { λ a. a.slots.items };
}

// Slots with no value.
#[tactic(auto, using(crate::proofs::MatchingLaws::replicate_push))]
fn empty_slots(alloc: Global, count: usize) -> Result<Vec<Option<SortRef>>, AllocError>
    ensures { IfOk result (λ slots. slots.items ≡ replicate count None) }
{
    let mut slots = Vec::new(alloc);
    for i in 0..count {
        slots.push(None)?;
    }
    Ok(slots)
}

impl Binding {
    /// A binding of `count` parameters, of which none has a value. The only error is that memory
    /// runs out.
    pub fn new(alloc: Global, count: usize) -> Result<Binding, NoMemory>
        ensures { IfOk result (λ b. b ≡ replicate count None) }
    {
        match empty_slots(alloc, count) {
            Ok(slots) => Ok(Binding { slots }),
            Err(_) => Err(NoMemory),
        }
    }

    /// The value of a parameter; none where it is not bound, or is not below the binding's count.
    #[tactic(auto, using(crate::proofs::MatchingLaws::get_words))]
    pub fn get(&self, i: usize) -> Option<&SortRef>
        ensures { option_copied result ≡ value_at self.now i }
    {
        match item_at(&self.slots, i) {
            Some(slot) => match slot {
                Some(value) => Some(value),
                None => None,
            },
            None => None,
        }
    }

    // Gives a parameter a value.
    pub(crate) fn put(&mut self, i: usize, sort: &SortRef) -> Result<(), AllocError>
        requires { i < length self.old }
        ensures { OnOk result (self.new ≡ set self.old i (Some sort.now)) }
    {
        let value = sort.clone()?;
        self.slots[i] = Some(value);
        Ok(())
    }
}

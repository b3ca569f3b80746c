//! What the sorting rules look at.
ghost use Rattle.std.specs.Prelude.{◌≡◌, [], IfOk, false};
ghost use Rattle.lex_core.specs.NameTable.{fixed_texts};
ghost use Rattle.scope_stack.specs.Environment.{empty};
ghost use Rattle.term_store.specs.Script.{empty_script};
ghost use Rattle.typer.specs.Ready.{IsReady};

use io_core::NoMemory;
use lex_core::{NameId, Names};
use scope_stack::Scopes;
use sig_table::Theories;
use sort_store::{DeclNo, SortStore};
use std::alloc::Global;
use term_store::{Script, TermStore};

/// What the sorting rules look at: the accepted commands with what they define, the live declarations,
/// the terms and sorts made so far, the names, the theories of the logic, and which names the command
/// has declared. What holds terms and sorts stands above the store that made them, so that no drop runs
/// deep.
#[derive(Drop)]
pub struct World {
    pub script: Script,
    pub scopes: Scopes,
    pub terms: TermStore,
    pub sorts: SortStore,
    pub names: Names,
    pub theories: Theories,
    /// The names that the command has declared so far: its own, then those that `:named` gave.
    pub seen: Vec<NameId>,
    /// The number of the next name that the command declares.
    pub next: DeclNo,
    pub(crate) alloc: Global,
}

impl World {
    /// A world of no commands and no declarations, and of Core alone. The only error is that memory runs out.
    pub fn new(alloc: Global) -> Result<World, NoMemory>
        ensures names { IfOk result (λ w. w.names ≡ fixed_texts) }
        ensures script { IfOk result (λ w. w.script ≡ empty_script) }
        ensures sorts { IfOk result (λ w. w.sorts ≡ []) }
        ensures terms { IfOk result (λ w. w.terms ≡ []) }
        ensures scopes { IfOk result (λ w. w.scopes ≡ empty) }
        ensures theories { IfOk result (λ w. w.theories ≡ record { ints = false; arrays = false; bits = false }) }
        ensures seen { IfOk result (λ w. w.seen.items ≡ []) }
        ensures next { IfOk result (λ w. w.next.0 ≡ 0) }
        ensures ready { IfOk result (λ w. IsReady w) }
    {
        let theories = Theories {
            ints: false,
            arrays: false,
            bits: false,
        };
        let names = Names::new(alloc)?;
        Ok(World {
            script: Script::new(alloc),
            scopes: Scopes::new(alloc),
            terms: TermStore::new(alloc),
            sorts: SortStore::new(alloc),
            names,
            theories,
            seen: Vec::new(alloc),
            next: DeclNo(0),
            alloc,
        })
    }
}

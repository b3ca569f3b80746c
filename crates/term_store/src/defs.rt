ghost use Rattle.std.specs.Prelude.{◌≡◌, ◌++◌, ◌∷◌, [], None, OnOk, OnErr};
ghost use Rattle.std.specs.Option.{option_copied};
ghost use Rattle.std.specs.Map.{lookup};
ghost use Rattle.term_store.specs.Definitions.{no_definitions, def_at, datatype_at, IsUnused, with_def, with_datatype};
ghost use Rattle.term_store.specs.DefinitionTables.{is_number};

use crate::command::{Datatype, Def};
use indexmap::IndexMap;
use io_core::NoMemory;
use sort_store::DeclNo;
use std::alloc::{AllocError, Global};
use std::marker::Model;

/// Definitions and datatypes by declaration number. Contracts see the lists of both, in the order in
/// which they were kept.
#[derive(Drop)]
pub struct Defs {
    defs: IndexMap<u32, Def>,
    datatypes: IndexMap<u32, Datatype>,
}

impl Model for Defs {
    ghost use Rattle.std.specs.Coded.{codes};
    ghost use Rattle.std.specs.Map.{values_of};
    ghost use Rattle.term_store.specs.Definitions.{Definitions};
    ghost use Rattle.term_store.specs.contracts.command.Def as def;
    ghost use Rattle.term_store.specs.contracts.command.Datatype as datatype;

    ghost Value = { Definitions };

    ghost coded = { Prim.hlevel (codes, def.the_row.coded, datatype.the_row.coded) };

    ghost use Rattle.term_store.specs.DefinitionTables.{AreDefs, AreDatatypes};

    ghost view = { λ a. record { defs = values_of a.defs.entries; datatypes = values_of a.datatypes.entries } };

    ghost invariant = { λ a. AreDefs a.defs.entries × AreDatatypes a.datatypes.entries };
}

// The entry under this number.
fn find_in<T>(table: &IndexMap<u32, T>, no: u32) -> Option<&T>
    ensures { option_copied result ≡ lookup (is_number no) table.now.entries }
{
    table.get(&no)
}

// Puts an entry of a new number last.
fn put<T: Drop>(table: &mut IndexMap<u32, T>, no: u32, entry: T) -> Result<(), AllocError>
    requires { lookup (is_number no) table.old.entries ≡ None }
    ensures ok { OnOk result (table.new.entries ≡ table.old.entries ++ (no, entry) ∷ []) }
    ensures err { OnErr result (table.new.entries ≡ table.old.entries) }
{
    match table.insert(no, entry) {
        Ok(_) => Ok(()),
        Err(_) => Err(AllocError),
    }
}

impl Defs {
    /// Nothing is kept.
    pub fn new(alloc: Global) -> Defs
        ensures { result ≡ no_definitions }
    {
        Defs {
            defs: IndexMap::new(alloc),
            datatypes: IndexMap::new(alloc),
        }
    }

    /// Keeps a definition. The only error is that memory runs out; it leaves all as it was.
    #[tactic(auto, using(crate::proofs::KeptByNumber::kept_words))]
    pub fn keep_def(&mut self, def: Def) -> Result<(), NoMemory>
        requires { IsUnused self.old def.no }
        ensures ok { OnOk result (self.new ≡ with_def self.old def) }
        ensures err { OnErr result (self.new ≡ self.old) }
    {
        match put(&mut self.defs, def.no.0, def) {
            Ok(()) => Ok(()),
            Err(_) => Err(NoMemory),
        }
    }

    /// Keeps a datatype. The only error is that memory runs out; it leaves all as it was.
    #[tactic(auto, using(crate::proofs::KeptByNumber::kept_words))]
    pub fn keep_datatype(&mut self, datatype: Datatype) -> Result<(), NoMemory>
        requires { IsUnused self.old datatype.no }
        ensures ok { OnOk result (self.new ≡ with_datatype self.old datatype) }
        ensures err { OnErr result (self.new ≡ self.old) }
    {
        match put(&mut self.datatypes, datatype.no.0, datatype) {
            Ok(()) => Ok(()),
            Err(_) => Err(NoMemory),
        }
    }

    /// The definition that is kept under this number.
    #[tactic(auto, using(crate::proofs::KeptByNumber::kept_words))]
    pub fn def(&self, no: DeclNo) -> Option<&Def>
        ensures { option_copied result ≡ def_at self.now no }
    {
        find_in(&self.defs, no.0)
    }

    /// The datatype that is kept under this number.
    #[tactic(auto, using(crate::proofs::KeptByNumber::kept_words))]
    pub fn datatype(&self, no: DeclNo) -> Option<&Datatype>
        ensures { option_copied result ≡ datatype_at self.now no }
    {
        find_in(&self.datatypes, no.0)
    }
}

ghost use Rattle.std.specs.Prelude.{◌≡◌, slice_get};
ghost use Rattle.std.specs.Option.{option_copied};

use crate::command::TypedCommand;
use crate::defs::Defs;
use io_core::NoMemory;
use std::alloc::Global;
use std::marker::Model;

/// The accepted commands of a script, in order, with the definitions and datatypes that it keeps. It is
/// to be dropped before the stores of its terms and sorts, so that no drop runs deep.
#[derive(Drop)]
pub struct Script {
    commands: Vec<TypedCommand>,
    defs: Defs,
}

impl Model for Script {
    ghost use Rattle.std.specs.Coded.{codes};
    ghost use Rattle.term_store.specs.Script.{Kept};
    ghost use Rattle.term_store.specs.contracts.command.TypedCommand as command;
    ghost use Rattle.term_store.specs.contracts.defs.Defs as definitions;

    ghost Value = { Kept };

    ghost coded = { Prim.hlevel (codes, command.the_row.coded, definitions.the_row.coded) };

    ghost view = { λ a. record { commands = a.commands.items; defs = a.defs } };
}

fn item_at<T>(items: &[T], i: usize) -> Option<&T>
    ensures { option_copied result ≡ slice_get items.now i }
{
    items.get(i)
}

impl Script {
    ghost use Rattle.std.specs.Prelude.{◌≡◌, ◌++◌, ◌∷◌, [], ◌↔◌, IsTrue, OnOk, OnErr, length, slice_get};
    ghost use Rattle.std.specs.Option.{option_copied};
    ghost use Rattle.std.specs.Borrow.{sem};
    ghost use Rattle.term_store.specs.Script.{empty_script};
    ghost use Rattle.term_store.specs.LentDefs.{LendsDefs};

    /// A script of no commands, with nothing kept.
    pub fn new(alloc: Global) -> Script
        ensures { result ≡ empty_script }
    {
        Script {
            commands: Vec::new(alloc),
            defs: Defs::new(alloc),
        }
    }

    /// Puts a command last. The only error is that memory runs out; it leaves all as it was.
    pub fn push(&mut self, command: TypedCommand) -> Result<(), NoMemory>
        ensures ok { OnOk result (self.new ≡ record { commands = self.old.commands ++ command ∷ []; defs = self.old.defs }) }
        ensures err { OnErr result (self.new ≡ self.old) }
    {
        match self.commands.push(command) {
            Ok(()) => Ok(()),
            Err(_) => Err(NoMemory),
        }
    }

    /// How many commands there are.
    pub fn len(&self) -> usize
        ensures { result ≡ length self.now.commands }
    {
        self.commands.len()
    }

    /// Whether there are none.
    pub fn is_empty(&self) -> bool
        ensures { IsTrue result ↔ (self.now.commands ≡ []) }
    {
        self.commands.is_empty()
    }

    /// The command at a place, counted from 0; none past the last one.
    pub fn command(&self, i: usize) -> Option<&TypedCommand>
        ensures { option_copied result ≡ slice_get self.now.commands i }
    {
        item_at(&self.commands, i)
    }

    /// The definitions and datatypes.
    pub fn defs(&self) -> &Defs
        ensures { result.now ≡ self.now.defs }
    {
        &self.defs
    }

    /// The same, to keep more of them.
    pub fn defs_mut(&mut self) -> &mut Defs
        ensures* lends { sem 𝓛 (LendsDefs self.entry result) }
        ensures now { result.now ≡ self.old.defs }
    {
        &mut self.defs
    }
}

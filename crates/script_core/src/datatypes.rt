//! What the commands that declare datatypes make of the environment (SMT-LIB 2.6, section 4.2.3).
ghost use Rattle.std.specs.Prelude.{◌≡◌, ◌<◌, IfErr, IfOk, IfSome, OnErr, OnOk, length, map};
ghost use Rattle.std.specs.Option.{IsSome};
ghost use Rattle.std.specs.List.{All};
ghost use Rattle.dt_rules.specs.Groups.{IsReadyGroup};
ghost use Rattle.cmd_grammar.specs.Commands as command;
ghost use Rattle.term_store.specs.Command.{PlainDatatype, plain_constructor, plain_datatype};
ghost use Rattle.term_store.specs.Declarations.{joined, of_constructor, of_group};
ghost use Rattle.typer.specs.FunctionSymbols.{datatypes_of};
ghost use Rattle.datatype_commands.specs.Answers.{HasReadyParts, HaveNames};
ghost use Rattle.datatype_commands.specs.KnownDatatypes.{KnowsDatatypes};
ghost use Rattle.script_core.specs.Checking.{IsReadyScope, environment_of};
ghost use Rattle.script_core.specs.Effects.{BeginsNames, DeclaresNoName, MeetsParts, seen_by};
ghost use Rattle.script_core.specs.Environment.{signature_in};
ghost use Rattle.script_core.specs.Keeping.{EachDatatypeUnused, KeepsBelow, KeepsEarlier, KeepsGroupPart, group_in, with_datatypes};
ghost use Rattle.script_core.specs.Rules.{with_parts_kept};

use crate::effects::step_error;
use crate::keeping::keep_group;
use crate::scope::{Scope, StepError};
use cmd_grammar::{RawDataDec, RawDataDecs, RawSortDecs};
use datatype_commands::{declare_parts, type_group, type_single};
use lex_core::Tok;
use std::slice::from_ref;
use term_store::{Constructor, Datatype, TypedCommand};

// How many names constructors have, with those of their selectors.
fn count_of_parts(constructors: &[Constructor]) -> Option<u32>
    ensures { (owner : PlainDatatype) → IfSome result (λ n. n ≡ length (joined (map (of_constructor owner) (map plain_constructor constructors.now)))) }
{
    let mut count: u32 = 0;
    for constructor in constructors {
        let Ok(fields) = u32::try_from(constructor.fields.as_slice().len()) else {
            return None;
        };
        let named = count.checked_add(1)?;
        count = named.checked_add(fields)?;
    }
    Some(count)
}

// How many names a group has: its datatypes, and their constructors and selectors.
fn count_of_group(group: &[Datatype]) -> Option<u32>
    ensures { IfSome result (λ n. n ≡ length (of_group (map plain_datatype group.now))) }
{
    let Ok(datatypes) = u32::try_from(group.len()) else {
        return None;
    };
    let mut count = datatypes;
    for datatype in group {
        let parts = count_of_parts(datatype.constructors.as_slice())?;
        count = count.checked_add(parts)?;
    }
    Some(count)
}

// Makes the constructors and selectors of a group live, whose sort symbols are, keeps the group and takes its numbers. The only
// error is that memory runs out; some of the group may be kept then.
fn add_group(scope: &mut Scope, group: &[Datatype]) -> Result<(), StepError>
    requires stands { IsReadyScope scope.old }
    requires logic { IsSome scope.old.logic }
    requires schema { All (HasReadyParts scope.old.world) group.now }
    requires group { IsReadyGroup (datatypes_of scope.old.world.script) (map plain_datatype group.now) }
    requires unused { EachDatatypeUnused scope.old.world.script.defs group.now }
    ensures effect { let names = scope.old.world.names in
        OnOk result (environment_of names scope.new ≡ with_parts_kept (environment_of names scope.old) (map plain_datatype group.now)) }
    ensures error { IfErr result (λ e. e ≡ StepError.NoMemory) }
    ensures names { scope.new.world.names ≡ scope.old.world.names }
    ensures script { OnOk result (scope.new.world.script ≡ with_datatypes scope.old.world.script group.now) }
    ensures left { OnErr result (KeepsGroupPart scope.old.world.script group.now scope.new.world.script) }
    ensures unnamed { DeclaresNoName scope.old scope.new }
    ensures stands { IsReadyScope scope.new }
{
    let Some(count) = count_of_group(group) else {
        return Err(StepError::NoMemory);
    };
    let Some(next) = scope.next.checked_add(count) else {
        return Err(StepError::NoMemory);
    };
    match declare_parts(scope.alloc, &mut scope.world, group) {
        Ok(()) => {}
        Err(_) => return Err(StepError::NoMemory),
    }
    match keep_group(scope.alloc, &mut scope.world.script, group) {
        Ok(()) => {
            scope.next = next;
            Ok(())
        }
        Err(error) => Err(error),
    }
}

/// Declares datatypes together.
pub fn declare_datatypes(
    scope: &mut Scope,
    at: u32,
    sorts: &RawSortDecs,
    datatypes: &RawDataDecs,
) -> Result<TypedCommand, StepError>
    requires stands { IsReadyScope scope.old }
    requires begins { BeginsNames scope.old }
    requires logic { IsSome scope.old.logic }
    requires named { HaveNames scope.old.world.names sorts.now }
    requires known { KnowsDatatypes (signature_in (environment_of scope.old.world.names scope.old)) }
    requires kept { KeepsBelow scope.old.next scope.old.world.script.defs }
    ensures answer { let names = scope.old.world.names in
        MeetsParts (environment_of names scope.old) at (command.declare_datatypes sorts.now datatypes.now) result (environment_of names scope.new) (seen_by scope.new) }
    ensures names { scope.new.world.names ≡ scope.old.world.names }
    ensures script { IfOk result (λ c. scope.new.world.script ≡ with_datatypes scope.old.world.script (group_in c)) }
    ensures earlier { OnErr result (KeepsEarlier scope.old.next scope.old.world.script scope.new.world.script) }
    ensures stands { IsReadyScope scope.new }
{
    let group = match type_group(scope.alloc, &mut scope.world, at, sorts, datatypes) {
        Ok(group) => group,
        Err(error) => return Err(step_error(error)),
    };
    match add_group(scope, group.as_slice()) {
        Ok(()) => Ok(TypedCommand::DeclareDatatypes { group }),
        Err(error) => Err(error),
    }
}

/// Declares a datatype.
pub fn declare_datatype(
    scope: &mut Scope,
    at: u32,
    name: &Tok,
    raw: RawDataDec,
) -> Result<TypedCommand, StepError>
    requires stands { IsReadyScope scope.old }
    requires begins { BeginsNames scope.old }
    requires logic { IsSome scope.old.logic }
    requires named { name.now.name < length scope.old.world.names }
    requires known { KnowsDatatypes (signature_in (environment_of scope.old.world.names scope.old)) }
    requires kept { KeepsBelow scope.old.next scope.old.world.script.defs }
    ensures answer { let names = scope.old.world.names in
        MeetsParts (environment_of names scope.old) at (command.declare_datatype name.now raw.entry) result (environment_of names scope.new) (seen_by scope.new) }
    ensures names { scope.new.world.names ≡ scope.old.world.names }
    ensures script { IfOk result (λ c. scope.new.world.script ≡ with_datatypes scope.old.world.script (group_in c)) }
    ensures earlier { OnErr result (KeepsEarlier scope.old.next scope.old.world.script scope.new.world.script) }
    ensures stands { IsReadyScope scope.new }
{
    let datatype = match type_single(scope.alloc, &mut scope.world, at, name, raw) {
        Ok(datatype) => datatype,
        Err(error) => return Err(step_error(error)),
    };
    match add_group(scope, from_ref(&datatype)) {
        Ok(()) => Ok(TypedCommand::DeclareDatatype { datatype }),
        Err(error) => Err(error),
    }
}

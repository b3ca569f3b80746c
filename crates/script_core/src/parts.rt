//! What a command makes of the environment, once its mode is judged (SMT-LIB 2.6, section 4.2).
ghost use Rattle.std.specs.Prelude.{◌≡◌, IfOk, OnErr, false};
ghost use Rattle.std.specs.Option.{is_some};
ghost use Rattle.cmd_grammar.specs.CommandViews.{command_from};
ghost use Rattle.script_core.specs.Effects.{BeginsNames, IsDeclaredNamed, IsInMode, MeetsParts, seen_by};
ghost use Rattle.script_core.specs.Checking.{IsReadyScope, environment_of};
ghost use Rattle.script_core.specs.Environment.{signature_in};
ghost use Rattle.script_core.specs.Keeping.{KeepsBelow, KeepsEarlier, group_in, with_datatypes};
ghost use Rattle.script_core.specs.Rules.{declares_group};
ghost use Rattle.datatype_commands.specs.KnownDatatypes.{KnowsDatatypes};

use crate::datatypes::{declare_datatype, declare_datatypes};
use crate::definitions::{define_fun, define_fun_rec, define_funs_rec};
use crate::effects::{
    assertion, assumptions, declare_const, declare_fun, declare_sort, define_sort, pop, push,
    reset, reset_assertions, set_logic, set_option, values,
};
use crate::scope::{Scope, StepError};
use crate::unchanging::unchanging;
use cmd_grammar::RawCommandKind;
use term_store::TypedCommand;

// Takes a command that declares no datatype, as `take_parts`; the script stays as it was.
fn take_plain(
    scope: &mut Scope,
    at: u32,
    command: RawCommandKind,
) -> Result<TypedCommand, StepError>
    requires plain { declares_group (command_from command) ≡ false }
    requires stands { IsReadyScope scope.old }
    requires begins { BeginsNames scope.old }
    requires named { IsDeclaredNamed scope.old.world.names (command_from command) }
    requires mode { IsInMode (is_some scope.old.logic) (command_from command) }
    ensures answer { let names = scope.old.world.names in
        MeetsParts (environment_of names scope.old) at (command_from command.entry) result (environment_of names scope.new) (seen_by scope.new) }
    ensures names { scope.new.world.names ≡ scope.old.world.names }
    ensures script { scope.new.world.script ≡ scope.old.world.script }
    ensures stands { IsReadyScope scope.new }
{
    match command {
        RawCommandKind::Assert(term) => assertion(scope, at, term),
        RawCommandKind::CheckSatAssuming(literals) => assumptions(scope, at, &literals),
        RawCommandKind::DeclareConst { name, sort } => declare_const(scope, at, &name, sort),
        RawCommandKind::DeclareFun { name, args, result } => declare_fun(
            scope, at, &name, args, result,
        ),
        RawCommandKind::DeclareSort { name, arity } => declare_sort(scope, at, &name, &arity),
        RawCommandKind::DefineSort { name, params, sort } => {
            define_sort(scope, at, &name, &params, sort)
        }
        RawCommandKind::Push(count) => push(scope, at, &count),
        RawCommandKind::Pop(count) => pop(scope, at, &count),
        RawCommandKind::SetLogic(name) => {
            set_logic(scope, &name);
            Ok(TypedCommand::SetLogic { name: name.name })
        }
        RawCommandKind::SetOption(attribute) => set_option(scope, at, &attribute),
        RawCommandKind::Reset => {
            reset(scope);
            Ok(TypedCommand::Reset)
        }
        RawCommandKind::ResetAssertions => {
            reset_assertions(scope);
            Ok(TypedCommand::ResetAssertions)
        }
        RawCommandKind::GetValue(terms) => values(scope, at, &terms),
        RawCommandKind::DefineFun(definition) => define_fun(scope, at, definition),
        RawCommandKind::DefineFunRec(definition) => define_fun_rec(scope, at, definition),
        RawCommandKind::DefineFunsRec {
            declarations,
            bodies,
        } => define_funs_rec(scope, at, &declarations, &bodies),
        other => unchanging(scope.alloc, at, &other),
    }
}

/// Judges the names, sorts and terms of a command whose mode is judged and whose list begins at a byte, does what it leads to, and
/// answers the typed command. `Broken` comes exactly where one breaks a rule. The script keeps the datatypes that the command
/// declares; after an error some of them may be kept.
pub fn take_parts(
    scope: &mut Scope,
    at: u32,
    command: RawCommandKind,
) -> Result<TypedCommand, StepError>
    requires stands { IsReadyScope scope.old }
    requires begins { BeginsNames scope.old }
    requires named { IsDeclaredNamed scope.old.world.names (command_from command) }
    requires mode { IsInMode (is_some scope.old.logic) (command_from command) }
    requires known { KnowsDatatypes (signature_in (environment_of scope.old.world.names scope.old)) }
    requires kept { KeepsBelow scope.old.next scope.old.world.script.defs }
    ensures answer { let names = scope.old.world.names in
        MeetsParts (environment_of names scope.old) at (command_from command.entry) result (environment_of names scope.new) (seen_by scope.new) }
    ensures names { scope.new.world.names ≡ scope.old.world.names }
    ensures script { IfOk result (λ c. scope.new.world.script ≡ with_datatypes scope.old.world.script (group_in c)) }
    ensures earlier { OnErr result (KeepsEarlier scope.old.next scope.old.world.script scope.new.world.script) }
    ensures stands { IsReadyScope scope.new }
{
    match command {
        RawCommandKind::DeclareDatatype { name, declaration } => {
            declare_datatype(scope, at, &name, declaration)
        }
        RawCommandKind::DeclareDatatypes { sorts, datatypes } => {
            declare_datatypes(scope, at, &sorts, &datatypes)
        }
        other => take_plain(scope, at, other),
    }
}

//! What a command declares, by the command alone.
ghost use Rattle.std.specs.Prelude.{◌↔◌, IsTrue};
ghost use Rattle.term_store.specs.Command.{plain_command};
ghost use Rattle.logic_frag.specs.FragmentRules.{DeclaresDatatype, DeclaresFunction, DeclaresSort, DefinesRecursively};

use term_store::TypedCommand;

pub(crate) fn declares_sort(command: &TypedCommand) -> bool
    ensures { IsTrue result ↔ DeclaresSort (plain_command command.now) }
{
    matches!(command, TypedCommand::DeclareSort { .. })
}

// A function with arguments.
pub(crate) fn declares_function(command: &TypedCommand) -> bool
    ensures { IsTrue result ↔ DeclaresFunction (plain_command command.now) }
{
    match command {
        TypedCommand::DeclareFun { args, .. } => !args.as_slice().is_empty(),
        _ => false,
    }
}

pub(crate) fn declares_datatype(command: &TypedCommand) -> bool
    ensures { IsTrue result ↔ DeclaresDatatype (plain_command command.now) }
{
    matches!(
        command,
        TypedCommand::DeclareDatatype { .. } | TypedCommand::DeclareDatatypes { .. }
    )
}

pub(crate) fn defines_recursively(command: &TypedCommand) -> bool
    ensures { IsTrue result ↔ DefinesRecursively (plain_command command.now) }
{
    matches!(
        command,
        TypedCommand::DefineFunRec { .. } | TypedCommand::DefineFunsRec { .. }
    )
}

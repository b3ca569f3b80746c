//! The typed commands of commands that change nothing (SMT-LIB 2.6, section 4.2).
ghost use Rattle.std.specs.Prelude.{◌≡◌, IfErr, IfOk};
ghost use Rattle.cmd_grammar.specs.CommandViews.{command_from};
ghost use Rattle.term_store.specs.Value.{unplaced_value};
ghost use Rattle.script_core.specs.Effects.{AnswersUnchanging};
ghost use Rattle.typer.specs.TermRules.{attribute_value as value_of_attribute};

use crate::rules::attribute_key;
use crate::scope::StepError;
use cmd_grammar::RawCommandKind;
use lex_core::Place;
use sexp_core::Tree;
use sig_table::Code;
use std::alloc::Global;
use term_grammar::{RawAttribute, RawAttributeKind};
use term_store::TypedCommand;

/// The value of an attribute, if it has one. The only error is that memory runs out.
pub fn attribute_value(alloc: Global, attribute: &RawAttribute) -> Result<Option<Tree>, StepError>
    ensures ok { IfOk result (λ v. unplaced_value v ≡ value_of_attribute attribute.now) }
    ensures err { IfErr result (λ e. e ≡ StepError.NoMemory) }
{
    match attribute.kind() {
        RawAttributeKind::Keyword(_) => Ok(None),
        RawAttributeKind::Valued { value, .. } => match value.copy(alloc) {
            Ok(tree) => Ok(Some(tree)),
            Err(_) => Err(StepError::NoMemory),
        },
    }
}

/// The typed command of one that has no names, sorts or terms to judge and changes nothing. `Broken` comes exactly where it is none,
/// at the byte at which its list begins.
pub fn unchanging(
    alloc: Global,
    at: u32,
    command: &RawCommandKind,
) -> Result<TypedCommand, StepError>
    ensures { AnswersUnchanging at (command_from command.now) result }
{
    match command {
        RawCommandKind::CheckSat => Ok(TypedCommand::CheckSat),
        RawCommandKind::Echo(text) => Ok(TypedCommand::Echo { text: text.name }),
        RawCommandKind::Exit => Ok(TypedCommand::Exit),
        RawCommandKind::GetAssertions => Ok(TypedCommand::GetAssertions),
        RawCommandKind::GetAssignment => Ok(TypedCommand::GetAssignment),
        RawCommandKind::GetInfo(key) => Ok(TypedCommand::GetInfo { key: key.name }),
        RawCommandKind::GetModel => Ok(TypedCommand::GetModel),
        RawCommandKind::GetOption(key) => Ok(TypedCommand::GetOption { key: key.name }),
        RawCommandKind::GetProof => Ok(TypedCommand::GetProof),
        RawCommandKind::GetUnsatAssumptions => Ok(TypedCommand::GetUnsatAssumptions),
        RawCommandKind::GetUnsatCore => Ok(TypedCommand::GetUnsatCore),
        RawCommandKind::SetInfo(attribute) => {
            let value = attribute_value(alloc, attribute)?;
            let key = attribute_key(attribute).name;
            Ok(TypedCommand::SetInfo { key, value })
        }
        _ => Err(StepError::Broken(Place {
            code: Code::WrongCommandForm,
            at,
        })),
    }
}

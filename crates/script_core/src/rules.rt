//! The rules of commands (SMT-LIB 2.6, sections 3.9 and 4.2) that come before their names, sorts and terms.
ghost use Rattle.std.specs.Prelude.{◌≡◌, ◌↔◌, ◌≤◌, ◌^◌, [], IfSome, IsNone, slice_index_or};
ghost use Rattle.cmd_grammar.specs.CommandViews.{command_from};
ghost use Rattle.typer.specs.Numerals.{numeral_value as value_of_text};
ghost use Rattle.typer.specs.TermRules.{attribute_key as key_of_attribute};
ghost use Rattle.script_core.specs.RuleAnswers.{answer_mode, answer_pop, answer_push, test};
ghost use Rattle.script_core.specs.Checking.{environment_of};

use crate::scope::Scope;
use cmd_grammar::RawCommandKind;
use lex_core::{NameId, Names, Place, Tok};
use logic_frag::logic_of;
use sig_table::Code;
use term_grammar::{GLOBAL_DECLARATIONS, RawAttribute, RawAttributeKind};
use typer::numeral_value;

/// The text of a name, and no bytes where the table does not have it.
pub fn text_of(names: &Names, id: NameId) -> &[u8]
    ensures { result.now ≡ slice_index_or names.now id [] }
{
    if (id.number() as usize) < names.count() {
        names.text(id)
    } else {
        b""
    }
}

/// The value of a numeral; none exactly where it is above 4,294,967,295.
pub fn value_of(names: &Names, numeral: &Tok) -> Option<u32>
    ensures value { IfSome result (λ n. n ≡ value_of_text (slice_index_or names.now numeral.now.name [])) }
    ensures too_large { IsNone result ↔ (2 ^ 32 ≤ value_of_text (slice_index_or names.now numeral.now.name [])) }
{
    numeral_value(text_of(names, numeral.name))
}

// The fault, where the rule is not met.
fn rule(met: bool, code: Code, at: u32) -> Result<(), Place>
    ensures { result ≡ test met code at }
{
    if met { Ok(()) } else { Err(Place { code, at }) }
}

/// The keyword of an attribute.
pub fn attribute_key(attribute: &RawAttribute) -> Tok
    ensures { result ≡ key_of_attribute attribute.now }
{
    match attribute.kind() {
        RawAttributeKind::Keyword(keyword) => keyword,
        RawAttributeKind::Valued { keyword, .. } => keyword,
    }
}

// Whether `push` leaves few enough levels open.
fn judge_push(scope: &Scope, at: u32, count: &Tok) -> Result<(), Place>
    ensures { result ≡ answer_push (environment_of scope.now.world.names scope.now) at count.now }
{
    rule(scope.logic.is_some(), Code::LogicNotSet, at)?;
    let few = match value_of(&scope.world.names, count) {
        Some(n) => u64::from(n) + u64::from(scope.world.scopes.levels()) <= 65_535,
        None => false,
    };
    rule(few, Code::TooManyLevels, at)
}

// Whether `pop` closes no more levels than are open.
fn judge_pop(scope: &Scope, at: u32, count: &Tok) -> Result<(), Place>
    ensures { result ≡ answer_pop (environment_of scope.now.world.names scope.now) at count.now }
{
    rule(scope.logic.is_some(), Code::LogicNotSet, at)?;
    let levels = scope.world.scopes.levels();
    let enough = match value_of(&scope.world.names, count) {
        Some(n) => n <= levels,
        None => false,
    };
    rule(enough, Code::TooFewLevels, at)
}

/// Judges the mode of a command, whose list begins at this byte.
pub fn judge_mode(scope: &Scope, at: u32, command: &RawCommandKind) -> Result<(), Place>
    ensures { result ≡ answer_mode (environment_of scope.now.world.names scope.now) at (command_from command.now) }
{
    match command {
        RawCommandKind::SetLogic(name) => {
            rule(scope.logic.is_none(), Code::LogicAlreadySet, at)?;
            let logic = logic_of(text_of(&scope.world.names, name.name));
            rule(logic.is_some(), Code::UnknownLogic, at)
        }
        RawCommandKind::SetOption(attribute) => {
            let global = attribute_key(attribute).name.number() == GLOBAL_DECLARATIONS;
            rule(
                !(global && scope.logic.is_some()),
                Code::GlobalOptionTooLate,
                at,
            )
        }
        RawCommandKind::SetInfo(_)
        | RawCommandKind::GetOption(_)
        | RawCommandKind::GetInfo(_)
        | RawCommandKind::Echo(_)
        | RawCommandKind::Reset
        | RawCommandKind::Exit => Ok(()),
        RawCommandKind::Push(count) => judge_push(scope, at, count),
        RawCommandKind::Pop(count) => judge_pop(scope, at, count),
        _ => rule(scope.logic.is_some(), Code::LogicNotSet, at),
    }
}

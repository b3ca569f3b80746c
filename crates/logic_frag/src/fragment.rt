//! The rules of the fragment of a logic, and the first that a command breaks.
ghost use Rattle.std.specs.Prelude.{◌≡◌, ◌↔◌, IfOk, IsTrue};
ghost use Rattle.term_store.specs.Command.{plain_command};
ghost use Rattle.logic_frag.specs.Following.{AppliesLower, plain_defs};
ghost use Rattle.logic_frag.specs.FragmentRules.{BreaksRule, IsFirstBroken, context_of, fragment_codes};
ghost use Rattle.logic_frag.specs.Logics.{described};

use crate::arrays::has_array_outside;
use crate::broken::{Rule, has_term_outside};
use crate::declarations::{
    declares_datatype, declares_function, declares_sort, defines_recursively,
};
use crate::logic::{Logic, NumPart};
use io_core::NoMemory;
use lex_core::Names;
use sig_table::Code;
use std::alloc::Global;
use term_store::{Defs, TypedCommand};

// Whether the command breaks the rule of the code.
fn breaks_rule(
    alloc: Global,
    logic: &Logic,
    names: &Names,
    command: &TypedCommand,
    defs: &Defs,
    code: Code,
) -> Result<bool, NoMemory>
    requires { AppliesLower (plain_defs defs.now) }
    ensures { IfOk result (λ broken. IsTrue broken
        ↔ BreaksRule (described logic.now) (context_of names.now (plain_defs defs.now) (plain_command command.now)) (plain_command command.now) code) }
{
    match code {
        Code::QuantifierOutsideLogic => {
            if logic.q {
                return Ok(false);
            }
            has_term_outside(alloc, names, command, defs, Rule::QuantifierFree)
        }
        Code::SortOutsideLogic => Ok(!logic.s && declares_sort(command)),
        Code::FunctionOutsideLogic => Ok(!logic.f && declares_function(command)),
        Code::NotLinear => match logic.ints {
            NumPart::Linear => has_term_outside(alloc, names, command, defs, Rule::Linear),
            _ => Ok(false),
        },
        Code::NotDifference => match logic.ints {
            NumPart::Difference => has_term_outside(alloc, names, command, defs, Rule::Difference),
            _ => Ok(false),
        },
        Code::ArrayOutsideLogic => has_array_outside(alloc, names, command, defs, logic.arrays),
        Code::DatatypeOutsideLogic => Ok(!logic.d && declares_datatype(command)),
        Code::RecursionOutsideLogic => Ok(!logic.r && defines_recursively(command)),
        _ => Ok(false),
    }
}

// The first of the codes whose rule is broken.
fn first_of(
    alloc: Global,
    logic: &Logic,
    names: &Names,
    command: &TypedCommand,
    defs: &Defs,
    codes: &[Code],
) -> Result<Option<Code>, NoMemory>
    requires { AppliesLower (plain_defs defs.now) }
    ensures { IfOk result (λ answer. IsFirstBroken (BreaksRule (described logic.now) (context_of names.now (plain_defs defs.now) (plain_command command.now)) (plain_command command.now)) codes.now answer) }
{
    match codes {
        [] => Ok(None),
        [code, rest @ ..] => match breaks_rule(alloc, logic, names, command, defs, *code) {
            Ok(true) => Ok(Some(*code)),
            Ok(false) => first_of(alloc, logic, names, command, defs, rest),
            Err(error) => Err(error),
        },
    }
}

fn codes() -> [Code; 8]
    ensures { result ≡ fragment_codes }
{
    [
        Code::QuantifierOutsideLogic,
        Code::SortOutsideLogic,
        Code::FunctionOutsideLogic,
        Code::NotLinear,
        Code::NotDifference,
        Code::ArrayOutsideLogic,
        Code::DatatypeOutsideLogic,
        Code::RecursionOutsideLogic,
    ]
}

/// The lowest code whose rule the command breaks, or `None` where the command is in the logic. Each
/// definition that is not recursive applies in its body only functions with lower numbers. The only
/// error is that memory runs out.
pub fn first_break(
    alloc: Global,
    logic: &Logic,
    names: &Names,
    command: &TypedCommand,
    defs: &Defs,
) -> Result<Option<Code>, NoMemory>
    requires { AppliesLower (plain_defs defs.now) }
    ensures { IfOk result (λ answer. IsFirstBroken (BreaksRule (described logic.now) (context_of names.now (plain_defs defs.now) (plain_command command.now)) (plain_command command.now)) fragment_codes answer) }
{
    first_of(alloc, logic, names, command, defs, &codes())
}

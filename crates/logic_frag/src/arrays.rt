//! The array sorts of a command that a logic does not have.
ghost use Rattle.std.specs.Prelude.{◌≡◌, ◌↔◌, ◌||◌, ℕ, List, IfOk, IsTrue, map};
ghost use Rattle.std.specs.List.{flat_map, list_any};
ghost use Rattle.sort_store.specs.Tree.{tree};
ghost use Rattle.term_store.specs.Command.{PlainConstructor, PlainField, plain_command, plain_constructor, plain_datatype, plain_def, plain_field};
ghost use Rattle.logic_frag.specs.ArraySorts.{IsOtherArray, constructor_sorts, declared_sorts, field_sorts, signature_sorts};
ghost use Rattle.logic_frag.specs.Following.{AppliesLower, plain_defs};
ghost use Rattle.logic_frag.specs.FragmentRules.{HasSort};
ghost use Rattle.logic_frag.specs.SortSearch.{has_other_array};

use crate::broken::{Rule, has_term_outside};
use crate::logic::ArrayPart;
use crate::sorts::{any_variable_has_array, has_other_array, is_partial};
use io_core::NoMemory;
use lex_core::Names;
use sort_store::SortRef;
use std::alloc::Global;
use term_store::{Constructor, Datatype, Def, Defs, Field, TypedCommand};

fn any_sort_has_array(part: ArrayPart, sorts: &[SortRef]) -> bool
    ensures { result ≡ list_any (has_other_array part) (map tree sorts.now) }
{
    for sort in sorts {
        if has_other_array(part, sort) {
            return true;
        }
    }
    false
}

fn any_field_has_array(part: ArrayPart, fields: &[Field]) -> bool
    ensures { result ≡ list_any (has_other_array part) (map (λ (f : PlainField). f.sort) (map plain_field fields.now)) }
{
    for field in fields {
        if has_other_array(part, &field.sort) {
            return true;
        }
    }
    false
}

#[tactic(auto, using(crate::proofs::OtherArrays::declared_words))]
fn any_constructor_has_array(part: ArrayPart, constructors: &[Constructor]) -> bool
    ensures { result ≡ list_any (has_other_array part) (flat_map constructor_sorts (map plain_constructor constructors.now)) }
{
    for constructor in constructors {
        if any_field_has_array(part, constructor.fields.as_slice()) {
            return true;
        }
    }
    false
}

#[tactic(auto, using(crate::proofs::OtherArrays::declared_words))]
fn any_datatype_has_array(part: ArrayPart, group: &[Datatype]) -> bool
    ensures { result ≡ list_any (has_other_array part) (flat_map field_sorts (map plain_datatype group.now)) }
{
    for datatype in group {
        if any_constructor_has_array(part, datatype.constructors.as_slice()) {
            return true;
        }
    }
    false
}

#[tactic(auto, using(crate::proofs::OtherArrays::declared_words))]
fn signature_has_array(part: ArrayPart, def: &Def) -> bool
    ensures { result ≡ list_any (has_other_array part) (signature_sorts (plain_def def.now)) }
{
    any_variable_has_array(part, def.params.as_slice()) || has_other_array(part, &def.result)
}

#[tactic(auto, using(crate::proofs::OtherArrays::declared_words))]
fn any_signature_has_array(part: ArrayPart, defs: &[Def]) -> bool
    ensures { result ≡ list_any (has_other_array part) (flat_map signature_sorts (map plain_def defs.now)) }
{
    for def in defs {
        if signature_has_array(part, def) {
            return true;
        }
    }
    false
}

// Whether the command declares a function or a field with such a sort.
#[tactic(auto, using(crate::proofs::OtherArrays::declared_words))]
fn declares_array(part: ArrayPart, command: &TypedCommand) -> bool
    ensures { result ≡ list_any (has_other_array part) (declared_sorts (plain_command command.now)) }
{
    match command {
        TypedCommand::DeclareConst { sort, .. } => has_other_array(part, sort),
        TypedCommand::DeclareDatatype { datatype } => {
            any_constructor_has_array(part, datatype.constructors.as_slice())
        }
        TypedCommand::DeclareDatatypes { group } => any_datatype_has_array(part, group.as_slice()),
        TypedCommand::DeclareFun { args, result, .. } => {
            any_sort_has_array(part, args.as_slice()) || has_other_array(part, result)
        }
        TypedCommand::DefineFun { def } => signature_has_array(part, def),
        TypedCommand::DefineFunRec { def } => signature_has_array(part, def),
        TypedCommand::DefineFunsRec { defs } => any_signature_has_array(part, defs.as_slice()),
        _ => false,
    }
}

/// Whether an array sort that the logic does not have stands in the command. The only error is that
/// memory runs out.
pub(crate) fn has_array_outside(
    alloc: Global,
    names: &Names,
    command: &TypedCommand,
    defs: &Defs,
    part: ArrayPart,
) -> Result<bool, NoMemory>
    requires { AppliesLower (plain_defs defs.now) }
    ensures { IfOk result (λ found. IsTrue found ↔ HasSort (plain_command command.now) (IsOtherArray part)) }
{
    if !is_partial(part) {
        return Ok(false);
    }
    if declares_array(part, command) {
        return Ok(true);
    }
    has_term_outside(alloc, names, command, defs, Rule::Arrays(part))
}

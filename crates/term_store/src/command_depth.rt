//! The depth of the canonical text of a command, from those of its parts.
ghost use Rattle.std.specs.Prelude.{◌≡◌, [], map};
ghost use Rattle.sort_store.specs.Tree.{tree};
ghost use Rattle.term_store.specs.Command.{plain_command, plain_constructor, plain_datatype, plain_def, plain_field};
ghost use Rattle.term_store.specs.CanonicalText.{sort_text};
ghost use Rattle.term_store.specs.CommandText.{body_text, command_text, constructor_text, datatype_text, definition_texts, field_text, sexps, signature_text, signature_texts};
ghost use Rattle.term_store.specs.Depth.{saturated, nesting, nesting_all};

use crate::command::{Constructor, Datatype, Def, Field, TypedCommand};
use crate::depth::{deepest, deepest_var, depth_of_attribute, depth_of_sort};
use sort_store::SortRef;

fn deepest_sort(sorts: &[SortRef]) -> u32
    ensures { result ≡ saturated (nesting_all (sexps (map (sort_text []) (map tree sorts.now)))) }
{
    let mut deep = 0;
    for sort in sorts {
        deep = deep.max(depth_of_sort(sort));
    }
    deep
}

// The fields of a constructor. The names of the parameters play no part, so none are given.
fn deepest_field(fields: &[Field]) -> u32
    ensures { result ≡ saturated (nesting_all (sexps (map (field_text []) (map plain_field fields.now)))) }
{
    let mut deep = 0;
    for field in fields {
        deep = deep.max(depth_of_sort(&field.sort).saturating_add(1));
    }
    deep
}

// The constructors of a datatype, likewise.
fn deepest_constructor(constructors: &[Constructor]) -> u32
    ensures { result ≡ saturated (nesting_all (sexps (map (constructor_text []) (map plain_constructor constructors.now)))) }
{
    let mut deep = 0;
    for constructor in constructors {
        let depth = deepest_field(constructor.fields.as_slice());
        deep = deep.max(depth.saturating_add(1));
    }
    deep
}

// The constructors of a datatype, under `par` where it has parameters.
#[tactic(auto, using(crate::proofs::CommandDepths::declared_words))]
fn depth_of_datatype(datatype: &Datatype) -> u32
    ensures { result ≡ saturated (nesting (datatype_text (plain_datatype datatype.now))) }
{
    let depth = deepest_constructor(datatype.constructors.as_slice()).saturating_add(1);
    if datatype.params.as_slice().is_empty() {
        return depth;
    }
    depth.saturating_add(1)
}

fn deepest_datatype(group: &[Datatype]) -> u32
    ensures { result ≡ saturated (nesting_all (sexps (map datatype_text (map plain_datatype group.now)))) }
{
    let mut deep = 0;
    for datatype in group {
        deep = deep.max(depth_of_datatype(datatype));
    }
    deep
}

// The parameters of a function and its result, without a list round them.
fn depth_of_signature(def: &Def) -> u32
    ensures { result ≡ saturated (nesting_all (sexps (signature_texts (plain_def def.now)))) }
{
    deepest_var(def.params.as_slice())
        .saturating_add(1)
        .max(depth_of_sort(&def.result))
}

fn deepest_signature(defs: &[Def]) -> u32
    ensures { result ≡ saturated (nesting_all (sexps (map signature_text (map plain_def defs.now)))) }
{
    let mut deep = 0;
    for def in defs {
        deep = deep.max(depth_of_signature(def).saturating_add(1));
    }
    deep
}

fn deepest_body(defs: &[Def]) -> u32
    ensures { result ≡ saturated (nesting_all (sexps (map body_text (map plain_def defs.now)))) }
{
    let mut deep = 0;
    for def in defs {
        deep = deep.max(def.body.print_depth());
    }
    deep
}

// The parts of a definition, without a list round them.
fn depth_of_definition(def: &Def) -> u32
    ensures { result ≡ saturated (nesting_all (sexps (definition_texts (plain_def def.now)))) }
{
    depth_of_signature(def).max(def.body.print_depth())
}

/// How many lists are nested in the command's canonical text, or 4,294,967,295 where there are more.
#[tactic(auto, using(crate::proofs::CommandDepths::command_words))]
pub fn depth_of_command(command: &TypedCommand) -> u32
    ensures { result ≡ saturated (nesting (command_text (plain_command command.now))) }
{
    match command {
        TypedCommand::Assert { term } => term.print_depth().saturating_add(1),
        TypedCommand::CheckSatAssuming { terms } => deepest(terms.as_slice()).saturating_add(2),
        TypedCommand::DeclareConst { sort, .. } => depth_of_sort(sort).saturating_add(1),
        TypedCommand::DeclareDatatype { datatype } => depth_of_datatype(datatype).saturating_add(1),
        TypedCommand::DeclareDatatypes { group } => {
            deepest_datatype(group.as_slice()).saturating_add(2)
        }
        TypedCommand::DeclareFun { args, result, .. } => deepest_sort(args.as_slice())
            .saturating_add(1)
            .max(depth_of_sort(result))
            .saturating_add(1),
        TypedCommand::DefineFun { def } => depth_of_definition(def).saturating_add(1),
        TypedCommand::DefineFunRec { def } => depth_of_definition(def).saturating_add(1),
        TypedCommand::DefineFunsRec { defs } => deepest_signature(defs.as_slice())
            .max(deepest_body(defs.as_slice()))
            .saturating_add(2),
        TypedCommand::DefineSort { sort, .. } => depth_of_sort(sort).max(1).saturating_add(1),
        TypedCommand::GetValue { terms } => deepest(terms.as_slice()).saturating_add(2),
        TypedCommand::SetInfo { value, .. } => depth_of_attribute(value).saturating_add(1),
        TypedCommand::SetOption { value, .. } => depth_of_attribute(value).saturating_add(1),
        _ => 1,
    }
}

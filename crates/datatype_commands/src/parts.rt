//! The constructors and selectors of a datatype.
ghost use Rattle.std.specs.Prelude.{◌≡◌, ◌+◌, ◌++◌, ◌∷◌, ◌||◌, ◌==◌, [], IfErr, IfOk, IfSome, OnOk, length, map};
ghost use Rattle.std.specs.List.{All, list_any};
ghost use Rattle.cmd_grammar.specs.DeclarationViews.{constructor_dec_seen, selector_seen};
ghost use Rattle.dt_rules.specs.Answers.{Answers};
ghost use Rattle.term_store.specs.Command.{plain_constructor, plain_field};
ghost use Rattle.typer.specs.FunctionSymbols as spec;
ghost use Rattle.typer.specs.FunctionSymbols.{signature_of};
ghost use Rattle.typer.specs.Ready.{IsReady};
ghost use Rattle.datatype_commands.specs.Answers.{AreReadyParts, IsReadyPart, OnlySortsGrow, answer_by};
ghost use Rattle.datatype_commands.specs.GroupRules.{all_part_names, judge_constructor, judge_constructors, judge_part, judge_selector, judge_selectors, part_names};

use cmd_grammar::{RawConDec, RawConDecs, RawSelector, RawSelectors};
use dt_rules::{TyError, fault};
use lex_core::{NameId, Tok};
use sig_table::Code;
use sort_store::DeclNo;
use std::alloc::Global;
use term_store::{Constructor, Field, ListOf};
use typer::{World, is_fun_in_use, type_sort};

/// The names of the constructors and selectors of a group so far, and the number of the first of them.
#[derive(Drop)]
pub(crate) struct PartNames {
    pub names: Vec<NameId>,
    pub first: u32,
}

fn is_one_of(names: &[NameId], name: NameId) -> bool
    ensures { result ≡ list_any (λ n. n == name) names.now }
{
    names.iter().any(|other| *other == name)
}

// Whether no constructor or selector may have the name.
fn is_part_in_use(world: &World, parts: &PartNames, name: NameId) -> bool
    ensures { result ≡ (spec.is_fun_in_use (signature_of world.now) name || list_any (λ n. n == name) parts.now.names.items) }
{
    is_fun_in_use(world, name) || is_one_of(&parts.names, name)
}

// The number that comes after those of the names so far.
fn next_number(parts: &PartNames) -> Option<u32>
    ensures { IfSome result (λ n. n ≡ parts.now.first + length parts.now.names.items) }
{
    let Ok(count) = u32::try_from(parts.names.len()) else {
        return None;
    };
    parts.first.checked_add(count)
}

// The number of a constructor or a selector, whose name is then one of those so far.
fn part_of(world: &World, parts: &mut PartNames, name: &Tok) -> Result<DeclNo, TyError>
    ensures answer { Answers result (judge_part (signature_of world.now) parts.old.first parts.old.names.items name.now) }
    ensures names { OnOk result (parts.new.names.items ≡ parts.old.names.items ++ name.now.name ∷ []) }
    ensures first { parts.new.first ≡ parts.old.first }
{
    if is_part_in_use(world, parts, name.name) {
        return Err(fault(Code::DatatypeNameInUse, name.at));
    }
    let Some(number) = next_number(parts) else {
        return Err(TyError::NoMemory);
    };
    match parts.names.push(name.name) {
        Ok(()) => Ok(DeclNo(number)),
        Err(_) => Err(TyError::NoMemory),
    }
}

// The field of a selector.
fn field_of(
    world: &mut World,
    parts: &mut PartNames,
    params: &[NameId],
    raw: RawSelector,
) -> Result<Field, TyError>
    requires ready { IsReady world.old }
    ensures answer { Answers (answer_by plain_field result) (judge_selector (signature_of world.old) params.now parts.old.first parts.old.names.items (selector_seen raw.entry)) }
    ensures names { IfOk result (λ f. parts.new.names.items ≡ parts.old.names.items ++ f.name ∷ []) }
    ensures first { parts.new.first ≡ parts.old.first }
    ensures schema { IfOk result (IsReadyPart world.new (length params.now)) }
    ensures grown { OnlySortsGrow world.old world.new }
    ensures ready { IsReady world.new }
{
    let name = raw.name;
    let no = part_of(world, parts, &name)?;
    match type_sort(world, params, raw.sort) {
        Ok(sort) => Ok(Field {
            no,
            name: name.name,
            sort,
        }),
        Err(error) => Err(error),
    }
}

// The fields of selectors.
fn fields_of(
    alloc: Global,
    world: &mut World,
    parts: &mut PartNames,
    params: &[NameId],
    raws: &RawSelectors,
) -> Result<ListOf<Field>, TyError>
    requires ready { IsReady world.old }
    ensures answer { Answers (answer_by (λ fs. map plain_field fs) result) (judge_selectors (signature_of world.old) params.now parts.old.first parts.old.names.items raws.now) }
    ensures names { IfOk result (λ fs. parts.new.names.items ≡ parts.old.names.items ++ map (λ f. f.name) fs) }
    ensures first { parts.new.first ≡ parts.old.first }
    ensures schema { IfOk result (All (IsReadyPart world.new (length params.now))) }
    ensures grown { OnlySortsGrow world.old world.new }
    ensures ready { IsReady world.new }
{
    let mut fields: ListOf<Field> = ListOf::new(alloc);
    let mut next = raws.split();
    while let Some((raw, rest)) = next {
        let field = field_of(world, parts, params, raw)?;
        match fields.push(field) {
            Ok(()) => {}
            Err(_) => return Err(TyError::NoMemory),
        }
        next = rest.split();
    }
    Ok(fields)
}

// The constructor of a declaration.
fn constructor_of(
    alloc: Global,
    world: &mut World,
    parts: &mut PartNames,
    params: &[NameId],
    raw: RawConDec,
) -> Result<Constructor, TyError>
    requires ready { IsReady world.old }
    ensures answer { Answers (answer_by plain_constructor result) (judge_constructor (signature_of world.old) params.now parts.old.first parts.old.names.items (constructor_dec_seen raw.entry)) }
    ensures names { IfOk result (λ c. parts.new.names.items ≡ parts.old.names.items ++ part_names (plain_constructor c)) }
    ensures first { parts.new.first ≡ parts.old.first }
    ensures schema { IfOk result (λ c. All (IsReadyPart world.new (length params.now)) c.fields) }
    ensures grown { OnlySortsGrow world.old world.new }
    ensures ready { IsReady world.new }
{
    let name = raw.name;
    let no = part_of(world, parts, &name)?;
    match fields_of(alloc, world, parts, params, &raw.selectors) {
        Ok(fields) => Ok(Constructor {
            no,
            name: name.name,
            fields,
        }),
        Err(error) => Err(error),
    }
}

/// The constructors of declarations, with the parameters of their datatype.
pub(crate) fn constructors_of(
    alloc: Global,
    world: &mut World,
    parts: &mut PartNames,
    params: &[NameId],
    raws: &RawConDecs,
) -> Result<ListOf<Constructor>, TyError>
    requires ready { IsReady world.old }
    ensures answer { Answers (answer_by (λ cs. map plain_constructor cs) result) (judge_constructors (signature_of world.old) params.now parts.old.first parts.old.names.items raws.now) }
    ensures names { IfOk result (λ cs. parts.new.names.items ≡ parts.old.names.items ++ all_part_names (map plain_constructor cs)) }
    ensures first { parts.new.first ≡ parts.old.first }
    ensures schema { IfOk result (All (AreReadyParts world.new (length params.now))) }
    ensures grown { OnlySortsGrow world.old world.new }
    ensures ready { IsReady world.new }
{
    let mut constructors: ListOf<Constructor> = ListOf::new(alloc);
    let mut next = raws.split();
    while let Some((raw, rest)) = next {
        let constructor = constructor_of(alloc, world, parts, params, raw)?;
        match constructors.push(constructor) {
            Ok(()) => {}
            Err(_) => return Err(TyError::NoMemory),
        }
        next = rest.split();
    }
    Ok(constructors)
}

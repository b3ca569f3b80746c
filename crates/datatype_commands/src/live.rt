//! The constructors and selectors of a group become live.
ghost use Rattle.std.specs.Prelude.{◌≡◌, ◌++◌, ◌∷◌, [], IfErr, IfOk, OnOk, length, map};
ghost use Rattle.std.specs.List.{All};
ghost use Rattle.term_store.specs.Command.{plain_constructor, plain_datatype, plain_field};
ghost use Rattle.typer.specs.Declarations.{declarations_of, fun_declaration, with_fun};
ghost use Rattle.typer.specs.Ready.{IsReady, IsReadyFunEntry};
ghost use Rattle.datatype_commands.specs.Answers.{AreReadyParts, HasReadyParts, HoldsOwnSort, IsReadyPart, OnlyScopesChange, OnlySymbolsChange};
ghost use Rattle.datatype_commands.specs.DeclaredDatatypes.{constructor_symbol, selector_symbol, with_constructors, with_parts, with_selectors};

use dt_rules::{TyError, own_sort};
use lex_core::NameId;
use scope_stack::{FunEntry, FunKind};
use sort_store::{SortRef, Sorts};
use std::alloc::Global;
use term_store::{Constructor, Datatype, Field};
use typer::World;

// Another reference to a sort.
fn copy_of(sort: &SortRef) -> Result<SortRef, TyError>
    ensures same { IfOk result (λ r. r ≡ sort.now) }
    ensures error { IfErr result (λ e. e ≡ TyError.NoMemory) }
{
    match sort.clone() {
        Ok(copy) => Ok(copy),
        Err(_) => Err(TyError::NoMemory),
    }
}

// How many parameters a datatype has.
fn count_of(datatype: &Datatype) -> Result<u32, TyError>
    ensures count { IfOk result (λ n. n ≡ length datatype.now.params) }
    ensures error { IfErr result (λ e. e ≡ TyError.NoMemory) }
{
    match u32::try_from(datatype.params.as_slice().len()) {
        Ok(count) => Ok(count),
        Err(_) => Err(TyError::NoMemory),
    }
}

// Puts a copy of a sort last.
fn put(sorts: &mut Sorts, sort: &SortRef) -> Result<(), TyError>
    ensures put { OnOk result (sorts.new ≡ sorts.old ++ sort.now ∷ []) }
    ensures error { IfErr result (λ e. e ≡ TyError.NoMemory) }
{
    let copy = copy_of(sort)?;
    match sorts.push(copy) {
        Ok(()) => Ok(()),
        Err(_) => Err(TyError::NoMemory),
    }
}

// The sorts of fields.
fn sorts_of(alloc: Global, fields: &[Field]) -> Result<Sorts, TyError>
    ensures sorts { IfOk result (λ rs. rs ≡ map (λ f. f.sort) fields.now) }
    ensures error { IfErr result (λ e. e ≡ TyError.NoMemory) }
{
    let mut sorts = Sorts::new(alloc);
    let mut left = fields;
    while let Some((field, others)) = left.split_first() {
        put(&mut sorts, &field.sort)?;
        left = others;
    }
    Ok(sorts)
}

// Declares a function symbol.
fn declare_symbol(world: &mut World, name: NameId, entry: FunEntry) -> Result<(), TyError>
    requires ready { IsReady world.old }
    requires entry { IsReadyFunEntry world.old.sorts entry }
    ensures effect { OnOk result (declarations_of world.new.scopes ≡ with_fun name (fun_declaration entry) (declarations_of world.old.scopes)) }
    ensures error { IfErr result (λ e. e ≡ TyError.NoMemory) }
    ensures others { OnlyScopesChange world.old world.new }
    ensures ready { IsReady world.new }
{
    match world.scopes.declare_fun(name, entry) {
        Ok(()) => Ok(()),
        Err(_) => Err(TyError::NoMemory),
    }
}

// Declares a selector of a datatype, which has this sort at its own parameters.
fn declare_selector(
    alloc: Global,
    world: &mut World,
    datatype: &Datatype,
    own: &SortRef,
    field: &Field,
) -> Result<(), TyError>
    requires ready { IsReady world.old }
    requires own { HoldsOwnSort world.old.sorts datatype.now own.now }
    requires schema { IsReadyPart world.old (length datatype.now.params) field.now }
    ensures effect { OnOk result (declarations_of world.new.scopes ≡ with_fun field.now.name (selector_symbol (plain_datatype datatype.now) (plain_field field.now)) (declarations_of world.old.scopes)) }
    ensures error { IfErr result (λ e. e ≡ TyError.NoMemory) }
    ensures others { OnlyScopesChange world.old world.new }
    ensures ready { IsReady world.new }
{
    let params = count_of(datatype)?;
    let mut args = Sorts::new(alloc);
    put(&mut args, own)?;
    let result = copy_of(&field.sort)?;
    let entry = FunEntry {
        no: field.no,
        kind: FunKind::Selector,
        params,
        args,
        result,
    };
    match declare_symbol(world, field.name, entry) {
        Ok(()) => Ok(()),
        Err(error) => Err(error),
    }
}

// Declares the selectors of fields.
fn declare_selectors(
    alloc: Global,
    world: &mut World,
    datatype: &Datatype,
    own: &SortRef,
    fields: &[Field],
) -> Result<(), TyError>
    requires ready { IsReady world.old }
    requires own { HoldsOwnSort world.old.sorts datatype.now own.now }
    requires schema { All (IsReadyPart world.old (length datatype.now.params)) fields.now }
    ensures effect { OnOk result (declarations_of world.new.scopes ≡ with_selectors (declarations_of world.old.scopes) (plain_datatype datatype.now) (map plain_field fields.now)) }
    ensures error { IfErr result (λ e. e ≡ TyError.NoMemory) }
    ensures others { OnlyScopesChange world.old world.new }
    ensures ready { IsReady world.new }
{
    let mut left = fields;
    while let Some((field, others)) = left.split_first() {
        declare_selector(alloc, world, datatype, own, field)?;
        left = others;
    }
    Ok(())
}

// Declares a constructor of a datatype, which has this sort at its own parameters.
fn declare_constructor(
    alloc: Global,
    world: &mut World,
    datatype: &Datatype,
    own: &SortRef,
    constructor: &Constructor,
) -> Result<(), TyError>
    requires ready { IsReady world.old }
    requires own { HoldsOwnSort world.old.sorts datatype.now own.now }
    requires schema { AreReadyParts world.old (length datatype.now.params) constructor.now }
    ensures effect { OnOk result (declarations_of world.new.scopes ≡ with_fun constructor.now.name (constructor_symbol (plain_datatype datatype.now) (plain_constructor constructor.now)) (declarations_of world.old.scopes)) }
    ensures error { IfErr result (λ e. e ≡ TyError.NoMemory) }
    ensures others { OnlyScopesChange world.old world.new }
    ensures ready { IsReady world.new }
{
    let params = count_of(datatype)?;
    let args = sorts_of(alloc, constructor.fields.as_slice())?;
    let result = copy_of(own)?;
    let entry = FunEntry {
        no: constructor.no,
        kind: FunKind::Constructor,
        params,
        args,
        result,
    };
    match declare_symbol(world, constructor.name, entry) {
        Ok(()) => Ok(()),
        Err(error) => Err(error),
    }
}

// Declares the constructors of a datatype, each followed by its selectors.
fn declare_constructors(
    alloc: Global,
    world: &mut World,
    datatype: &Datatype,
    own: &SortRef,
) -> Result<(), TyError>
    requires ready { IsReady world.old }
    requires own { HoldsOwnSort world.old.sorts datatype.now own.now }
    requires schema { HasReadyParts world.old datatype.now }
    ensures effect { OnOk result (declarations_of world.new.scopes ≡ with_constructors (declarations_of world.old.scopes) (plain_datatype datatype.now) (map plain_constructor datatype.now.constructors)) }
    ensures error { IfErr result (λ e. e ≡ TyError.NoMemory) }
    ensures others { OnlyScopesChange world.old world.new }
    ensures ready { IsReady world.new }
{
    let mut left = datatype.constructors.as_slice();
    while let Some((constructor, others)) = left.split_first() {
        declare_constructor(alloc, world, datatype, own, constructor)?;
        declare_selectors(alloc, world, datatype, own, constructor.fields.as_slice())?;
        left = others;
    }
    Ok(())
}

// Declares the constructors and selectors of a datatype.
fn declare_datatype(alloc: Global, world: &mut World, datatype: &Datatype) -> Result<(), TyError>
    requires ready { IsReady world.old }
    requires schema { HasReadyParts world.old datatype.now }
    ensures effect { OnOk result (declarations_of world.new.scopes ≡ with_parts (declarations_of world.old.scopes) (plain_datatype datatype.now ∷ [])) }
    ensures error { IfErr result (λ e. e ≡ TyError.NoMemory) }
    ensures others { OnlySymbolsChange world.old world.new }
    ensures ready { IsReady world.new }
{
    let Ok(own) = own_sort(alloc, &mut world.sorts, datatype) else {
        return Err(TyError::NoMemory);
    };
    match declare_constructors(alloc, world, datatype, &own) {
        Ok(()) => Ok(()),
        Err(error) => Err(error),
    }
}

/// Makes the constructors and selectors of a group live (SMT-LIB 2.6, section 4.2.3): each constructor, followed by its selectors,
/// datatype by datatype. The only error is that memory runs out.
pub fn declare_parts(alloc: Global, world: &mut World, group: &[Datatype]) -> Result<(), TyError>
    requires ready { IsReady world.old }
    requires schema { All (HasReadyParts world.old) group.now }
    ensures effect { OnOk result (declarations_of world.new.scopes ≡ with_parts (declarations_of world.old.scopes) (map plain_datatype group.now)) }
    ensures error { IfErr result (λ e. e ≡ TyError.NoMemory) }
    ensures others { OnlySymbolsChange world.old world.new }
    ensures ready { IsReady world.new }
{
    let mut left = group;
    while let Some((datatype, others)) = left.split_first() {
        declare_datatype(alloc, world, datatype)?;
        left = others;
    }
    Ok(())
}

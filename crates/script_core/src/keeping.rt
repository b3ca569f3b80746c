//! A script keeps the definitions and the datatypes of its commands.
ghost use Rattle.std.specs.Prelude.{◌≡◌, ◌++◌, ◌∷◌, [], IfErr, IfOk, OnErr, OnOk};
ghost use Rattle.term_store.specs.Definitions.{IsUnused};
ghost use Rattle.script_core.specs.Keeping.{EachDatatypeUnused, EachUnused, KeepsGroupPart, KeepsPart, definitions_in, with_datatypes, with_definitions};

use crate::effects::copy_of;
use crate::scope::StepError;
use lex_core::NameId;
use sort_store::SortRef;
use std::alloc::Global;
use term_store::{Constructor, Datatype, Def, Field, ListOf, Script, TermRef, TypedCommand};

/// The same variables once more. The only error is that memory runs out.
pub fn copy_of_vars(
    alloc: Global,
    vars: &[(NameId, SortRef)],
) -> Result<ListOf<(NameId, SortRef)>, StepError>
    ensures ok { IfOk result (λ list. list ≡ vars.now) }
    ensures err { IfErr result (λ e. e ≡ StepError.NoMemory) }
{
    let mut list: ListOf<(NameId, SortRef)> = ListOf::new(alloc);
    for var in vars {
        let copy = copy_of(&var.1)?;
        match list.push((var.0, copy)) {
            Ok(()) => {}
            Err(_) => return Err(StepError::NoMemory),
        }
    }
    Ok(list)
}

/// The same term once more. The only error is that memory runs out.
pub fn copy_of_term(term: &TermRef) -> Result<TermRef, StepError>
    ensures ok { IfOk result (λ t. t ≡ term.now) }
    ensures err { IfErr result (λ e. e ≡ StepError.NoMemory) }
{
    match term.clone() {
        Ok(term) => Ok(term),
        Err(_) => Err(StepError::NoMemory),
    }
}

// The same definition once more. The only error is that memory runs out.
fn copy_of_def(alloc: Global, def: &Def) -> Result<Def, StepError>
    ensures ok { IfOk result (λ d. d ≡ def.now) }
    ensures err { IfErr result (λ e. e ≡ StepError.NoMemory) }
{
    let params = copy_of_vars(alloc, def.params.as_slice())?;
    let result = copy_of(&def.result)?;
    let body = copy_of_term(&def.body)?;
    Ok(Def {
        no: def.no,
        name: def.name,
        params,
        result,
        body,
        recursive: def.recursive,
    })
}

// Keeps a definition. The only error is that memory runs out; it leaves the script as it was.
fn keep(script: &mut Script, def: Def) -> Result<(), StepError>
    requires { IsUnused script.old.defs def.no }
    ensures ok { OnOk result (script.new ≡ with_definitions script.old (def ∷ [])) }
    ensures err { IfErr result (λ e. e ≡ StepError.NoMemory) }
    ensures left { OnErr result (script.new ≡ script.old) }
{
    match script.defs_mut().keep_def(def) {
        Ok(()) => Ok(()),
        Err(_) => Err(StepError::NoMemory),
    }
}

// Keeps definitions, those before an error too. The only error is that memory runs out.
fn keep_all(alloc: Global, script: &mut Script, defs: &[Def]) -> Result<(), StepError>
    requires { EachUnused script.old.defs defs.now }
    ensures ok { OnOk result (script.new ≡ with_definitions script.old defs.now) }
    ensures err { IfErr result (λ e. e ≡ StepError.NoMemory) }
    ensures left { OnErr result (KeepsPart script.old defs.now script.new) }
{
    for def in defs {
        let copy = copy_of_def(alloc, def)?;
        match keep(script, copy) {
            Ok(()) => {}
            Err(error) => return Err(error),
        }
    }
    Ok(())
}

// Keeps the definitions that a command makes, but for those of its named terms, as `keep_all`.
fn keep_own(alloc: Global, script: &mut Script, command: &TypedCommand) -> Result<(), StepError>
    requires { EachUnused script.old.defs (definitions_in command.now) }
    ensures ok { OnOk result (script.new ≡ with_definitions script.old (definitions_in command.now)) }
    ensures err { IfErr result (λ e. e ≡ StepError.NoMemory) }
    ensures left { OnErr result (KeepsPart script.old (definitions_in command.now) script.new) }
{
    match command {
        TypedCommand::DefineFun { def } => keep_all(alloc, script, std::slice::from_ref(def)),
        TypedCommand::DefineFunRec { def } => keep_all(alloc, script, std::slice::from_ref(def)),
        TypedCommand::DefineFunsRec { defs } => keep_all(alloc, script, defs.as_slice()),
        _ => Ok(()),
    }
}

// The same names once more. The only error is that memory runs out.
fn copy_of_names(alloc: Global, names: &[NameId]) -> Result<ListOf<NameId>, StepError>
    ensures ok { IfOk result (λ list. list ≡ names.now) }
    ensures err { IfErr result (λ e. e ≡ StepError.NoMemory) }
{
    let mut list: ListOf<NameId> = ListOf::new(alloc);
    for name in names {
        match list.push(*name) {
            Ok(()) => {}
            Err(_) => return Err(StepError::NoMemory),
        }
    }
    Ok(list)
}

// The same fields once more. The only error is that memory runs out.
fn copy_of_fields(alloc: Global, fields: &[Field]) -> Result<ListOf<Field>, StepError>
    ensures ok { IfOk result (λ list. list ≡ fields.now) }
    ensures err { IfErr result (λ e. e ≡ StepError.NoMemory) }
{
    let mut list: ListOf<Field> = ListOf::new(alloc);
    for field in fields {
        let sort = copy_of(&field.sort)?;
        let copy = Field {
            no: field.no,
            name: field.name,
            sort,
        };
        match list.push(copy) {
            Ok(()) => {}
            Err(_) => return Err(StepError::NoMemory),
        }
    }
    Ok(list)
}

// The same constructors once more. The only error is that memory runs out.
fn copy_of_constructors(
    alloc: Global,
    constructors: &[Constructor],
) -> Result<ListOf<Constructor>, StepError>
    ensures ok { IfOk result (λ list. list ≡ constructors.now) }
    ensures err { IfErr result (λ e. e ≡ StepError.NoMemory) }
{
    let mut list: ListOf<Constructor> = ListOf::new(alloc);
    for constructor in constructors {
        let fields = copy_of_fields(alloc, constructor.fields.as_slice())?;
        let copy = Constructor {
            no: constructor.no,
            name: constructor.name,
            fields,
        };
        match list.push(copy) {
            Ok(()) => {}
            Err(_) => return Err(StepError::NoMemory),
        }
    }
    Ok(list)
}

// The same datatype once more. The only error is that memory runs out.
fn copy_of_datatype(alloc: Global, datatype: &Datatype) -> Result<Datatype, StepError>
    ensures ok { IfOk result (λ t. t ≡ datatype.now) }
    ensures err { IfErr result (λ e. e ≡ StepError.NoMemory) }
{
    let params = copy_of_names(alloc, datatype.params.as_slice())?;
    let constructors = copy_of_constructors(alloc, datatype.constructors.as_slice())?;
    Ok(Datatype {
        no: datatype.no,
        name: datatype.name,
        params,
        constructors,
    })
}

// Keeps a datatype. The only error is that memory runs out; it leaves the script as it was.
fn keep_datatype(script: &mut Script, datatype: Datatype) -> Result<(), StepError>
    requires { IsUnused script.old.defs datatype.no }
    ensures ok { OnOk result (script.new ≡ with_datatypes script.old (datatype ∷ [])) }
    ensures err { IfErr result (λ e. e ≡ StepError.NoMemory) }
    ensures left { OnErr result (script.new ≡ script.old) }
{
    match script.defs_mut().keep_datatype(datatype) {
        Ok(()) => Ok(()),
        Err(_) => Err(StepError::NoMemory),
    }
}

/// Keeps the datatypes of a group, those before an error too. The only error is that memory runs out.
pub fn keep_group(alloc: Global, script: &mut Script, group: &[Datatype]) -> Result<(), StepError>
    requires { EachDatatypeUnused script.old.defs group.now }
    ensures ok { OnOk result (script.new ≡ with_datatypes script.old group.now) }
    ensures err { IfErr result (λ e. e ≡ StepError.NoMemory) }
    ensures left { OnErr result (KeepsGroupPart script.old group.now script.new) }
{
    for datatype in group {
        let copy = copy_of_datatype(alloc, datatype)?;
        match keep_datatype(script, copy) {
            Ok(()) => {}
            Err(error) => return Err(error),
        }
    }
    Ok(())
}

/// Keeps the definitions of a command and then those of its named terms, those before an error too. The only error is that memory
/// runs out.
pub fn keep_definitions(
    alloc: Global,
    script: &mut Script,
    command: &TypedCommand,
    named: &[Def],
) -> Result<(), StepError>
    requires { EachUnused script.old.defs (definitions_in command.now ++ named.now) }
    ensures ok { OnOk result (script.new ≡ with_definitions script.old (definitions_in command.now ++ named.now)) }
    ensures err { IfErr result (λ e. e ≡ StepError.NoMemory) }
    ensures left { OnErr result (KeepsPart script.old (definitions_in command.now ++ named.now) script.new) }
{
    match keep_own(alloc, script, command) {
        Ok(()) => keep_all(alloc, script, named),
        Err(error) => Err(error),
    }
}

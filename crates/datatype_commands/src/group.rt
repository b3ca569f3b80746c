//! The datatypes that a command declares, as a group (SMT-LIB 2.6, section 4.2.3).
ghost use Rattle.std.specs.Prelude.{◌≡◌, ◌++◌, ◌∷◌, ◌+◌, ◌<◌, [], false, IfErr, IfOk, IfSome, OnOk, length, map};
ghost use Rattle.std.specs.List.{All};
ghost use Rattle.sort_store.specs.Interned.{HasNoRepeats};
ghost use Rattle.dt_rules.specs.Answers.{Answers};
ghost use Rattle.dt_rules.specs.Groups.{IsReadyGroup};
ghost use Rattle.term_store.specs.Command.{plain_constructor, plain_datatype};
ghost use Rattle.typer.specs.Declarations.{declarations_of};
ghost use Rattle.typer.specs.FunctionSymbols.{datatypes_of as kept_datatypes, signature_of};
ghost use Rattle.typer.specs.Ready.{IsReady};
ghost use Rattle.datatype_commands.specs.Answers.{HasReadyParts, HaveNames, OnlySortsGrow, OnlySymbolsChange, answer_by};
ghost use Rattle.datatype_commands.specs.DeclaredDatatypes.{with_sorts};
ghost use Rattle.datatype_commands.specs.KnownDatatypes.{KnowsDatatypes};
ghost use Rattle.datatype_commands.specs.GroupRules as spec;
ghost use Rattle.datatype_commands.specs.GroupRules.{all_part_names, judge_datatype, judge_datatypes, judge_group, judge_params, judge_single, judge_whole};

use crate::parts::{PartNames, constructors_of};
use crate::symbols::{DatatypeSymbol, declare_symbol, symbols_of};
use cmd_grammar::{RawConDecs, RawDataDec, RawDataDecKind, RawDataDecs, RawSortDecs};
use dt_rules::{DtError, TyError, check_group, fault, variables_of};
use lex_core::{NameId, Tok};
use sig_table::Code;
use sort_store::DeclNo;
use std::alloc::Global;
use std::slice::from_ref;
use term_store::{Datatype, ListOf};
use typer::{World, is_sort_in_use};

// How many parameters the declaration of a datatype has.
fn count_of(raw: &RawDataDec) -> usize
    ensures { result ≡ length (spec.params_of raw.now) }
{
    match raw.kind() {
        RawDataDecKind::Plain { .. } => 0,
        RawDataDecKind::Parametric { params, .. } => params.len(),
    }
}

// The parameters of a datatype, whose sort symbol has this arity.
fn params_of(
    alloc: Global,
    symbol: &DatatypeSymbol,
    raw: &RawDataDec,
) -> Result<ListOf<NameId>, TyError>
    ensures { Answers result (judge_params symbol.now raw.now) }
{
    if count_of(raw) as u64 != u64::from(symbol.arity) {
        return Err(fault(Code::WrongParameterCount, raw.at()));
    }
    match raw.kind() {
        RawDataDecKind::Plain { .. } => Ok(ListOf::new(alloc)),
        RawDataDecKind::Parametric { params, .. } => variables_of(alloc, &params),
    }
}

// The declarations of the constructors of a datatype.
fn raw_constructors<'t>(raw: RawDataDec<'t>) -> RawConDecs<'t>
    ensures { result ≡ spec.constructors_of raw.entry }
{
    match raw.kind() {
        RawDataDecKind::Plain { constructors } => constructors,
        RawDataDecKind::Parametric { constructors, .. } => constructors,
    }
}

// The datatype of a sort symbol.
fn datatype_of(
    alloc: Global,
    world: &mut World,
    parts: &mut PartNames,
    symbol: &DatatypeSymbol,
    raw: RawDataDec,
) -> Result<Datatype, TyError>
    requires ready { IsReady world.old }
    ensures answer { Answers (answer_by plain_datatype result) (judge_datatype (signature_of world.old) parts.old.first parts.old.names.items symbol.now raw.entry) }
    ensures names { IfOk result (λ t. parts.new.names.items ≡ parts.old.names.items ++ all_part_names (map plain_constructor t.constructors)) }
    ensures first { parts.new.first ≡ parts.old.first }
    ensures schema { IfOk result (HasReadyParts world.new) }
    ensures grown { OnlySortsGrow world.old world.new }
    ensures ready { IsReady world.new }
{
    let params = params_of(alloc, symbol, &raw)?;
    let raws = raw_constructors(raw);
    match constructors_of(alloc, world, parts, params.as_slice(), &raws) {
        Ok(constructors) => Ok(Datatype {
            no: symbol.no,
            name: symbol.name.name,
            params,
            constructors,
        }),
        Err(error) => Err(error),
    }
}

// The datatypes of sort symbols, one declaration for each; the first constructor has this number.
fn datatypes_of(
    alloc: Global,
    world: &mut World,
    at: u32,
    first: u32,
    symbols: &[DatatypeSymbol],
    raws: &RawDataDecs,
) -> Result<ListOf<Datatype>, TyError>
    requires ready { IsReady world.old }
    ensures answer { Answers (answer_by (λ ts. map plain_datatype ts) result) (judge_datatypes (signature_of world.old) first [] at symbols.now raws.now) }
    ensures schema { IfOk result (All (HasReadyParts world.new)) }
    ensures grown { OnlySortsGrow world.old world.new }
    ensures ready { IsReady world.new }
{
    let mut parts = PartNames {
        names: Vec::new(alloc),
        first,
    };
    let mut datatypes: ListOf<Datatype> = ListOf::new(alloc);
    let mut left = symbols;
    let mut next = raws.split();
    while let Some((symbol, others)) = left.split_first() {
        let Some((raw, rest)) = next else {
            return Err(fault(Code::WrongParameterCount, at));
        };
        let datatype = datatype_of(alloc, world, &mut parts, symbol, raw)?;
        match datatypes.push(datatype) {
            Ok(()) => {}
            Err(_) => return Err(TyError::NoMemory),
        }
        left = others;
        next = rest.split();
    }
    Ok(datatypes)
}

// Judges a group of datatypes as a whole, whose command begins at a byte.
fn judge_rules(
    alloc: Global,
    world: &mut World,
    at: u32,
    symbols: &[DatatypeSymbol],
    group: &[Datatype],
) -> Result<(), TyError>
    requires ready { IsReady world.old }
    requires group { IsReadyGroup (kept_datatypes world.old.script) (map plain_datatype group.now) }
    requires each { length symbols.now ≡ length group.now }
    ensures answer { Answers result (judge_whole (kept_datatypes world.old.script) at symbols.now (map plain_datatype group.now)) }
    ensures grown { OnlySortsGrow world.old world.new }
    ensures ready { IsReady world.new }
{
    match check_group(alloc, &mut world.sorts, world.script.defs(), group) {
        Ok(()) => Ok(()),
        Err(DtError::TooWide) => Err(fault(Code::UnfoldingTooLarge, at)),
        Err(DtError::NotSettled(i)) => Err(fault(Code::NotWellFounded, symbols[i].name.at)),
        Err(DtError::NoMemory) => Err(TyError::NoMemory),
    }
}

// The number that comes after those of sort symbols.
fn number_after(first: u32, symbols: &[DatatypeSymbol]) -> Option<u32>
    ensures { IfSome result (λ n. n ≡ first + length symbols.now) }
{
    let Ok(count) = u32::try_from(symbols.len()) else {
        return None;
    };
    first.checked_add(count)
}

/// The datatypes of a `declare-datatypes` (SMT-LIB 2.6, section 4.2.3), whose list begins at a byte. The errors are the first rule
/// that it breaks, with its byte, and that memory runs out. Their sort symbols are live then, and no other symbol. The numbers of
/// the sort symbols come first, from the next number on, and then those of the constructors, each followed by its selectors.
pub fn type_group(
    alloc: Global,
    world: &mut World,
    at: u32,
    sorts: &RawSortDecs,
    datatypes: &RawDataDecs,
) -> Result<ListOf<Datatype>, TyError>
    requires ready { IsReady world.old }
    requires known { KnowsDatatypes (signature_of world.old) }
    requires named { HaveNames world.old.names sorts.now }
    requires begins { world.old.seen.items ≡ [] }
    ensures answer { Answers (answer_by (λ ts. map plain_datatype ts) result) (judge_group (signature_of world.old) at sorts.now datatypes.now) }
    ensures effect { IfOk result (λ ts. declarations_of world.new.scopes ≡ with_sorts (declarations_of world.old.scopes) (map plain_datatype ts)) }
    ensures group { IfOk result (λ ts. IsReadyGroup (kept_datatypes world.old.script) (map plain_datatype ts)) }
    ensures schema { IfOk result (All (HasReadyParts world.new)) }
    ensures others { OnlySymbolsChange world.old world.new }
    ensures ready { IsReady world.new }
{
    let first = world.next.0;
    let named = symbols_of(alloc, world, first, sorts)?;
    if datatypes.len() != sorts.len() {
        return Err(fault(Code::WrongParameterCount, at));
    }
    let symbols = named.as_slice();
    let Some(number) = number_after(first, symbols) else {
        return Err(TyError::NoMemory);
    };
    let group = datatypes_of(alloc, world, at, number, symbols, datatypes)?;
    match judge_rules(alloc, world, at, symbols, group.as_slice()) {
        Ok(()) => Ok(group),
        Err(error) => Err(error),
    }
}

// The sort symbol of a datatype that is declared alone.
fn only_symbol(first: u32, name: &Tok, raw: &RawDataDec) -> Option<DatatypeSymbol>
    ensures { IfSome result (λ s. s ≡ record { no = record { 0 = first }; name = name.now; arity = length (spec.params_of raw.now) }) }
{
    let Ok(arity) = u32::try_from(count_of(raw)) else {
        return None;
    };
    Some(DatatypeSymbol {
        no: DeclNo(first),
        name: *name,
        arity,
    })
}

/// The datatype of a `declare-datatype` (SMT-LIB 2.6, section 4.2.3), as `type_group`.
pub fn type_single(
    alloc: Global,
    world: &mut World,
    at: u32,
    name: &Tok,
    raw: RawDataDec,
) -> Result<Datatype, TyError>
    requires ready { IsReady world.old }
    requires known { KnowsDatatypes (signature_of world.old) }
    requires named { name.now.name < length world.old.names }
    requires begins { world.old.seen.items ≡ [] }
    ensures answer { Answers (answer_by plain_datatype result) (judge_single (signature_of world.old) at name.now raw.entry) }
    ensures effect { IfOk result (λ t. declarations_of world.new.scopes ≡ with_sorts (declarations_of world.old.scopes) (plain_datatype t ∷ [])) }
    ensures group { IfOk result (λ t. IsReadyGroup (kept_datatypes world.old.script) (plain_datatype t ∷ [])) }
    ensures schema { IfOk result (HasReadyParts world.new) }
    ensures others { OnlySymbolsChange world.old world.new }
    ensures ready { IsReady world.new }
{
    let first = world.next.0;
    if is_sort_in_use(world, name.name) {
        return Err(fault(Code::SortNameInUse, name.at));
    }
    let Some(symbol) = only_symbol(first, name, &raw) else {
        return Err(TyError::NoMemory);
    };
    declare_symbol(world, &symbol)?;
    let Some(number) = first.checked_add(1) else {
        return Err(TyError::NoMemory);
    };
    let mut parts = PartNames {
        names: Vec::new(alloc),
        first: number,
    };
    let datatype = datatype_of(alloc, world, &mut parts, &symbol, raw)?;
    match judge_rules(alloc, world, at, from_ref(&symbol), from_ref(&datatype)) {
        Ok(()) => Ok(datatype),
        Err(error) => Err(error),
    }
}

//! The sort symbols of the datatypes that a command declares.
ghost use Rattle.std.specs.Prelude.{◌≡◌, ◌↔◌, ◌<◌, ◌≤◌, ◌^◌, ◌+◌, [], false, IfErr, IfOk, IfSome, IsNone, OnOk, length, slice_index_or};
ghost use Rattle.typer.specs.Numerals.{numeral_value as value_of_text};
ghost use Rattle.cmd_grammar.specs.DeclarationViews.{sort_dec_seen};
ghost use Rattle.dt_rules.specs.Answers.{Answers};
ghost use Rattle.typer.specs.Declarations.{declarations_of};
ghost use Rattle.typer.specs.FunctionSymbols.{signature_of};
ghost use Rattle.typer.specs.Ready.{IsReady};
ghost use Rattle.typer.specs.SortSymbols.{is_theory_sort};
ghost use Rattle.datatype_commands.specs.Answers.{HaveNames, OnlyScopesChange, answer_by};
ghost use Rattle.datatype_commands.specs.GroupRules.{judge_symbol, judge_symbols, with_symbol, with_symbols};

use cmd_grammar::{RawSortDec, RawSortDecs};
use dt_rules::{TyError, fault};
use lex_core::{NameId, Names, Tok};
use scope_stack::SortEntry;
use sig_table::Code;
use sort_store::DeclNo;
use std::alloc::Global;
use term_store::ListOf;
use typer::{World, is_sort_in_use, numeral_value};

/// The sort symbol of a datatype that a command declares, with its declaration number and its number of parameters.
#[derive(Clone, Copy, Debug)]
pub struct DatatypeSymbol {
    pub no: DeclNo,
    pub name: Tok,
    pub arity: u32,
}

// The text of a name, and no bytes where the table does not have it.
fn text_of(names: &Names, id: NameId) -> &[u8]
    ensures { result.now ≡ slice_index_or names.now id [] }
{
    if (id.number() as usize) < names.count() {
        names.text(id)
    } else {
        b""
    }
}

/// The value of a numeral; none exactly where it is above 4,294,967,295.
pub fn value_of(names: &Names, numeral: &Tok) -> Option<u32>
    ensures value { IfSome result (λ n. n ≡ value_of_text (slice_index_or names.now numeral.now.name [])) }
    ensures too_large { IsNone result ↔ (2 ^ 32 ≤ value_of_text (slice_index_or names.now numeral.now.name [])) }
{
    numeral_value(text_of(names, numeral.name))
}

/// Declares a sort symbol. The only error is that memory runs out.
pub(crate) fn declare_symbol(world: &mut World, symbol: &DatatypeSymbol) -> Result<(), TyError>
    requires ready { IsReady world.old }
    requires named { symbol.now.name.name < length world.old.names }
    requires free { is_theory_sort world.old.names world.old.theories symbol.now.name.name ≡ false }
    ensures effect { OnOk result (declarations_of world.new.scopes ≡ with_symbol (declarations_of world.old.scopes) symbol.now) }
    ensures error { IfErr result (λ e. e ≡ TyError.NoMemory) }
    ensures others { OnlyScopesChange world.old world.new }
    ensures ready { IsReady world.new }
{
    let entry = SortEntry::Data {
        no: symbol.no,
        arity: symbol.arity,
    };
    match world.scopes.declare_sort(symbol.name.name, entry) {
        Ok(()) => Ok(()),
        Err(_) => Err(TyError::NoMemory),
    }
}

// The sort symbol of a declaration, under this number. It is live from then on.
fn symbol_of(world: &mut World, number: u32, raw: RawSortDec) -> Result<DatatypeSymbol, TyError>
    requires ready { IsReady world.old }
    requires named { raw.name.name < length world.old.names }
    ensures answer { Answers result (judge_symbol (signature_of world.old) number (sort_dec_seen raw)) }
    ensures effect { IfOk result (λ s. declarations_of world.new.scopes ≡ with_symbol (declarations_of world.old.scopes) s) }
    ensures others { OnlyScopesChange world.old world.new }
    ensures ready { IsReady world.new }
{
    let name = raw.name;
    let arity = raw.arity;
    if is_sort_in_use(world, name.name) {
        return Err(fault(Code::SortNameInUse, name.at));
    }
    let Some(count) = value_of(&world.names, &arity) else {
        return Err(fault(Code::NumberTooLarge, arity.at));
    };
    let symbol = DatatypeSymbol {
        no: DeclNo(number),
        name,
        arity: count,
    };
    match declare_symbol(world, &symbol) {
        Ok(()) => Ok(symbol),
        Err(error) => Err(error),
    }
}

/// The sort symbols of a group, with the numbers from this one on. They are live from then on.
pub(crate) fn symbols_of(
    alloc: Global,
    world: &mut World,
    first: u32,
    raws: &RawSortDecs,
) -> Result<ListOf<DatatypeSymbol>, TyError>
    requires ready { IsReady world.old }
    requires named { HaveNames world.old.names raws.now }
    ensures answer { Answers result (judge_symbols (signature_of world.old) first raws.now) }
    ensures effect { IfOk result (λ ss. declarations_of world.new.scopes ≡ with_symbols (declarations_of world.old.scopes) ss) }
    ensures others { OnlyScopesChange world.old world.new }
    ensures ready { IsReady world.new }
{
    let mut symbols: ListOf<DatatypeSymbol> = ListOf::new(alloc);
    let mut number = first;
    let mut next = raws.split();
    while let Some((raw, rest)) = next {
        let symbol = symbol_of(world, number, raw)?;
        match symbols.push(symbol) {
            Ok(()) => {}
            Err(_) => return Err(TyError::NoMemory),
        }
        let Some(later) = number.checked_add(1) else {
            return Err(TyError::NoMemory);
        };
        number = later;
        next = rest.split();
    }
    Ok(symbols)
}

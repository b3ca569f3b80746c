//! Testers of constructors (SMT-LIB 2.6, section 4.2.3).
ghost use Rattle.std.specs.Prelude.{◌≡◌, ◌∷◌, [], IfErr, IfOk, IfSome, map, option_map};
ghost use Rattle.sort_store.specs.Interned.{AllInterned, Grows, HasNoRepeats, IsInterned};
ghost use Rattle.sort_store.specs.Tree.{tree};
ghost use Rattle.typer.specs.Answers.{Answers, head_answer, tree_answer};
ghost use Rattle.typer.specs.Declarations.{fun_declaration};
ghost use Rattle.typer.specs.FunctionSymbols as spec;
ghost use Rattle.typer.specs.FunctionSymbols.{signature_of, tester_of};
ghost use Rattle.typer.specs.LiveRanks.{IsReadyEntry, judge_live};
ghost use Rattle.typer.specs.Ready.{IsReady};
ghost use Rattle.typer.specs.TermRules.{applied_tester, judge_tester};
ghost use Rattle.typer.specs.Typed.{HasGrown};

use crate::head::TypedHead;
use crate::live::live_sort;
use crate::made::{constant_sort, copy_of};
use crate::world::World;
use dt_rules::{TyError, fault};
use lex_core::{NameId, Tok};
use scope_stack::{FunEntry, FunKind};
use sig_table::Code;
use sort_store::{Head, SortRef, SortStore, Sorts};
use std::alloc::Global;
use term_grammar::{RawIndices, is_numeral};
use term_store::{Applied, Fun, ListOf};

// The index, where there is one alone and it is a symbol.
fn only_symbol(indices: &RawIndices) -> Option<Tok>
    ensures { result ≡ spec.only_symbol indices.now }
{
    let (first, rest) = indices.split()?;
    if is_numeral(&first) || rest.split().is_some() {
        return None;
    }
    Some(first)
}

// Whether the function symbol is a constructor.
fn is_constructor(entry: &FunEntry) -> bool
    ensures { result ≡ spec.is_constructor entry.now.kind }
{
    matches!(entry.kind, FunKind::Constructor)
}

// A list of one sort.
fn list_of_one(alloc: Global, sort: &SortRef) -> Result<Sorts, TyError>
    ensures ok { IfOk result (λ list. list ≡ sort.now ∷ []) }
    ensures err { IfErr result (λ e. e ≡ TyError.NoMemory) }
{
    let mut list = Sorts::new(alloc);
    match list.push(copy_of(sort)?) {
        Ok(()) => Ok(list),
        Err(_) => Err(TyError::NoMemory),
    }
}

// The tester of a constructor, as a function of its datatype.
fn tester(sorts: &mut SortStore, alloc: Global, constructor: &FunEntry) -> Result<FunEntry, TyError>
    requires ready { IsReadyEntry sorts.old constructor.now }
    requires distinct { HasNoRepeats sorts.old }
    ensures tester { IfOk result (λ f. fun_declaration f ≡ tester_of (fun_declaration constructor.now)) }
    ensures ready { IfOk result (IsReadyEntry sorts.new) }
    ensures grows { Grows sorts.old sorts.new }
    ensures distinct { HasNoRepeats sorts.new }
    ensures err { IfErr result (λ e. e ≡ TyError.NoMemory) }
{
    let result = constant_sort(sorts, Head::Bool)?;
    let args = list_of_one(alloc, &constructor.result)?;
    Ok(FunEntry {
        no: constructor.no,
        kind: constructor.kind,
        params: constructor.params,
        args,
        result,
    })
}

// The result sort of the tester of a constructor with these argument sorts, in a term that begins at a byte.
fn tester_sort(
    sorts: &mut SortStore,
    alloc: Global,
    constructor: &FunEntry,
    at: u32,
    args: &[SortRef],
    asked: &Option<SortRef>,
) -> Result<SortRef, TyError>
    requires ready { IsReadyEntry sorts.old constructor.now }
    requires args { AllInterned sorts.old args.now }
    requires asked { IfSome asked.now (IsInterned sorts.old) }
    requires distinct { HasNoRepeats sorts.old }
    ensures answer { Answers (tree_answer result) (judge_live (tester_of (fun_declaration constructor.now)) at (map tree args.now) (option_map tree asked.now)) }
    ensures interned { IfOk result (λ r. IsInterned sorts.new r) }
    ensures grows { Grows sorts.old sorts.new }
    ensures distinct { HasNoRepeats sorts.new }
{
    let tester = tester(sorts, alloc, constructor)?;
    live_sort(sorts, alloc, &tester, at, args, asked)
}

// The tester of a constructor with this name.
fn tester_symbol(alloc: Global, name: NameId, constructor: &FunEntry, sort: SortRef) -> TypedHead
    ensures symbol { result.applied ≡ applied_tester name (fun_declaration constructor.now) }
    ensures sort { result.sort ≡ sort }
{
    TypedHead {
        applied: Applied {
            fun: Fun::Tester(constructor.no),
            name,
            indices: ListOf::new(alloc),
            qualify: false,
        },
        sort,
    }
}

/// The tester `( _ is c )` with these indices, with its result sort, as `head` gives a symbol without indices.
#[tactic(auto, using(crate::proofs::TypedSteps::typed_words))]
pub(crate) fn tester_head(
    world: &mut World,
    at: u32,
    args: &[SortRef],
    asked: &Option<SortRef>,
    indices: &RawIndices,
) -> Result<TypedHead, TyError>
    requires ready { IsReady world.old }
    requires args { AllInterned world.old.sorts args.now }
    requires asked { IfSome asked.now (IsInterned world.old.sorts) }
    ensures answer { Answers (head_answer result)
        (judge_tester (signature_of world.old) at (map tree args.now) (option_map tree asked.now) indices.now) }
    ensures interned { IfOk result (λ h. IsInterned world.new.sorts h.sort) }
    ensures grown { HasGrown world.old world.new }
    ensures ready { IsReady world.new }
{
    let Some(index) = only_symbol(indices) else {
        return Err(fault(Code::WrongIndex, at));
    };
    let Some(constructor) = world.scopes.find_fun(index.name) else {
        return Err(fault(Code::WrongIndex, at));
    };
    if !is_constructor(constructor) {
        return Err(fault(Code::WrongIndex, at));
    }
    match tester_sort(&mut world.sorts, world.alloc, constructor, at, args, asked) {
        Ok(sort) => Ok(tester_symbol(world.alloc, index.name, constructor, sort)),
        Err(error) => Err(error),
    }
}

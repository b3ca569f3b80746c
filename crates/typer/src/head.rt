//! The function symbols of applications, with their result sorts.
ghost use Rattle.std.specs.Prelude.{◌≡◌, ◌++◌, ◌∷◌, [], ℕ, List, IfErr, IfOk, IfSome, None, Some, if◌then◌else◌, map, option_map};
ghost use Rattle.sort_store.specs.Interned.{IsInterned, AllInterned};
ghost use Rattle.sort_store.specs.Tree.{tree};
ghost use Rattle.typer.specs.Answers.{Answers, head_answer};
ghost use Rattle.typer.specs.Declarations.{fun_declaration};
ghost use Rattle.typer.specs.BitVectors.{bits_form as bits_form_of, index_of};
ghost use Rattle.typer.specs.FunctionSymbols as spec;
ghost use Rattle.typer.specs.FunctionSymbols.{Function, bits, declared, if_indexed, if_plain, signature_of, theory};
ghost use Rattle.typer.specs.Ready.{IsReady};
ghost use Rattle.typer.specs.TermRules.{applied, judge_head, judge_indexed_function, judge_indexed_head, judge_indexed_theory};
ghost use Rattle.typer.specs.Typed.{HasGrown};

use crate::bits::{bits_form, bits_sort, indices as indices_of};
use crate::live::{is_ambiguous, live_sort};
use crate::sorts::only_numeral;
use crate::symbol::{is_text, text_of};
use crate::tester::tester_head;
use crate::theory::theory_sort;
use crate::world::World;
use dt_rules::{TyError, fault};
use lex_core::{NameId, Tok};
use scope_stack::FunEntry;
use sig_table::{Code, NameForm, Theories};
use sort_store::SortRef;
use std::alloc::Global;
use term_grammar::RawIndices;
use term_store::{Applied, Fun, ListOf};
use theory_core::theory_form;

/// A function symbol with its result sort.
#[derive(Drop)]
pub(crate) struct TypedHead {
    pub applied: Applied,
    pub sort: SortRef,
}

// Whether a name in this form is written without indices.
fn is_plain(form: Option<NameForm>) -> bool
    ensures { (f : Function) → (if result then Some f else None) ≡ if_plain form f }
{
    match form {
        Some(NameForm::Plain) => true,
        Some(NameForm::Indexed) => false,
        None => false,
    }
}

// .. with indices.
fn is_indexed(form: Option<NameForm>) -> bool
    ensures { (f : Function) → (if result then Some f else None) ≡ if_indexed form f }
{
    match form {
        Some(NameForm::Plain) => false,
        Some(NameForm::Indexed) => true,
        None => false,
    }
}

// The function symbol of a theory, without indices.
fn theory_symbol(alloc: Global, name: NameId, sort: SortRef) -> TypedHead
    ensures symbol { (text : List ℕ) → result.applied ≡ applied (theory text) name [] }
    ensures sort { result.sort ≡ sort }
{
    TypedHead {
        applied: Applied {
            fun: Fun::Theory,
            name,
            indices: ListOf::new(alloc),
            qualify: false,
        },
        sort,
    }
}

// The tokens of indices.
fn tokens_of(alloc: Global, indices: &RawIndices) -> Result<Vec<Tok>, TyError>
    ensures ok { IfOk result (λ v. v.items ≡ indices.now) }
    ensures err { IfErr result (λ e. e ≡ TyError.NoMemory) }
{
    let mut toks = Vec::new(alloc);
    let mut next = indices.split();
    while let Some((first, rest)) = next {
        match toks.push(first) {
            Ok(()) => {}
            Err(_) => return Err(TyError::NoMemory),
        }
        next = rest.split();
    }
    Ok(toks)
}

// The same symbol with these indices.
fn with_indices(mut symbol: TypedHead, indices: &[Tok]) -> Result<TypedHead, TyError>
    ensures symbol { IfOk result (λ h. h.applied ≡ record symbol.applied { indices = symbol.applied.indices ++ map (λ i. i.name) indices.now }) }
    ensures sort { IfOk result (λ h. h.sort ≡ symbol.sort) }
    ensures err { IfErr result (λ e. e ≡ TyError.NoMemory) }
{
    for index in indices {
        match symbol.applied.indices.push(index.name) {
            Ok(()) => {}
            Err(_) => return Err(TyError::NoMemory),
        }
    }
    Ok(symbol)
}

// A live function symbol.
fn live_symbol(alloc: Global, name: NameId, entry: &FunEntry, sort: SortRef) -> TypedHead
    ensures symbol { result.applied ≡ applied (declared (fun_declaration entry.now)) name [] }
    ensures sort { result.sort ≡ sort }
{
    TypedHead {
        applied: Applied {
            fun: Fun::Declared(entry.no),
            name,
            indices: ListOf::new(alloc),
            qualify: is_ambiguous(entry),
        },
        sort,
    }
}

/// The function symbol that the name is, with its result sort, where it stands with these argument sorts in a term that begins
/// at a byte.
#[tactic(auto, using(crate::proofs::TypedSteps::typed_words))]
pub(crate) fn head(
    world: &mut World,
    at: u32,
    args: &[SortRef],
    asked: &Option<SortRef>,
    name: NameId,
) -> Result<TypedHead, TyError>
    requires ready { IsReady world.old }
    requires args { AllInterned world.old.sorts args.now }
    requires asked { IfSome asked.now (IsInterned world.old.sorts) }
    ensures answer { Answers (head_answer result) (judge_head (signature_of world.old) at (map tree args.now) (option_map tree asked.now) name) }
    ensures interned { IfOk result (λ h. IsInterned world.new.sorts h.sort) }
    ensures grown { HasGrown world.old world.new }
    ensures ready { IsReady world.new }
{
    let text = text_of(&world.names, name);
    if is_plain(theory_form(world.theories, text)) {
        return match theory_sort(&mut world.sorts, &world.theories, text, at, args, asked) {
            Ok(sort) => Ok(theory_symbol(world.alloc, name, sort)),
            Err(error) => Err(error),
        };
    }
    if is_plain(bits_form(&world.theories, text)) {
        return match bits_sort(&mut world.sorts, world.alloc, text, &[], at, args, asked) {
            Ok(sort) => Ok(theory_symbol(world.alloc, name, sort)),
            Err(error) => Err(error),
        };
    }
    match world.scopes.find_fun(name) {
        Some(entry) => match live_sort(&mut world.sorts, world.alloc, entry, at, args, asked) {
            Ok(sort) => Ok(live_symbol(world.alloc, name, entry, sort)),
            Err(error) => Err(error),
        },
        None => Err(fault(Code::UnknownFunction, at)),
    }
}

// `( _ divisible n )`, where the name is that of `divisible`.
#[tactic(auto, using(crate::proofs::TypedSteps::typed_words))]
fn divisible_head(
    world: &mut World,
    at: u32,
    args: &[SortRef],
    asked: &Option<SortRef>,
    name: NameId,
    indices: &RawIndices,
) -> Result<TypedHead, TyError>
    requires ready { IsReady world.old }
    requires args { AllInterned world.old.sorts args.now }
    requires asked { IfSome asked.now (IsInterned world.old.sorts) }
    ensures answer { Answers (head_answer result)
        (judge_indexed_function (signature_of world.old) (theory (spec.text_of (signature_of world.old) name)) at (map tree args.now) (option_map tree asked.now) name indices.now) }
    ensures interned { IfOk result (λ h. IsInterned world.new.sorts h.sort) }
    ensures grown { HasGrown world.old world.new }
    ensures ready { IsReady world.new }
{
    let Some(index) = only_numeral(indices) else {
        return Err(fault(Code::WrongIndex, at));
    };
    if is_text(&world.names, index.name, b"0") {
        return Err(fault(Code::WrongIndex, at));
    }
    let text = text_of(&world.names, name);
    match theory_sort(&mut world.sorts, &world.theories, text, at, args, asked) {
        Ok(sort) => with_indices(theory_symbol(world.alloc, name, sort), &[index]),
        Err(error) => Err(error),
    }
}

// An indexed symbol on bit vectors, which has this name.
#[tactic(auto, using(crate::proofs::TypedSteps::typed_words))]
fn bits_head(
    world: &mut World,
    at: u32,
    args: &[SortRef],
    asked: &Option<SortRef>,
    name: NameId,
    toks: &[Tok],
) -> Result<TypedHead, TyError>
    requires ready { IsReady world.old }
    requires args { AllInterned world.old.sorts args.now }
    requires asked { IfSome asked.now (IsInterned world.old.sorts) }
    requires written { bits_form_of world.old.theories (spec.text_of (signature_of world.old) name) ≡ Some NameForm.Indexed }
    ensures answer { Answers (head_answer result)
        (judge_indexed_function (signature_of world.old) (bits (spec.text_of (signature_of world.old) name) (map (index_of world.old.names) toks.now)) at (map tree args.now) (option_map tree asked.now) name toks.now) }
    ensures interned { IfOk result (λ h. IsInterned world.new.sorts h.sort) }
    ensures grown { HasGrown world.old world.new }
    ensures ready { IsReady world.new }
{
    // No identifier has an empty list of indices, but the type of the list does not tell.
    if toks.is_empty() {
        return Err(fault(Code::WrongIndex, at));
    }
    let indices = indices_of(world.alloc, &world.names, toks)?;
    let text = text_of(&world.names, name);
    match bits_sort(
        &mut world.sorts,
        world.alloc,
        text,
        &indices,
        at,
        args,
        asked,
    ) {
        Ok(sort) => with_indices(theory_symbol(world.alloc, name, sort), toks),
        Err(error) => Err(error),
    }
}

// The function symbol `( _ name index+ )` of a theory.
#[tactic(auto, using(crate::proofs::TypedSteps::typed_words))]
fn theory_head(
    world: &mut World,
    at: u32,
    args: &[SortRef],
    asked: &Option<SortRef>,
    name: NameId,
    indices: &RawIndices,
) -> Result<TypedHead, TyError>
    requires ready { IsReady world.old }
    requires args { AllInterned world.old.sorts args.now }
    requires asked { IfSome asked.now (IsInterned world.old.sorts) }
    ensures answer { Answers (head_answer result)
        (judge_indexed_theory (signature_of world.old) at (map tree args.now) (option_map tree asked.now) name indices.now) }
    ensures interned { IfOk result (λ h. IsInterned world.new.sorts h.sort) }
    ensures grown { HasGrown world.old world.new }
    ensures ready { IsReady world.new }
{
    let text = text_of(&world.names, name);
    if is_indexed(theory_form(world.theories, text)) {
        return divisible_head(world, at, args, asked, name, indices);
    }
    if is_indexed(bits_form(&world.theories, text)) {
        let toks = tokens_of(world.alloc, indices)?;
        return bits_head(world, at, args, asked, name, &toks);
    }
    Err(fault(Code::UnknownFunction, at))
}

/// The function symbol `( _ name index+ )`, as `head` gives one without indices.
#[tactic(auto, using(crate::proofs::TypedSteps::typed_words))]
pub(crate) fn indexed_head(
    world: &mut World,
    at: u32,
    args: &[SortRef],
    asked: &Option<SortRef>,
    name: NameId,
    indices: &RawIndices,
) -> Result<TypedHead, TyError>
    requires ready { IsReady world.old }
    requires args { AllInterned world.old.sorts args.now }
    requires asked { IfSome asked.now (IsInterned world.old.sorts) }
    ensures answer { Answers (head_answer result)
        (judge_indexed_head (signature_of world.old) at (map tree args.now) (option_map tree asked.now) name indices.now) }
    ensures interned { IfOk result (λ h. IsInterned world.new.sorts h.sort) }
    ensures grown { HasGrown world.old world.new }
    ensures ready { IsReady world.new }
{
    if is_text(&world.names, name, b"is") {
        return tester_head(world, at, args, asked, indices);
    }
    theory_head(world, at, args, asked, name, indices)
}

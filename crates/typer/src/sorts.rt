//! The sorts of raw sorts.
ghost use Rattle.std.specs.Prelude.{◌≡◌, ◌<◌, ◌^◌, IfOk, [], length, map};
ghost use Rattle.std.specs.List.{All};
ghost use Rattle.sort_store.specs.Interned.{IsInterned, AllInterned, HasNoRepeats, Grows};
ghost use Rattle.sort_store.specs.Tree.{tree};
ghost use Rattle.typer.specs.Answers.{Answers, tree_answer, trees_answer};
ghost use Rattle.typer.specs.Declarations.{declarations_of};
ghost use Rattle.typer.specs.Ready.{IsReady, IsReadySchema};
ghost use Rattle.typer.specs.SortRules.{only_numeral as only_numeral_of, judge_sort, judge_sorts, judge_identifier, judge_name, judge_indexed};

use crate::apply::{definition_sort, symbol_sort};
use crate::numeral::numeral_value;
use crate::symbol::{is_bit_vector, parameter, text_of, theory_symbol};
use crate::world::World;
use dt_rules::{TyError, fault};
use lex_core::{NameId, Tok};
use scope_stack::SortEntry;
use sig_table::Code;
use sort_store::{Head, SortRef};
use term_grammar::{
    RawIdentifier, RawIdentifierKind, RawIndices, RawSort, RawSortKind, RawSorts, is_numeral,
};

/// The index, where there is one alone and it is a numeral.
pub(crate) fn only_numeral(indices: &RawIndices) -> Option<Tok>
    ensures { result ≡ only_numeral_of indices.now }
{
    let (first, rest) = indices.split()?;
    if !is_numeral(&first) || rest.split().is_some() {
        return None;
    }
    Some(first)
}

// The sort `(_ name index+)`, which begins at a byte.
fn indexed_sort(
    world: &mut World,
    at: u32,
    args: &[SortRef],
    name: Tok,
    indices: &RawIndices,
) -> Result<SortRef, TyError>
    requires { HasNoRepeats world.old.sorts }
    ensures answer { Answers (tree_answer result)
        (judge_indexed world.old.names world.old.theories at (map tree args.now) name indices.now) }
    ensures interned { IfOk result (λ r. IsInterned world.new.sorts r) }
    ensures grows { Grows world.old.sorts world.new.sorts }
    ensures distinct { HasNoRepeats world.new.sorts }
    ensures others { world.new ≡ record world.old { sorts = world.new.sorts } }
{
    if !is_bit_vector(&world.names, &world.theories, name.name) {
        return Err(fault(Code::UnknownSort, at));
    }
    if !args.is_empty() {
        return Err(fault(Code::WrongSortArity, at));
    }
    let Some(index) = only_numeral(indices) else {
        return Err(fault(Code::WrongIndex, at));
    };
    let Some(width) = numeral_value(text_of(&world.names, index.name)) else {
        return Err(fault(Code::NumberTooLarge, at));
    };
    if width == 0 {
        return Err(fault(Code::WrongIndex, at));
    }
    symbol_sort(&mut world.sorts, at, &[], Head::BitVec(width), 0)
}

// The sort of a name with its arguments, which begins at a byte.
fn name_sort(
    world: &mut World,
    params: &[NameId],
    at: u32,
    args: &[SortRef],
    name: NameId,
) -> Result<SortRef, TyError>
    requires ready { IsReady world.old }
    requires args { AllInterned world.old.sorts args.now }
    ensures answer { Answers (tree_answer result)
        (judge_name world.old.names (declarations_of world.old.scopes) world.old.theories params.now at (map tree args.now) name) }
    ensures interned { IfOk result (λ r. IsInterned world.new.sorts r) }
    ensures grows { Grows world.old.sorts world.new.sorts }
    ensures distinct { HasNoRepeats world.new.sorts }
    ensures others { world.new ≡ record world.old { sorts = world.new.sorts } }
{
    if let Some(i) = parameter(params, name) {
        // Different names have numbers below 2^32, so that no parameter stands further.
        let Ok(i) = u32::try_from(i) else {
            return Err(TyError::NoMemory);
        };
        return symbol_sort(&mut world.sorts, at, args, Head::Param(i), 0);
    }
    if let Some((head, arity)) = theory_symbol(&world.names, &world.theories, name) {
        return symbol_sort(&mut world.sorts, at, args, head, arity);
    }
    match world.scopes.find_sort(name) {
        Some(SortEntry::Free { no, arity }) => {
            symbol_sort(
                &mut world.sorts,
                at,
                args,
                Head::Free { no: *no, name },
                *arity,
            )
        }
        Some(SortEntry::Data { no, arity }) => {
            symbol_sort(
                &mut world.sorts,
                at,
                args,
                Head::Data { no: *no, name },
                *arity,
            )
        }
        Some(
            SortEntry::Defined {
                params: arity,
                sort,
            },
        ) => {
            definition_sort(
                &mut world.sorts,
                &world.names,
                params,
                at,
                args,
                *arity,
                sort,
            )
        }
        None => Err(fault(Code::UnknownSort, at)),
    }
}

// The sort of an identifier with its arguments, which begins at a byte.
fn identifier_sort(
    world: &mut World,
    params: &[NameId],
    at: u32,
    args: &[SortRef],
    identifier: &RawIdentifier,
) -> Result<SortRef, TyError>
    requires ready { IsReady world.old }
    requires args { AllInterned world.old.sorts args.now }
    ensures answer { Answers (tree_answer result)
        (judge_identifier world.old.names (declarations_of world.old.scopes) world.old.theories params.now at (map tree args.now) identifier.now) }
    ensures interned { IfOk result (λ r. IsInterned world.new.sorts r) }
    ensures grows { Grows world.old.sorts world.new.sorts }
    ensures distinct { HasNoRepeats world.new.sorts }
    ensures others { world.new ≡ record world.old { sorts = world.new.sorts } }
{
    match identifier.kind() {
        RawIdentifierKind::Symbol(tok) => name_sort(world, params, at, args, tok.name),
        RawIdentifierKind::Indexed { name, indices } => indexed_sort(
            world, at, args, name, &indices,
        ),
    }
}

/// The sorts of raw sorts in order, as `type_sort` gives each, or the first fault.
#[cycle(sorts)]
#[tactic(auto, using(crate::proofs::ReadyKept::ready_words))]
pub fn type_sorts(
    world: &mut World,
    params: &[NameId],
    raws: RawSorts,
) -> Result<Vec<SortRef>, TyError>
    requires ready { IsReady world.old }
    ensures answer { Answers (trees_answer result)
        (judge_sorts world.old.names (declarations_of world.old.scopes) world.old.theories params.now raws.entry) }
    ensures interned { IfOk result (λ v. AllInterned world.new.sorts v.items) }

    // The sorts may stand in a declaration with these parameters.
    ensures schema { IfOk result (λ v. All (IsReadySchema world.new.names world.new.sorts (length params.now)) v.items) }
    ensures grows { Grows world.old.sorts world.new.sorts }
    ensures others { world.new ≡ record world.old { sorts = world.new.sorts } }
    ensures ready { IsReady world.new }
{
    let mut sorts = Vec::new(world.alloc);
    let mut next = raws.split();
    while let Some((first, rest)) = next {
        let sort = type_sort(world, params, first)?;
        match sorts.push(sort) {
            Ok(()) => {}
            Err(_) => return Err(TyError::NoMemory),
        }
        next = rest.split();
    }
    Ok(sorts)
}

/// The sort that a raw sort stands for, under the parameters of the command (SMT-LIB 2.6, section
/// 3.5). The errors are the first rule that it does not meet, with its byte, and that memory runs
/// out. The store of sorts only grows, also before an error; all else stays as it was.
#[cycle(sorts)]
#[tactic(auto, using(crate::proofs::ReadyKept::ready_words))]
pub fn type_sort(world: &mut World, params: &[NameId], raw: RawSort) -> Result<SortRef, TyError>
    requires ready { IsReady world.old }
    ensures answer { Answers (tree_answer result)
        (judge_sort world.old.names (declarations_of world.old.scopes) world.old.theories params.now raw.entry) }

    // The sort may stand in a declaration with these parameters.
    ensures schema { IfOk result (λ r. IsReadySchema world.new.names world.new.sorts (length params.now) r) }
    ensures grows { Grows world.old.sorts world.new.sorts }
    ensures others { world.new ≡ record world.old { sorts = world.new.sorts } }
    ensures ready { IsReady world.new }
{
    let at = raw.at();
    match raw.kind() {
        RawSortKind::Identifier(identifier) => identifier_sort(world, params, at, &[], &identifier),
        RawSortKind::Applied { identifier, args } => {
            let args = type_sorts(world, params, args)?;
            identifier_sort(world, params, at, &args, &identifier)
        }
    }
}

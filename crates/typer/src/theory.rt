//! The result sorts that the ranks of theory symbols give.
ghost use Rattle.std.specs.Prelude.{◌≡◌, List, IfErr, IfOk, IfSome, IsSomeAnd, length, map, option_map};
ghost use Rattle.sig_table.specs.declared.code.Code.TheVariants.{WrongQualifiedSort};
ghost use Rattle.sort_store.specs.Interned.{IsInterned, AllInterned, HasNoRepeats, Grows, InternedTogether};
ghost use Rattle.sort_store.specs.Ranks.{ranks_of};
ghost use Rattle.sort_store.specs.Tree.{Sort, tree};
ghost use Rattle.theory_core.specs.Answers as ranks;
ghost use Rattle.theory_core.specs.Answers.{IsFoundSort, IsWithin};
ghost use Rattle.theory_core.specs.ArraysRanks.{array, arrays_symbols};
ghost use Rattle.theory_core.specs.Interned.{AreInternedTogether};
ghost use Rattle.theory_core.specs.TheorySymbols.{theory_symbols};
ghost use Rattle.typer.specs.Answers.{Answers, fault_at, tree_answer};
ghost use Rattle.theory_core.specs.IntsRanks.{ints_symbols};
ghost use Rattle.typer.specs.FunctionSymbols.{if_present, judge_theory, symbols_past_core};

use crate::made::{constant_sort, copy_of, has_few_nodes};
use dt_rules::{TyError, fault};
use sig_table::{Code, Theories};
use sort_store::{Head, SortRef, SortStore, same};
use theory_core::{RankFound, arrays_rank, core_rank, ints_rank, rank_laws};

// The result of a rank that a symbol of Ints has with these argument sorts, where the logic has Ints.
fn rank_in_ints(theories: &Theories, text: &[u8], args: &[SortRef]) -> Option<RankFound>
    requires { AreInternedTogether args.now }
    ensures { ranks.Answers result (ranks_of text.now (if_present theories.now.ints ints_symbols)) (map tree args.now) }
{
    if !theories.ints {
        return None;
    }
    ints_rank(text, args)
}

// .. a symbol of ArraysEx, where the logic has ArraysEx.
fn rank_in_arrays(theories: &Theories, text: &[u8], args: &[SortRef]) -> Option<RankFound>
    requires { AreInternedTogether args.now }
    ensures { ranks.Answers result (ranks_of text.now (if_present theories.now.arrays arrays_symbols)) (map tree args.now) }
{
    if !theories.arrays {
        return None;
    }
    arrays_rank(text, args)
}

// .. a symbol of one of both.
fn rank_past_core(theories: &Theories, text: &[u8], args: &[SortRef]) -> Option<RankFound>
    requires { AreInternedTogether args.now }
    ensures { ranks.Answers result (ranks_of text.now (symbols_past_core theories.now)) (map tree args.now) }
{
    rank_laws();
    match rank_in_ints(theories, text, args) {
        Some(found) => Some(found),
        None => rank_in_arrays(theories, text, args),
    }
}

// The result of a rank that a symbol of Core, Ints or ArraysEx has with these argument sorts, where the logic has these theories.
fn theory_rank(theories: &Theories, text: &[u8], args: &[SortRef]) -> Option<RankFound>
    requires { AreInternedTogether args.now }
    ensures { ranks.Answers result (ranks_of text.now (theory_symbols theories.now)) (map tree args.now) }
{
    rank_laws();
    match core_rank(text, args) {
        Some(found) => Some(found),
        None => rank_past_core(theories, text, args),
    }
}

// The element sort of an array sort.
fn element_sort(sort: &SortRef) -> Result<SortRef, TyError>
    requires { (index : Sort) × (element : Sort) × (tree sort.now ≡ array index element) }
    ensures element { IfOk result (λ r. (index : Sort) × (tree sort.now ≡ array index (tree r))) }
    ensures interned { (store : List Sort) → IsInterned store sort.now → IfOk result (λ r. IsInterned store r) }
    ensures err { IfErr result (λ e. e ≡ TyError.NoMemory) }
{
    match sort.arg(1) {
        Some(element) => copy_of(element),
        None => unreachable!(),
    }
}

// The sort that the answer for a rank tells.
fn found_sort(sorts: &mut SortStore, found: RankFound, args: &[SortRef]) -> Result<SortRef, TyError>
    requires interned { AllInterned sorts.old args.now }
    requires distinct { HasNoRepeats sorts.old }
    requires within { IsWithin found (length args.now) }
    requires told { (t : Sort) × IsFoundSort found (map tree args.now) t }
    ensures told { IfOk result (λ r. IsFoundSort found (map tree args.now) (tree r)) }
    ensures interned { IfOk result (λ r. IsInterned sorts.new r) }
    ensures grows { Grows sorts.old sorts.new }
    ensures distinct { HasNoRepeats sorts.new }
    ensures err { IfErr result (λ e. e ≡ TyError.NoMemory) }
{
    match found {
        RankFound::Bool => constant_sort(sorts, Head::Bool),
        RankFound::Int => constant_sort(sorts, Head::Int),
        RankFound::Arg(i) => copy_of(&args[i]),
        RankFound::Element(i) => element_sort(&args[i]),
    }
}

/// The sort, where `as` asks for no other one, in a term that begins at a byte.
pub(crate) fn as_asked(sort: SortRef, at: u32, asked: &Option<SortRef>) -> Result<SortRef, TyError>
    requires { IfSome asked.now (λ a. InternedTogether sort a) }
    ensures ok { IfOk result (λ r. (r ≡ sort) × IfSome asked.now (λ a. tree sort ≡ tree a)) }
    ensures err { IfErr result (λ e. (e ≡ fault_at WrongQualifiedSort at) × IsSomeAnd asked.now (λ a. tree sort ≡ tree a → ⊥)) }
{
    match asked {
        None => Ok(sort),
        Some(asked) => {
            if !same(&sort, asked) {
                return Err(fault(Code::WrongQualifiedSort, at));
            }
            Ok(sort)
        }
    }
}

/// The result sort of a symbol of Core, Ints or ArraysEx with these argument sorts, in a term that begins at a byte.
/// The sort that is asked for is that of `as`.
pub(crate) fn theory_sort(
    sorts: &mut SortStore,
    theories: &Theories,
    text: &[u8],
    at: u32,
    args: &[SortRef],
    asked: &Option<SortRef>,
) -> Result<SortRef, TyError>
    requires args { AllInterned sorts.old args.now }
    requires asked { IfSome asked.now (IsInterned sorts.old) }
    requires distinct { HasNoRepeats sorts.old }
    ensures answer { Answers (tree_answer result) (judge_theory theories.now text.now at (map tree args.now) (option_map tree asked.now)) }
    ensures interned { IfOk result (λ r. IsInterned sorts.new r) }
    ensures grows { Grows sorts.old sorts.new }
    ensures distinct { HasNoRepeats sorts.new }
{
    let Some(found) = theory_rank(theories, text, args) else {
        return Err(fault(Code::NoRank, at));
    };
    let sort = found_sort(sorts, found, args)?;
    has_few_nodes(&sort);
    rank_laws();
    as_asked(sort, at, asked)
}

//! The result sorts that the ranks of function symbols on bit vectors give.
ghost use Rattle.std.specs.Prelude.{◌≡◌, IfErr, IfOk, IfSome, map, option_map};
ghost use Rattle.sort_store.specs.Interned.{AllInterned, Grows, HasNoRepeats, IsInterned};
ghost use Rattle.sort_store.specs.Tree.{tree};
ghost use Rattle.theory_bv.specs.Symbols.{IsWrittenWith, form_of};
ghost use Rattle.typer.specs.Answers.{Answers, tree_answer};
ghost use Rattle.typer.specs.BitVectors as spec;
ghost use Rattle.typer.specs.BitVectors.{judge_bits};

use crate::made::{constant_sort, has_few_nodes};
use crate::symbol::text_of;
use crate::theory::as_asked;
use dt_rules::{TyError, fault};
use lex_core::{Names, Tok};
use sig_table::{Code, NameForm, Theories};
use sort_store::{Head, SortRef, SortStore};
use std::alloc::Global;
use term_grammar::is_numeral;
use theory_bv::{BvFault, BvResult, Index, bv_form, bv_rank, index_of};

/// How a symbol on bit vectors with this text is written, where the logic has bit vectors.
pub(crate) fn bits_form(theories: &Theories, text: &[u8]) -> Option<NameForm>
    ensures { result ≡ spec.bits_form theories.now text.now }
{
    if !theories.bits {
        return None;
    }
    bv_form(text)
}

// The index that a token is.
fn index(names: &Names, tok: &Tok) -> Index
    ensures { result ≡ spec.index_of names.now tok.now }
{
    if is_numeral(tok) {
        index_of(text_of(names, tok.name))
    } else {
        Index::Symbol
    }
}

/// The indices that tokens are.
pub(crate) fn indices(alloc: Global, names: &Names, toks: &[Tok]) -> Result<Vec<Index>, TyError>
    ensures ok { IfOk result (λ v. v.items ≡ map (spec.index_of names.now) toks.now) }
    ensures err { IfErr result (λ e. e ≡ TyError.NoMemory) }
{
    let mut indices = Vec::new(alloc);
    for tok in toks {
        match indices.push(index(names, tok)) {
            Ok(()) => {}
            Err(_) => return Err(TyError::NoMemory),
        }
    }
    Ok(indices)
}

// The width of a sort of bit vectors.
fn width(sort: &SortRef) -> Option<u32>
    ensures { result ≡ spec.width_of (tree sort.now) }
{
    match sort.head() {
        Head::BitVec(width) if sort.arg_count() == 0 => Some(width),
        _ => None,
    }
}

// The widths of sorts.
fn widths(alloc: Global, sorts: &[SortRef]) -> Result<Vec<Option<u32>>, TyError>
    ensures ok { IfOk result (λ v. v.items ≡ map spec.width_of (map tree sorts.now)) }
    ensures err { IfErr result (λ e. e ≡ TyError.NoMemory) }
{
    let mut widths = Vec::new(alloc);
    for sort in sorts {
        match widths.push(width(sort)) {
            Ok(()) => {}
            Err(_) => return Err(TyError::NoMemory),
        }
    }
    Ok(widths)
}

// The sort of a result.
fn result_sort(sorts: &mut SortStore, found: BvResult) -> Result<SortRef, TyError>
    requires { HasNoRepeats sorts.old }
    ensures tree { IfOk result (λ r. tree r ≡ spec.sort_of found) }
    ensures interned { IfOk result (λ r. IsInterned sorts.new r) }
    ensures grows { Grows sorts.old sorts.new }
    ensures distinct { HasNoRepeats sorts.new }
    ensures err { IfErr result (λ e. e ≡ TyError.NoMemory) }
{
    match found {
        BvResult::Bool => constant_sort(sorts, Head::Bool),
        BvResult::Width(width) => constant_sort(sorts, Head::BitVec(width)),
    }
}

/// The result sort of a symbol on bit vectors with these indices and these argument sorts, in a term that begins at a byte. The
/// sort that is asked for is that of `as`.
pub(crate) fn bits_sort(
    sorts: &mut SortStore,
    alloc: Global,
    text: &[u8],
    indices: &[Index],
    at: u32,
    args: &[SortRef],
    asked: &Option<SortRef>,
) -> Result<SortRef, TyError>
    requires written { IsWrittenWith (form_of text.now) indices.now }
    requires asked { IfSome asked.now (IsInterned sorts.old) }
    requires distinct { HasNoRepeats sorts.old }
    ensures answer { Answers (tree_answer result) (judge_bits text.now indices.now at (map tree args.now) (option_map tree asked.now)) }
    ensures interned { IfOk result (λ r. IsInterned sorts.new r) }
    ensures grows { Grows sorts.old sorts.new }
    ensures distinct { HasNoRepeats sorts.new }
{
    let widths = widths(alloc, args)?;
    let found = match bv_rank(text, indices, &widths) {
        Ok(Some(found)) => found,
        Ok(None) => return Err(fault(Code::NoRank, at)),
        Err(BvFault::BadIndex) => return Err(fault(Code::WrongIndex, at)),
        Err(BvFault::TooWide) => return Err(fault(Code::NumberTooLarge, at)),
    };
    let sort = result_sort(sorts, found)?;
    has_few_nodes(&sort);
    as_asked(sort, at, asked)
}

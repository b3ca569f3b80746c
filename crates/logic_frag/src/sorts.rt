//! The array sorts that a logic does not have.
ghost use Rattle.std.specs.Prelude.{◌≡◌, ◌||◌, ◌&&◌, not, map, slice_get};
ghost use Rattle.std.specs.List.{list_any};
ghost use Rattle.sort_store.specs.Tree.{parts, tree};
ghost use Rattle.term_store.specs.Term.{plain_var, tree as term_tree};
ghost use Rattle.logic_frag.specs.SortSearch.{has_array_at, has_array_tree, has_other_array, is_element, is_element_head, is_element_tree, is_other_array, is_partial, is_array_head};

use crate::logic::ArrayPart;
use lex_core::NameId;
use sort_store::{Head, SortRef};
use term_store::{TermNode, TermRef};

fn is_element_head(part: ArrayPart, head: Head) -> bool
    ensures { result ≡ is_element_head part head }
{
    match head {
        Head::Int => part == ArrayPart::Ints,
        Head::BitVec(_) => part == ArrayPart::Bits,
        _ => false,
    }
}

/// Whether the sort can be the index and the element of an array.
#[tactic(auto, using(crate::proofs::SortParts::element_words))]
pub(crate) fn is_element(part: ArrayPart, sort: &SortRef) -> bool
    ensures { result ≡ is_element part (tree sort.now) }
{
    if sort.arg_count() != 0 {
        return false;
    }
    is_element_head(part, sort.head())
}

fn is_element_at(part: ArrayPart, sort: &SortRef, i: usize) -> bool
    ensures { result ≡ is_element_tree part (slice_get (parts sort.now) i) }
{
    match sort.arg(i) {
        Some(arg) => is_element(part, arg),
        None => false,
    }
}

/// Whether a logic has some array sorts and not others.
pub(crate) fn is_partial(part: ArrayPart) -> bool
    ensures { result ≡ is_partial part }
{
    matches!(part, ArrayPart::Ints | ArrayPart::Bits)
}

fn is_array(head: Head) -> bool
    ensures { result ≡ is_array_head head }
{
    matches!(head, Head::Array)
}

// Whether the sort is an array sort that the logic does not have.
#[tactic(auto, using(crate::proofs::SortParts::array_words))]
fn is_other_array(part: ArrayPart, sort: &SortRef) -> bool
    ensures { result ≡ is_other_array part (tree sort.now) }
{
    if !is_partial(part) || !is_array(sort.head()) {
        return false;
    }
    if sort.arg_count() != 2 {
        return true;
    }
    !(is_element_at(part, sort, 0) && is_element_at(part, sort, 1))
}

// Whether such a sort stands in the argument, if there is one.
#[cycle(arrays)]
#[tactic(auto, using(crate::proofs::SortParts::argument_words))]
fn has_other_array_at(part: ArrayPart, sort: &SortRef, i: usize) -> bool
    ensures { result ≡ has_array_tree part (slice_get (parts sort.now) i) }
{
    match sort.arg(i) {
        Some(arg) => has_other_array(part, arg),
        None => false,
    }
}

/// Whether such a sort stands in the sort, which has at most 1,000 nodes.
#[cycle(arrays)]
#[tactic(auto, using(crate::proofs::SortParts::argument_words))]
pub(crate) fn has_other_array(part: ArrayPart, sort: &SortRef) -> bool
    ensures { result ≡ has_other_array part (tree sort.now) }
{
    if is_other_array(part, sort) {
        return true;
    }
    for i in 0..sort.arg_count() {
        if has_other_array_at(part, sort, i) {
            return true;
        }
    }
    false
}

/// Whether such an array sort stands in the sort of a variable.
pub(crate) fn any_variable_has_array(part: ArrayPart, vars: &[(NameId, SortRef)]) -> bool
    ensures { result ≡ list_any (has_other_array part) (map (λ v. v.1) (map plain_var vars.now)) }
{
    for var in vars {
        if has_other_array(part, &var.1) {
            return true;
        }
    }
    false
}

/// Whether such an array sort stands in the sort of the term, or in that of a variable that it quantifies.
#[tactic(auto, using(crate::proofs::WalkedTerms::walk_words))]
pub(crate) fn has_array_at(part: ArrayPart, term: &TermRef) -> bool
    ensures { result ≡ has_array_at part (term_tree term.now) }
{
    if has_other_array(part, term.sort()) {
        return true;
    }
    match term.node() {
        TermNode::Quant { vars, .. } => any_variable_has_array(part, vars),
        _ => false,
    }
}

//! When terms and nodes are equal, by the numbers of the terms in them.
ghost use Rattle.std.specs.Prelude.{◌≡◌, ◌↔◌, IsTrue, map};
ghost use Rattle.term_store.specs.Interned.{InternedTogether};
ghost use Rattle.term_store.specs.NumberedNodes.{numbered_node, numbered_note, numbered_notes, terms, cases};
ghost use Rattle.term_store.specs.Outline.{literal, variable, applied, bound, quantified, matched, annotated, numbers, case_outline, case_outlines, note_outline, note_outlines, outline, IsMadeOf};
ghost use Rattle.term_store.specs.Value.{unplaced_value};
ghost use Rattle.term_store.specs.Term.{tree, plain_var, number};

use crate::parts::{Applied, Pattern};
use crate::term::{Note, TermNode, TermRef};
use crate::value::same_value;
use lex_core::{NameId, TokKind};
use sexp_core::Tree;
use sort_store::{SortRef, same_tree};

/// Whether two terms of one store are equal trees. It compares their numbers alone.
#[tactic(auto, using(crate::proofs::InternedTerms::number_words))]
pub fn same_term(a: &TermRef, b: &TermRef) -> bool
    requires { InternedTogether a.now b.now }
    ensures { IsTrue result ↔ (tree a.now ≡ tree b.now) }
{
    a.shared.number == b.shared.number
}

// Whether two terms have one number.
fn same_number(a: &TermRef, b: &TermRef) -> bool
    ensures { IsTrue result ↔ (number a.now ≡ number b.now) }
{
    a.shared.number == b.shared.number
}

#[tactic(auto, using(crate::proofs::MappedLists::number_words))]
fn same_numbers(a: &[TermRef], b: &[TermRef]) -> bool
    ensures { IsTrue result ↔ (numbers (terms a.now) ≡ numbers (terms b.now)) }
{
    if a.len() != b.len() {
        return false;
    }
    for (i, x) in a.iter().enumerate() {
        if !same_number(x, &b[i]) {
            return false;
        }
    }
    true
}

#[tactic(auto, using(crate::proofs::MappedLists::name_words))]
fn same_names(a: &[NameId], b: &[NameId]) -> bool
    ensures { IsTrue result ↔ (a.now ≡ b.now) }
{
    if a.len() != b.len() {
        return false;
    }
    for (i, x) in a.iter().enumerate() {
        if *x != b[i] {
            return false;
        }
    }
    true
}

fn same_applied(a: &Applied, b: &Applied) -> bool
    ensures { IsTrue result ↔ (a.now ≡ b.now) }
{
    a.fun == b.fun
        && a.name == b.name
        && a.qualify == b.qualify
        && same_names(a.indices.as_slice(), b.indices.as_slice())
}

fn same_pattern(a: &Pattern, b: &Pattern) -> bool
    ensures { IsTrue result ↔ (a.now ≡ b.now) }
{
    match a {
        Pattern::Var(name) => match b {
            Pattern::Var(other) => *name == *other,
            _ => false,
        },
        Pattern::Con { no, name, vars } => match b {
            Pattern::Con {
                no: other_no,
                name: other_name,
                vars: other_vars,
            } => {
                *no == *other_no
                    && *name == *other_name
                    && same_names(vars.as_slice(), other_vars.as_slice())
            }
            _ => false,
        },
    }
}

// Whether two variables have one name and equal sorts.
#[tactic(auto, using(crate::proofs::MappedLists::pair_words))]
fn same_var(a: &(NameId, SortRef), b: &(NameId, SortRef)) -> bool
    ensures { IsTrue result ↔ (plain_var a.now ≡ plain_var b.now) }
{
    a.0 == b.0 && same_tree(&a.1, &b.1)
}

#[tactic(auto, using(crate::proofs::MappedLists::var_words))]
fn same_vars(a: &[(NameId, SortRef)], b: &[(NameId, SortRef)]) -> bool
    ensures { IsTrue result ↔ (map plain_var a.now ≡ map plain_var b.now) }
{
    if a.len() != b.len() {
        return false;
    }
    for (i, x) in a.iter().enumerate() {
        if !same_var(x, &b[i]) {
            return false;
        }
    }
    true
}

#[tactic(auto, using(crate::proofs::MappedLists::pair_words))]
fn same_case(a: &(Pattern, TermRef), b: &(Pattern, TermRef)) -> bool
    ensures { IsTrue result ↔ (case_outline a.now ≡ case_outline b.now) }
{
    same_pattern(&a.0, &b.0) && same_number(&a.1, &b.1)
}

#[tactic(auto, using(crate::proofs::MappedLists::case_words))]
fn same_cases(a: &[(Pattern, TermRef)], b: &[(Pattern, TermRef)]) -> bool
    ensures { IsTrue result ↔ (case_outlines (cases a.now) ≡ case_outlines (cases b.now)) }
{
    if a.len() != b.len() {
        return false;
    }
    for (i, x) in a.iter().enumerate() {
        if !same_case(x, &b[i]) {
            return false;
        }
    }
    true
}

fn same_values(a: &Option<Tree>, b: &Option<Tree>) -> bool
    ensures { IsTrue result ↔ (unplaced_value a.now ≡ unplaced_value b.now) }
{
    match a {
        Some(value) => match b {
            Some(other) => same_value(value, other),
            None => false,
        },
        None => b.is_none(),
    }
}

fn same_note(a: &Note, b: &Note) -> bool
    ensures { IsTrue result ↔ (note_outline (numbered_note a.now) ≡ note_outline (numbered_note b.now)) }
{
    match a {
        Note::Named { no, name } => match b {
            Note::Named {
                no: other_no,
                name: other_name,
            } => *no == *other_no && *name == *other_name,
            _ => false,
        },
        Note::Pattern(args) => match b {
            Note::Pattern(others) => same_numbers(args, others),
            _ => false,
        },
        Note::Other { key, value } => match b {
            Note::Other {
                key: other_key,
                value: other_value,
            } => *key == *other_key && same_values(value, other_value),
            _ => false,
        },
    }
}

#[tactic(auto, using(crate::proofs::MappedLists::note_words))]
fn same_notes(a: &[Note], b: &[Note]) -> bool
    ensures { IsTrue result ↔ (note_outlines (numbered_notes a.now) ≡ note_outlines (numbered_notes b.now)) }
{
    if a.len() != b.len() {
        return false;
    }
    for (i, x) in a.iter().enumerate() {
        if !same_note(x, &b[i]) {
            return false;
        }
    }
    true
}

fn is_lit(kind: TokKind, text: NameId, node: &TermNode) -> bool
    ensures { IsTrue result ↔ (literal kind text ≡ outline (numbered_node node.now)) }
{
    match node {
        TermNode::Lit {
            kind: other_kind,
            text: other_text,
        } => kind == *other_kind && text == *other_text,
        _ => false,
    }
}

fn is_var(name: NameId, node: &TermNode) -> bool
    ensures { IsTrue result ↔ (variable name ≡ outline (numbered_node node.now)) }
{
    match node {
        TermNode::Var(other) => name == *other,
        _ => false,
    }
}

fn is_app(head: &Applied, args: &[TermRef], node: &TermNode) -> bool
    ensures { IsTrue result ↔ (applied head.now (numbers (terms args.now)) ≡ outline (numbered_node node.now)) }
{
    match node {
        TermNode::App {
            head: other,
            args: others,
        } => same_applied(head, other) && same_numbers(args, others),
        _ => false,
    }
}

fn is_let(vars: &[NameId], values: &[TermRef], body: &TermRef, node: &TermNode) -> bool
    ensures { IsTrue result ↔ (bound vars.now (numbers (terms values.now)) (number body.now) ≡ outline (numbered_node node.now)) }
{
    match node {
        TermNode::Let {
            vars: other_vars,
            values: other_values,
            body: other_body,
        } => {
            same_names(vars, other_vars)
                && same_numbers(values, other_values)
                && same_number(body, other_body)
        }
        _ => false,
    }
}

fn is_quant(all: bool, vars: &[(NameId, SortRef)], body: &TermRef, node: &TermNode) -> bool
    ensures { IsTrue result ↔ (quantified all (map plain_var vars.now) (number body.now) ≡ outline (numbered_node node.now)) }
{
    match node {
        TermNode::Quant {
            all: other_all,
            vars: other_vars,
            body: other_body,
        } => all == *other_all && same_vars(vars, other_vars) && same_number(body, other_body),
        _ => false,
    }
}

fn is_match(of: &TermRef, arms: &[(Pattern, TermRef)], node: &TermNode) -> bool
    ensures { IsTrue result ↔ (matched (number of.now) (case_outlines (cases arms.now)) ≡ outline (numbered_node node.now)) }
{
    match node {
        TermNode::Match {
            of: other,
            cases: others,
        } => same_number(of, other) && same_cases(arms, others),
        _ => false,
    }
}

fn is_ann(body: &TermRef, notes: &[Note], node: &TermNode) -> bool
    ensures { IsTrue result ↔ (annotated (number body.now) (note_outlines (numbered_notes notes.now)) ≡ outline (numbered_node node.now)) }
{
    match node {
        TermNode::Ann {
            body: other,
            notes: others,
        } => same_number(body, other) && same_notes(notes, others),
        _ => false,
    }
}

// Whether two nodes are equal, with the numbers of the terms in them.
fn same_node(a: &TermNode, b: &TermNode) -> bool
    ensures { IsTrue result ↔ (outline (numbered_node a.now) ≡ outline (numbered_node b.now)) }
{
    match a {
        TermNode::Lit { kind, text } => is_lit(*kind, *text, b),
        TermNode::Var(name) => is_var(*name, b),
        TermNode::App { head, args } => is_app(head, args, b),
        TermNode::Let { vars, values, body } => is_let(vars, values, body, b),
        TermNode::Quant { all, vars, body } => is_quant(*all, vars, body, b),
        TermNode::Match { of, cases } => is_match(of, cases, b),
        TermNode::Ann { body, notes } => is_ann(body, notes, b),
    }
}

// Whether the term has this node and this sort, by the numbers of the terms in it.
#[tactic(auto, using(crate::proofs::Outlines::made_words))]
pub(crate) fn is_made_of(term: &TermRef, node: &TermNode, sort: &SortRef) -> bool
    ensures { IsTrue result ↔ IsMadeOf term.now node.now sort.now }
{
    same_tree(&term.shared.sort, sort) && same_node(&term.shared.node, node)
}

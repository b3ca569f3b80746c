//! The keys of a store's table.
ghost use Rattle.std.specs.Prelude.{◌≡◌, ◌++◌, ◌∷◌, [], IfOk, IfSome, IfNone, OnOk, OnErr, map};
ghost use Rattle.term_store.specs.CanonicalText.{first_name};
ghost use Rattle.term_store.specs.NumberedNodes.{numbered_node, numbered_notes};
ghost use Rattle.term_store.specs.Outline.{outline, note_outlines};
ghost use Rattle.term_store.specs.Term.{plain_var, number};
ghost use Rattle.term_store.specs.TermKeys as spec;
ghost use Rattle.term_store.specs.TermKeys.{MapsTo, LacksKey, IsKeyFor, first_var, name_of_first};

use crate::parts::Pattern;
use crate::term::{Note, TermNode, TermRef};
use indexmap::IndexMap;
use lex_core::NameId;
use sort_store::SortRef;
use std::alloc::{AllocError, Global};

// The kind of a node.
#[derive(Clone, Copy, PartialEq, Eq, Hash)]
pub(crate) enum TermKind {
    Lit,
    Var,
    App,
    Let,
    Quant,
    Match,
    Ann,
}

// Leads to a term. It need not tell all of a node: terms for which it is the same but for the ordinal
// are compared, and have the ordinals from 0 on.
#[derive(PartialEq, Eq, Hash, Drop)]
pub(crate) struct TermKey {
    pub(crate) kind: TermKind,
    // The number of a name in the node.
    pub(crate) name: u32,
    // The indices of its function symbol and the numbers of terms in it.
    pub(crate) numbers: Vec<usize>,
    pub(crate) ordinal: usize,
}

// The term at the key.
pub(crate) fn find<'a>(table: &'a IndexMap<TermKey, TermRef>, key: &TermKey) -> Option<&'a TermRef>
    ensures found { IfSome result (λ r. MapsTo table.now.entries key.now r.now) }
    ensures missing { IfNone result (LacksKey table.now.entries key.now) }
{
    table.get(key)
}

// Puts a term last, under a new key.
pub(crate) fn insert_new(
    table: &mut IndexMap<TermKey, TermRef>,
    key: TermKey,
    term: TermRef,
) -> Result<(), AllocError>
    requires { LacksKey table.old.entries key }
    ensures ok { OnOk result (table.new.entries ≡ table.old.entries ++ (key, term) ∷ []) }
    ensures err { OnErr result (table.new.entries ≡ table.old.entries) }
{
    table.insert(key, term)?;
    Ok(())
}

fn kind_of(node: &TermNode) -> TermKind
    ensures { result ≡ spec.kind_of (outline (numbered_node node.now)) }
{
    match node {
        TermNode::Lit { kind: _, text: _ } => TermKind::Lit,
        TermNode::Var(_) => TermKind::Var,
        TermNode::App { head: _, args: _ } => TermKind::App,
        TermNode::Let {
            vars: _,
            values: _,
            body: _,
        } => TermKind::Let,
        TermNode::Quant {
            all: _,
            vars: _,
            body: _,
        } => TermKind::Quant,
        TermNode::Match { of: _, cases: _ } => TermKind::Match,
        TermNode::Ann { body: _, notes: _ } => TermKind::Ann,
    }
}

fn number_of_first(names: &[NameId]) -> u32
    ensures { result ≡ first_name names.now }
{
    match names {
        [] => 0,
        [name, ..] => name.number(),
    }
}

fn number_of_first_var(vars: &[(NameId, SortRef)]) -> u32
    ensures { result ≡ first_var (map plain_var vars.now) }
{
    match vars {
        [] => 0,
        [var, ..] => var.0.number(),
    }
}

fn number_of_first_note(notes: &[Note]) -> u32
    ensures { result ≡ name_of_first (note_outlines (numbered_notes notes.now)) }
{
    match notes {
        [] => 0,
        [note, ..] => match note {
            Note::Named { no: _, name } => name.number(),
            Note::Pattern(_) => 0,
            Note::Other { key, value: _ } => key.number(),
        },
    }
}

fn name_in(node: &TermNode) -> u32
    ensures { result ≡ spec.name_in (outline (numbered_node node.now)) }
{
    match node {
        TermNode::Lit { kind: _, text } => text.number(),
        TermNode::Var(name) => name.number(),
        TermNode::App { head, args: _ } => head.name.number(),
        TermNode::Let {
            vars,
            values: _,
            body: _,
        } => number_of_first(vars),
        TermNode::Quant {
            all: _,
            vars,
            body: _,
        } => number_of_first_var(vars),
        TermNode::Match { of: _, cases: _ } => 0,
        TermNode::Ann { body: _, notes } => number_of_first_note(notes),
    }
}

fn push_names(list: &mut Vec<usize>, names: &[NameId]) -> Result<(), AllocError>
    ensures { OnOk result (list.new.items ≡ list.old.items ++ names.now) }
{
    for name in names {
        list.push(name.number() as usize)?;
    }
    Ok(())
}

fn push_number(list: &mut Vec<usize>, term: &TermRef) -> Result<(), AllocError>
    ensures { OnOk result (list.new.items ≡ list.old.items ++ number term.now ∷ []) }
{
    list.push(term.shared.number)?;
    Ok(())
}

fn push_numbers(list: &mut Vec<usize>, args: &[TermRef]) -> Result<(), AllocError>
    ensures { OnOk result (list.new.items ≡ list.old.items ++ map number args.now) }
{
    for arg in args {
        push_number(list, arg)?;
    }
    Ok(())
}

fn push_case_numbers(list: &mut Vec<usize>, arms: &[(Pattern, TermRef)]) -> Result<(), AllocError>
    ensures { OnOk result (list.new.items ≡ list.old.items ++ map (λ c. number c.1) arms.now) }
{
    for arm in arms {
        push_number(list, &arm.1)?;
    }
    Ok(())
}

#[tactic(auto, using(crate::proofs::Outlines::listed_words))]
fn push_numbers_in(list: &mut Vec<usize>, node: &TermNode) -> Result<(), AllocError>
    ensures { OnOk result (list.new.items ≡ list.old.items ++ spec.numbers_in (outline (numbered_node node.now))) }
{
    match node {
        TermNode::Lit { kind: _, text: _ } => Ok(()),
        TermNode::Var(_) => Ok(()),
        TermNode::App { head, args } => {
            push_names(list, head.indices.as_slice())?;
            push_numbers(list, args)
        }
        TermNode::Let {
            vars: _,
            values,
            body,
        } => {
            push_numbers(list, values)?;
            push_number(list, body)
        }
        TermNode::Quant {
            all: _,
            vars: _,
            body,
        } => push_number(list, body),
        TermNode::Match { of, cases } => {
            push_number(list, of)?;
            push_case_numbers(list, cases)
        }
        TermNode::Ann { body, notes: _ } => push_number(list, body),
    }
}

// The first key for a node.
pub(crate) fn key_of(alloc: Global, node: &TermNode) -> Result<TermKey, AllocError>
    ensures key { IfOk result (λ key. IsKeyFor key (outline (numbered_node node.now))) }
    ensures first { IfOk result (λ key. key.ordinal ≡ 0) }
{
    let mut numbers = Vec::new(alloc);
    push_numbers_in(&mut numbers, node)?;
    Ok(TermKey {
        kind: kind_of(node),
        name: name_in(node),
        numbers,
        ordinal: 0,
    })
}

//! The values of attributes.
ghost use Rattle.std.specs.Prelude.{◌≡◌, ◌↔◌, IsTrue, map};
ghost use Rattle.sexp_core.specs.Parts.{whole};
ghost use Rattle.term_store.specs.Value.{unplaced, unplaced_item};
ghost use Rattle.term_store.specs.Depth.{saturated, nesting, nesting_all};

use sexp_core::{Item, Part, Tree, Trees};

// How many lists are nested in an s-expression.
#[cycle(nesting)]
fn depth_of_part(part: &Part) -> u32
    ensures { result ≡ saturated (nesting (whole part.now)) }
{
    match part {
        Part::Atom(_) => 0,
        Part::List { at: _, parts } => depth_of_parts(parts).saturating_add(1),
    }
}

// The same for the deepest of some s-expressions.
#[cycle(nesting)]
fn depth_of_parts(parts: &Trees) -> u32
    ensures { result ≡ saturated (nesting_all parts.now) }
{
    let mut deep = 0;
    let mut next = parts.split();
    while let Some((part, rest)) = next {
        deep = deep.max(depth_of_part(&part));
        next = rest.split();
    }
    deep
}

// How many lists are nested in a tree.
pub(crate) fn depth_of_value(value: &Tree) -> u32
    ensures { result ≡ saturated (nesting value.now) }
{
    depth_of_parts(&Trees::of(value))
}

// Whether two items are equal, wherever they stood in the input.
fn same_item(a: &Item, b: &Item) -> bool
    ensures { IsTrue result ↔ (unplaced_item a.now ≡ unplaced_item b.now) }
{
    match a {
        Item::Open { skip, at: _ } => match b {
            Item::Open { skip: other, at: _ } => *skip == *other,
            Item::Atom(_) => false,
        },
        Item::Atom(tok) => match b {
            Item::Open { skip: _, at: _ } => false,
            Item::Atom(other) => tok.kind == other.kind && tok.name == other.name,
        },
    }
}

#[tactic(auto, using(crate::proofs::MappedLists::item_words))]
fn same_items(a: &[Item], b: &[Item]) -> bool
    ensures { IsTrue result ↔ (map unplaced_item a.now ≡ map unplaced_item b.now) }
{
    if a.len() != b.len() {
        return false;
    }
    for (i, x) in a.iter().enumerate() {
        if !same_item(x, &b[i]) {
            return false;
        }
    }
    true
}

// Whether two values are equal, wherever they stood in the input.
#[tactic(auto, using(crate::proofs::Values::value_words))]
pub(crate) fn same_value(a: &Tree, b: &Tree) -> bool
    ensures { IsTrue result ↔ (unplaced a.now ≡ unplaced b.now) }
{
    same_items(a.items(), b.items())
}

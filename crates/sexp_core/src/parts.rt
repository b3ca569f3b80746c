//! A cursor over s-expressions that stand one after the other in a flat tree.
ghost use Rattle.std.specs.Prelude.{◌≡◌, ◌+◌, ◌-◌, ◌++◌, ◌<◌, ◌^◌, IfOk, OnOk, length, map, All};
ghost use Rattle.sexp_core.specs.Sexp.{nil, cons, list, count_of};
ghost use Rattle.sexp_core.specs.Parts.{Splits, whole, moved_item, SkipsWithin};

use crate::tree::{Item, Tree};
use lex_core::Tok;
use std::alloc::{AllocError, Global};
use std::marker::Model;

/// S-expressions that stand one after the other: the parts of a list that are not read yet.
#[derive(Drop)]
pub struct Trees<'t> {
    items: &'t [Item],
    from: u32,
}

impl<'t> Model for Trees<'t> {
    ghost use Rattle.lex_core.specs.declared.token.Tok.{Tok};
    ghost use Rattle.sexp_core.specs.Sexp.{Sexps};
    ghost use Rattle.sexp_core.specs.Items.{sexps_of, sexps_code, AreLaidOut};

    ghost Value = { Sexps Tok };

    ghost coded = { sexps_code };

    ghost view = { λ t. sexps_of t.items.now t.from };

    ghost invariant = { λ t. AreLaidOut t.from t.items.now };
}

/// An s-expression, by its form.
#[derive(Drop)]
pub enum Part<'t> {
    /// A token that is no parenthesis.
    Atom(Tok),
    /// A list: the byte of its opening parenthesis, from 0, and its parts.
    List { at: u32, parts: Trees<'t> },
}

impl<'t> Trees<'t> {
    /// One tree alone.
    pub fn of(tree: &'t Tree) -> Trees<'t>
        ensures { result ≡ cons tree.now nil }
    {
        let items = tree.items();
        Trees { items, from: 0 }
    }

    /// The first s-expression, and those after it. It answers `None` exactly where none is left.
    pub fn split(&self) -> Option<(Part<'t>, Trees<'t>)>
        ensures first { Splits self.now result }
        ensures few { count_of self.now < 2 ^ 32 }
    {
        let from = self.from;
        let Some((first, rest)) = self.items.split_first() else {
            return None;
        };
        match first {
            Item::Atom(tok) => {
                let others = Trees {
                    items: rest,
                    from: from + 1,
                };
                Some((Part::Atom(*tok), others))
            }
            Item::Open { skip, at } => {
                let count = *skip - from - 1;
                let (inner, after) = rest.split_at(count as usize);
                let parts = Trees {
                    items: inner,
                    from: from + 1,
                };
                let others = Trees {
                    items: after,
                    from: *skip,
                };
                Some((Part::List { at: *at, parts }, others))
            }
        }
    }

    /// Another cursor on the same s-expressions.
    pub fn reborrow(&self) -> Trees<'t>
        ensures { result ≡ self.now }
    {
        Trees {
            items: self.items,
            from: self.from,
        }
    }

    /// How many s-expressions there are. It walks over them.
    pub fn len(&self) -> usize
        ensures { result ≡ count_of self.now }
    {
        let mut count = 0;
        let mut next = self.split();
        while let Some((_, rest)) = next {
            count += 1;
            next = rest.split();
        }
        count
    }

    // The list of these s-expressions, as a tree of its own.
    fn list(&self, alloc: Global, at: u32) -> Result<Tree, AllocError>
        ensures { IfOk result (λ t. t ≡ list at self.now) }
    {
        let from = self.from;
        let len = self.items.len();
        if len + 1 >= u32::MAX as usize {
            return Err(AllocError);
        }
        let mut items = Vec::new(alloc);
        items.push(Item::Open {
            skip: len as u32 + 1,
            at,
        })?;
        copy_items(&mut items, self.items, from)?;
        Ok(Tree { items })
    }
}

impl<'t> Part<'t> {
    /// The same s-expression once more.
    pub fn reborrow(&self) -> Part<'t>
        ensures { result ≡ self.now }
    {
        match self {
            Part::Atom(tok) => Part::Atom(*tok),
            Part::List { at, parts } => Part::List {
                at: *at,
                parts: parts.reborrow(),
            },
        }
    }

    /// The s-expression as a tree of its own.
    pub fn copy(&self, alloc: Global) -> Result<Tree, AllocError>
        ensures { IfOk result (λ t. t ≡ whole self.now) }
    {
        match self {
            Part::Atom(tok) => {
                let mut items = Vec::new(alloc);
                items.push(Item::Atom(*tok))?;
                Ok(Tree { items })
            }
            Part::List { at, parts } => parts.list(alloc, *at),
        }
    }
}

fn copy_items(out: &mut Vec<Item>, items: &[Item], from: u32) -> Result<(), AllocError>
    requires room { length items.now + 1 < 2 ^ 32 }
    requires within { All (SkipsWithin from (from + length items.now)) items.now }
    ensures { OnOk result (out.new.items ≡ out.old.items ++ map (moved_item from) items.now) }
{
    for item in items {
        out.push(moved(item, from))?;
    }
    Ok(())
}

fn moved(item: &Item, from: u32) -> Item
    requires { SkipsWithin from (from + 2 ^ 32 - 2) item.now }
    ensures { result ≡ moved_item from item.now }
{
    match item {
        Item::Open { skip, at } => Item::Open {
            skip: *skip - from + 1,
            at: *at,
        },
        Item::Atom(tok) => Item::Atom(*tok),
    }
}

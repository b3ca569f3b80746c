//! S-expressions as flat lists of items.
ghost use Rattle.std.specs.Prelude.{◌≡◌, ◌<◌, ◌^◌, length, slice_get};
ghost use Rattle.sexp_core.specs.Items.{items_from};

use lex_core::Tok;
use std::marker::Model;
use std::mem;

/// One item of a flat tree.
#[derive(Clone, Copy, Debug, PartialEq, Eq)]
pub enum Item {
    /// A list begins. `skip` is the place after the list's last part, and `at` the byte of its parenthesis, from 0.
    Open { skip: u32, at: u32 },
    /// An atom: a token that is no parenthesis.
    Atom(Tok),
}

const _: () = prove!(mem::size_of::<Item>() <= 24);

/// One s-expression (SMT-LIB 2.6, section 3.2), as the list of its items in reading order.
#[derive(Drop)]
pub struct Tree {
    pub(crate) items: Vec<Item>,
}

impl Model for Tree {
    ghost use Rattle.lex_core.specs.declared.token.Tok.{Tok};
    ghost use Rattle.sexp_core.specs.Sexp.{Sexp};
    ghost use Rattle.sexp_core.specs.Items.{sexp_code, sexp_of, IsLaidOut};

    ghost Value = { Sexp Tok };

    ghost coded = { sexp_code };

    ghost view = { λ t. sexp_of t.items.items };

    ghost invariant = { λ t. IsLaidOut t.items.items };
}

impl Tree {
    /// The number of items.
    pub fn len(&self) -> usize
        ensures { result ≡ length (items_from 0 self.now) }
    {
        self.items.len()
    }

    /// The item at a place, counted from 0. It answers `None` exactly past the end.
    pub fn item(&self, i: usize) -> Option<Item>
        ensures { result ≡ slice_get (items_from 0 self.now) i }
    {
        item_at(&self.items, i)
    }

    /// All items.
    pub fn items(&self) -> &[Item]
        ensures items { result.now ≡ items_from 0 self.now }
        ensures room { length result.now < 2 ^ 32 }
    {
        &self.items
    }
}

fn item_at(items: &[Item], i: usize) -> Option<Item>
    ensures { result ≡ slice_get items.now i }
{
    items.get(i).copied()
}

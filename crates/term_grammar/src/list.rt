//! Lists of parts: how many there are, and the part at an index.
ghost use Rattle.std.specs.Prelude.{◌≡◌, ◌<◌, ◌^◌, length, slice_get};
ghost use Rattle.sexp_core.specs.Sexp.{count_of};
ghost use Rattle.term_grammar.specs.ListViews.{SplitsList};

use sexp_core::Trees;

/// A list that is read from its first part on.
pub(crate) trait PartList: Sized + Drop {
    type Part: Drop;

    ghost use Rattle.std.specs.Prelude.{List};

    ghost parts: { Self → List Self.Part };

    /// The first part, and the others.
    fn split_first(&self) -> Option<(Self::Part, Self)>
        ensures { SplitsList parts self.now result };

    /// There are few parts: a tree has fewer than 2^32 items.
    fn bounded(&self)
        ensures { length (parts self.now) < 2 ^ 32 };
}

/// How many parts there are. It walks over them.
pub(crate) fn count<L: PartList>(list: &L) -> usize
    ensures { result ≡ length (L.parts list.now) }
{
    list.bounded();
    let mut count = 0;
    let mut next = list.split_first();
    while let Some((_, rest)) = next {
        count += 1;
        next = rest.split_first();
    }
    count
}

/// The part at an index, from 0. It walks over those before it. `None` exactly where there is none.
pub(crate) fn nth<L: PartList>(list: &L, index: usize) -> Option<L::Part>
    ensures { result ≡ slice_get (L.parts list.now) index }
{
    let mut before = index;
    let mut next = list.split_first();
    while let Some((first, rest)) = next {
        if before == 0 {
            return Some(first);
        }
        before -= 1;
        next = rest.split_first();
    }
    None
}

/// A tree has fewer than 2^32 items, and so fewer parts.
pub(crate) fn few(trees: &Trees)
    ensures { count_of trees.now < 2 ^ 32 }
{
    let _ = trees.split();
}

//! Trees that stand one after the other.
ghost use Rattle.std.specs.Prelude.{◌≡◌, option_map, slice_get};
ghost use Rattle.sexp_core.specs.Parts.{whole};
ghost use Rattle.cmd_grammar.specs.TreeLists.{each_tree};

use sexp_core::{Part, Trees};

/// The tree at an index, from 0. It answers `None` exactly past the end.
pub(crate) fn nth<'t>(trees: &Trees<'t>, index: usize) -> Option<Part<'t>>
    ensures { option_map whole result ≡ slice_get (each_tree trees.now) index }
{
    let mut left = index;
    let mut next = trees.split();
    while let Some((first, rest)) = next {
        if left == 0 {
            return Some(first);
        }
        left -= 1;
        next = rest.split();
    }
    None
}

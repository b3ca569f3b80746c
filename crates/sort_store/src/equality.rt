ghost use Rattle.std.specs.Prelude.{◌≡◌, ◌↔◌, IsTrue, map};
ghost use Rattle.sort_store.specs.Interned.{InternedTogether};
ghost use Rattle.sort_store.specs.Tree.{tree};

use crate::sort_ref::SortRef;

/// Whether two sorts of one store are equal trees. It compares their numbers alone.
#[tactic(auto, using(crate::proofs::InternedSorts::number_words))]
pub fn same(a: &SortRef, b: &SortRef) -> bool
    requires { InternedTogether a.now b.now }
    ensures { IsTrue result ↔ (tree a.now ≡ tree b.now) }
{
    a.shared.number == b.shared.number
}

/// Whether two sorts are equal trees, whatever stores made them. It walks both.
#[cycle(same)]
#[tactic(auto, using(crate::proofs::ArgumentLists::same_words))]
pub fn same_tree(a: &SortRef, b: &SortRef) -> bool
    ensures { IsTrue result ↔ (tree a.now ≡ tree b.now) }
{
    a.shared.head == b.shared.head && same_each(&a.shared.args, &b.shared.args)
}

// Whether the sorts of two lists are equal trees, one by one.
#[cycle(same)]
#[tactic(auto, using(crate::proofs::ArgumentLists::same_words))]
fn same_each(a: &[SortRef], b: &[SortRef]) -> bool
    ensures { IsTrue result ↔ (map tree a.now ≡ map tree b.now) }
{
    if a.len() != b.len() {
        return false;
    }
    for (i, x) in a.iter().enumerate() {
        if !same_tree(x, &b[i]) {
            return false;
        }
    }
    true
}

ghost use Rattle.std.specs.Prelude.{◌≡◌, ◌++◌, ◌∷◌, [], IfOk, IfSome, IfNone, OnOk, OnErr, map};
ghost use Rattle.sort_store.specs.SortKeys.{MapsTo, LacksKey};
ghost use Rattle.sort_store.specs.Tree as spec;

use crate::head::Head;
use crate::sort_ref::SortRef;
use indexmap::IndexMap;
use std::alloc::{AllocError, Global};

// What tells the entries of a store apart: the head and the numbers of the arguments.
#[derive(PartialEq, Eq, Hash, Drop)]
pub(crate) struct SortKey {
    pub(crate) head: Head,
    pub(crate) args: Vec<usize>,
}

// The reference at the key.
pub(crate) fn find<'a>(table: &'a IndexMap<SortKey, SortRef>, key: &SortKey) -> Option<&'a SortRef>
    ensures found { IfSome result (λ r. MapsTo table.now.entries key.now r.now) }
    ensures missing { IfNone result (LacksKey table.now.entries key.now) }
{
    table.get(key)
}

// Puts a reference last, under a new key.
pub(crate) fn insert_new(
    table: &mut IndexMap<SortKey, SortRef>,
    key: SortKey,
    sort: SortRef,
) -> Result<(), AllocError>
    requires { LacksKey table.old.entries key }
    ensures ok { OnOk result (table.new.entries ≡ table.old.entries ++ (key, sort) ∷ []) }
    ensures err { OnErr result (table.new.entries ≡ table.old.entries) }
{
    table.insert(key, sort)?;
    Ok(())
}

// The numbers of references.
pub(crate) fn numbers_of(alloc: Global, args: &[SortRef]) -> Result<Vec<usize>, AllocError>
    ensures { IfOk result (λ v. v.items ≡ map spec.number args.now) }
{
    let mut list = Vec::new(alloc);
    for arg in args {
        list.push(arg.shared.number)?;
    }
    Ok(list)
}

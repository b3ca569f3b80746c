ghost use Rattle.std.specs.Prelude.{◌≡◌};
ghost use Rattle.sort_store.specs.Instance.{param_of};
ghost use Rattle.sort_store.specs.Depth.{head_depth};

use lex_core::NameId;

/// The number of a declaration. Two declarations of one name have two numbers.
#[derive(Clone, Copy, Debug, PartialEq, Eq, Hash)]
pub struct DeclNo(pub u32);

/// The sort symbol of a sort (SMT-LIB 2.6, section 3.5).
#[derive(Clone, Copy, Debug, PartialEq, Eq)]
#[derive_where(Hash)]
pub enum Head {
    Bool,
    Int,
    Array,
    /// `(_ BitVec m)` with its width.
    BitVec(u32),
    /// A symbol of declare-sort.
    Free {
        no: DeclNo,
        #[derive_where(skip(Hash))]
        name: NameId,
    },
    /// A datatype.
    Data {
        no: DeclNo,
        #[derive_where(skip(Hash))]
        name: NameId,
    },
    /// A parameter of a schema, numbered from 0.
    Param(u32),
}

/// The parameter that the head is, if it is one.
pub fn param(head: Head) -> Option<u32>
    ensures { result ≡ param_of head }
{
    match head {
        Head::Param(i) => Some(i),
        _ => None,
    }
}

/// How deep the text of the head nests.
pub(crate) fn depth_of_head(head: &Head) -> u32
    ensures { result ≡ head_depth head.now }
{
    match head {
        Head::BitVec(_) => 1,
        _ => 0,
    }
}

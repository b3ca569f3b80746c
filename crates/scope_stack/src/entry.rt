use sort_store::{DeclNo, SortRef, Sorts};

/// What declared a function symbol.
#[derive(Clone, Copy, Debug, PartialEq, Eq)]
pub enum FunKind {
    /// declare-fun or declare-const.
    Free,
    /// define-fun.
    Defined,
    /// define-fun-rec or define-funs-rec.
    Recursive,
    /// A constructor of a datatype.
    Constructor,
    /// A selector of a datatype.
    Selector,
    /// A `:named` attribute.
    Named,
}

/// What a function symbol stands for. The sorts are schemas with `params` parameters.
#[derive(Drop)]
pub struct FunEntry {
    pub no: DeclNo,
    pub kind: FunKind,
    pub params: u32,
    pub args: Sorts,
    pub result: SortRef,
}

/// What a sort symbol stands for.
#[derive(Drop)]
pub enum SortEntry {
    /// declare-sort.
    Free { no: DeclNo, arity: u32 },
    /// A datatype.
    Data { no: DeclNo, arity: u32 },
    /// define-sort; the sort is a schema with `params` parameters.
    Defined { params: u32, sort: SortRef },
}

/// The result sort of a function symbol applied to arguments of some sorts.
#[derive(Clone, Copy, Debug, PartialEq, Eq)]
pub enum RankFound {
    /// `Bool`
    Bool,
    /// `Int`
    Int,
    /// The sort of the argument at this place, counted from 0.
    Arg(usize),
    /// The element sort of the argument at this place, whose sort is an array sort.
    Element(usize),
}

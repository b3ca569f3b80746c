//! What a logic allows.

/// What a logic allows of the integers.
#[derive(Clone, Copy, Debug, PartialEq, Eq)]
pub enum NumPart {
    /// No integers.
    Absent,
    /// Linear terms.
    Linear,
    /// Difference logic.
    Difference,
    /// All terms.
    Any,
}

/// Which array sorts a logic has.
#[derive(Clone, Copy, Debug, PartialEq, Eq)]
pub enum ArrayPart {
    /// None.
    Absent,
    /// All.
    Any,
    /// `(Array Int Int)` alone.
    Ints,
    /// Those whose index sort and element sort are both bit vectors.
    Bits,
}

/// A logic (SMT-LIB 2.6, section 5.5), with what it allows beside Core.
#[derive(Clone, Copy, Debug, PartialEq, Eq)]
pub struct Logic {
    /// The name, as `set-logic` gives it.
    pub name: &'static [u8],
    /// Quantifiers.
    pub q: bool,
    /// Declared sorts.
    pub s: bool,
    /// Declared functions with arguments.
    pub f: bool,
    /// Datatypes.
    pub d: bool,
    /// Recursive definitions.
    pub r: bool,
    /// The integers.
    pub ints: NumPart,
    /// The array sorts.
    pub arrays: ArrayPart,
    /// Whether there are bit vectors.
    pub bits: bool,
}

/// Which theories a logic has besides Core.
#[derive(Clone, Copy, Debug, PartialEq, Eq)]
pub struct Theories {
    /// Ints (SMT-LIB 2.6, theory declaration `Ints`).
    pub ints: bool,
    /// Arrays with extensionality (theory declaration `ArraysEx`).
    pub arrays: bool,
    /// Bit vectors of fixed size (theory declaration `FixedSizeBitVectors`).
    pub bits: bool,
}

/// How a theory writes the name of one of its function symbols.
#[derive(Clone, Copy, Debug, PartialEq, Eq)]
pub enum NameForm {
    /// As a symbol alone, as `concat`.
    Plain,
    /// With indices, as `(_ extract 7 0)`.
    Indexed,
}

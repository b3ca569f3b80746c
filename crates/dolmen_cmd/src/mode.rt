/// What the program is asked to do with a script.
#[derive(Clone, Copy, Debug, PartialEq, Eq)]
pub enum Mode {
    /// `check`: says whether the script is accepted.
    Check,
}

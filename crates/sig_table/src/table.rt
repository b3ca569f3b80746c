ghost use Rattle.std.specs.Prelude.{◌≡◌, ◌≤◌, IsTrue, length};
ghost use Rattle.std.specs.Cmp.Lexicographic.{slice_cmp};
ghost use Rattle.std.specs.List.Sorted.{IsBinarySearchResult, IsSearchInRange};
ghost use Rattle.std.specs.Ordering.{nat_cmp};
ghost use Rattle.sig_table.specs.Row.{codes_of, is_ascending, listed};

use std::marker::Model;

/// A name of at most 24 bytes, and its code.
#[derive(Drop)]
pub struct SymRow {
    bytes: [u8; 24],
    len: usize,
    code: u16,
}

impl Model for SymRow {
    ghost use Rattle.std.specs.Prelude.{◌≤◌, take};
    ghost use Rattle.sig_table.specs.Row.{Row};

    ghost Value = { Row };

    ghost view = { λ r. record { name = take r.len r.bytes; code = r.code } };

    ghost invariant = { λ r. r.len ≤ 24 };
}

/// The row of this name, of at most 24 bytes, and this code.
pub fn row(name: &[u8], code: u16) -> SymRow
    requires { length name.now ≤ 24 }
    ensures { result ≡ record { name = name.now; code = code } }
{
    let mut bytes = [0; 24];
    let len = name.len();
    bytes[..len].copy_from_slice(name);
    SymRow { bytes, len, code }
}

impl SymRow {
    fn name(&self) -> &[u8]
        ensures { result.now ≡ self.now.name }
    {
        &self.bytes[..self.len]
    }

    fn code(&self) -> u16
        ensures { result ≡ self.now.code }
    {
        self.code
    }
}

/// Rows whose names strictly ascend by their bytes, so that no two rows have one name.
#[derive(Drop)]
pub struct Table<const N: usize> {
    rows: [SymRow; N],
}

impl<const N: usize> Model for Table<N> {
    ghost use Rattle.std.specs.Prelude.{List, IsTrue};
    ghost use Rattle.sig_table.specs.Row.{Row, is_ascending};

    ghost Value = { List Row };

    ghost view = { λ t. t.rows };

    ghost invariant = { λ t. IsTrue (is_ascending t.rows) };
}

impl<const N: usize> Table<N> {
    /// The table of these rows, of which there are at most 256. That their names ascend is shown
    /// when the program is checked.
    pub fn of(rows: [SymRow; N]) -> Table<N>
        requires names { IsTrue (is_ascending rows) }
        requires count { N ≤ 256 }
        ensures { result ≡ rows.entry }
    {
        Table { rows }
    }

    /// The code of the row with this name, or `None` exactly where no row has it.
    pub fn find(&self, name: &[u8]) -> Option<u16>
        // The codes of the rows with this name are the one answered, or none.
        ensures { codes_of name.now self.now ≡ listed result }
    {
        match self.search(name) {
            Ok(at) => Some(self.rows[at].code()),
            Err(_) => None,
        }
    }

    // The place of the row with this name, or where it would stand.
    fn search(&self, name: &[u8]) -> Result<usize, usize>
        ensures bound { IsSearchInRange result (length self.now) }
        ensures place { IsBinarySearchResult (λ r. slice_cmp nat_cmp r.name name.now) self.now result }
    {
        self.rows.binary_search_by(|row| row.name().cmp(name))
    }
}

/// An array of rows, each written `name => code`. The name is a byte string of at most 24 bytes.
#[macro_export]
macro_rules! rows {
    ($($name:literal => $code:expr),* $(,)?) => {
        [$($crate::row($name, $code)),*]
    };
}

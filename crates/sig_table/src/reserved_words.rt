ghost use Rattle.std.specs.Prelude.{◌≡◌};
ghost use Rattle.sig_table.specs.Reserved.{reserved_rows};

use super::table::Table;

/// The 43 reserved words (SMT-LIB 2.6, section 3.1), each with its number among them, from 1, in
/// ascending order of their bytes.
pub fn reserved() -> Table<43>
    ensures { result ≡ reserved_rows }
{
    Table::of(crate::rows![
        b"!" => 1,
        b"BINARY" => 2,
        b"DECIMAL" => 3,
        b"HEXADECIMAL" => 4,
        b"NUMERAL" => 5,
        b"STRING" => 6,
        b"_" => 7,
        b"as" => 8,
        b"assert" => 9,
        b"check-sat" => 10,
        b"check-sat-assuming" => 11,
        b"declare-const" => 12,
        b"declare-datatype" => 13,
        b"declare-datatypes" => 14,
        b"declare-fun" => 15,
        b"declare-sort" => 16,
        b"define-fun" => 17,
        b"define-fun-rec" => 18,
        b"define-funs-rec" => 19,
        b"define-sort" => 20,
        b"echo" => 21,
        b"exists" => 22,
        b"exit" => 23,
        b"forall" => 24,
        b"get-assertions" => 25,
        b"get-assignment" => 26,
        b"get-info" => 27,
        b"get-model" => 28,
        b"get-option" => 29,
        b"get-proof" => 30,
        b"get-unsat-assumptions" => 31,
        b"get-unsat-core" => 32,
        b"get-value" => 33,
        b"let" => 34,
        b"match" => 35,
        b"par" => 36,
        b"pop" => 37,
        b"push" => 38,
        b"reset" => 39,
        b"reset-assertions" => 40,
        b"set-info" => 41,
        b"set-logic" => 42,
        b"set-option" => 43,
    ])
}

//! The names of the function symbols.
ghost use Rattle.std.specs.Prelude.{◌≡◌, ◌↔◌, IsTrue, IsSome};
ghost use Rattle.std.specs.List.{list_all};
ghost use Rattle.std.specs.Option.{option_map};
ghost use Rattle.theory_bv.specs.Shapes.{bv_rows, shape_declaration};
ghost use Rattle.theory_bv.specs.Symbols.{declaration_of, form_of, is_digit, is_literal, is_numeral, listed_declaration};

use crate::shape::Shape;
use sig_table::{NameForm, Table, rows};

fn bv_table() -> Table<35>
    ensures { result ≡ bv_rows }
{
    Table::of(rows![
        b"bvadd" => Shape::Associative as u16,
        b"bvand" => Shape::Associative as u16,
        b"bvashr" => Shape::Binary as u16,
        b"bvcomp" => Shape::Comparison as u16,
        b"bvlshr" => Shape::Binary as u16,
        b"bvmul" => Shape::Associative as u16,
        b"bvnand" => Shape::Binary as u16,
        b"bvneg" => Shape::Unary as u16,
        b"bvnor" => Shape::Binary as u16,
        b"bvnot" => Shape::Unary as u16,
        b"bvor" => Shape::Associative as u16,
        b"bvsdiv" => Shape::Binary as u16,
        b"bvsge" => Shape::Predicate as u16,
        b"bvsgt" => Shape::Predicate as u16,
        b"bvshl" => Shape::Binary as u16,
        b"bvsle" => Shape::Predicate as u16,
        b"bvslt" => Shape::Predicate as u16,
        b"bvsmod" => Shape::Binary as u16,
        b"bvsrem" => Shape::Binary as u16,
        b"bvsub" => Shape::Binary as u16,
        b"bvudiv" => Shape::Binary as u16,
        b"bvuge" => Shape::Predicate as u16,
        b"bvugt" => Shape::Predicate as u16,
        b"bvule" => Shape::Predicate as u16,
        b"bvult" => Shape::Predicate as u16,
        b"bvurem" => Shape::Binary as u16,
        b"bvxnor" => Shape::Binary as u16,
        b"bvxor" => Shape::Associative as u16,
        b"concat" => Shape::Concatenation as u16,
        b"extract" => Shape::Extraction as u16,
        b"repeat" => Shape::Repetition as u16,
        b"rotate_left" => Shape::Rotation as u16,
        b"rotate_right" => Shape::Rotation as u16,
        b"sign_extend" => Shape::Extension as u16,
        b"zero_extend" => Shape::Extension as u16,
    ])
}

fn is_digit_byte(b: u8) -> bool
    ensures { result ≡ is_digit b }
{
    b >= b'0' && b <= b'9'
}

fn are_digits(text: &[u8]) -> bool
    ensures { result ≡ list_all is_digit text.now }
{
    text.iter().all(|b| is_digit_byte(*b))
}

fn is_numeral_text(text: &[u8]) -> bool
    ensures { result ≡ is_numeral text.now }
{
    match text {
        [] => false,
        [digit] => is_digit_byte(*digit),
        [first, digits @ ..] => is_digit_byte(*first) && *first != b'0' && are_digits(digits),
    }
}

// Whether the name is `bvX` with a numeral X.
fn is_literal_name(name: &[u8]) -> bool
    ensures { result ≡ is_literal name.now }
{
    match name {
        [b'b', b'v', digits @ ..] => is_numeral_text(digits),
        _ => false,
    }
}

// The shape of a symbol of the table.
#[tactic(auto, using(crate::proofs::ListedSymbols::listed_words))]
fn listed_shape(name: &[u8]) -> Option<Shape>
    ensures { listed_declaration name.now ≡ option_map shape_declaration result }
{
    let number = bv_table().find(name)?;
    Some(Shape::numbered(number))
}

// The shape of a symbol.
#[tactic(auto, unfolding(crate::specs::Symbols::declaration_of))]
pub(crate) fn shape_of(name: &[u8]) -> Option<Shape>
    ensures { declaration_of name.now ≡ option_map shape_declaration result }
{
    if is_literal_name(name) {
        Some(Shape::Literal)
    } else {
        listed_shape(name)
    }
}

/// Whether the name is that of a function symbol on bit vectors other than a literal `bvX` (SMT-LIB
/// 2.6, theory declaration `FixedSizeBitVectors`, and the logic declaration `QF_BV`).
pub fn bv_name(name: &[u8]) -> bool
    ensures { IsTrue result ↔ IsSome (listed_declaration name.now) }
{
    listed_shape(name).is_some()
}

/// How the name is written where it is that of a function symbol on bit vectors, `bvX` with a
/// numeral X among them; `None` exactly for every other name.
pub fn bv_form(name: &[u8]) -> Option<NameForm>
    ensures { result ≡ form_of name.now }
{
    shape_of(name).map(Shape::name_form)
}

//! The shapes of declarations.
ghost use Rattle.std.specs.Prelude.{◌≡◌, ◌==◌, IsTrue, if◌then◌else◌};
ghost use Rattle.sig_table.specs.declared.theories.NameForm.{NameForm};
ghost use Rattle.theory_bv.specs.Indices.{no_symbol, no_large};
ghost use Rattle.theory_bv.specs.Answers.{answer, are_alike, are_bit_vectors, fits, sized, width_at};
ghost use Rattle.theory_bv.specs.Declarations.{bit_vec};
ghost use Rattle.theory_bv.specs.Shapes.{shape_declaration, shape_numbered};
ghost use Rattle.theory_bv.specs.Symbols.{form};

use crate::index::{Index, has_no_large, has_no_symbol, value_at};
use crate::rank::{BvFault, BvResult};
use sig_table::NameForm;

// What the declarations of some symbols have in common.
#[derive(Clone, Copy, Debug, PartialEq, Eq)]
pub(crate) enum Shape {
    Concatenation,
    Extraction,
    Unary,
    Binary,
    Associative,
    Predicate,
    Comparison,
    Repetition,
    Extension,
    Rotation,
    Literal,
}

// The width of the argument at a place, or 0.
fn argument_width(args: &[Option<u32>], place: usize) -> u32
    ensures { result ≡ width_at args.now place }
{
    match args.get(place) {
        Some(Some(width)) => *width,
        _ => 0,
    }
}

fn have_widths(args: &[Option<u32>]) -> bool
    ensures { result ≡ are_bit_vectors args.now }
{
    args.iter().all(|arg| arg.is_some())
}

fn have_one_width(args: &[Option<u32>]) -> bool
    ensures { result ≡ are_alike args.now }
{
    let first = argument_width(args, 0);
    args.iter().all(|arg| match arg {
        Some(width) => *width == first,
        None => false,
    })
}

// A bit vector of this width.
fn bit_vector(width: u64) -> Result<Option<BvResult>, BvFault>
    ensures { result ≡ sized (bit_vec width) }
{
    if width <= u64::from(u32::MAX) {
        Ok(Some(BvResult::Width(width as u32)))
    } else {
        Err(BvFault::TooWide)
    }
}

impl Shape {
    // The shape with a number.
    pub(crate) fn numbered(number: u16) -> Shape
        ensures { result ≡ shape_numbered number }
    {
        match number {
            0 => Shape::Concatenation,
            1 => Shape::Extraction,
            2 => Shape::Unary,
            3 => Shape::Binary,
            4 => Shape::Associative,
            5 => Shape::Predicate,
            6 => Shape::Comparison,
            7 => Shape::Repetition,
            8 => Shape::Extension,
            9 => Shape::Rotation,
            _ => Shape::Literal,
        }
    }

    fn index_count(self) -> usize
        ensures { result ≡ (shape_declaration self).indices }
    {
        match self {
            Shape::Extraction => 2,
            Shape::Repetition | Shape::Extension | Shape::Rotation | Shape::Literal => 1,
            _ => 0,
        }
    }

    // How the symbols are written.
    pub(crate) fn name_form(self) -> NameForm
        ensures { result ≡ form (shape_declaration self) }
    {
        if self.index_count() == 0 {
            NameForm::Plain
        } else {
            NameForm::Indexed
        }
    }

    // Whether the indices alone meet the condition on them.
    fn allows(self, i: u32, j: u32) -> bool
        ensures { result ≡ (shape_declaration self).condition i j }
    {
        match self {
            Shape::Extraction => j <= i,
            Shape::Repetition | Shape::Literal => 1 <= i,
            _ => true,
        }
    }

    fn takes(self, args: &[Option<u32>]) -> bool
        ensures { result ≡ fits (shape_declaration self).arguments args.now }
    {
        match self {
            Shape::Literal => args.is_empty(),
            Shape::Concatenation => args.len() == 2 && have_widths(args),
            Shape::Binary | Shape::Predicate | Shape::Comparison => {
                args.len() == 2 && have_one_width(args)
            }
            Shape::Associative => 2 <= args.len() && have_one_width(args),
            _ => args.len() == 1 && have_widths(args),
        }
    }

    // Whether the first index is one of an argument of this width.
    fn lies_within(self, i: u32, j: u32, m: u32) -> bool
        ensures { result ≡ (shape_declaration self).within i j m }
    {
        match self {
            Shape::Extraction => i < m,
            _ => true,
        }
    }

    // The sort of the result with these indices and widths.
    fn result_of(self, i: u32, j: u32, m: u32, n: u32) -> Result<Option<BvResult>, BvFault>
        requires { IsTrue ((shape_declaration self).condition i j) }
        ensures { result ≡ sized ((shape_declaration self).result i j m n) }
    {
        let (i, j, m, n) = (u64::from(i), u64::from(j), u64::from(m), u64::from(n));
        match self {
            Shape::Concatenation => bit_vector(m + n),
            Shape::Extraction => bit_vector(i - j + 1),
            Shape::Predicate => Ok(Some(BvResult::Bool)),
            Shape::Comparison => bit_vector(1),
            Shape::Repetition => bit_vector(i * m),
            Shape::Extension => bit_vector(m + i),
            Shape::Literal => bit_vector(i),
            Shape::Unary | Shape::Binary | Shape::Associative | Shape::Rotation => bit_vector(m),
        }
    }

    // The rules in their order, and the first that is not met.
    pub(crate) fn answer(
        self,
        indices: &[Index],
        args: &[Option<u32>],
    ) -> Result<Option<BvResult>, BvFault>
        ensures { result ≡ answer (shape_declaration self) indices.now args.now }
    {
        if indices.len() != self.index_count() || !has_no_symbol(indices) {
            return Err(BvFault::BadIndex);
        }
        if !has_no_large(indices) {
            return Err(BvFault::TooWide);
        }
        let (i, j) = (value_at(indices, 0), value_at(indices, 1));
        if !self.allows(i, j) {
            return Err(BvFault::BadIndex);
        }
        if !self.takes(args) {
            return Ok(None);
        }
        let (m, n) = (argument_width(args, 0), argument_width(args, 1));
        if !self.lies_within(i, j, m) {
            return Err(BvFault::BadIndex);
        }
        self.result_of(i, j, m, n)
    }
}

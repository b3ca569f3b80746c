ghost use Rattle.std.specs.Prelude.{◌≡◌};
ghost use Rattle.io_core.specs.Causes.{HasCause};
ghost use Rattle.io_core.specs.Parts.{part_text, parts_text};
ghost use Rattle.io_core.specs.Writing.{PutsAll};

use super::errors::Failed;
use super::puts::{put_all, put_number};
use super::sink::Sink;

/// A part of a text: bytes as they are, or a number, which is put in decimal.
#[derive(Clone, Copy, Debug)]
pub enum Part<'a> {
    Text(&'a [u8]),
    Number(u64),
}

// Puts the text of one part.
fn put_part<O: Sink>(sink: &mut O, part: &Part<'_>) -> Result<(), Failed>
    ensures bytes { PutsAll (O.taken sink.old) (O.taken sink.new) result (part_text part.now) }
    ensures unflushed { O.flushed sink.new ≡ O.flushed sink.old }
    ensures cause { HasCause (O.faults sink.old) (O.faults sink.new) result }
{
    match part {
        Part::Text(text) => put_all(sink, text),
        Part::Number(n) => put_number(sink, *n),
    }
}

/// Puts the text of the parts in their order, with nothing between them.
///
/// `Failed` comes only where the sink's count of failures rose in this call. Then the sink took a
/// front of the text.
pub fn put_parts<O: Sink>(sink: &mut O, parts: &[Part<'_>]) -> Result<(), Failed>
    ensures bytes { PutsAll (O.taken sink.old) (O.taken sink.new) result (parts_text parts.now) }
    ensures unflushed { O.flushed sink.new ≡ O.flushed sink.old }
    ensures cause { HasCause (O.faults sink.old) (O.faults sink.new) result }
{
    for part in parts {
        put_part(sink, part)?;
    }
    Ok(())
}

// Pieces of text into a buffer.
ghost use Rattle.std.specs.Prelude.{◌≡◌, ◌++◌};
ghost use Rattle.std.specs.Fmt.{decimal};
ghost use Rattle.std.specs.List.{flat_map};
ghost use Rattle.vsm_base.specs.Whole.{Puts};
ghost use Rattle.vsm_report.specs.Gathering.{Gathers};
ghost use Rattle.vsm_report.specs.Pieces.{hex_digits, spelled};

use crate::digits;
use crate::text_buffer::TextBuffer;
use vsm_base::{Sink, WriteFailed};

/// A piece of text. The forms are this project's own.
#[derive(Clone, Copy, Debug, PartialEq, Eq)]
pub enum Piece<'a> {
    /// These bytes.
    Text(&'a [u8]),
    /// A number in decimal digits.
    Decimal(u64),
    /// A number in 4 hexadecimal digits.
    Hex4(u16),
    /// A number in 16 hexadecimal digits.
    Hex(u64),
    /// A number in 32 hexadecimal digits, by its upper and its lower 64 bits.
    Hex32(u64, u64),
}

fn put_decimal<K: Sink>(sink: &mut K, buffer: &mut TextBuffer, n: u64) -> Result<(), WriteFailed>
    ensures { Gathers (K.taken sink.old) buffer.old (K.taken sink.new) buffer.new (K.faults sink.old) (K.faults sink.new) result (decimal n) }
{
    buffer.make_room(sink, 20)?;
    buffer.add_decimal(n);
    Ok(())
}

fn put_hex4<K: Sink>(sink: &mut K, buffer: &mut TextBuffer, n: u16) -> Result<(), WriteFailed>
    ensures { Gathers (K.taken sink.old) buffer.old (K.taken sink.new) buffer.new (K.faults sink.old) (K.faults sink.new) result (hex_digits 4 n) }
{
    let mut digits = [0u8; 4];
    digits::hex(n as u64, &mut digits);
    buffer.put(sink, &digits)
}

fn put_hex<K: Sink>(sink: &mut K, buffer: &mut TextBuffer, n: u64) -> Result<(), WriteFailed>
    ensures { Gathers (K.taken sink.old) buffer.old (K.taken sink.new) buffer.new (K.faults sink.old) (K.faults sink.new) result (hex_digits 16 n) }
{
    buffer.make_room(sink, 16)?;
    buffer.add_hex(n);
    Ok(())
}

fn put_hex32<K: Sink>(
    sink: &mut K,
    buffer: &mut TextBuffer,
    high: u64,
    low: u64,
) -> Result<(), WriteFailed>
    ensures { Gathers (K.taken sink.old) buffer.old (K.taken sink.new) buffer.new (K.faults sink.old) (K.faults sink.new) result (hex_digits 16 high ++ hex_digits 16 low) }
{
    buffer.make_room(sink, 32)?;
    buffer.add_hex(high);
    buffer.add_hex(low);
    Ok(())
}

fn put<K: Sink>(sink: &mut K, buffer: &mut TextBuffer, piece: &Piece<'_>) -> Result<(), WriteFailed>
    ensures { Gathers (K.taken sink.old) buffer.old (K.taken sink.new) buffer.new (K.faults sink.old) (K.faults sink.new) result (spelled piece.now) }
{
    match piece {
        Piece::Text(bytes) => buffer.put(sink, bytes),
        Piece::Decimal(n) => put_decimal(sink, buffer, *n),
        Piece::Hex4(n) => put_hex4(sink, buffer, *n),
        Piece::Hex(n) => put_hex(sink, buffer, *n),
        Piece::Hex32(high, low) => put_hex32(sink, buffer, *high, *low),
    }
}

/// Writes the pieces one after another.
pub fn put_pieces<K: Sink>(
    sink: &mut K,
    buffer: &mut TextBuffer,
    pieces: &[Piece<'_>],
) -> Result<(), WriteFailed>
    ensures { Gathers (K.taken sink.old) buffer.old (K.taken sink.new) buffer.new (K.faults sink.old) (K.faults sink.new) result (flat_map spelled pieces.now) }
{
    for piece in pieces {
        put(sink, buffer, piece)?;
    }
    Ok(())
}

/// Writes the pieces one after another, and nothing else. It takes no memory.
pub fn write_pieces<K: Sink>(sink: &mut K, pieces: &[Piece<'_>]) -> Result<(), WriteFailed>
    ensures { Puts (K.taken sink.old) (K.taken sink.new) (K.faults sink.old) (K.faults sink.new) result (flat_map spelled pieces.now) }
{
    let mut buffer = TextBuffer::new();
    put_pieces(sink, &mut buffer, pieces)?;
    buffer.flush(sink)
}

// The lines of the journal's entries.
ghost use Rattle.std.specs.Prelude.{◌≡◌, ◌+◌, ◌≤◌, ◌++◌, length};
ghost use Rattle.vsm_report.specs.Gathering.{Gathers};
ghost use Rattle.vsm_report.specs.Journal.{one_text, two_text, entry_text};

use crate::pieces::{Piece, put_pieces};
use crate::text_buffer::TextBuffer;
use crate::words::level_number;
use vsm_base::{HvStatus, Sink, VpIndex, Vtl, WriteFailed};
use vsm_core::Entry;

// Adds a line of a number, where there is room.
fn add_one(buffer: &mut TextBuffer, head: &[u8], n: u64)
    requires { length buffer.old + length head.now + 21 ≤ 16384 }
    ensures { buffer.new ≡ buffer.old ++ one_text head.now n }
{
    buffer.add(head);
    buffer.add_decimal(n);
    buffer.add_byte(b'\n');
}

fn put_one<K: Sink>(
    sink: &mut K,
    buffer: &mut TextBuffer,
    head: &[u8],
    n: u64,
) -> Result<(), WriteFailed>
    requires { length head.now ≤ 9 }
    ensures { Gathers (K.taken sink.old) buffer.old (K.taken sink.new) buffer.new (K.faults sink.old) (K.faults sink.new) result (one_text head.now n) }
{
    buffer.make_room(sink, 30)?;
    add_one(buffer, head, n);
    Ok(())
}

// Adds a line of two numbers, where there is room.
fn add_two(buffer: &mut TextBuffer, head: &[u8], n: u64, m: u64)
    requires { length buffer.old + length head.now + 42 ≤ 16384 }
    ensures { buffer.new ≡ buffer.old ++ two_text head.now n m }
{
    buffer.add(head);
    buffer.add_decimal(n);
    buffer.add_byte(b' ');
    buffer.add_decimal(m);
    buffer.add_byte(b'\n');
}

fn put_two<K: Sink>(
    sink: &mut K,
    buffer: &mut TextBuffer,
    head: &[u8],
    n: u64,
    m: u64,
) -> Result<(), WriteFailed>
    requires { length head.now ≤ 9 }
    ensures { Gathers (K.taken sink.old) buffer.old (K.taken sink.new) buffer.new (K.faults sink.old) (K.faults sink.new) result (two_text head.now n m) }
{
    buffer.make_room(sink, 51)?;
    add_two(buffer, head, n, m);
    Ok(())
}

fn put_config<K: Sink>(
    sink: &mut K,
    buffer: &mut TextBuffer,
    by: VpIndex,
    value: u64,
) -> Result<(), WriteFailed>
    ensures { Gathers (K.taken sink.old) buffer.old (K.taken sink.new) buffer.new (K.faults sink.old) (K.faults sink.new) result (entry_text (Entry.Config by value)) }
{
    put_pieces(
        sink,
        buffer,
        &[
            Piece::Text(b"j config "),
            Piece::Decimal(by.0 as u64),
            Piece::Text(b" 0x"),
            Piece::Hex(value),
            Piece::Text(b"\n"),
        ],
    )
}

fn put_start<K: Sink>(
    sink: &mut K,
    buffer: &mut TextBuffer,
    by: VpIndex,
    vp: VpIndex,
    level: Vtl,
) -> Result<(), WriteFailed>
    ensures { Gathers (K.taken sink.old) buffer.old (K.taken sink.new) buffer.new (K.faults sink.old) (K.faults sink.new) result (entry_text (Entry.Start by vp level)) }
{
    let number = level_number(level);
    put_pieces(
        sink,
        buffer,
        &[
            Piece::Text(b"j start "),
            Piece::Decimal(by.0 as u64),
            Piece::Text(b" "),
            Piece::Decimal(vp.0 as u64),
            Piece::Text(b" "),
            Piece::Decimal(number),
            Piece::Text(b"\n"),
        ],
    )
}

fn put_refusal<K: Sink>(
    sink: &mut K,
    buffer: &mut TextBuffer,
    by: VpIndex,
    status: HvStatus,
) -> Result<(), WriteFailed>
    ensures { Gathers (K.taken sink.old) buffer.old (K.taken sink.new) buffer.new (K.faults sink.old) (K.faults sink.new) result (entry_text (Entry.Refuse by status)) }
{
    put_pieces(
        sink,
        buffer,
        &[
            Piece::Text(b"j refuse "),
            Piece::Decimal(by.0 as u64),
            Piece::Text(b" 0x"),
            Piece::Hex4(status.0),
            Piece::Text(b"\n"),
        ],
    )
}

/// Puts the line of an entry.
pub fn put_entry<K: Sink>(
    sink: &mut K,
    buffer: &mut TextBuffer,
    entry: &Entry,
) -> Result<(), WriteFailed>
    ensures { Gathers (K.taken sink.old) buffer.old (K.taken sink.new) buffer.new (K.faults sink.old) (K.faults sink.new) result (entry_text entry.now) }
{
    match entry {
        Entry::Enable { by } => put_one(sink, buffer, b"j enable ", by.0 as u64),
        Entry::Level { by, vp } => put_two(sink, buffer, b"j level ", by.0 as u64, vp.0 as u64),
        Entry::Config { by, value } => put_config(sink, buffer, *by, *value),
        Entry::Start { by, vp, level } => put_start(sink, buffer, *by, *vp, *level),
        Entry::Fetch { vp } => put_one(sink, buffer, b"j fetch ", vp.0 as u64),
        Entry::Look { by } => put_one(sink, buffer, b"j look ", by.0 as u64),
        Entry::Refuse { by, status } => put_refusal(sink, buffer, *by, *status),
        Entry::Ask { page, mask } => put_two(
            sink,
            buffer,
            b"j ask ",
            page.0 as u64,
            mask.bits() as u64,
        ),
        Entry::Turn { round, by } => put_two(sink, buffer, b"j turn ", *round, by.0 as u64),
        Entry::Clear { vp } => put_one(sink, buffer, b"j clear ", vp.0 as u64),
        Entry::Report { round } => put_one(sink, buffer, b"j report ", *round),
    }
}

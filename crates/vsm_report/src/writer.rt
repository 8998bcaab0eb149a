// The text of a report into a sink.
ghost use Rattle.std.specs.Prelude.{◌≡◌, length, slice_get};
ghost use Rattle.std.specs.List.{flat_map, range_with_len};
ghost use Rattle.vsm_base.specs.Whole.{Puts};
ghost use Rattle.vsm_report.specs.Gathering.{Gathers};
ghost use Rattle.vsm_report.specs.Opening.{opening_masks, opening_words};
ghost use Rattle.vsm_report.specs.Text.{line_text, end_text_at, ended_text, ending_text, changed_mask_text, mask_text, changed_line, changed_text, word_text, head_text, lines_text, ends_text, masks_text, words_text, close_text, text};

use crate::journal::put_entry;
use crate::marks::put_mark;
use crate::opening::{go_on_to, opening_mask};
use crate::pieces::{Piece, put_pieces};
use crate::report::{Line, Report};
use crate::text_buffer::TextBuffer;
use crate::words::fault_word;
use guest_script::Script;
use vsm_base::{Mask, Sink, WriteFailed};
use vsm_core::Ending;

// A step has no text yet.
fn put_line<K: Sink>(
    sink: &mut K,
    buffer: &mut TextBuffer,
    script: &Script,
    line: &Line,
) -> Result<(), WriteFailed>
    ensures { Gathers (K.taken sink.old) buffer.old (K.taken sink.new) buffer.new (K.faults sink.old) (K.faults sink.new) result (line_text script.now line.now) }
{
    match line {
        Line::Step(_, _) => Ok(()),
        Line::Entry(entry) => put_entry(sink, buffer, entry),
        Line::Mark(vp, mark) => put_mark(sink, buffer, script, *vp, mark),
    }
}

fn put_lines<K: Sink>(
    sink: &mut K,
    buffer: &mut TextBuffer,
    script: &Script,
    lines: &[Line],
) -> Result<(), WriteFailed>
    ensures { Gathers (K.taken sink.old) buffer.old (K.taken sink.new) buffer.new (K.faults sink.old) (K.faults sink.new) result (flat_map (line_text script.now) lines.now) }
{
    for line in lines {
        put_line(sink, buffer, script, line)?;
    }
    Ok(())
}

#[tactic(auto, unfolding(crate::specs::Text::ended_text))]
fn put_ended<K: Sink>(sink: &mut K, buffer: &mut TextBuffer, vp: usize) -> Result<(), WriteFailed>
    ensures { Gathers (K.taken sink.old) buffer.old (K.taken sink.new) buffer.new (K.faults sink.old) (K.faults sink.new) result (ended_text vp) }
{
    put_pieces(
        sink,
        buffer,
        &[
            Piece::Text(b"end "),
            Piece::Decimal(vp as u64),
            Piece::Text(b" "),
        ],
    )
}

fn put_ending<K: Sink>(
    sink: &mut K,
    buffer: &mut TextBuffer,
    ending: Ending,
) -> Result<(), WriteFailed>
    ensures { Gathers (K.taken sink.old) buffer.old (K.taken sink.new) buffer.new (K.faults sink.old) (K.faults sink.new) result (ending_text ending) }
{
    match ending {
        Ending::Done => buffer.put(sink, b"done\n"),
        Ending::Budget => buffer.put(sink, b"budget\n"),
        Ending::Spun => buffer.put(sink, b"spun\n"),
        Ending::Held => buffer.put(sink, b"held\n"),
        Ending::Fault(kind) => put_pieces(
            sink,
            buffer,
            &[
                Piece::Text(b"fault "),
                Piece::Text(fault_word(kind)),
                Piece::Text(b"\n"),
            ],
        ),
        Ending::Unstarted => buffer.put(sink, b"unstarted\n"),
        Ending::Cut => buffer.put(sink, b"cut\n"),
    }
}

fn ending_at(ends: &[Ending], vp: usize) -> Option<Ending>
    ensures { result ≡ slice_get ends.now vp }
{
    ends.get(vp).copied()
}

fn put_end<K: Sink>(
    sink: &mut K,
    buffer: &mut TextBuffer,
    ends: &[Ending],
    vp: usize,
) -> Result<(), WriteFailed>
    ensures { Gathers (K.taken sink.old) buffer.old (K.taken sink.new) buffer.new (K.faults sink.old) (K.faults sink.new) result (end_text_at ends.now vp) }
{
    let Some(ending) = ending_at(ends, vp) else {
        return Ok(());
    };
    put_ended(sink, buffer, vp)?;
    put_ending(sink, buffer, ending)
}

fn put_ends<K: Sink>(
    sink: &mut K,
    buffer: &mut TextBuffer,
    ends: &[Ending],
) -> Result<(), WriteFailed>
    ensures { Gathers (K.taken sink.old) buffer.old (K.taken sink.new) buffer.new (K.faults sink.old) (K.faults sink.new) result (flat_map (end_text_at ends.now) (range_with_len 0 (length ends.now))) }
{
    for vp in 0..ends.len() {
        put_end(sink, buffer, ends, vp)?;
    }
    Ok(())
}

fn put_mask<K: Sink>(
    sink: &mut K,
    buffer: &mut TextBuffer,
    page: usize,
    opening: u32,
    mask: u32,
) -> Result<(), WriteFailed>
    ensures { Gathers (K.taken sink.old) buffer.old (K.taken sink.new) buffer.new (K.faults sink.old) (K.faults sink.new) result (changed_mask_text page opening mask) }
{
    if opening == mask {
        return Ok(());
    }
    put_pieces(
        sink,
        buffer,
        &[
            Piece::Text(b"mask "),
            Piece::Decimal(page as u64),
            Piece::Text(b" "),
            Piece::Decimal(mask as u64),
            Piece::Text(b"\n"),
        ],
    )
}

fn put_masks<K: Sink>(
    sink: &mut K,
    buffer: &mut TextBuffer,
    script: &Script,
    masks: &[Mask],
) -> Result<(), WriteFailed>
    ensures { Gathers (K.taken sink.old) buffer.old (K.taken sink.new) buffer.new (K.faults sink.old) (K.faults sink.new) result (flat_map (mask_text (opening_masks script.now) masks.now) (range_with_len 0 (length masks.now))) }
{
    for page in 0..masks.len() {
        let opening = opening_mask(script, page);
        let mask = masks[page].bits();
        put_mask(sink, buffer, page, opening, mask)?;
    }
    Ok(())
}

// It stands apart from the comparison, which is made for each word, since a function clears its pieces each time.
fn put_changed<K: Sink>(
    sink: &mut K,
    buffer: &mut TextBuffer,
    at: usize,
    value: u64,
) -> Result<(), WriteFailed>
    ensures { Gathers (K.taken sink.old) buffer.old (K.taken sink.new) buffer.new (K.faults sink.old) (K.faults sink.new) result (changed_line at value) }
{
    put_pieces(
        sink,
        buffer,
        &[
            Piece::Text(b"word "),
            Piece::Decimal((at / 512) as u64),
            Piece::Text(b":"),
            Piece::Decimal((at % 512) as u64),
            Piece::Text(b" 0x"),
            Piece::Hex(value),
            Piece::Text(b"\n"),
        ],
    )
}

fn put_word<K: Sink>(
    sink: &mut K,
    buffer: &mut TextBuffer,
    at: usize,
    opening: u64,
    value: u64,
) -> Result<(), WriteFailed>
    ensures { Gathers (K.taken sink.old) buffer.old (K.taken sink.new) buffer.new (K.faults sink.old) (K.faults sink.new) result (changed_text at opening value) }
{
    if opening == value {
        return Ok(());
    }
    put_changed(sink, buffer, at, value)
}

fn put_words<K: Sink>(
    sink: &mut K,
    buffer: &mut TextBuffer,
    script: &Script,
    words: &[u64],
) -> Result<(), WriteFailed>
    ensures { Gathers (K.taken sink.old) buffer.old (K.taken sink.new) buffer.new (K.faults sink.old) (K.faults sink.new) result (flat_map (word_text (opening_words script.now) words.now) (range_with_len 0 (length words.now))) }
{
    let mut opening = [0u64; 8192];
    for at in 0..words.len() {
        go_on_to(script, at, &mut opening);
        put_word(sink, buffer, at, opening[at % 8192], words[at])?;
    }
    Ok(())
}

#[tactic(auto, unfolding(crate::specs::Text::head_text))]
fn put_head<K: Sink>(sink: &mut K, buffer: &mut TextBuffer) -> Result<(), WriteFailed>
    ensures { Gathers (K.taken sink.old) buffer.old (K.taken sink.new) buffer.new (K.faults sink.old) (K.faults sink.new) result head_text }
{
    buffer.put(sink, b"vsm-report 1 trace\n")
}

#[tactic(auto, unfolding(crate::specs::Text::lines_text))]
fn put_all_lines<K: Sink>(
    sink: &mut K,
    buffer: &mut TextBuffer,
    script: &Script,
    report: &Report,
) -> Result<(), WriteFailed>
    ensures { Gathers (K.taken sink.old) buffer.old (K.taken sink.new) buffer.new (K.faults sink.old) (K.faults sink.new) result (lines_text script.now report.now) }
{
    put_lines(sink, buffer, script, report.lines.as_slice())
}

#[tactic(auto, unfolding(crate::specs::Text::ends_text))]
fn put_all_ends<K: Sink>(
    sink: &mut K,
    buffer: &mut TextBuffer,
    report: &Report,
) -> Result<(), WriteFailed>
    ensures { Gathers (K.taken sink.old) buffer.old (K.taken sink.new) buffer.new (K.faults sink.old) (K.faults sink.new) result (ends_text report.now) }
{
    put_ends(sink, buffer, report.ends.as_slice())
}

#[tactic(auto, unfolding(crate::specs::Text::masks_text))]
fn put_all_masks<K: Sink>(
    sink: &mut K,
    buffer: &mut TextBuffer,
    script: &Script,
    report: &Report,
) -> Result<(), WriteFailed>
    ensures { Gathers (K.taken sink.old) buffer.old (K.taken sink.new) buffer.new (K.faults sink.old) (K.faults sink.new) result (masks_text script.now report.now) }
{
    put_masks(sink, buffer, script, report.masks.as_slice())
}

#[tactic(auto, unfolding(crate::specs::Text::words_text))]
fn put_all_words<K: Sink>(
    sink: &mut K,
    buffer: &mut TextBuffer,
    script: &Script,
    report: &Report,
) -> Result<(), WriteFailed>
    ensures { Gathers (K.taken sink.old) buffer.old (K.taken sink.new) buffer.new (K.faults sink.old) (K.faults sink.new) result (words_text script.now report.now) }
{
    put_words(sink, buffer, script, report.words.as_slice())
}

#[tactic(auto, unfolding(crate::specs::Text::close_text))]
fn put_close<K: Sink>(sink: &mut K, buffer: &mut TextBuffer) -> Result<(), WriteFailed>
    ensures { Gathers (K.taken sink.old) buffer.old (K.taken sink.new) buffer.new (K.faults sink.old) (K.faults sink.new) result close_text }
{
    buffer.put(sink, b"close\n")
}

fn put_report<K: Sink>(
    sink: &mut K,
    buffer: &mut TextBuffer,
    report: &Report,
    script: &Script,
) -> Result<(), WriteFailed>
    ensures { Gathers (K.taken sink.old) buffer.old (K.taken sink.new) buffer.new (K.faults sink.old) (K.faults sink.new) result (text script.now report.now) }
{
    put_head(sink, buffer)?;
    put_all_lines(sink, buffer, script, report)?;
    put_all_ends(sink, buffer, report)?;
    put_all_masks(sink, buffer, script, report)?;
    put_all_words(sink, buffer, script, report)?;
    put_close(sink, buffer)
}

/// Writes the text of the report of the script's run, and nothing else. It takes no memory.
pub fn write<K: Sink>(report: &Report, script: &Script, sink: &mut K) -> Result<(), WriteFailed>
    ensures { Puts (K.taken sink.old) (K.taken sink.new) (K.faults sink.old) (K.faults sink.new) result (text script.now report.now) }
{
    let mut buffer = TextBuffer::new();
    put_report(sink, &mut buffer, report, script)?;
    buffer.flush(sink)
}

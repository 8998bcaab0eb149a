// The top call.
ghost use Rattle.std.specs.Prelude.{◌≤◌, map, string_bytes};
ghost use Rattle.guest_script.specs.Made.{made};
ghost use Rattle.guest_script.specs.Print.{printed};
ghost use Rattle.vsm_serve.specs.Commands.{command_of};
ghost use Rattle.vsm_serve.specs.Serve.{Serves, SaysOf, SaysOfTrace, SaysOfText};
ghost use Rattle.vsm_serve.specs.Serve.{counts_text, refusal_text, sample_text};
ghost use Rattle.vsm_serve.specs.Statuses.{DecidesBy, status_of, status_of_trace};
ghost use Rattle.vsm_serve.specs.Streams.{reading, writing, PutsText};

use crate::Status;
use crate::command::{Command, command_of};
use guest_script::{ReadError, Refusal, make, print, read};
use std::alloc::Global;
use std::sync::Wait;
use std::thread::Threads;
use vsm_base::{InputError, Memory, Sink, Source, WriteFailed, put_whole, read_whole};
use vsm_report::{Counts, Piece, write, write_pieces};
use vsm_run::trace;

// The first line that is refused, and why.
fn put_refusal<K: Sink>(sink: &mut K, refusal: &Refusal) -> Result<(), WriteFailed>
    ensures { PutsText (writing K.Sink sink.old sink.new) result (refusal_text refusal.now) }
{
    let pieces = [
        Piece::Text(b"refused line "),
        Piece::Decimal(refusal.line as u64),
        Piece::Text(b" "),
        Piece::Text(refusal.why.text()),
        Piece::Text(b"\n"),
    ];
    write_pieces(sink, &pieces)
}

// A run in numbers.
fn put_counts<K: Sink>(sink: &mut K, n: u32, counts: &Counts) -> Result<(), WriteFailed>
    ensures { PutsText (writing K.Sink sink.old sink.new) result (counts_text n counts.now) }
{
    let pieces = [
        Piece::Text(b"sample "),
        Piece::Decimal(n as u64),
        Piece::Text(b" marks "),
        Piece::Decimal(counts.marks as u64),
        Piece::Text(b" granted "),
        Piece::Decimal(counts.granted as u64),
        Piece::Text(b" denied "),
        Piece::Decimal(counts.denied as u64),
        Piece::Text(b" rounds "),
        Piece::Decimal(counts.rounds as u64),
        Piece::Text(b"\n"),
    ];
    write_pieces(sink, &pieces)
}

// Reads a script and writes the report of its run.
fn serve_trace<S: Source, K: Sink>(alloc: Global, source: &mut S, sink: &mut K) -> Status
    ensures says { SaysOfTrace result (reading S.Source source.old source.new) (writing K.Sink sink.old sink.new) }
    ensures decides { DecidesBy status_of_trace result (reading S.Source source.old source.new) }
    ensures reads_later { S.faults source.old ≤ S.faults source.new }
    ensures writes_later { K.faults sink.old ≤ K.faults sink.new }
{
    let bytes = match read_whole(alloc, source) {
        Ok(bytes) => bytes,
        Err(InputError::Failed) => return Status::ReadFault,
        Err(InputError::TooLong) => return Status::TooLong,
        Err(InputError::Memory) => return Status::Memory,
    };
    let script = match read(alloc, bytes.as_slice()) {
        Ok(script) => script,
        Err(ReadError::Refused(refusal)) => {
            let _ = put_refusal(sink, &refusal);
            return Status::Refused;
        }
        Err(ReadError::Memory) => return Status::Memory,
    };
    let report = match trace(alloc, &script) {
        Ok(report) => report,
        Err(Memory) => return Status::Memory,
    };
    match write(&report, &script, sink) {
        Ok(()) => Status::Ok,
        Err(WriteFailed) => Status::WriteFault,
    }
}

// Writes the script of a number.
fn serve_make<K: Sink>(alloc: Global, n: u32, sink: &mut K) -> Status
    requires some { 1 ≤ n }
    requires most { n ≤ 1000 }
    ensures says { SaysOfText (printed (made n)) result (writing K.Sink sink.old sink.new) }
    ensures writes_later { K.faults sink.old ≤ K.faults sink.new }
{
    let Ok(script) = make(alloc, n) else {
        return Status::Memory;
    };
    let Ok(text) = print(alloc, &script) else {
        return Status::Memory;
    };
    match put_whole(sink, text.as_slice()) {
        Ok(()) => Status::Ok,
        Err(WriteFailed) => Status::WriteFault,
    }
}

// Runs the script of a number, and writes the run in numbers.
#[tactic(auto, unfolding(crate::specs::Serve::sample_text))]
fn serve_sample<K: Sink>(alloc: Global, n: u32, sink: &mut K) -> Status
    requires some { 1 ≤ n }
    requires most { n ≤ 1000 }
    ensures says { SaysOfText (sample_text n) result (writing K.Sink sink.old sink.new) }
    ensures writes_later { K.faults sink.old ≤ K.faults sink.new }
{
    let Ok(script) = make(alloc, n) else {
        return Status::Memory;
    };
    let Ok(report) = trace(alloc, &script) else {
        return Status::Memory;
    };
    let counts = report.counts();
    match put_counts(sink, n, &counts) {
        Ok(()) => Status::Ok,
        Err(WriteFailed) => Status::WriteFault,
    }
}

// Does what the words say.
fn served<S: Source, K: Sink>(
    alloc: Global,
    words: &[String],
    source: &mut S,
    sink: &mut K,
) -> Status
    ensures says { SaysOf (command_of (map string_bytes words.now)) result
        (reading S.Source source.old source.new) (writing K.Sink sink.old sink.new) }
    ensures decides { DecidesBy (status_of (map string_bytes words.now)) result
        (reading S.Source source.old source.new) }
    ensures reads_later { S.faults source.old ≤ S.faults source.new }
    ensures writes_later { K.faults sink.old ≤ K.faults sink.new }
{
    match command_of(words) {
        None => {
            let _ = put_whole(sink, b"usage: vsm trace|make N|sample N\n");
            Status::Usage
        }
        Some(Command::Trace) => serve_trace(alloc, source, sink),
        Some(Command::Make(n)) => serve_make(alloc, n, sink),
        Some(Command::Sample(n)) => serve_sample(alloc, n, sink),
    }
}

/// Does what the words say, over this source and sink: `trace` reads a script and writes the report of its run;
/// `make N` writes the script of a number, and `sample N` the run of that script in numbers, and both leave the source
/// as it is. It waits for nobody. The order in which statuses are tried is this project's own: the words, the reading,
/// the script, memory, the writing; want of memory while reading comes before the script.
pub fn serve_plain<S: Source, K: Sink>(
    alloc: Global,
    words: &[String],
    source: &mut S,
    sink: &mut K,
) -> Status
    ensures { Serves result (map string_bytes words.now)
        (reading S.Source source.old source.new) (writing K.Sink sink.old sink.new) }
{
    served(alloc, words, source, sink)
}

/// Does what the words say, as `serve_plain`. A later command is run by threads; those of today use none.
pub fn vsm<R: Threads + Wait + Sync, S: Source, K: Sink>(
    _rt: &R,
    alloc: Global,
    words: &[String],
    source: &mut S,
    sink: &mut K,
) -> Status
    ensures { Serves result (map string_bytes words.now)
        (reading S.Source source.old source.new) (writing K.Sink sink.old sink.new) }
{
    serve_plain(alloc, words, source, sink)
}

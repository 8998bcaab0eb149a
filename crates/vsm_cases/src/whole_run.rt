// A whole file of cases.
ghost use Rattle.std.specs.Prelude.{◌≡◌, length};

use crate::case::LineError;
use crate::case_line::split_at_byte;
use crate::malformed::Cause;
use crate::reading::Reading;
use crate::runner::{RunError, Told, run_case};
use std::alloc::Global;
use vsm_base::{InputError, Sink, Source, WriteFailed, read_whole};
use vsm_report::{Piece, write_pieces};

/// How a run of a file ended: the number of the variant, from 0, is the status of the process.
#[derive(Clone, Copy, Debug, PartialEq, Eq)]
pub enum Ending {
    /// Each case gave what is expected.
    Ok,
    /// A case didn't.
    Failed,
    /// The input is no file of cases; one line says why, and nothing was run.
    Malformed,
    /// Memory ran out.
    Memory,
    /// A read failed, or the input has more than 1,048,576 bytes; nothing was run.
    Input,
    /// A write failed.
    Output,
}

// Why the cases were not run to their end.
#[derive(Clone, Copy, Debug, PartialEq, Eq)]
enum FileError {
    Malformed(u32, Cause),
    Memory,
    Write,
}

impl From<RunError> for FileError {
    fn from(error: RunError) -> Self {
        match error {
            RunError::Memory => FileError::Memory,
            RunError::Write => FileError::Write,
        }
    }
}

impl From<WriteFailed> for FileError {
    fn from(_: WriteFailed) -> Self {
        FileError::Write
    }
}

fn at_line(error: LineError, line: u32) -> FileError {
    match error {
        LineError::Malformed(cause) => FileError::Malformed(line, cause),
        LineError::Memory => FileError::Memory,
    }
}

/// How many cases were told of.
#[derive(Clone, Copy, Debug, PartialEq, Eq)]
struct Tally {
    ok: u32,
    failed: u32,
}

impl Tally {
    fn count(&mut self, told: Told) {
        match told {
            Told::Agrees => self.ok = self.ok.saturating_add(1),
            Told::Differs => self.failed = self.failed.saturating_add(1),
        }
    }
}

// Reads all lines, and runs nothing.
fn check(alloc: Global, bytes: &[u8]) -> Result<(), FileError> {
    let mut reading = Reading::new(alloc);
    let mut rest = bytes;
    let mut number: u32 = 1;
    while !rest.is_empty() {
        let (line, others) = split_at_byte(rest, b'\n');
        match reading.line(alloc, line) {
            Ok(_) => {}
            Err(error) => return Err(at_line(error, number)),
        }
        number = number.saturating_add(1);
        rest = others;
    }
    match reading.end(alloc) {
        Ok(_) => Ok(()),
        Err(error) => Err(at_line(error, number)),
    }
}

// Runs each case as soon as its last line was read.
fn run_cases<K: Sink>(alloc: Global, sink: &mut K, bytes: &[u8]) -> Result<Tally, FileError> {
    let mut reading = Reading::new(alloc);
    let mut tally = Tally { ok: 0, failed: 0 };
    let mut rest = bytes;
    while !rest.is_empty() {
        let (line, others) = split_at_byte(rest, b'\n');
        match reading.line(alloc, line) {
            Ok(Some(case)) => tally.count(run_case(alloc, sink, &case)?),
            Ok(None) => {}
            Err(error) => return Err(at_line(error, 0)),
        }
        rest = others;
    }
    match reading.end(alloc) {
        Ok(Some(case)) => tally.count(run_case(alloc, sink, &case)?),
        Ok(None) => {}
        Err(error) => return Err(at_line(error, 0)),
    }
    Ok(tally)
}

fn put_malformed<K: Sink>(sink: &mut K, line: u32, cause: Cause) -> Result<(), WriteFailed> {
    let pieces = [
        Piece::Text(b"malformed line "),
        Piece::Decimal(line as u64),
        Piece::Text(b": "),
        Piece::Text(cause.text()),
        Piece::Text(b"\n"),
    ];
    write_pieces(sink, &pieces)
}

fn put_tally<K: Sink>(sink: &mut K, tally: &Tally) -> Result<(), WriteFailed> {
    let pieces = [
        Piece::Decimal(tally.ok as u64),
        Piece::Text(b" ok, "),
        Piece::Decimal(tally.failed as u64),
        Piece::Text(b" failed\n"),
    ];
    write_pieces(sink, &pieces)
}

// Reads all lines first, and then runs the cases.
fn run_bytes<K: Sink>(alloc: Global, sink: &mut K, bytes: &[u8]) -> Result<Ending, FileError> {
    check(alloc, bytes)?;
    let tally = run_cases(alloc, sink, bytes)?;
    put_tally(sink, &tally)?;
    if tally.failed > 0 {
        return Ok(Ending::Failed);
    }
    Ok(Ending::Ok)
}

fn ending_of<K: Sink>(sink: &mut K, error: FileError) -> Ending {
    match error {
        FileError::Malformed(line, cause) => match put_malformed(sink, line, cause) {
            Ok(()) => Ending::Malformed,
            Err(WriteFailed) => Ending::Output,
        },
        FileError::Memory => Ending::Memory,
        FileError::Write => Ending::Output,
    }
}

/// Runs a file of cases, and tells of each in one line.
pub fn run_file<S: Source, K: Sink>(alloc: Global, source: &mut S, sink: &mut K) -> Ending {
    let bytes = match read_whole(alloc, source) {
        Ok(bytes) => bytes,
        Err(InputError::Memory) => return Ending::Memory,
        Err(_) => return Ending::Input,
    };
    match run_bytes(alloc, sink, bytes.as_slice()) {
        Ok(ending) => ending,
        Err(error) => ending_of(sink, error),
    }
}

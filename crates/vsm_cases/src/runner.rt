// The run of a case.
ghost use Rattle.std.specs.Prelude.{◌≡◌, ◌↔◌, IfOk};
ghost use Rattle.vsm_base.specs.InMemory.{taken_in_memory};
ghost use Rattle.vsm_cases.specs.Agreement.{Gives};

use crate::case::{Case, Expected, Rule};
use crate::comparison::{Verdict, agrees, judge};
use crate::verdict_line::put_verdict;
use std::alloc::{AllocError, Global};
use vsm_base::{MemSink, MemSource, Sink, WriteFailed};
use vsm_report::{Piece, write_pieces};
use vsm_serve::{Status, serve_plain};

// The most bytes of a report that are taken.
const ROOM: usize = 262_144;

/// How a line about a case ended.
#[derive(Clone, Copy, Debug, PartialEq, Eq)]
pub enum Told {
    /// The line says that the case gave what is expected.
    Agrees,
    /// The line says where it didn't.
    Differs,
}

/// Why a case could not be told of.
#[derive(Clone, Copy, Debug, PartialEq, Eq)]
pub enum RunError {
    Memory,
    Write,
}

impl From<AllocError> for RunError {
    fn from(_: AllocError) -> Self {
        RunError::Memory
    }
}

impl From<WriteFailed> for RunError {
    fn from(_: WriteFailed) -> Self {
        RunError::Write
    }
}

// The number of the call that fails, as the streams want it.
fn failing(alloc: Global, number: u64) -> Result<Vec<u64>, AllocError> {
    let mut calls = Vec::new(alloc);
    if number > 0 {
        calls.push(number)?;
    }
    Ok(calls)
}

// What the program did.
#[derive(Drop)]
struct ProgramRun {
    status: Status,
    sink: MemSink,
}

// Runs the program on a script, by a case's words and streams.
fn run_script(alloc: Global, case: &Case, script: &[u8]) -> Result<ProgramRun, AllocError> {
    let streams = case.streams;
    let failing_read = failing(alloc, streams.failing_read)?;
    let failing_write = failing(alloc, streams.failing_write)?;
    let room = vec![in alloc; 0; ROOM]?;
    let mut source = MemSource::new(script.to_vec(alloc)?, failing_read, streams.read.max(1));
    let mut sink = MemSink::new(room, failing_write, streams.write.max(1));
    let status = serve_plain(alloc, case.words.as_slice(), &mut source, &mut sink);
    Ok(ProgramRun { status, sink })
}

// Whether the text is that of a refusal of a script.
fn is_refusal(status: Status, text: &[u8]) -> bool {
    status == Status::Refused && agrees(Rule::Begins, b"refused line ", text)
}

// Tells what is said of a run, in one line.
fn tell<K: Sink>(
    sink: &mut K,
    name: &[u8],
    expected: &Expected,
    run: &ProgramRun,
) -> Result<Told, WriteFailed>
    ensures agrees { IfOk result (λ told. (told ≡ Told.Agrees) ↔ Gives expected.now run.now.status (taken_in_memory run.now.sink)) }
{
    let verdict = judge(expected, run.status, run.sink.taken());
    put_verdict(sink, name, expected.status, &verdict)?;
    match verdict {
        Verdict::Agrees => Ok(Told::Agrees),
        Verdict::Differs(_, _) => Ok(Told::Differs),
    }
}

// Runs each front of a case's script, and tells of the first that is neither refused nor gives the same.
fn run_fronts<K: Sink>(alloc: Global, sink: &mut K, case: &Case) -> Result<Told, RunError> {
    for size in 0..case.script.len() {
        let front = run_script(alloc, case, &case.script[..size])?;
        let text = front.sink.taken();
        let same = front.status == case.expected.status
            && agrees(case.expected.rule, case.expected.text.as_slice(), text);
        if !same && !is_refusal(front.status, text) {
            let pieces = [
                Piece::Text(b"cut after "),
                Piece::Decimal(size as u64),
                Piece::Text(b" bytes, "),
            ];
            write_pieces(sink, &pieces)?;
            return Ok(tell(sink, case.name.as_slice(), &case.expected, &front)?);
        }
    }
    Ok(Told::Agrees)
}

/// Runs a case, and tells of it in one line.
pub fn run_case<K: Sink>(alloc: Global, sink: &mut K, case: &Case) -> Result<Told, RunError> {
    if case.cuts && run_fronts(alloc, sink, case)? == Told::Differs {
        return Ok(Told::Differs);
    }
    let run = run_script(alloc, case, case.script.as_slice())?;
    Ok(tell(sink, case.name.as_slice(), &case.expected, &run)?)
}

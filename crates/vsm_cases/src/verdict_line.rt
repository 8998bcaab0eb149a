// The line that tells of a case.
ghost use Rattle.std.specs.Prelude.{◌≡◌};
ghost use Rattle.vsm_base.specs.Whole.{Puts};
ghost use Rattle.vsm_cases.specs.Lines.{ok_line, status_line, difference_line, verdict_line};
ghost use Rattle.vsm_cases.specs.Words.{status_word};

use crate::case_line::status_word;
use crate::comparison::{LineDifference, Verdict};
use vsm_base::{Sink, WriteFailed};
use vsm_report::{Piece, write_pieces};
use vsm_serve::Status;

fn put_ok<K: Sink>(sink: &mut K, name: &[u8]) -> Result<(), WriteFailed>
    ensures { Puts (K.taken sink.old) (K.taken sink.new) (K.faults sink.old) (K.faults sink.new) result (ok_line name.now) }
{
    write_pieces(sink, &[Piece::Text(name), Piece::Text(b": ok\n")])
}

// Says which status came.
fn put_status<K: Sink>(
    sink: &mut K,
    name: &[u8],
    expected: Status,
    came: Status,
) -> Result<(), WriteFailed>
    ensures { Puts (K.taken sink.old) (K.taken sink.new) (K.faults sink.old) (K.faults sink.new) result (status_line name.now expected came) }
{
    let pieces = [
        Piece::Text(name),
        Piece::Text(b": status "),
        Piece::Text(status_word(came)),
        Piece::Text(b" for "),
        Piece::Text(status_word(expected)),
        Piece::Text(b"\n"),
    ];
    write_pieces(sink, &pieces)
}

// Says which status came, and which line.
fn put_difference<'a, K: Sink>(
    sink: &mut K,
    name: &'a [u8],
    statuses: (Status, Status),
    difference: &'a LineDifference<'a>,
) -> Result<(), WriteFailed>
    ensures { Puts (K.taken sink.old) (K.taken sink.new) (K.faults sink.old) (K.faults sink.new) result (difference_line name.now statuses.0 statuses.1 difference.now) }
{
    let pieces = [
        Piece::Text(name),
        Piece::Text(b": status "),
        Piece::Text(status_word(statuses.1)),
        Piece::Text(b" for "),
        Piece::Text(status_word(statuses.0)),
        Piece::Text(b", line "),
        Piece::Decimal(difference.line as u64),
        Piece::Text(b": ["),
        Piece::Text(difference.came),
        Piece::Text(b"] for ["),
        Piece::Text(difference.expected),
        Piece::Text(b"]\n"),
    ];
    write_pieces(sink, &pieces)
}

/// Tells what is said of a run of the case of this name: `ok`, or the statuses that came and was expected, and the
/// first line that differs, as it came and as it was expected.
pub fn put_verdict<'a, K: Sink>(
    sink: &mut K,
    name: &'a [u8],
    expected: Status,
    verdict: &'a Verdict<'a>,
) -> Result<(), WriteFailed>
    ensures { Puts (K.taken sink.old) (K.taken sink.new) (K.faults sink.old) (K.faults sink.new) result (verdict_line name.now expected verdict.now) }
{
    match verdict {
        Verdict::Agrees => put_ok(sink, name),
        Verdict::Differs(came, None) => put_status(sink, name, expected, *came),
        Verdict::Differs(came, Some(difference)) => {
            put_difference(sink, name, (expected, *came), difference)
        }
    }
}

// The lines of a file of cases.
ghost use Rattle.std.specs.Prelude.{◌≡◌, ◌<◌, ◌≤◌, length};
ghost use Rattle.vsm_cases.specs.Words.{status_word};

use crate::case::{Pad, Rule};
use crate::malformed::Cause;
use crate::marks::{Mark, mark_of};
use guest_script::numeral;
use vsm_serve::Status;

/// What a line of a file of cases says.
#[derive(Clone, Copy, Debug, PartialEq, Eq)]
pub enum CaseLine<'a> {
    /// A comment, or nothing.
    Nothing,
    /// A line of a script or of a report.
    Text(&'a [u8]),
    /// A case of this name begins.
    Case(&'a [u8]),
    /// A part of this name begins.
    Part(&'a [u8]),
    /// The lines of the part of this name stand here.
    Use(&'a [u8]),
    /// The words of the command, with a space between two.
    Words(&'a [u8]),
    Pad(Pad),
    /// The most bytes of a read and of a write.
    Pieces(usize, usize),
    FailingRead(u64),
    FailingWrite(u64),
    Cuts,
    /// The line before has no line feed.
    Unended,
    /// The script is over, and this is what it gives; the text's lines follow.
    Gives(Status, Rule),
}

/// The bytes up to the first such byte, and those behind it.
pub fn split_at_byte(bytes: &[u8], byte: u8) -> (&[u8], &[u8])
    ensures shorter { 0 < length bytes.now → length result.1.now < length bytes.now }
    ensures within { length result.1.now ≤ length bytes.now }
{
    for (at, each) in bytes.iter().enumerate() {
        if *each == byte {
            return (&bytes[..at], &bytes[at + 1..]);
        }
    }
    (bytes, &bytes[bytes.len()..])
}

fn number(word: &[u8], least: u128) -> Result<usize, Cause> {
    match numeral(word, 10, 9) {
        Some(n) if least <= n && n < 1_000_000_000 => Ok(n as usize),
        _ => Err(Cause::Words),
    }
}

fn name(rest: &[u8]) -> Result<&[u8], Cause> {
    if rest.is_empty() {
        return Err(Cause::Name);
    }
    Ok(rest)
}

fn pad(rest: &[u8]) -> Result<Pad, Cause> {
    let (size, filling) = split_at_byte(rest, b' ');
    let size = number(size, 1)?;
    if filling == b"comment".as_slice() {
        return Ok(Pad::Comment(size));
    }
    if filling == b"lines".as_slice() {
        return Ok(Pad::Lines(size));
    }
    Err(Cause::Words)
}

fn pieces(rest: &[u8]) -> Result<CaseLine<'_>, Cause> {
    let (read, write) = split_at_byte(rest, b' ');
    Ok(CaseLine::Pieces(number(read, 1)?, number(write, 1)?))
}

const STATUSES: [Status; 7] = [
    Status::Ok,
    Status::Usage,
    Status::Refused,
    Status::ReadFault,
    Status::WriteFault,
    Status::Memory,
    Status::TooLong,
];

/// The word of a status.
pub fn status_word(status: Status) -> &'static [u8]
    ensures { result.now ≡ status_word status }
{
    match status {
        Status::Ok => b"ok",
        Status::Usage => b"usage",
        Status::Refused => b"refused",
        Status::ReadFault => b"read-fault",
        Status::WriteFault => b"write-fault",
        Status::Memory => b"memory",
        Status::TooLong => b"too-long",
    }
}

fn status_of(word: &[u8]) -> Result<Status, Cause> {
    for status in STATUSES {
        if status_word(status) == word {
            return Ok(status);
        }
    }
    Err(Cause::Words)
}

fn rule_of(word: &[u8]) -> Result<Rule, Cause> {
    if word.is_empty() {
        return Ok(Rule::Whole);
    }
    if word == b"begins".as_slice() {
        return Ok(Rule::Begins);
    }
    if word == b"ends".as_slice() {
        return Ok(Rule::Ends);
    }
    Err(Cause::Words)
}

fn gives(rest: &[u8]) -> Result<CaseLine<'_>, Cause> {
    let (status, rule) = split_at_byte(rest, b' ');
    Ok(CaseLine::Gives(status_of(status)?, rule_of(rule)?))
}

fn alone<'a>(rest: &[u8], line: CaseLine<'a>) -> Result<CaseLine<'a>, Cause> {
    if rest.is_empty() {
        return Ok(line);
    }
    Err(Cause::Words)
}

// A line that begins with a mark.
fn marked(line: &[u8]) -> Result<CaseLine<'_>, Cause> {
    let (word, rest) = split_at_byte(line, b' ');
    match mark_of(word)? {
        Mark::Case => Ok(CaseLine::Case(name(rest)?)),
        Mark::Part => Ok(CaseLine::Part(name(rest)?)),
        Mark::Use => Ok(CaseLine::Use(name(rest)?)),
        Mark::Words => Ok(CaseLine::Words(rest)),
        Mark::Pad => Ok(CaseLine::Pad(pad(rest)?)),
        Mark::Pieces => pieces(rest),
        Mark::FailingRead => Ok(CaseLine::FailingRead(number(rest, 1)? as u64)),
        Mark::FailingWrite => Ok(CaseLine::FailingWrite(number(rest, 1)? as u64)),
        Mark::Cuts => alone(rest, CaseLine::Cuts),
        Mark::Unended => alone(rest, CaseLine::Unended),
        Mark::Gives => gives(rest),
    }
}

/// What a line says.
pub fn read_line(line: &[u8]) -> Result<CaseLine<'_>, Cause> {
    match line.first() {
        None | Some(b'%') => Ok(CaseLine::Nothing),
        Some(b'@') => marked(&line[1..]),
        Some(b'\\') => Ok(CaseLine::Text(&line[1..])),
        _ => Ok(CaseLine::Text(line)),
    }
}

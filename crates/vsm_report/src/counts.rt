// A run in numbers.
ghost use Rattle.std.specs.Prelude.{◌≡◌, length};
ghost use Rattle.std.specs.List.{filter};
ghost use Rattle.vsm_report.specs.Counts.{counts, count_of, is_left, is_granted, is_denied, is_report, tells};

use crate::report::{Line, Report};
use vsm_core::{Entry, What};

/// A run in numbers. This project's own.
#[derive(Clone, Copy, Debug, PartialEq, Eq)]
pub struct Counts {
    /// How many attempts have left a mark, starts among them. A spin in vain leaves none.
    pub marks: usize,
    /// How many accesses were granted.
    pub granted: usize,
    /// How many accesses were denied.
    pub denied: usize,
    /// How many rounds have ended.
    pub rounds: usize,
}

fn is_left(what: &What) -> bool
    ensures { result ≡ is_left what.now }
{
    !matches!(what, What::Again(_))
}

fn is_granted(what: &What) -> bool
    ensures { result ≡ is_granted what.now }
{
    matches!(what, What::Granted(_))
}

fn is_denied(what: &What) -> bool
    ensures { result ≡ is_denied what.now }
{
    matches!(what, What::Denied(_))
}

fn tells_mark(line: &Line) -> bool
    ensures { result ≡ tells is_left line.now }
{
    match line {
        Line::Mark(_, mark) => is_left(&mark.what),
        _ => false,
    }
}

fn tells_grant(line: &Line) -> bool
    ensures { result ≡ tells is_granted line.now }
{
    match line {
        Line::Mark(_, mark) => is_granted(&mark.what),
        _ => false,
    }
}

fn tells_denial(line: &Line) -> bool
    ensures { result ≡ tells is_denied line.now }
{
    match line {
        Line::Mark(_, mark) => is_denied(&mark.what),
        _ => false,
    }
}

fn is_report(entry: &Entry) -> bool
    ensures { result ≡ is_report entry.now }
{
    matches!(entry, Entry::Report { .. })
}

fn marks(lines: &[Line]) -> usize
    ensures { result ≡ count_of is_left lines.now }
{
    lines.iter().filter(|line| tells_mark(line)).count()
}

fn grants(lines: &[Line]) -> usize
    ensures { result ≡ count_of is_granted lines.now }
{
    lines.iter().filter(|line| tells_grant(line)).count()
}

fn denials(lines: &[Line]) -> usize
    ensures { result ≡ count_of is_denied lines.now }
{
    lines.iter().filter(|line| tells_denial(line)).count()
}

fn rounds(journal: &[Entry]) -> usize
    ensures { result ≡ length (filter is_report journal.now) }
{
    journal.iter().filter(|entry| is_report(entry)).count()
}

impl Report {
    /// The run in numbers.
    pub fn counts(&self) -> Counts
        ensures { result ≡ counts self.now }
    {
        Counts {
            marks: marks(self.lines.as_slice()),
            granted: grants(self.lines.as_slice()),
            denied: denials(self.lines.as_slice()),
            rounds: rounds(self.journal.as_slice()),
        }
    }
}

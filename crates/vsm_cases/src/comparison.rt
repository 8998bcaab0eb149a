// Whether a run gave what is expected, and where it didn't.
ghost use Rattle.std.specs.Prelude.{◌≡◌, ◌↔◌, IsTrue};
ghost use Rattle.vsm_cases.specs.Agreement.{Agrees};

use crate::case::{Expected, Rule};
use crate::case_line::split_at_byte;
use vsm_serve::Status;

/// Where a text differs from the one that is expected.
#[derive(Clone, Copy, Debug, PartialEq, Eq)]
pub struct LineDifference<'a> {
    /// The number of the line among those that are expected, from 1.
    pub line: u32,
    /// That line; `(nothing)` behind the last.
    pub expected: &'a [u8],
    /// The line that came there; `(nothing)` behind the last.
    pub came: &'a [u8],
}

/// What is said of a run.
#[derive(Clone, Copy, Debug, PartialEq, Eq)]
pub enum Verdict<'a> {
    /// The status and the text are as expected.
    Agrees,
    /// The status that came, and where the text differs, if it does.
    Differs(Status, Option<LineDifference<'a>>),
}

/// Whether a text is as expected by the rule.
pub fn agrees(rule: Rule, expected: &[u8], came: &[u8]) -> bool
    ensures { IsTrue result ↔ Agrees rule expected.now came.now }
{
    match rule {
        Rule::Whole => came == expected,
        Rule::Begins => came.starts_with(expected),
        Rule::Ends => came.ends_with(expected),
    }
}

fn first_line(text: &[u8]) -> &[u8] {
    if text.is_empty() {
        return b"(nothing)";
    }
    split_at_byte(text, b'\n').0
}

// The first line in which the texts differ, or the one behind the last that both have.
fn first_difference<'a>(expected: &'a [u8], came: &'a [u8]) -> LineDifference<'a> {
    let mut expected_rest = expected;
    let mut came_rest = came;
    let mut line: u32 = 1;
    while !expected_rest.is_empty() && !came_rest.is_empty() {
        let (one, ones) = split_at_byte(expected_rest, b'\n');
        let (other, others) = split_at_byte(came_rest, b'\n');
        if one != other {
            break;
        }
        line = line.saturating_add(1);
        expected_rest = ones;
        came_rest = others;
    }
    LineDifference {
        line,
        expected: first_line(expected_rest),
        came: first_line(came_rest),
    }
}

fn lines_of(text: &[u8]) -> usize {
    text.iter().filter(|b| **b == b'\n').count()
}

// The last lines of a text, as many as the one that is expected has.
fn last_lines<'a>(expected: &[u8], came: &'a [u8]) -> &'a [u8] {
    let mut passed = lines_of(came).saturating_sub(lines_of(expected));
    let mut rest = came;
    while passed > 0 {
        rest = split_at_byte(rest, b'\n').1;
        passed -= 1;
    }
    rest
}

fn text_difference<'a>(expected: &'a Expected, text: &'a [u8]) -> Option<LineDifference<'a>> {
    let wanted = expected.text.as_slice();
    if agrees(expected.rule, wanted, text) {
        return None;
    }
    let came = match expected.rule {
        Rule::Ends => last_lines(wanted, text),
        _ => text,
    };
    Some(first_difference(wanted, came))
}

/// What is said of a run that gave this status and this text.
pub fn judge<'a>(expected: &'a Expected, status: Status, text: &'a [u8]) -> Verdict<'a>
    ensures agrees { (result ≡ Verdict.Agrees) ↔ ((status ≡ expected.now.status) × Agrees expected.now.rule expected.now.text.items text.now) }
{
    if status == expected.status && agrees(expected.rule, expected.text.as_slice(), text) {
        return Verdict::Agrees;
    }
    Verdict::Differs(status, text_difference(expected, text))
}

// What a script says, and why a line is refused.
use vsm_base::{Items, Limits, Mask, Page, VpIndex};
use vsm_core::Program;

/// An entry of a schedule: a processor acts so many times.
#[derive(Clone, Copy, Debug, PartialEq, Eq)]
pub struct Turns {
    pub vp: VpIndex,
    /// Whether each time is one step rather than a whole attempt.
    pub single: bool,
    /// 1 to 100,000.
    pub count: u32,
}

/// What a script says, each list in the order of its lines.
#[derive(Debug, Drop)]
pub struct Script {
    pub limits: Limits,
    /// How many processors run from the beginning: the first so many, 1 to the number of processors.
    pub started: u8,
    /// The pages whose mask is given; any other has all rights.
    pub masks: Items<(Page, Mask)>,
    /// The memory words whose value is given, by page and place in the page; any other is 0.
    pub words: Items<(Page, u16, u64)>,
    /// The programs of each processor, empty in a level where none is given.
    pub programs: Items<Program>,
    /// The entries of each schedule line.
    pub schedule: Items<Items<Turns>>,
}

/// Why a line is refused.
#[derive(Clone, Copy, Debug, PartialEq, Eq)]
pub enum Why {
    /// A byte is neither a space nor printable ASCII.
    NotText,
    /// The first word is none of the language.
    UnknownWord,
    /// The line can't stand here.
    OutOfOrder,
    /// A word is missing.
    MissingWord,
    /// A word spells no number.
    BadNumber,
    /// A word names no register that may stand there.
    BadName,
    /// A word is no entry of a schedule.
    BadEntry,
    /// A number isn't in the range of its place.
    OutOfRange,
    /// A word too many.
    ExtraWord,
    /// This mask, word or program was given before.
    Twice,
    /// More than 4,096 operations in a program of one level, or more than 100,000 turns in all.
    TooMany,
    /// The script ends without `end`.
    Cut,
}

impl Why {
    ghost use Rattle.std.specs.Prelude.{◌≡◌};
    ghost use Rattle.guest_script.specs.Why.{why_text};

    /// The words by which a refusal says it.
    pub fn text(self) -> &'static [u8]
        ensures { result.now ≡ why_text self }
    {
        match self {
            Why::NotText => b"not text",
            Why::UnknownWord => b"unknown word",
            Why::OutOfOrder => b"out of order",
            Why::MissingWord => b"missing word",
            Why::BadNumber => b"bad number",
            Why::BadName => b"bad name",
            Why::BadEntry => b"bad entry",
            Why::OutOfRange => b"out of range",
            Why::ExtraWord => b"extra word",
            Why::Twice => b"twice",
            Why::TooMany => b"too many",
            Why::Cut => b"cut",
        }
    }
}

/// Why bytes are no script.
#[derive(Clone, Copy, Debug, PartialEq, Eq)]
pub struct Refusal {
    /// The first line that is refused, counted from 1, skipped lines among them; the count stops at 2^32 - 1.
    pub line: u32,
    pub why: Why,
}

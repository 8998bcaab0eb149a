// The marks of a file of cases.
use crate::malformed::Cause;

/// The word behind the `@` of a line.
#[derive(Clone, Copy, Debug, PartialEq, Eq)]
pub enum Mark {
    Case,
    Part,
    Use,
    Words,
    Pad,
    Pieces,
    FailingRead,
    FailingWrite,
    Cuts,
    Unended,
    Gives,
}

const ALL: [Mark; 11] = [
    Mark::Case,
    Mark::Part,
    Mark::Use,
    Mark::Words,
    Mark::Pad,
    Mark::Pieces,
    Mark::FailingRead,
    Mark::FailingWrite,
    Mark::Cuts,
    Mark::Unended,
    Mark::Gives,
];

impl Mark {
    fn word(self) -> &'static [u8] {
        match self {
            Mark::Case => b"case",
            Mark::Part => b"part",
            Mark::Use => b"use",
            Mark::Words => b"words",
            Mark::Pad => b"pad",
            Mark::Pieces => b"pieces",
            Mark::FailingRead => b"failing-read",
            Mark::FailingWrite => b"failing-write",
            Mark::Cuts => b"cuts",
            Mark::Unended => b"unended",
            Mark::Gives => b"gives",
        }
    }
}

/// The mark that a word spells.
pub fn mark_of(word: &[u8]) -> Result<Mark, Cause> {
    for mark in ALL {
        if mark.word() == word {
            return Ok(mark);
        }
    }
    Err(Cause::UnknownMark)
}

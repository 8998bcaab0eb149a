// A worked case.
use crate::malformed::Cause;
use std::alloc::{AllocError, AllocFailed, Global};
use vsm_serve::Status;

/// How the text that came is compared with the one that is expected.
#[derive(Clone, Copy, Debug, PartialEq, Eq)]
pub enum Rule {
    /// It is that text.
    Whole,
    /// It begins with that text.
    Begins,
    /// It ends with that text.
    Ends,
}

/// What a run must give.
#[derive(Debug, Drop)]
pub struct Expected {
    pub status: Status,
    pub rule: Rule,
    pub text: Vec<u8>,
}

/// What is put behind the lines of a script, up to a length in bytes.
#[derive(Clone, Copy, Debug, PartialEq, Eq)]
pub enum Pad {
    Nothing,
    /// One comment line.
    Comment(usize),
    /// Line feeds.
    Lines(usize),
}

/// How a script is handed over, and how the report is taken.
#[derive(Clone, Copy, Debug, PartialEq, Eq)]
pub struct Streams {
    /// The most bytes that a read gives, at least 1.
    pub read: usize,
    /// The most bytes that a write takes, at least 1.
    pub write: usize,
    /// The number of the read that fails, from 1; 0 for none.
    pub failing_read: u64,
    /// The number of the write that fails, from 1; 0 for none.
    pub failing_write: u64,
}

/// A worked case.
#[derive(Debug, Drop)]
pub struct Case {
    pub name: Vec<u8>,
    pub words: Vec<String>,
    pub pad: Pad,
    pub streams: Streams,
    /// Whether each front of the script is run too, and must be refused or give the same.
    pub cuts: bool,
    pub script: Vec<u8>,
    pub expected: Expected,
}

impl Case {
    /// A case with no lines yet.
    pub fn empty(alloc: Global) -> Case {
        Case {
            name: Vec::new(alloc),
            words: Vec::new(alloc),
            pad: Pad::Nothing,
            streams: Streams {
                read: 4096,
                write: 4096,
                failing_read: 0,
                failing_write: 0,
            },
            cuts: false,
            script: Vec::new(alloc),
            expected: Expected {
                status: Status::Ok,
                rule: Rule::Whole,
                text: Vec::new(alloc),
            },
        }
    }
}

/// Why a line was not taken.
#[derive(Clone, Copy, Debug, PartialEq, Eq)]
pub enum LineError {
    Malformed(Cause),
    Memory,
}

impl From<Cause> for LineError {
    fn from(cause: Cause) -> Self {
        LineError::Malformed(cause)
    }
}

impl From<AllocError> for LineError {
    fn from(_: AllocError) -> Self {
        LineError::Memory
    }
}

impl<T: Drop> From<AllocFailed<T>> for LineError {
    fn from(_: AllocFailed<T>) -> Self {
        LineError::Memory
    }
}

// All of a source's bytes, and a whole text into a sink.
ghost use Rattle.std.specs.Prelude.{◌≡◌, ◌≤◌, IfOk, OnErr, IsErrOf};
ghost use Rattle.vsm_base.specs.Outside.{Rose};
ghost use Rattle.vsm_base.specs.Whole.{ReadsWhole, ReadsTooMuch, LosesFront, Puts};
ghost use Rattle.vsm_base.specs.declared.whole.InputError.TheVariants.{Memory};

use crate::{Got, Put, Sink, Source};
use std::alloc::{AllocError, Global};
use thiserror::Error;

/// The most bytes that an input may have. This project's own limit.
pub const LIMIT: usize = 1_048_576;

const PIECE: usize = 4096;

/// Why an input could not be read whole. This project's own.
#[derive(Clone, Copy, Debug, PartialEq, Eq)]
pub enum InputError {
    /// A read has failed: the source's count of faults has risen, or stands at 2^64 - 1.
    Failed,
    /// `LIMIT` + 1 bytes came, and no more were read.
    TooLong,
    /// There was no memory for the bytes that had come.
    Memory,
}

impl From<AllocError> for InputError {
    ghost from_gives = { λ _ e. e ≡ Memory };

    fn from(_: AllocError) -> Self {
        InputError::Memory
    }
}

/// A write has failed: the sink's count of faults has risen, or stands at 2^64 - 1. This project's own.
#[derive(Clone, Copy, Debug, PartialEq, Eq, Error)]
#[error("a write failed")]
pub struct WriteFailed;

/// Reads a source to its end, at most `LIMIT` bytes, in pieces of at most 4,096. `Failed` at the first read that
/// fails; `TooLong` once `LIMIT` + 1 bytes have come; `Memory` where there is no memory for what came. What came
/// before an error is lost.
pub fn read_whole<S: Source>(alloc: Global, source: &mut S) -> Result<Vec<u8>, InputError>
    ensures whole { IfOk result (λ v. ReadsWhole (S.left source.old) (S.left source.new) v.items) }
    ensures too_long { IsErrOf result InputError.TooLong → ReadsTooMuch (S.left source.old) (S.left source.new) }
    ensures failed { IsErrOf result InputError.Failed → Rose (S.faults source.old) (S.faults source.new) }
    ensures front { OnErr result (LosesFront (S.left source.old) (S.left source.new)) }
    ensures later { S.faults source.old ≤ S.faults source.new }
{
    let mut bytes = Vec::new(alloc);
    let mut piece = [0u8; PIECE];
    'reading: while bytes.len() <= LIMIT {
        let room = (LIMIT + 1 - bytes.len()).min(PIECE);
        let got = source.read(&mut piece[..room]);
        match got {
            Got::Bytes(count) => bytes.extend_from_slice(&piece[..count])?,
            Got::End => return Ok(bytes),
            Got::Failed => return Err(InputError::Failed),
        }
    }
    Err(InputError::TooLong)
}

/// Writes a text whole. `WriteFailed` at the first write that fails, and then a front of the text was written.
pub fn put_whole<K: Sink>(sink: &mut K, text: &[u8]) -> Result<(), WriteFailed>
    ensures { Puts (K.taken sink.old) (K.taken sink.new) (K.faults sink.old) (K.faults sink.new) result text.now }
{
    let mut at = 0;
    while at < text.len() {
        match sink.write(&text[at..]) {
            Put::Took(count) => at += count,
            Put::Failed => return Err(WriteFailed),
        }
    }
    Ok(())
}

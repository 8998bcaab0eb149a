// Reading a whole script.
ghost use Rattle.std.specs.Prelude.{◌≡◌, IfOk};
ghost use Rattle.guest_script.specs.Within.{IsWithin};
ghost use Rattle.guest_script.specs.Grammar.{is_done, script};
ghost use Rattle.guest_script.specs.Read.{IsReadAs};
ghost use Rattle.guest_script.specs.declared.reader.ReadError.TheVariants.{Memory};

use crate::keyword::Stage;
use crate::reading::{LineError, Reading};
use crate::words::split_line;
use crate::{Refusal, Script, Why};
use std::alloc::{AllocError, Global};

/// Why there is no script.
#[derive(Clone, Copy, Debug, PartialEq, Eq)]
pub enum ReadError {
    /// The bytes are no script: this line is the first that is refused, and why.
    Refused(Refusal),
    /// There was no memory for the script.
    Memory,
}

impl From<AllocError> for ReadError {
    ghost from_gives = { λ _ e. e ≡ Memory };

    fn from(_: AllocError) -> Self {
        ReadError::Memory
    }
}

// Whether the line `end` was read.
fn is_done(stage: Stage) -> bool
    ensures { result ≡ is_done stage }
{
    matches!(stage, Stage::Done)
}

/// The script that bytes spell. The language is this project's own.
///
/// # Errors
///
/// `Refused` exactly where the bytes spell no script, with the first line that is refused and the first of its
/// causes; where no line is refused and `end` doesn't come, with the number after the last line's and `Cut`.
/// `Memory` where there was no memory.
#[tactic(auto, unfolding(crate::specs::Grammar::script))]
pub fn read(alloc: Global, bytes: &[u8]) -> Result<Script, ReadError>
    ensures said { IsReadAs result (script bytes.now) }
    ensures within { IfOk result IsWithin }
{
    let mut reading = Reading::new(alloc)?;
    let mut rest = bytes;
    let mut number: u32 = 1;
    while !rest.is_empty() {
        let (line, others) = split_line(rest);
        match reading.line(alloc, line) {
            Ok(()) => {}
            Err(LineError::Refused(why)) => {
                return Err(ReadError::Refused(Refusal { line: number, why }));
            }
            Err(LineError::Memory) => return Err(ReadError::Memory),
        }
        number = number.saturating_add(1);
        rest = others;
    }
    if !is_done(reading.stage) {
        return Err(ReadError::Refused(Refusal {
            line: number,
            why: Why::Cut,
        }));
    }
    Ok(reading.into_script())
}

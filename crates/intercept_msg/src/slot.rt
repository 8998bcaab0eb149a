// A message as the words of its slot.
ghost use Rattle.std.specs.Prelude.{◌≡◌};
ghost use Rattle.vsm_core.specs.Messages.{message_words};

use crate::encode;
use byteorder::{ByteOrder, LittleEndian};
use vsm_core::Note;

/// The message of this note as the first twelve words of a message slot (TLFS, HV_MESSAGE): the bytes of `encode`, eight
/// in each word, the lowest first. The first word's low 32 bits are the type, which is never zero, and its bit 40, which
/// is MessagePending, is clear.
pub fn words(note: &Note) -> [u64; 12]
    ensures words { result ≡ message_words note.now }
{
    let mut words = [0; 12];
    LittleEndian::read_u64_into(&encode(note), &mut words);
    words
}

// From bytes to the note whose message they are.
ghost use Rattle.std.specs.Prelude.{◌≡◌, ◌≢◌, IfSome, IfNone, length};
ghost use Rattle.vsm_core.specs.Messages.{IsMemNote, IsRegNote, IsNote, message, without_pending};
ghost use Rattle.intercept_msg.specs.Candidate.{access_in, address_in, memory_in, register_in, candidate_in};
ghost use Rattle.intercept_msg.specs.Told.{HasNoReadValue, as_told};

use crate::encode;
use crate::head::MEMORY;
use byteorder::{ByteOrder, LittleEndian};
use vsm_base::{Access, VpIndex};
use vsm_core::{MemNote, Note, RegNote};

/// The bytes with MessagePending clear, where there are 96.
fn cleared(bytes: &[u8]) -> Option<[u8; 96]>
    ensures cleared { IfSome result (λ cleared. cleared ≡ without_pending bytes.now) }
    ensures short { IfNone result (length bytes.now ≢ 96) }
{
    if bytes.len() != 96 {
        return None;
    }
    let mut cleared = [0; 96];
    cleared.copy_from_slice(bytes);
    // MessagePending is the lowest bit of the flags.
    cleared[5] = bytes[5] / 2 * 2;
    Some(cleared)
}

/// The access that is spelled so. What spells none is taken for an execution, whose message has other bytes.
fn access_of(number: u8) -> Access
    ensures { result ≡ access_in number }
{
    match number {
        0 => Access::Read,
        1 => Access::Write,
        _ => Access::Execute,
    }
}

/// The guest virtual address, where the access info says that there is one and nothing else.
fn address_of(bytes: &[u8; 96]) -> Option<u64>
    ensures { result ≡ address_in bytes.now }
{
    if bytes[61] == 1 {
        Some(LittleEndian::read_u64(&bytes[64..]))
    } else {
        None
    }
}

/// The fields of a memory intercept's message. The processor's upper bytes are not looked at.
fn memory_note(bytes: &[u8; 96]) -> MemNote
    ensures read { result ≡ memory_in bytes.now }
    ensures fits { IsMemNote result }
{
    MemNote {
        vp: VpIndex(bytes[16]),
        access: access_of(bytes[21]),
        cs: LittleEndian::read_u128(&bytes[24..]),
        rip: LittleEndian::read_u64(&bytes[40..]),
        rflags: LittleEndian::read_u64(&bytes[48..]),
        gva: address_of(bytes),
        gpa: LittleEndian::read_u64(&bytes[72..]),
    }
}

/// The fields of a register intercept's message. The processor's upper bytes are not looked at.
fn register_note(bytes: &[u8; 96]) -> RegNote
    ensures read { result ≡ register_in bytes.now }
    ensures fits { IsRegNote result }
{
    RegNote {
        vp: VpIndex(bytes[16]),
        write: bytes[21] == 1,
        cs: LittleEndian::read_u128(&bytes[24..]),
        rip: LittleEndian::read_u64(&bytes[40..]),
        rflags: LittleEndian::read_u64(&bytes[48..]),
        name: LittleEndian::read_u32(&bytes[56..]),
        value: LittleEndian::read_u128(&bytes[64..]),
    }
}

/// The only note whose message these bytes may be, with the value zero where it is a read: they need not be its message.
fn candidate(bytes: &[u8; 96]) -> Note
    ensures read { result ≡ candidate_in bytes.now }
    ensures fits { IsNote result }
{
    if LittleEndian::read_u32(bytes) == MEMORY {
        Note::Memory(memory_note(bytes))
    } else {
        Note::Register(register_note(bytes))
    }
}

/// The note whose message these bytes are, MessagePending aside: bit 0 of byte 5, which is set where more messages wait for
/// the slot (TLFS, HV_MESSAGE_FLAGS). The bytes stand as `encode` lays them out.
///
/// `None` comes exactly where no note has these bytes: there are not 96; the type is neither of the two; the payload's size
/// is not 80; the processor is above 255; the access is above 2, or is an execution of a register; the access info is
/// above 1; there is an address without that info, or a value in a read of a register; or a byte or a flag that is always
/// zero is not. That all of these are refused, and not passed over, is this project's own.
///
/// The messages of reads of a register do not tell the note's value. Of the notes that have the same bytes, which differ
/// in that alone, this gives the one with the value zero. Any other note comes back as it was.
pub fn decode(bytes: &[u8]) -> Option<Note>
    ensures fits { IfSome result IsNote }
    ensures found { IfSome result (λ note. message note ≡ without_pending bytes.now) }
    ensures value { IfSome result HasNoReadValue }
    ensures none { IfNone result ((n : Note) → IsNote n → message n ≢ without_pending bytes.now) }
    ensures told { (n : Note) → IsNote n → message n ≡ without_pending bytes.now
        → result ≡ Some (as_told n) }
{
    let bytes = cleared(bytes)?;
    let note = candidate(&bytes);
    if encode(&note) == bytes {
        Some(note)
    } else {
        None
    }
}

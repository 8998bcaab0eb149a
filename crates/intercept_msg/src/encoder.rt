// From a note to the bytes of its message.
ghost use Rattle.std.specs.Prelude.{◌≡◌, ◌++◌};
ghost use Rattle.vsm_core.specs.Messages.{laid_out, message};
ghost use Rattle.intercept_msg.specs.Layout.{fields_of_head, memory_head as memory_head_of, register_head as register_head_of, memory_rest as memory_fields, register_rest as register_fields};

use crate::head::{Head, MEMORY, REGISTER, access_byte, head_bytes};
use byteorder::{ByteOrder, LittleEndian};
use vsm_core::{MemNote, Note, RegNote};

/// What follows the head in the message of a memory intercept.
fn memory_rest(note: MemNote) -> [u8; 40]
    ensures { result ≡ laid_out (memory_fields note) }
{
    let mut bytes = [0; 40];
    if let Some(gva) = note.gva {
        bytes[5] = 1;
        LittleEndian::write_u64(&mut bytes[8..], gva);
    }
    LittleEndian::write_u64(&mut bytes[16..], note.gpa);
    bytes
}

/// What follows the head in the message of a register intercept.
fn register_rest(note: RegNote) -> [u8; 40]
    ensures { result ≡ laid_out (register_fields note) }
{
    let mut bytes = [0; 40];
    LittleEndian::write_u32(&mut bytes, note.name);
    if note.write {
        LittleEndian::write_u128(&mut bytes[8..], note.value);
    }
    bytes
}

/// A message of its head and of what follows.
fn joined(head: &[u8; 56], rest: &[u8; 40]) -> [u8; 96]
    ensures { result ≡ head.now ++ rest.now }
{
    let mut bytes = [0; 96];
    bytes[..56].copy_from_slice(head);
    bytes[56..].copy_from_slice(rest);
    bytes
}

/// What the message of a memory intercept begins with.
fn memory_head(note: MemNote) -> [u8; 56]
    ensures { result ≡ laid_out (fields_of_head (memory_head_of note)) }
{
    head_bytes(Head {
        kind: MEMORY,
        vp: u32::from(note.vp.0),
        access: access_byte(note.access),
        cs: note.cs,
        rip: note.rip,
        rflags: note.rflags,
    })
}

/// What the message of a register intercept begins with.
fn register_head(note: RegNote) -> [u8; 56]
    ensures { result ≡ laid_out (fields_of_head (register_head_of note)) }
{
    head_bytes(Head {
        kind: REGISTER,
        vp: u32::from(note.vp.0),
        access: u8::from(note.write),
        cs: note.cs,
        rip: note.rip,
        rflags: note.rflags,
    })
}

/// The 96 bytes of this note's message, the lowest byte of each field first: a header of 16 bytes (TLFS, HV_MESSAGE,
/// HV_MESSAGE_HEADER) and a payload of 80. Every note has a message, whatever its numbers are.
///
/// | At | Bytes | What |
/// |---|---|---|
/// | 0 | 4 | the type: 0x80000001 of a memory intercept, 0x80010006 of a register intercept |
/// | 4 | 1 | the payload's size, 80 |
/// | 5 | 1 | the flags, zero: MessagePending, bit 0, is set by whoever lays a message into its slot |
/// | 8 | 8 | the sender, zero |
/// | 16 | 4 | the processor |
/// | 20 | 1 | the instruction's length and Cr8, zero |
/// | 21 | 1 | the access: 0 a read, 1 a write, 2 an execution |
/// | 22 | 2 | the execution state, zero |
/// | 24 | 16 | Cs |
/// | 40 | 8 | Rip |
/// | 48 | 8 | Rflags |
///
/// A memory intercept (TLFS, HV_X64_MEMORY_INTERCEPT_MESSAGE) goes on with:
///
/// | At | Bytes | What |
/// |---|---|---|
/// | 56 | 4 | the cache type, zero |
/// | 60 | 1 | the byte count, zero |
/// | 61 | 1 | the access info: 1 where there is a guest virtual address, else 0 |
/// | 64 | 8 | the guest virtual address, zero where there is none |
/// | 72 | 8 | the guest physical address |
/// | 80 | 16 | the instruction's bytes, zero |
///
/// A register intercept, whose payload is this project's own from end to end, goes on with:
///
/// | At | Bytes | What |
/// |---|---|---|
/// | 56 | 4 | the register's number |
/// | 64 | 16 | the value that was to be written, zero of a read |
///
/// Bytes that no line names are zero. The order of the header's fields and which fields are zero are this project's own.
#[tactic(auto, unfolding(vsm_core::specs::Messages::message))]
pub fn encode(note: &Note) -> [u8; 96]
    ensures bytes { result ≡ message note.now }
{
    match *note {
        Note::Memory(note) => joined(&memory_head(note), &memory_rest(note)),
        Note::Register(note) => joined(&register_head(note), &register_rest(note)),
    }
}

// What the messages of both intercepts begin with.
ghost use Rattle.std.specs.Prelude.{◌≡◌, ◌++◌};
ghost use Rattle.vsm_core.specs.Messages.{laid_out, access_number};
ghost use Rattle.intercept_msg.specs.Layout.{header_fields, place_fields, fields_of_head};

use byteorder::{ByteOrder, LittleEndian};
use vsm_base::Access;

/// The type of a memory intercept's message (TLFS, HV_MESSAGE_TYPE).
pub const MEMORY: u32 = 0x8000_0001;

/// The type of a register intercept's message (TLFS, HV_MESSAGE_TYPE).
pub const REGISTER: u32 = 0x8001_0006;

/// How many bytes the payload of either message has.
const PAYLOAD_SIZE: u32 = 80;

/// The fields of the header and of a payload's first part that are not the same in all messages.
#[derive(Clone, Copy)]
pub struct Head {
    /// The message's type.
    pub kind: u32,
    /// The processor.
    pub vp: u32,
    /// The access, as it is spelled in a message.
    pub access: u8,
    pub cs: u128,
    pub rip: u64,
    pub rflags: u64,
}

/// How an access is spelled.
pub fn access_byte(access: Access) -> u8
    ensures { result ≡ access_number access }
{
    match access {
        Access::Read => 0,
        Access::Write => 1,
        Access::Execute => 2,
    }
}

/// The header of a message of this type, whose size is followed by zeros alone.
fn header(kind: u32) -> [u8; 16]
    ensures { result ≡ laid_out (header_fields kind) }
{
    let mut bytes = [0; 16];
    LittleEndian::write_u32(&mut bytes, kind);
    LittleEndian::write_u32(&mut bytes[4..], PAYLOAD_SIZE);
    bytes
}

/// The first part of a payload, which tells what was intercepted where.
fn place(head: Head) -> [u8; 40]
    ensures { result ≡ laid_out (place_fields head) }
{
    let mut bytes = [0; 40];
    LittleEndian::write_u32(&mut bytes, head.vp);
    bytes[5] = head.access;
    LittleEndian::write_u128(&mut bytes[8..], head.cs);
    LittleEndian::write_u64(&mut bytes[24..], head.rip);
    LittleEndian::write_u64(&mut bytes[32..], head.rflags);
    bytes
}

/// What a message begins with.
pub fn head_bytes(head: Head) -> [u8; 56]
    ensures { result ≡ laid_out (fields_of_head head) }
{
    let mut bytes = [0; 56];
    bytes[..16].copy_from_slice(&header(head.kind));
    bytes[16..].copy_from_slice(&place(head));
    bytes
}

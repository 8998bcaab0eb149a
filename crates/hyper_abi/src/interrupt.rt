// The call that requests an interrupt of processors.
ghost use Rattle.std.specs.Prelude.{◌≡◌, ◌^◌, ◌<◌, ◌≤◌, None};
ghost use Rattle.vsm_core.specs.Calls.{first_failed};
ghost use Rattle.vsm_core.specs.Interrupts.{vector_in, processors_in, interrupted_level, interrupt_checks};

use crate::header::{is_above, is_byte_word, level_meant};
use vsm_base::{HvStatus, Vtl};

/// The interrupt that a call requests (TLFS, HvCallSendSyntheticClusterIpi).
#[derive(Clone, Copy, Debug, PartialEq, Eq)]
pub struct Interrupt {
    /// The level whose interrupt it is.
    pub level: Vtl,
    /// From 0x10 to 0xFF.
    pub vector: u8,
    /// A bit for each processor, that of processor 0 in bit 0.
    pub processors: u8,
}

/// Why a call of a caller of this level that requests an interrupt is refused for its header, if it is, where there are
/// `vps` processors: the vector stands in bits 31:0 of its first word, with the input VTL byte behind it, and its second
/// word has a bit for each processor (TLFS, HvCallSendSyntheticClusterIpi).
///
/// The first of these that holds, in this project's own order: `HvStatus::INVALID_PARAMETER` where the level's byte names
/// another level than 0 and 1 or a bit is set above bit 4 or behind the byte, `HvStatus::ACCESS_DENIED` where the level is
/// above the caller's, and `HvStatus::INVALID_PARAMETER` where the vector isn't from 0x10 to 0xFF or the bit of a processor
/// is set that there isn't. `None` exactly where none does.
pub fn interrupt_refusal(vps: u8, caller: Vtl, header: &[u64; 2]) -> Option<HvStatus>
    requires { vps ≤ 8 }
    ensures result { result ≡ first_failed (interrupt_checks vps caller header.now) }
    ensures vector_behind { result ≡ None → 0x10 ≤ vector_in header.now }
    ensures vector_within { result ≡ None → vector_in header.now ≤ 0xFF }
    ensures processors { result ≡ None → processors_in header.now < 2 ^ vps }
{
    let vector = header[0] % (1 << 32);
    if !is_byte_word(header[0]) {
        return Some(HvStatus::INVALID_PARAMETER);
    }
    if is_above(level_meant(caller, header[0]), caller) {
        return Some(HvStatus::ACCESS_DENIED);
    }
    if vector < 0x10 || vector > 0xFF || header[1] >> vps != 0 {
        return Some(HvStatus::INVALID_PARAMETER);
    }
    None
}

/// The interrupt that a call of a caller of this level requests by a header that nothing refuses: its vector is from 0x10
/// to 0xFF, and no bit is set but those of the first eight processors.
pub fn interrupt_of(caller: Vtl, header: &[u64; 2]) -> Interrupt
    requires vector { vector_in header.now ≤ 0xFF }
    requires processors { processors_in header.now < 2 ^ 8 }
    ensures level { result.level ≡ interrupted_level caller header.now }
    ensures vector { result.vector ≡ vector_in header.now }
    ensures processors { result.processors ≡ processors_in header.now }
{
    Interrupt {
        level: level_meant(caller, header[0]),
        vector: (header[0] % (1 << 32)) as u8,
        processors: header[1] as u8,
    }
}

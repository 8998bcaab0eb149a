// The header of the calls for a processor.
ghost use Rattle.std.specs.Prelude.{◌≡◌, ◌<◌, length};
ghost use Rattle.vsm_core.specs.Calls.{first_failed};
ghost use Rattle.vsm_core.specs.Partition.{is_other_partition, index_of, byte_in, target_of, padding_in, padding_of, named};
ghost use Rattle.vsm_core.specs.RegisterCalls.{register_checks};
ghost use Rattle.vsm_core.specs.Targets.{names_level, is_byte_word, is_byte_form, level_of, level_meant, target_level, is_above};

use vsm_base::{HvStatus, VpIndex, Vtl};

/// The number by which a caller names its own partition (TLFS, HV_PARTITION_ID_SELF).
const OWN_PARTITION: u64 = u64::MAX;

/// The index by which a caller names its own processor (TLFS, HV_VP_INDEX_SELF).
const OWN_INDEX: u32 = 0xFFFF_FFFE;

/// Whether a call's first word names another partition than the caller's own. The call must have two words at least.
pub fn is_other_partition(words: &[u64]) -> bool
    requires { 1 < length words.now }
    ensures { result ≡ is_other_partition words.now }
{
    words[0] != OWN_PARTITION
}

/// The index by which a call for a processor names it: bits 31:0 of its second word. The call must have two words at least.
pub fn index_of(words: &[u64]) -> u32
    requires { 1 < length words.now }
    ensures { result ≡ index_of words.now }
{
    (words[1] % (1 << 32)) as u32
}

/// The byte by which a word names a level: its bits 39:32 (TLFS, HV_INPUT_VTL).
fn byte_in(word: u64) -> u64
    ensures { result ≡ byte_in word }
{
    word / (1 << 32) % (1 << 8)
}

/// What a word has behind that byte: its bits 63:40.
fn padding_in(word: u64) -> u64
    ensures { result ≡ padding_in word }
{
    word / (1 << 40)
}

/// The byte by which a call for a processor names a level: bits 39:32 of its second word (TLFS, HV_INPUT_VTL). The call
/// must have two words at least.
pub fn target_of(words: &[u64]) -> u64
    requires { 1 < length words.now }
    ensures { result ≡ target_of words.now }
{
    byte_in(words[1])
}

/// What a call for a processor has behind that byte: bits 63:40 of its second word. The call must have two words at least.
pub fn padding_of(words: &[u64]) -> u64
    requires { 1 < length words.now }
    ensures { result ≡ padding_of words.now }
{
    padding_in(words[1])
}

/// The number of the processor that an index names, where there is such a processor: 0xFFFF_FFFE names the caller.
pub fn named(by: VpIndex, index: u32) -> u32
    ensures { result ≡ named by.0 index }
{
    if index == OWN_INDEX {
        u32::from(by.0)
    } else {
        index
    }
}

/// Whether bit 4 says that bits 3:0 name a level.
fn names_level(byte: u64) -> bool
    ensures { result ≡ names_level byte }
{
    byte / (1 << 4) % 2 == 1
}

/// Whether the input VTL byte of a word that has one names no level but 0 and 1, and no bit is set above bit 4 or behind
/// the byte (TLFS, HV_INPUT_VTL).
pub fn is_byte_word(word: u64) -> bool
    ensures { result ≡ is_byte_word word }
{
    let byte = byte_in(word);
    let names_no_other = !names_level(byte) || byte % (1 << 4) < 2;
    byte / (1 << 5) == 0 && names_no_other && padding_in(word) == 0
}

/// Whether the second word of a call, which has its input VTL byte, is such a word (TLFS, HV_INPUT_VTL).
pub fn is_byte_form(words: &[u64; 2]) -> bool
    ensures { result ≡ is_byte_form words.now }
{
    is_byte_word(words[1])
}

fn level_of(number: u64) -> Vtl
    ensures { result ≡ level_of number }
{
    if number == 1 { Vtl::One } else { Vtl::Zero }
}

pub(crate) fn is_above(level: Vtl, other: Vtl) -> bool
    ensures { result ≡ is_above level other }
{
    level == Vtl::One && other == Vtl::Zero
}

/// The level that a caller of this level means by a word that has an input VTL byte: the one that it names, else the
/// caller's own (TLFS, HV_INPUT_VTL).
pub fn level_meant(caller: Vtl, word: u64) -> Vtl
    ensures { result ≡ level_meant caller word }
{
    let byte = byte_in(word);
    if names_level(byte) {
        level_of(byte % (1 << 4))
    } else {
        caller
    }
}

/// The level that a call of a caller of this level means, by its header, whose second word has the input VTL byte.
pub fn target_level(caller: Vtl, header: &[u64; 2]) -> Vtl
    ensures { result ≡ target_level caller header.now }
{
    level_meant(caller, header[1])
}

/// Why a call that gets or sets registers is refused for its header, if it is: a caller of this level may name its own
/// partition and its own processor alone, and no level above its own.
///
/// The first of these that holds, in this project's own order: `HvStatus::INVALID_PARTITION_ID` where another partition is
/// named, `HvStatus::INVALID_VP_INDEX` where the processor isn't below `vps`, `HvStatus::INVALID_VP_STATE` where it isn't
/// the caller, `HvStatus::INVALID_PARAMETER` where the level's byte names another level than 0 and 1 or a bit is set above
/// bit 4 or behind the byte, and `HvStatus::ACCESS_DENIED` where the level is above the caller's. `None` exactly where none
/// does.
pub fn register_refusal(vps: u8, by: VpIndex, caller: Vtl, header: &[u64; 2]) -> Option<HvStatus>
    ensures { result ≡ first_failed (register_checks vps by.0 caller header.now) }
{
    let vp = named(by, index_of(header));
    if is_other_partition(header) {
        return Some(HvStatus::INVALID_PARTITION_ID);
    }
    if vp >= u32::from(vps) {
        return Some(HvStatus::INVALID_VP_INDEX);
    }
    if vp != u32::from(by.0) {
        return Some(HvStatus::INVALID_VP_STATE);
    }
    if !is_byte_form(header) {
        return Some(HvStatus::INVALID_PARAMETER);
    }
    if is_above(target_level(caller, header), caller) {
        return Some(HvStatus::ACCESS_DENIED);
    }
    None
}

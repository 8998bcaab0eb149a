// The message slot, by its first word.
ghost use Rattle.std.specs.Prelude.{◌≡◌};
ghost use Rattle.vsm_core.specs.Controllers.{is_open as is_open_lem};
ghost use Rattle.vsm_core.specs.Messages.{with_pending as with_pending_lem};

/// Whether a message can be put into the slot. `slot` is the slot's first word, and `None` where its page is off. The slot
/// is free where the type of the message in it, the low 32 bits of that word, is zero, whatever its other bits are (TLFS,
/// Message Slots, and HV_MESSAGE_TYPE).
pub fn is_open(slot: Option<u64>) -> bool
    ensures { result ≡ is_open_lem slot }
{
    matches!(slot, Some(word) if word % (1 << 32) == 0)
}

/// A slot's first word with bit 40 (MessagePending) set: more messages wait for the slot (TLFS, HV_MESSAGE_FLAGS, which is
/// byte 5 of a message). All other bits stay.
pub fn with_pending(word: u64) -> u64
    ensures { result ≡ with_pending_lem word }
{
    word | 1 << 40
}

// Atomic steps on the shared words.
use vsm_base::{Mask, Page, VpIndex, Vtl};

/// A word of a processor to which bits are posted and from which it takes them.
#[derive(Clone, Copy, Debug, PartialEq, Eq)]
pub enum PendingWord {
    /// Bit 0 says that the processor is started.
    Start,
    /// Bit b is the vector 64 * `part` + b of this level; `part` is 0 to 3.
    Vectors { level: Vtl, part: u8 },
}

/// One atomic step: one load, swap, fetch_add or fetch_or of one shared word, with what it found or wrote.
#[derive(Clone, Copy, Debug, PartialEq, Eq)]
pub enum Event {
    /// The processor's busy word became 1.
    Enter,
    /// The generation was loaded.
    Check {
        generation: u64,
    },
    /// A page's mask was loaded.
    Mask {
        page: Page,
        mask: Mask,
    },
    /// A memory word was loaded.
    Read {
        index: u16,
        page: Page,
        value: u64,
    },
    /// A memory word was written.
    Write {
        index: u16,
        page: Page,
        value: u64,
    },
    /// The processor's busy word became 0.
    Leave,
    /// A page's mask was written.
    Ask {
        page: Page,
        mask: Mask,
    },
    /// The generation became this.
    Turn {
        round: u64,
    },
    /// A processor's busy word was loaded.
    Clear {
        vp: VpIndex,
        busy: bool,
    },
    /// Bits were posted.
    Post {
        vp: VpIndex,
        word: PendingWord,
        bits: u64,
    },
    /// Bits were taken.
    Take {
        word: PendingWord,
        bits: u64,
    },
    /// A seat was given out when there were so many turns.
    Split {
        told: u64,
    },
    /// A seat was gathered.
    Join,
}

/// Where a processor is in an access: between two, with its busy word set, or with a generation checked.
#[derive(Clone, Copy, Debug, PartialEq, Eq)]
pub enum Phase {
    Idle,
    Entered,
    In { generation: u64 },
}

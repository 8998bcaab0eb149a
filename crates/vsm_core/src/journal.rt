// The partition's journal.
use vsm_base::{HvStatus, Mask, Page, VpIndex, Vtl};

/// An entry of the partition's journal; `by` made the request. The journal is this project's own.
#[derive(Clone, Copy, Debug, PartialEq, Eq)]
pub enum Entry {
    /// Level 1 was enabled for the partition.
    Enable {
        by: VpIndex,
    },
    /// Level 1 was enabled on a processor.
    Level {
        by: VpIndex,
        vp: VpIndex,
    },
    /// The partition's configuration was written.
    Config {
        by: VpIndex,
        value: u64,
    },
    /// A processor's start was accepted.
    Start {
        by: VpIndex,
        vp: VpIndex,
        level: Vtl,
    },
    /// A processor fetched its contexts.
    Fetch {
        vp: VpIndex,
    },
    /// A register of the partition was read.
    Look {
        by: VpIndex,
    },
    /// A request was refused.
    Refuse {
        by: VpIndex,
        status: HvStatus,
    },
    /// A page's mask was asked for.
    Ask {
        page: Page,
        mask: Mask,
    },
    /// The generation became `round`.
    Turn {
        round: u64,
        by: VpIndex,
    },
    /// A processor was found outside every access that began before the turn.
    Clear {
        vp: VpIndex,
    },
    /// The round was reported.
    Report {
        round: u64,
    },
}

// What the partition knows between two requests.
use vsm_base::{Items, Vtl};

/// A start that was accepted: the level at which the processor starts, and the words of that level's context.
#[derive(Clone, Copy, Debug, PartialEq, Eq)]
pub struct Accepted {
    pub level: Vtl,
    pub context: [u64; 28],
}

/// What the partition knows of one processor.
#[derive(Clone, Copy, Debug, PartialEq, Eq)]
pub struct Standing {
    /// Whether level 1 was enabled on it.
    pub one: bool,
    /// Whether it is started.
    pub started: bool,
    /// The start that waits for it to fetch its contexts.
    pub start: Option<Accepted>,
    /// The words of level 1's context that wait for its start.
    pub waiting: Option<[u64; 28]>,
}

/// The partition between two requests: how many pages it has, whether level 1 is enabled for it (TLFS,
/// HvCallEnablePartitionVtl), the bits of its configuration (TLFS, HV_REGISTER_VSM_PARTITION_CONFIG), how many rounds were
/// made, and its processors in the order of their numbers.
#[derive(Debug, Drop)]
pub struct PartitionState {
    pub pages: u32,
    pub enabled: bool,
    pub config: u64,
    pub rounds: u64,
    pub vps: Items<Standing>,
}

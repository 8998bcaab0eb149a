// What the seats of the shared words know. Contracts alone see these types. Lists stand newest first.
use crate::{Event, Served};
use std::collections::LinkedList;
use vsm_base::{Mask, Page, VpIndex};

/// A step of the partition's seat on masks, generation and busy words.
#[derive(Clone, Copy, Debug, PartialEq, Eq)]
pub enum Turning {
    Ask { page: Page, mask: Mask },
    Turn,
    Clear { vp: VpIndex },
}

/// What was served, and how many turns there were when the seat was given back with it.
pub struct Told {
    pub entry: Served,
    pub told: u64,
}

/// What a processor's seat knows. Its phase and the masks that it loaded are those that its events give.
pub struct ProcessorView {
    /// How many turns there were when the seat was given out.
    pub told: u64,
    pub served: LinkedList<Told>,
    pub past: LinkedList<Event>,
}

/// What the partition's seat knows.
pub struct PartitionView {
    /// How many processors there may be.
    pub vps: u64,
    pub past: LinkedList<Turning>,
    /// The processors whose start words it has set.
    pub posts: LinkedList<VpIndex>,
    pub served: LinkedList<Told>,
    /// For each processor made, what was gathered, or none while its seat is out.
    pub kept: LinkedList<Option<ProcessorView>>,
}

/// What a seat knows.
pub enum View {
    Partition(PartitionView),
    Processor(VpIndex, ProcessorView),
    Spent,
}

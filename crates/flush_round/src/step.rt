// What a step of a round did.
use vsm_base::{Mask, Page, VpIndex};

/// What one step of a round did. The steps of a round, and their order, are this project's own.
#[derive(Clone, Copy, Debug, PartialEq, Eq)]
pub enum RoundStep {
    /// This mask was asked for this page.
    Asked(Page, Mask),
    /// The generation was turned, and is this now: the number of the round.
    Turned(u64),
    /// This processor was found outside every access that began before the turn.
    Cleared(VpIndex),
    /// This processor is to be cleared, and was found in an access. The round is as it was.
    Busy(VpIndex),
    /// Every processor was cleared since the turn that made this round. The round is over.
    Done(u64),
}

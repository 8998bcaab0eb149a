// What a turn of the partition answers.
use vsm_base::VpIndex;
use vsm_core::Reply;

/// What a turn of the partition did. That it adds one entry to the journal, and when it waits, is this project's own.
#[derive(Clone, Copy, Debug, PartialEq, Eq)]
pub enum PartTurn {
    /// It added the next entry of the request, and more are to come.
    Moved,
    /// It added nothing: this processor was to be cleared, and was found in an access.
    Busy(VpIndex),
    /// It added the last entry of the request, and this is the reply.
    Done(Reply),
}

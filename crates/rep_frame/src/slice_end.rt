// What a slice comes to.
ghost use Rattle.std.specs.Prelude.{◌≡◌, ◌-◌, ◌≤◌};
ghost use Rattle.vsm_core.specs.Reps.{rep_end};
ghost use Rattle.rep_frame.specs.Frames.{advanced, past_of};
ghost use Rattle.rep_frame.specs.Ends.{end_from};

use crate::frame::RepFrame;
use vsm_base::HvStatus;

/// What a slice of a rep call's elements comes to, with how many elements of the call are done, counted from its first and
/// below 4096 (TLFS, Hypercall Interface, Rep Hypercalls).
#[derive(Clone, Copy, Debug, PartialEq, Eq)]
pub enum SliceEnd {
    /// The element of this index is refused with this status, and all before it are done.
    Refused(HvStatus, u16),
    /// The call goes on at the element of this index.
    GoesOn(u16),
    /// All elements are done, so many.
    Complete(u16),
}

/// How many elements of a slice acted, and what refuses the next, if something does.
#[derive(Clone, Copy, Debug, PartialEq, Eq)]
pub struct Acted {
    pub done: u16,
    pub refusal: Option<HvStatus>,
}

/// Counts the elements that acted, and tells what the slice comes to.
pub fn settle(frame: &mut RepFrame, acted: Acted) -> SliceEnd
    requires { acted.done ≤ past_of frame.old - frame.old.next }
    ensures frame { frame.new ≡ advanced frame.old acted.done }
    ensures end { end_from result ≡ rep_end frame.old.next frame.old.count acted.done acted.refusal }
{
    let goes_on = frame.advance(acted.done);
    let (next, _) = frame.slice();
    match acted.refusal {
        Some(status) => SliceEnd::Refused(status, next),
        None if goes_on => SliceEnd::GoesOn(next),
        None => SliceEnd::Complete(next),
    }
}

// How far a rep call has come.
ghost use Rattle.std.specs.Prelude.{◌≡◌, ◌↔◌, ◌+◌, ◌-◌, ◌<◌, ◌≤◌, nat_lt, IsErr, IfOk, IfErr};
ghost use Rattle.vsm_core.specs.Reps.{slice_past};
ghost use Rattle.rep_frame.specs.Frames.{frame_of, advanced};

use hyper_abi::{Control, ResultValue};
use std::marker::Model;
use vsm_base::HvStatus;

/// How many elements one attempt takes at most. This project's own.
const SLICE: u16 = 8;

/// How far a rep call has come (TLFS, Hypercall Interface, Rep Hypercalls): how many elements it has, and the first that
/// isn't done, both counted over the whole call and not from where an attempt began. Contracts see these two.
#[derive(Clone, Copy, Debug, PartialEq, Eq)]
pub struct RepFrame {
    count: u16,
    next: u16,
}

impl Model for RepFrame {
    ghost use Rattle.std.specs.Prelude.{◌≤◌, ◌<◌};
    ghost use Rattle.rep_frame.specs.Frames.{Frame};

    ghost Value = { Frame };

    ghost view = { λ f. record { count = f.count; next = f.next } };

    ghost inverse = { λ v. record { count = v.count; next = v.next } };

    ghost invariant = { λ f. (f.next ≤ f.count) × (f.count < 4096) };
}

impl RepFrame {
    /// A call of `count` elements, below 4096, of which those below `next` are done, `next` at most the count.
    pub fn new(count: u16, next: u16) -> RepFrame
        requires next { next ≤ count }
        requires count { count < 4096 }
        ensures { result ≡ frame_of count next }
    {
        RepFrame { count, next }
    }

    /// A call that goes on where its input value says. Its count must be below 4096, as in an input value.
    ///
    /// # Errors
    /// `HvStatus::INVALID_HYPERCALL_INPUT` exactly where the count is 0 or the start isn't below it (TLFS, Hypercall
    /// Inputs).
    pub fn start(control: Control) -> Result<RepFrame, HvStatus>
        requires { control.count < 4096 }
        ensures exact { IsErr result ↔ (control.count ≤ control.start) }
        ensures ok { IfOk result (λ frame. frame ≡ frame_of control.count control.start) }
        ensures err { IfErr result (λ status. status ≡ HvStatus.INVALID_HYPERCALL_INPUT) }
    {
        if control.count == 0 || control.start >= control.count {
            return Err(HvStatus::INVALID_HYPERCALL_INPUT);
        }
        Ok(RepFrame::new(control.count, control.start))
    }

    /// How many elements the call has.
    pub fn count(&self) -> u16
        ensures count { result ≡ self.now.count }
        ensures few { result < 4096 }
    {
        self.count
    }

    /// The elements that the next attempt takes: the first, and the one behind the last. There are at most eight, this
    /// project's own number.
    pub fn slice(&self) -> (u16, u16)
        ensures first { result.0 ≡ self.now.next }
        ensures past { result.1 ≡ slice_past self.now.next self.now.count }
        ensures ordered { result.0 ≤ result.1 }
        ensures few { result.1 ≤ result.0 + 8 }
        ensures within { result.1 ≤ self.now.count }
        ensures count { self.now.count < 4096 }
    {
        let past = self.count.min(self.next + SLICE);
        (self.next, past)
    }

    /// So many elements of the slice are done. Tells whether elements are left in the call.
    pub fn advance(&mut self, done: u16) -> bool
        requires { done ≤ slice_past self.old.next self.old.count - self.old.next }
        ensures done { self.new ≡ advanced self.old done }
        ensures left { result ≡ nat_lt self.new.next self.new.count }
    {
        self.next += done;
        self.next < self.count
    }

    /// What the call answers with this status: the elements that are done are counted from the call's first (TLFS, Hypercall
    /// Outputs).
    pub fn finish(&self, status: HvStatus) -> ResultValue
        ensures status { result.status ≡ status }
        ensures done { result.done ≡ self.now.next }
        ensures few { result.done < 4096 }
    {
        ResultValue {
            status,
            done: self.next,
        }
    }
}

// Why a processor runs no more.
ghost use Rattle.std.specs.Prelude.{◌≡◌, ◌≢◌, true, None, if◌then◌else◌};
ghost use Rattle.cpu.specs.Marks.{GoesOn, ending_on};
ghost use Rattle.vsm_core.specs.Processor.{ran_out, spin_limit, spun_out, or_else, stopped_by};

use vsm_core::{Ending, Posted, What};

/// How many reads of spins may find another value.
pub const SPIN_LIMIT: u32 = 20_000_000;

/// How far a processor has come: the length of the program where it stands, the place in it, the budget, how many marks
/// count for that, and how many reads of spins have found another value.
#[derive(Clone, Copy)]
pub struct Course {
    pub length: usize,
    pub rip: u64,
    pub budget: u32,
    pub marks: usize,
    pub spins: u32,
}

impl Course {
    fn ran_out(&self) -> Option<Ending>
        ensures is { result ≡ ran_out self.now.length self.now.budget self.now.rip self.now.marks }
        ensures goes { result ≡ None → GoesOn self.now }
    {
        if self.rip >= self.length as u64 {
            Some(Ending::Done)
        } else if self.marks >= self.budget as usize {
            Some(Ending::Budget)
        } else {
            None
        }
    }

    /// The ending before the first attempt: none of a processor that has not started.
    pub fn at_opening(&self, started: bool) -> Option<Ending>
        ensures is { result ≡ (if started then ran_out self.now.length self.now.budget self.now.rip self.now.marks else
            None) }
        ensures goes { started ≡ true → result ≡ None → GoesOn self.now }
    {
        if started { self.ran_out() } else { None }
    }

    #[tactic(auto, unfolding(vsm_core::specs::Processor::spin_limit))]
    fn spun_out(&self) -> Option<Ending>
        ensures is { result ≡ spun_out self.now.spins }
        ensures goes { result ≡ None → self.now.spins ≢ spin_limit }
    {
        if self.spins == SPIN_LIMIT {
            Some(Ending::Spun)
        } else {
            None
        }
    }

    /// The ending after an attempt that is none by itself.
    pub fn going_on(&self) -> Option<Ending>
        ensures is { result ≡ ending_on self.now }
        ensures spins { result ≡ None → self.now.spins ≢ spin_limit }
        ensures goes { result ≡ None → GoesOn self.now }
    {
        self.ran_out().or(self.spun_out())
    }

    /// The ending that holds after an attempt came to this.
    pub fn after(&self, what: &What) -> Option<Ending>
        ensures is { result ≡ or_else (stopped_by what.now) (ending_on self.now) }
        ensures goes { result ≡ None → GoesOn self.now }
    {
        stopped_by(what).or(self.going_on())
    }
}

fn stopped_by(what: &What) -> Option<Ending>
    ensures { result ≡ stopped_by what.now }
{
    match what {
        What::Fault(fault) => Some(Ending::Fault(*fault)),
        What::Denied(denial) if denial.posted == Posted::Held => Some(Ending::Held),
        What::Hit(Posted::Held) => Some(Ending::Held),
        _ => None,
    }
}

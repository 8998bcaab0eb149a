// The marks and the events of a processor.
ghost use Rattle.std.specs.Prelude.{◌≡◌, ◌+◌, ◌-◌, ◌^◌, ◌<◌, ◌≤◌, None, Some, false, length};
ghost use Rattle.cpu.specs.Logs.{HasRoom, MayMark, stood, saw_in, mark_in, marked_in, again_in, spun_in};
ghost use Rattle.vsm_core.specs.Processor.{spin_limit};

use vsm_base::{Reserved, Vtl};
use vsm_core::{Ending, Event, Grant, Mark, What};

/// The marks and the events of a processor. The events of the attempt under way begin at `first`; those from `part` to
/// `first` are of a spin that found another value, whose mark is the last one as long as `again` holds. `ended` says
/// why the processor runs no more.
#[derive(Drop)]
pub struct Log {
    pub marks: Reserved<Mark>,
    pub seen: Reserved<Event>,
    pub part: usize,
    pub first: usize,
    pub again: bool,
    pub spins: u32,
    pub ended: Option<Ending>,
}

impl Log {
    /// Takes away the mark that doesn't stay.
    pub fn stand(&mut self)
        requires { HasRoom self.old }
        ensures log { self.new ≡ stood self.old }
        ensures has { HasRoom self.new }
    {
        if self.again {
            let marks = self.marks.as_slice().len();
            self.marks.truncate(marks.saturating_sub(1));
            self.again = false;
        }
    }

    /// Adds an event. At a check the events of the last spin go first.
    #[inline(always)]
    pub fn see(&mut self, event: Event)
        requires has { HasRoom self.old }
        requires going { self.old.ended ≡ None }
        requires few { length self.old.seen.0 < self.old.first + 38 }
        ensures log { self.new ≡ saw_in self.old event }
        ensures has { HasRoom self.new }
    {
        if let Event::Check { .. } = event {
            if self.part < self.first {
                self.seen.remove_range(self.part, self.first);
                self.first = self.part;
            }
        }
        self.seen.push(event);
    }

    /// Leaves a mark that stays, and the ending that then holds.
    #[inline(always)]
    pub fn mark(&mut self, level: Vtl, rip: u64, what: What, ended: Option<Ending>)
        requires may { MayMark self.old }
        requires room { ended ≡ None → length self.old.marks.0 + 1 < self.old.marks.1 }
        ensures log { self.new ≡ marked_in self.old (mark_in self.old level rip what) ended }
        ensures has { HasRoom self.new }
    {
        let seen = self.seen.as_slice().len();
        let mark = Mark {
            level,
            rip,
            what,
            first: self.part as u32,
            count: (seen - self.part) as u32,
        };
        self.marks.push(mark);
        self.part = seen;
        self.first = seen;
        self.ended = ended;
    }

    /// Leaves the mark of a spin that found another value.
    #[tactic(auto, unfolding(vsm_core::specs::Processor::spin_limit))]
    pub fn mark_again(&mut self, level: Vtl, rip: u64, grant: Grant)
        requires may { MayMark self.old }
        requires few { length self.old.seen.0 ≤ self.old.first + 13 }
        requires spins { self.old.spins + 1 < spin_limit }
        ensures log { self.new ≡ again_in self.old (mark_in self.old level rip (What.Again grant)) }
        ensures has { HasRoom self.new }
    {
        let seen = self.seen.as_slice().len();
        let mark = Mark {
            level,
            rip,
            what: What::Again(grant),
            first: self.part as u32,
            count: (seen - self.part) as u32,
        };
        self.marks.push(mark);
        self.first = seen;
        self.again = true;
        self.spins += 1;
    }

    /// Takes away the events of a spin that found another value once too often, and leaves the ending that then holds.
    #[tactic(auto, unfolding(vsm_core::specs::Processor::spin_limit))]
    pub fn end_spin(&mut self, ending: Ending)
        requires { MayMark self.old }
        ensures log { self.new ≡ spun_in self.old ending }
        ensures has { HasRoom self.new }
    {
        self.seen.truncate(self.part);
        self.first = self.part;
        self.spins += 1;
        self.ended = Some(ending);
    }
}

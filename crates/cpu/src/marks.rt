// The marks that an attempt leaves.
ghost use Rattle.std.specs.Prelude.{◌≡◌, ◌+◌, ◌<◌, ◌≤◌, None, Option, false, length};
ghost use Rattle.attempt.specs.Comings.{Comes};
ghost use Rattle.attempt.specs.Rests.{rest_of, DecidedIs, StageIs};
ghost use Rattle.attempt.specs.Results.{result_of};
ghost use Rattle.attempt.specs.Views.{origin_of};
ghost use Rattle.cpu.specs.Logs.{HasRoom, MayMark, again_in, mark_in, marked_in};
ghost use Rattle.cpu.specs.Marks.{IsMarked, course_at, ending_of};
ghost use Rattle.cpu.specs.Sound.{length_at};
ghost use Rattle.cpu.specs.Turns.{after_mark, asks_by, turn_of};
ghost use Rattle.vsm_core.specs.declared.request.Request.{Request};
ghost use Rattle.vsm_core.specs.Attempt.{attempt};
ghost use Rattle.vsm_core.specs.Processor.{spin_limit};
ghost use Rattle.vsm_core.specs.State.{rip_of};

use crate::cpu_turn::{Pace, after_mark};
use crate::endings::Course;
use crate::lengths::{Lengths, rip_of};
use crate::log::Log;
use attempt::{Under, VpState};
use vsm_base::Vtl;
use vsm_core::{Grant, What};

/// Where a processor is with so many marks that count and so many reads of spins in vain.
#[inline(always)]
pub fn course_at(state: &VpState, lengths: &Lengths, marks: usize, spins: u32) -> Course
    ensures { result ≡ course_at lengths.now state.now marks spins }
{
    Course {
        length: lengths.at(state.levels.active()),
        rip: rip_of(state),
        budget: state.limits.budget,
        marks,
        spins,
    }
}

/// The active level, and where its program stands.
#[inline(always)]
pub fn place_of(state: &VpState) -> (Vtl, u64)
    ensures { result ≡ (state.now.state.active, rip_of state.now.state) }
{
    (state.levels.active(), rip_of(state))
}

impl Log {
    /// Leaves the mark of an attempt that began at this level and place and came to this, in the state that it has led
    /// to.
    #[inline(always)]
    pub fn leave(
        &mut self,
        state: &VpState,
        lengths: &Lengths,
        from: (Vtl, u64),
        what: What,
    ) -> Pace
        requires may { MayMark self.old }
        requires budget { self.old.marks.1 ≡ state.now.limits.budget }
        ensures log { self.new ≡ marked_in self.old (mark_in self.old from.0 from.1 what)
            (ending_of lengths.now state.now what self.old) }
        ensures goes { self.new.ended ≡ None →
            rip_of state.now.state < length_at lengths.now state.now.state.active }
        ensures has { HasRoom self.new }
        ensures turn { (asked : Option Request) → turn_of result asked ≡ after_mark what self.new.ended }
        ensures quiet { asks_by result ≡ false }
    {
        let marks = self.marks.as_slice().len() + 1;
        let ended = course_at(state, lengths, marks, self.spins).after(&what);
        let pace = after_mark(&what, ended);
        self.mark(from.0, from.1, what, ended);
        pace
    }
}

/// Leaves the mark that stays, where an attempt has come to its end, and does to the state what the attempt does.
// Its locals are cleared at each call, so it isn't part of a step's function.
#[inline(never)]
pub fn leave_mark(state: &mut VpState, log: &mut Log, under: &Under, lengths: &Lengths) -> Pace
    requires room { 0 < state.old.room }
    requires is { DecidedIs (origin_of state.old) under.now under.now.decided }
    requires may { MayMark log.old }
    requires budget { log.old.marks.1 ≡ state.old.limits.budget }
    ensures state { Comes state.old state.new (result_of (origin_of state.old) under.now).what (result_of
        (origin_of state.old) under.now) }
    ensures log { IsMarked lengths.now state.old.state state.new (result_of
        (origin_of state.old) under.now).what log.old log.new }
    ensures has { HasRoom log.new }
    ensures turn { (asked : Option Request) → turn_of result asked
        ≡ after_mark (result_of (origin_of state.old) under.now).what log.new.ended }
    ensures quiet { asks_by result ≡ false }
{
    let from = place_of(state);
    let what = state.finish(under);
    log.leave(state, lengths, from, what)
}

/// Leaves the mark of a spin that found another value, and begins the attempt anew.
pub fn leave_again(state: &VpState, under: &mut Under, log: &mut Log, grant: Grant)
    requires vps { state.now.limits.vps ≤ 8 }
    requires may { MayMark log.old }
    requires few { length log.old.seen.0 ≤ log.old.first + 13 }
    requires spins { log.old.spins + 1 < spin_limit }
    ensures log { log.new ≡ again_in log.old (mark_in log.old state.now.state.active (rip_of state.now.state)
        (What.Again grant)) }
    ensures has { HasRoom log.new }
    ensures rest { rest_of (origin_of state.now) under.new ≡ attempt (origin_of state.now) under.old.op }
    ensures is { StageIs (origin_of state.now) under.new }
    ensures op { under.new.op ≡ under.old.op }
{
    let op = under.op;
    state.begin(under, op);
    log.mark_again(state.levels.active(), rip_of(state), grant);
}

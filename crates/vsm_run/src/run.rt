// The run of a script.
ghost use Rattle.std.specs.Prelude.{◌≡◌, ◌+◌, ◌*◌, ◌≤◌, IfOk, length, take, drop};
ghost use Rattle.guest_script.specs.Schedules.{all_turns, turns_of};
ghost use Rattle.guest_script.specs.Within.{IsWithin};
ghost use Rattle.vsm_core.specs.Blocks.{IsWhole};
ghost use Rattle.vsm_core.specs.Journal.{masks};
ghost use Rattle.vsm_core.specs.Partition.{opening_partition};
ghost use Rattle.vsm_core.specs.Protection.{owed};
ghost use Rattle.vsm_core.specs.Served.{AreServed, joined};
ghost use Rattle.vsm_core.specs.Words.{memory_at};
ghost use Rattle.vsm_report.specs.Acting.{report_with};
ghost use Rattle.vsm_report.specs.FlatRun.{flat, served};
ghost use Rattle.vsm_report.specs.Opening.{opening_masks, opening_words};
ghost use Rattle.vsm_report.specs.Schedule.{after_line, after_schedule, after_turns};
ghost use Rattle.vsm_report.specs.Trace.{stepped, stepped_opening, stepped_report, traced};
ghost use Rattle.vsm_run.specs.Fits.{Fits};
ghost use Rattle.vsm_run.specs.Rooms.{HasRooms};

use crate::acting::act_at;
use crate::leaving::{Rooms, left};
use crate::opening::{all_turns, opening_cpus, opening_masks, opening_words};
use cpu::Cpu;
use fabric::PlainFabric;
use guest_script::{Script, Turns};
use partition::Partition;
use std::alloc::Global;
use std::marker::Model;
use vsm_base::{Items, Limits, Memory, Reserved, VpIndex};
use vsm_core::Program;
use vsm_report::{Line, Report};

/// A run under way.
#[derive(Drop)]
struct Run {
    fabric: PlainFabric,
    partition: Partition,
    cpus: Vec<Cpu>,
    lines: Reserved<Line>,
}

impl Model for Run {
    ghost use Rattle.vsm_run.specs.Running.{Running};
    ghost use Rattle.vsm_run.specs.Held.{view_of, IsReady};

    ghost Value = { Running };

    ghost view = { view_of };

    ghost invariant = { IsReady };
}

impl Run {
    /// The processor of this number acts, if there is one and it has not ended.
    #[tactic(auto, unfolding(vsm_report::specs::Trace::stepped))]
    fn act(&mut self, programs: &[Program], vp: VpIndex)
        requires fits { Fits programs.now self.old.world.vps }
        requires room { length self.old.world.lines + owed self.old.world.partition.state + (self.old.limits.vps + 12) ≤ self.old.room }
        ensures acts { self.new.world ≡ stepped programs.now vp.0 self.old.world }
        ensures grows { length self.new.world.lines + owed self.new.world.partition.state ≤ length self.old.world.lines + owed self.old.world.partition.state + (self.old.limits.vps + 12) }
        ensures fits { Fits programs.now self.new.world.vps }
        ensures room { self.new.room ≡ self.old.room }
        ensures limits { self.new.limits ≡ self.old.limits }
    {
        let p = vp.0 as usize;
        let Some(cpu) = self.cpus.get_mut(p) else {
            return;
        };
        if cpu.ended().is_some() {
            return;
        }
        act_at(
            &mut self.fabric,
            &mut self.partition,
            cpu,
            &programs[p],
            &mut self.lines,
        );
    }

    /// The processor of this number acts so many times.
    fn turns(&mut self, programs: &[Program], vp: VpIndex, count: u32)
        requires fits { Fits programs.now self.old.world.vps }
        requires room { length self.old.world.lines + owed self.old.world.partition.state + (self.old.limits.vps + 12) * count ≤ self.old.room }
        ensures acts { self.new.world ≡ after_turns (stepped programs.now vp.0) count self.old.world }
        ensures grows { length self.new.world.lines + owed self.new.world.partition.state ≤ length self.old.world.lines + owed self.old.world.partition.state + (self.old.limits.vps + 12) * count }
        ensures fits { Fits programs.now self.new.world.vps }
        ensures room { self.new.room ≡ self.old.room }
        ensures limits { self.new.limits ≡ self.old.limits }
    {
        for _turn in 0..count {
            self.act(programs, vp);
        }
    }

    /// The entries of a schedule line.
    #[tactic(auto, unfolding(vsm_report::specs::Schedule::after_line))]
    fn line(&mut self, programs: &[Program], entries: &[Turns])
        requires fits { Fits programs.now self.old.world.vps }
        requires room { length self.old.world.lines + owed self.old.world.partition.state + (self.old.limits.vps + 12) * turns_of entries.now ≤ self.old.room }
        ensures acts { self.new.world ≡ after_line (stepped programs.now) self.old.world entries.now }
        ensures grows { length self.new.world.lines + owed self.new.world.partition.state ≤ length self.old.world.lines + owed self.old.world.partition.state + (self.old.limits.vps + 12) * turns_of entries.now }
        ensures fits { Fits programs.now self.new.world.vps }
        ensures room { self.new.room ≡ self.old.room }
        ensures limits { self.new.limits ≡ self.old.limits }
    {
        for turns in entries {
            self.turns(programs, turns.vp, turns.count);
        }
    }

    /// The lines of a schedule.
    #[tactic(auto, unfolding(vsm_report::specs::Schedule::after_schedule))]
    fn schedule(&mut self, programs: &[Program], lines: &[Items<Turns>])
        requires fits { Fits programs.now self.old.world.vps }
        requires room { length self.old.world.lines + owed self.old.world.partition.state + (self.old.limits.vps + 12) * all_turns lines.now ≤ self.old.room }
        ensures acts { self.new.world ≡ after_schedule (stepped programs.now) self.old.world lines.now }
        ensures fits { Fits programs.now self.new.world.vps }
        ensures limits { self.new.limits ≡ self.old.limits }
    {
        for entries in lines {
            self.line(programs, entries.as_slice());
        }
    }

    /// What the run has left.
    fn into_report(self, limits: &Limits, rooms: Rooms) -> Report
        requires limits { limits.now ≡ self.limits }
        requires empty { HasRooms rooms (length self.world.vps) self.limits }
        ensures { result ≡ report_with self.world self.world.partition.journal (take self.limits.pages self.world.words) (drop (memory_at self.limits) self.world.words) }
    {
        let Run {
            fabric,
            partition,
            cpus,
            lines,
        } = self;
        let journal = partition.into_journal().into_entries();
        left(limits, &fabric, cpus, lines, journal, rooms)
    }
}

// How many lines so many turns may leave.
fn lines_of(limits: &Limits, turns: usize) -> usize
    requires vps { limits.now.vps ≤ 8 }
    requires pages { limits.now.pages ≤ 256 }
    requires turns { turns ≤ 100000 }
    ensures { result ≡ (limits.now.vps + 12) * turns + limits.now.pages }
{
    let each = limits.vps as usize + 12;
    each * turns + limits.pages as usize
}

// A run before its first turn, with room for the lines of each turn: that of its mark, those of the entries of one request, and
// once one more for each page.
#[tactic(auto, unfolding(vsm_report::specs::Trace::stepped_opening, vsm_report::specs::Trace::opening_shared))]
fn opened(alloc: Global, script: &Script, words: &[u64]) -> Result<Run, Memory>
    requires within { IsWithin script.now }
    requires words { words.now ≡ opening_words script.now }
    requires all { length words.now ≡ 512 * script.now.limits.pages }
    ensures world { IfOk result (λ run. run.world ≡ stepped_opening script.now) }
    ensures room { IfOk result (λ run. length run.world.lines + owed run.world.partition.state + (script.now.limits.vps + 12) * all_turns script.now.schedule ≤ run.room) }
    ensures limits { IfOk result (λ run. run.limits ≡ script.now.limits) }
    ensures fits { IfOk result (λ run. Fits script.now.programs run.world.vps) }
{
    let masks = opening_masks(alloc, script)?;
    let fabric = PlainFabric::new(alloc, &script.limits, &masks, words)?;
    let partition = Partition::new(alloc, &script.limits, &masks, script.started)?;
    let cpus = opening_cpus(alloc, script)?;
    let turns = all_turns(script.schedule.as_slice());
    let room = lines_of(&script.limits, turns);
    let lines = Reserved::new(alloc, room)?;
    Ok(Run {
        fabric,
        partition,
        cpus,
        lines,
    })
}

/// The report of a script's run, which is the same whether each attempt, or start, is made at once or step by step on the
/// shared words. A processor that hasn't started does nothing at an entry of the schedule where its start word is 0, and
/// else starts; its program begins at its next entry, and without a start it ends `Unstarted`. What an attempt asks of the
/// partition is served at once, in the state that the requests before it leave, with the step of each entry that it adds.
/// The journal has the entries that these requests add, and is whole, and the masks are the opening masks with its asks
/// applied. All memory is taken before the first turn; the only error is want of it.
pub fn trace(alloc: Global, script: &Script) -> Result<Report, Memory>
    requires { IsWithin script.now }
    ensures at_once { IfOk result (λ report. report ≡ flat script.now) }
    ensures by_steps { IfOk result (λ report. report ≡ traced script.now) }
    ensures served { IfOk result (λ report. AreServed (opening_partition script.now.limits script.now.started) (served script.now)) }
    ensures journal { IfOk result (λ report. report.journal ≡ joined (served script.now)) }
    ensures whole { IfOk result (λ report. IsWhole script.now.limits.vps report.journal) }
    ensures masks { IfOk result (λ report. report.masks ≡ masks (opening_masks script.now) report.journal) }
{
    let words = opening_words(alloc, script)?;
    let mut run = opened(alloc, script, &words)?;
    let rooms = Rooms::new(alloc, &script.limits, words)?;
    run.schedule(script.programs.as_slice(), script.schedule.as_slice());
    Ok(run.into_report(&script.limits, rooms))
}

// A processor, its attempts and its turns.
ghost use Rattle.std.specs.Prelude.{◌≡◌, [], ◌+◌, ◌-◌, ◌<◌, ◌≤◌, ◌≢◌, true, false, None, Some, Option, IfSome, IfOk};
ghost use Rattle.std.specs.Prelude.{length, drop};
ghost use Rattle.std.specs.List.{All};
ghost use Rattle.vsm_core.specs.Processor.{opening, standing, operation_at, rest_of, start_rest, settled, new_marks};
ghost use Rattle.vsm_core.specs.Processor.{answered, IsShort, IsSameProcessor};
ghost use Rattle.vsm_core.specs.Protection.{IsSlice};
ghost use Rattle.vsm_core.specs.Tree.{by_reply};
ghost use Rattle.vsm_core.specs.declared.request.Request.{Request};
ghost use Rattle.cpu.specs.Ends.{SpinsInVain};
ghost use Rattle.cpu.specs.Turns.{HandsSlice, IsActing, IsGoing, IsWaiting, Keeps, VpServes, TurnsBy, AcceptsBy};
ghost use Rattle.cpu.specs.Turns.{OwesBy, Wakes, answer_at, asked_next, asks_by, phase_at, turn_of};

use crate::ask::ask;
use crate::begun::begun;
use crate::cpu_turn::{CpuTurn, Pace};
use crate::endings::Course;
use crate::lengths::{Lengths, rip_of};
use crate::log::Log;
use crate::marks::{course_at, leave_again, leave_mark, place_of};
use attempt::{Next, Under, VpState};
use fabric::Port;
use register_file::Bank;
use std::alloc::Global;
use std::marker::Model;
use vsm_base::{Items, Limits, Memory, Reserved, VpIndex};
use vsm_core::{Ending, Event, Grant, Heard, Mark, PendingWord, Program, Reply, Request, What};
use vtl_state::Levels;

/// A virtual processor: its registers, what its interrupt controllers hold, the operation that it is at, its marks and
/// its events. Contracts see all of these as the definition has them. The operations, and the steps of their attempts,
/// are this project's own.
#[derive(Drop)]
pub struct Cpu {
    state: VpState,
    lengths: Lengths,
    started: bool,
    under: Under,
    acting: bool,
    owes: bool,
    heard: Option<Heard>,
    log: Log,
}

impl Model for Cpu {
    ghost use Rattle.vsm_core.specs.Processor.{Vp};
    ghost use Rattle.cpu.specs.Sound.{view_of, IsSound};

    ghost Value = { Vp };

    ghost view = { view_of };

    ghost invariant = { IsSound };
}

impl Cpu {
    /// A processor before its first turn: level 0 is active, its program stands at its first operation, and all
    /// registers are as at an opening. It takes room for as many marks as the budget says, which is 1 to 10,000, for 64
    /// events each and for as many notes that wait; its turns take no memory. Its number is below the count of
    /// processors, of which there are at most eight.
    ///
    /// # Errors
    /// `Memory` where there is no memory for that room, and for no other cause.
    #[tactic(auto, unfolding(vsm_core::specs::State::opening_state, vsm_core::specs::Controllers::opening_controllers))]
    pub fn new(
        alloc: Global,
        vp: VpIndex,
        limits: &Limits,
        started: bool,
        program: &Program,
    ) -> Result<Cpu, Memory>
        requires vp { vp.0 < limits.now.vps }
        requires vps_few { limits.now.vps ≤ 8 }
        requires budget_some { 1 ≤ limits.now.budget }
        requires budget_few { limits.now.budget ≤ 10000 }
        ensures { IfOk result (λ cpu. cpu ≡ opening vp.0 limits.now started (length program.now.zero)
            (length program.now.one)) }
    {
        let budget = limits.budget as usize;
        let marks = Reserved::new(alloc, budget)?;
        let seen = Reserved::new(alloc, 64 * budget)?;
        let state = VpState::opening(alloc, vp, limits)?;
        let lengths = Lengths {
            zero: program.zero.len(),
            one: program.one.len(),
        };
        let course = Course {
            length: lengths.zero,
            rip: 0,
            budget: limits.budget,
            marks: 0,
            spins: 0,
        };
        let log = Log {
            marks,
            seen,
            part: 0,
            first: 0,
            again: false,
            spins: 0,
            ended: course.at_opening(started),
        };
        Ok(Cpu {
            state,
            lengths,
            started,
            under: Under::idle(),
            acting: false,
            owes: false,
            heard: None,
            log,
        })
    }

    /// Leaves the mark of a spin that found another value and begins anew, or ends.
    #[tactic(auto, unfolding(vsm_core::specs::Processor::spin_limit))]
    #[inline(never)]
    fn mark_again(&mut self, grant: Grant) -> Pace
        requires acting { IsActing self.old }
        requires spins { SpinsInVain self.old grant }
        ensures new { self.new ≡ settled (rest_of self.old self.old.op) self.old }
        ensures turn { (asked : Option Request) → turn_of result asked
            ≡ answer_at (rest_of self.old self.old.op) self.new.ended }
        ensures quiet { asks_by result ≡ false }
        ensures short { All IsShort (drop (length self.old.marks) self.new.marks) }
        ensures phase { phase_at self.new.seen self.new.first ≡ phase_at self.old.seen self.old.first }
        ensures same { IsSameProcessor self.old self.new }
        ensures kept { Keeps self.old self.new }
        ensures owes { self.new.owes ≡ false }
        ensures within { length self.new.marks ≤ self.old.limits.budget }
    {
        let marks = self.log.marks.as_slice().len();
        let course = course_at(&self.state, &self.lengths, marks, self.log.spins + 1);
        let ended = course.going_on();
        let Some(ending) = ended else {
            leave_again(&self.state, &mut self.under, &mut self.log, grant);
            return Pace::Again;
        };
        self.acting = false;
        self.log.end_spin(ending);
        Pace::Ended(ending)
    }

    /// Leaves the mark, if the attempt has come to its end.
    #[inline(always)]
    fn settle(&mut self) -> Pace
        requires acting { IsActing self.old }
        ensures new { self.new ≡ settled (rest_of self.old self.old.op) self.old }
        ensures turn { (asked : Option Request) → turn_of result asked
            ≡ answer_at (rest_of self.old self.old.op) self.new.ended }
        ensures quiet { asks_by result ≡ false }
        ensures short { All IsShort (drop (length self.old.marks) self.new.marks) }
        ensures phase { phase_at self.new.seen self.new.first ≡ phase_at self.old.seen self.old.first }
        ensures same { IsSameProcessor self.old self.new }
        ensures kept { Keeps self.old self.new }
        ensures owes { self.new.owes ≡ false }
        ensures within { length self.new.marks ≤ self.old.limits.budget }
    {
        let goes_on = self.state.goes_on(&self.under);
        if goes_on {
            return Pace::Moved;
        }
        if let Some(grant) = self.under.again() {
            return self.mark_again(grant);
        }
        let pace = leave_mark(&mut self.state, &mut self.log, &self.under, &self.lengths);
        self.acting = false;
        self.heard = None;
        pace
    }

    /// Makes the next step of a processor that has started, or the end of an attempt that has no step left.
    fn advance<P: Port>(&mut self, port: &mut P, program: &Program) -> Pace
        requires is { IsGoing self.old }
        requires zero { length program.now.zero ≡ self.old.zero_length }
        requires one { length program.now.one ≡ self.old.one_length }
        requires same { IfSome self.old.op (λ op. operation_at program.now self.old.state ≡ Some op) }
        requires serves { VpServes self.old (P.seat port.old) }
        ensures turned { TurnsBy (rest_of self.old (operation_at program.now self.old.state))
            (operation_at program.now self.old.state) self.old (P.seat port.old) self.new (P.seat port.new)
            (turn_of result (asked_next self.new)) }
        ensures serves { VpServes self.new (P.seat port.new) }
        ensures name { (P.seat port.new).name ≡ (P.seat port.old).name }
        ensures short { All IsShort (new_marks self.old self.new) }
        ensures same { IsSameProcessor self.old self.new }
        ensures kept { IfSome self.new.op (λ op. operation_at program.now self.new.state ≡ Some op) }
        ensures owes { self.new.owes ≡ asks_by result }
        ensures within { length self.new.marks ≤ self.old.limits.budget }
    {
        begun(&self.state, &mut self.under, self.acting, program);
        self.acting = true;
        self.log.stand();
        match self.state.next(&self.under) {
            Next::Want(_) => {
                self.owes = true;
                Pace::Wants
            }
            Next::End => self.settle(),
            Next::Ask(step) => {
                let (answer, event) = ask(port, step);
                self.log.see(event);
                self.state.resume(&mut self.under, answer);
                self.settle()
            }
        }
    }

    /// Takes from the start word of a processor that hasn't started, or asks for its contexts where it has taken a
    /// start. Where the word was 0 nothing changes.
    fn wake<P: Port>(&mut self, port: &mut P) -> Pace
        requires waits { self.old.started ≡ false }
        requires answered { self.old.owes ≡ false }
        requires serves { VpServes self.old (P.seat port.old) }
        ensures woken { Wakes self.old (P.seat port.old) self.new (P.seat port.new) (turn_of result
            (asked_next self.new)) }
        ensures serves { VpServes self.new (P.seat port.new) }
        ensures name { (P.seat port.new).name ≡ (P.seat port.old).name }
        ensures short { All IsShort (new_marks self.old self.new) }
        ensures same { IsSameProcessor self.old self.new }
        ensures idle { self.new.op ≡ None }
        ensures owes { self.new.owes ≡ asks_by result }
        ensures within { length self.new.marks ≤ self.old.limits.budget }
    {
        if self.log.first < self.log.seen.as_slice().len() {
            self.owes = true;
            return Pace::Wants;
        }
        let bits = port.take(PendingWord::Start);
        if bits == 0 {
            return Pace::Idle;
        }
        self.log.see(Event::Take {
            word: PendingWord::Start,
            bits,
        });
        Pace::Moved
    }

    /// Makes a turn (see `turn`) and answers what it came to. A request isn't told: `wanted` answers it. Where many
    /// turns are made one after the other this is what they should call.
    pub fn step<P: Port>(&mut self, port: &mut P, program: &Program) -> Pace
        requires going { self.old.ended ≡ None }
        requires answered { self.old.owes ≡ false }
        requires zero { length program.now.zero ≡ self.old.zero_length }
        requires one { length program.now.one ≡ self.old.one_length }
        requires same { IfSome self.old.op (λ op. operation_at program.now self.old.state ≡ Some op) }
        requires serves { VpServes self.old (P.seat port.old) }
        ensures turned { self.old.started ≡ true → TurnsBy (rest_of self.old (operation_at program.now self.old.state))
            (operation_at program.now self.old.state) self.old (P.seat port.old) self.new (P.seat port.new)
            (turn_of result (asked_next self.new)) }
        ensures woken { self.old.started ≡ false → Wakes self.old (P.seat port.old) self.new (P.seat port.new)
            (turn_of result (asked_next self.new)) }
        ensures serves { VpServes self.new (P.seat port.new) }
        ensures name { (P.seat port.new).name ≡ (P.seat port.old).name }
        ensures short { All IsShort (new_marks self.old self.new) }
        ensures same { IsSameProcessor self.old self.new }
        ensures kept { IfSome self.new.op (λ op. operation_at program.now self.new.state ≡ Some op) }
        ensures owes { self.new.owes ≡ asks_by result }
        ensures within { length self.new.marks ≤ self.old.limits.budget }
    {
        if self.started {
            self.advance(port, program)
        } else {
            self.wake(port)
        }
    }

    /// The request that a processor waits for the reply to.
    ///
    /// It needs a processor that waits for a reply.
    pub fn wanted(&self) -> Request
        requires { self.now.owes ≡ true }
        ensures request { asked_next self.now ≡ Some result }
        ensures slice { IsSlice result.call }
    {
        if !self.started {
            return self.state.fetch();
        }
        let Next::Want(asked) = self.state.next(&self.under) else {
            unreachable!()
        };
        self.state.request(&self.under, asked)
    }

    /// Makes at most one step at the processor's port. It takes no memory.
    ///
    /// A processor that has started makes the next step of its attempt, which is of the operation where the active
    /// level's program stands, and leaves a mark where the attempt has then come to its end. An attempt that has no
    /// step left makes none, nor does one that asks something of the partition: that request is what the turn answers,
    /// and the processor then needs the reply. A mark has at most 13 events, and at most 12 where the access was denied
    /// without level 1; where level 1 is told of it, at most 15 more. An end of message has at most 17, an intercepted
    /// register 18, a hypercall 38.
    ///
    /// A denied access of level 0 ends a processor without level 1. Else level 1 is told by one note, whose message
    /// goes to the message slot or waits, and is entered, before the access is left (TLFS, Virtual Secure Mode, Memory
    /// Access Protections; Synthetic Interrupt Controller). A poll takes the pending vectors of both levels and enters
    /// level 1 from level 0 where one is deliverable there. A call of level 1 and a return to level 0 are undefined
    /// where they aren't lawful (TLFS, VTL Call and VTL Return).
    ///
    /// The mark of a spin that found another value stands until the next turn, and its events until the check of the
    /// next attempt. Such a mark doesn't count for the budget. The 20,000,000th read of spins in vain ends the
    /// processor, and neither mark nor events of it stay.
    ///
    /// A processor that hasn't started takes from its start word. Where that was 0 nothing of the processor changes,
    /// and the event isn't kept. Else the next turn makes no step and asks the partition for its contexts, and the
    /// reply starts it (TLFS, HvCallStartVirtualProcessor; the start word and the request are this project's own).
    ///
    /// A hypercall is undefined above privilege level 0. What refuses its input value or the place of its input (see
    /// `hyper_abi::admit`) refuses it at once, and then RAX has the result and all other registers but Rip stay. Else
    /// the header is read from memory, unless it is fast; level 0 needs a page that it may read (TLFS, Hypercall
    /// Interface). A call that gets or sets registers reads one slice of its elements, too, and acts on them (see
    /// `rep_frame`): where elements are left RCX tells which is next, and RAX and Rip stay. One that gets registers
    /// needs a page that level 0 may write. A call for masks reads one slice of its pages, which the partition is asked
    /// for, at most eight (TLFS, HvCallModifyVtlProtectionMask). The partition is also asked for a flush, whose
    /// elements aren't read, and to write its configuration. Its status and its configuration are asked of it, and
    /// written in an access of their own.
    ///
    /// A set or a get of level 0 that level 1 intercepts (see `reg_intercept::Watch`) changes no register: level 1 is
    /// told by one note and entered (TLFS, HV_REGISTER_CR_INTERCEPT_CONTROL).
    ///
    /// It needs a processor without an ending that waits for no reply, the programs that it was made with, and its own
    /// port, in the phase in which its last turn left it. All this is this project's own.
    pub fn turn<P: Port>(&mut self, port: &mut P, program: &Program) -> CpuTurn
        requires going { self.old.ended ≡ None }
        requires answered { self.old.owes ≡ false }
        requires zero { length program.now.zero ≡ self.old.zero_length }
        requires one { length program.now.one ≡ self.old.one_length }
        requires same { IfSome self.old.op (λ op. operation_at program.now self.old.state ≡ Some op) }
        requires serves { VpServes self.old (P.seat port.old) }
        ensures turned { self.old.started ≡ true → TurnsBy (rest_of self.old (operation_at program.now self.old.state))
            (operation_at program.now self.old.state) self.old (P.seat port.old) self.new (P.seat port.new) result }
        ensures woken { self.old.started ≡ false → Wakes self.old (P.seat port.old) self.new (P.seat port.new) result }
        ensures serves { VpServes self.new (P.seat port.new) }
        ensures name { (P.seat port.new).name ≡ (P.seat port.old).name }
        ensures short { All IsShort (new_marks self.old self.new) }
        ensures same { IsSameProcessor self.old self.new }
        ensures kept { IfSome self.new.op (λ op. operation_at program.now self.new.state ≡ Some op) }
        ensures owes { OwesBy result self.new.owes }
        ensures slices { HandsSlice result }
        ensures within { length self.new.marks ≤ self.old.limits.budget }
    {
        let pace = self.step(port, program);
        if let Pace::Wants = pace {
            return CpuTurn::Wants(self.wanted());
        }
        pace.turn()
    }

    /// Goes on with an attempt by the reply to its request.
    fn resume(&mut self, reply: Reply) -> Pace
        requires started { self.old.started ≡ true }
        requires owes { self.old.owes ≡ true }
        requires done { reply.done < 4096 }
        ensures accepted { AcceptsBy (rest_of self.old self.old.op) reply self.old self.new (turn_of result None) }
        ensures left { rest_of (answered reply self.old) self.old.op ≡ by_reply (rest_of self.old self.old.op) reply }
        ensures unheard { self.old.heard ≡ None }
        ensures phase { phase_at self.new.seen self.new.first ≡ phase_at self.old.seen self.old.first }
        ensures short { All IsShort (new_marks self.old self.new) }
        ensures same { IsSameProcessor self.old self.new }
        ensures owes { self.new.owes ≡ false }
        ensures quiet { asks_by result ≡ false }
        ensures kept { Keeps self.old self.new }
        ensures within { length self.new.marks ≤ self.old.limits.budget }
    {
        let Next::Want(asked) = self.state.next(&self.under) else {
            unreachable!()
        };
        self.state.replied(&mut self.under, asked, &reply);
        let after = (self.log.seen.as_slice().len() - self.log.first) as u32;
        self.heard = Some(Heard { after, reply });
        self.owes = false;
        self.settle()
    }

    /// Starts with the contexts of the reply, and leaves the mark of the start.
    fn start(&mut self, reply: &Reply) -> Pace
        requires waits { self.old.started ≡ false }
        requires owes { self.old.owes ≡ true }
        ensures begun { AcceptsBy (start_rest self.old) reply.now self.old self.new (turn_of result None) }
        ensures unheard { self.old.heard ≡ None }
        ensures phase { phase_at self.new.seen self.new.first ≡ phase_at self.old.seen self.old.first }
        ensures short { All IsShort (new_marks self.old self.new) }
        ensures same { IsSameProcessor self.old self.new }
        ensures owes { self.new.owes ≡ false }
        ensures quiet { asks_by result ≡ false }
        ensures kept { Keeps self.old self.new }
        ensures within { length self.new.marks ≤ self.old.limits.budget }
    {
        self.state.start(&reply.context);
        self.started = true;
        self.owes = false;
        let from = place_of(&self.state);
        self.log
            .leave(&self.state, &self.lengths, from, What::Started)
    }

    /// Takes the reply to the request that the last turn answered. The attempt goes on by it, or comes to its end: RAX
    /// has the result, and where the reply brings a context, level 1 is enabled with it (TLFS, HvCallEnableVpVtl). All
    /// other registers but Rip stay. Where a slice of pages was served and elements of its call are left, RCX tells
    /// which is next instead, and RAX and Rip stay (TLFS, Rep Hypercalls). It makes no step and takes no memory.
    ///
    /// A processor that hasn't started starts: the reply's first context goes to the level of the start, and the one
    /// that has waited to level 1, unless that is the level of the start. The level of the start becomes active (TLFS,
    /// HvCallStartVirtualProcessor). A context that has a bit set that must be zero is left aside; without a context
    /// all registers stay. The start leaves one mark, whose Rip is the context's, and it counts for the budget. This is
    /// this project's own.
    ///
    /// It needs a processor that waits for a reply, and fewer than 4096 elements done.
    pub fn accept(&mut self, reply: Reply) -> CpuTurn
        requires owes { self.old.owes ≡ true }
        requires done { reply.done < 4096 }
        ensures accepted { self.old.started ≡ true → AcceptsBy
            (rest_of self.old self.old.op) reply self.old self.new result }
        ensures begun { self.old.started ≡ false → AcceptsBy (start_rest self.old) reply self.old self.new result }
        ensures left { self.old.started ≡ true → rest_of (answered reply self.old) self.old.op
            ≡ by_reply (rest_of self.old self.old.op) reply }
        ensures unheard { self.old.heard ≡ None }
        ensures phase { phase_at self.new.seen self.new.first ≡ phase_at self.old.seen self.old.first }
        ensures short { All IsShort (new_marks self.old self.new) }
        ensures same { IsSameProcessor self.old self.new }
        ensures owes { self.new.owes ≡ false }
        ensures kept { Keeps self.old self.new }
        ensures within { length self.new.marks ≤ self.old.limits.budget }
    {
        if self.started {
            self.resume(reply).turn()
        } else {
            self.start(&reply).turn()
        }
    }

    /// The processor's number. The attempt under way has at most 38 events; before the start no attempt is under way
    /// and no mark was left.
    pub fn vp(&self) -> VpIndex
        ensures number { result.0 ≡ self.now.number }
        ensures below { self.now.number < self.now.limits.vps }
        ensures part { self.now.part ≤ self.now.first }
        ensures first { self.now.first ≤ length self.now.seen }
        ensures few { length self.now.seen ≤ self.now.first + 38 }
        ensures waiting { self.now.started ≡ false → IsWaiting self.now }
        ensures looked { self.now.started ≡ false → self.now.owes ≡ true → length self.now.seen ≡ 1 }
    {
        self.state.number
    }

    /// Whether the processor has started.
    pub fn started(&self) -> bool
        ensures { result ≡ self.now.started }
    {
        self.started
    }

    /// Why the processor runs no more, if it doesn't.
    pub fn ended(&self) -> Option<Ending>
        ensures { result ≡ self.now.ended }
    {
        self.log.ended
    }

    /// The marks so far, oldest first. The last may be that of a spin that found another value, which goes at the next
    /// turn.
    pub fn marks(&self) -> &[Mark]
        ensures { result.now ≡ self.now.marks }
    {
        self.log.marks.as_slice()
    }

    /// How many of the marks so far stay: all but that of a spin that found another value.
    pub fn standing(&self) -> usize
        ensures { result ≡ length (standing self.now) }
    {
        let marks = self.log.marks.as_slice().len();
        if self.log.again {
            marks.saturating_sub(1)
        } else {
            marks
        }
    }

    /// The events so far, oldest first.
    pub fn seen(&self) -> &[Event]
        ensures { result.now ≡ self.now.seen }
    {
        self.log.seen.as_slice()
    }

    /// The registers.
    pub fn bank(&self) -> &Bank
        ensures { result.now ≡ self.now.state.registers }
    {
        &self.state.bank
    }

    /// The levels: which is active, and whether level 1 is enabled.
    pub fn levels(&self) -> &Levels
        ensures active { result.now.active ≡ self.now.state.active }
        ensures enabled { result.now.enabled ≡ self.now.state.enabled }
    {
        &self.state.levels
    }

    /// The marks and the events, oldest first.
    pub fn into_lists(self) -> (Items<Mark>, Items<Event>)
        ensures marks { result.0 ≡ self.marks }
        ensures seen { result.1 ≡ self.seen }
    {
        let Cpu { log, .. } = self;
        let Log { marks, seen, .. } = log;
        (marks.into_items(), seen.into_items())
    }
}

#[cfg(test)]
impl Cpu {
    ghost use Rattle.vtl_state.specs.States.{state_of};

    /// The processor with so many reads of spins behind it that found another value.
    #[tactic(auto, unfolding(vsm_core::specs::Processor::spin_limit))]
    pub fn after_spins(self, spins: u32) -> Cpu
        requires { spins < 20000000 }
        ensures { result ≡ record self { spins = spins } }
    {
        let mut cpu = self;
        cpu.log.spins = spins;
        cpu
    }

    /// The processor in this state, if no attempt is under way and the active level then has an operation where it
    /// stands.
    pub fn with_state(self, bank: Bank, levels: Levels) -> Option<Cpu>
        ensures state { IfSome result (λ cpu. cpu ≡ record self { state = state_of bank levels }) }
        ensures idle { IfSome result (λ cpu. cpu.op ≡ None) }
    {
        let mut cpu = self;
        cpu.state.bank = bank;
        cpu.state.levels = levels;
        let length = cpu.lengths.at(cpu.state.levels.active());
        if cpu.acting || rip_of(&cpu.state) >= length as u64 {
            return None;
        }
        Some(cpu)
    }
}

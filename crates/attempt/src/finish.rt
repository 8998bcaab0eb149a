// What an attempt does to the state of its processor, where it has come to its end.
ghost use Rattle.std.specs.Prelude.{◌≡◌, ◌<◌, ◌≤◌, ◌^◌, [], List, take};
ghost use Rattle.synic.specs.Ends.{eom_word};
ghost use Rattle.vsm_core.specs.Fills.{Cached};
ghost use Rattle.attempt.specs.Cited.{ack_outcome, called, count_of, denied_lem, eoi_outcome, eom_outcome, frame_of};
ghost use Rattle.attempt.specs.Cited.{get_outcome, gone_on, jumped, may_call_lem, may_return_lem};
ghost use Rattle.attempt.specs.Cited.{part_outcome, put_legal_lem, returned, set_outcome, start_of, with_context};
ghost use Rattle.attempt.specs.Cited.{with_result, with_start_lem, with_taken, Origin};
ghost use Rattle.attempt.specs.Comings.{Comes};
ghost use Rattle.attempt.specs.Paths.{grant_of as grant_of_lem};
ghost use Rattle.attempt.specs.Rests.{DecidedIs};
ghost use Rattle.attempt.specs.Results.{again_by, denied_or_held, granted_of, hit_or_held, local_outcome};
ghost use Rattle.attempt.specs.Results.{polled_outcome, refusal_of, reply_outcome, result_of, set_outcome_of, switched};
ghost use Rattle.attempt.specs.Views.{origin_of};

use crate::course::{lower, upper};
use crate::path::Fill;
use crate::stage::{Decided, Refusal};
use crate::state::VpState;
use crate::under::{Under, front_of};
use register_file::{BadValue, Context};
use rep_frame::{RepFrame, SliceEnd, set_slice};
use synic::EomStep;
use vsm_base::{HvStatus, Name, Page, Vtl};
use vsm_core::{Denial, EomWord, Grant, GuestFault, Op, Posted, What};
use vtl_state::word_of;
use vtl_switch::{call, give_back, interrupt_entry};

/// What was denied, and where its note went.
fn denied(refusal: &Refusal, posted: Posted) -> What
    ensures { result ≡ denied_lem (refusal_of refusal.now) posted }
{
    What::Denied(Denial {
        page: refusal.page,
        mask: refusal.mask,
        generation: refusal.generation,
        access: refusal.access,
        posted,
    })
}

fn word_of_step(step: EomStep) -> EomWord
    ensures { result ≡ eom_word step }
{
    match step {
        EomStep::Nothing => EomWord::Nothing,
        EomStep::Slot(_, _) => EomWord::Slot,
        EomStep::Waiting => EomWord::Waiting,
    }
}

/// The grant of an access that leads there and has found this value.
pub fn grant_of(fill: &Fill, value: u64) -> Grant
    requires { fill.now.to.page < 2 ^ 32 }
    ensures { result ≡ grant_of_lem fill.now value }
{
    Grant {
        page: Page(fill.to.page as u32),
        mask: fill.mask,
        generation: fill.generation,
        value,
        hit: false,
    }
}

impl VpState {
    /// The active level's program stands at its next operation.
    pub fn go_on(&mut self)
        ensures { self.new ≡ record self.old { state = gone_on self.old.state } }
    {
        vtl_state::go_on(&mut self.bank, &self.levels);
    }

    /// A register of the active level gets a value, where that is legal.
    pub fn put_legal(&mut self, name: Name, value: u128)
        ensures { self.new ≡ record self.old { state = put_legal_lem self.old.state name value } }
    {
        vtl_state::put_legal(&mut self.bank, &self.levels, name, value);
    }

    /// An access was granted.
    fn granted(&mut self, op: &Op, grant: Grant) -> What
        ensures what { result ≡ (granted_of self.old.state op.now grant).0 }
        ensures state { self.new ≡ record self.old { state = (granted_of self.old.state op.now grant).1 } }
    {
        match op {
            Op::Load(name, _) => {
                self.put_legal(*name, u128::from(grant.value));
                self.go_on();
                What::Granted(grant)
            }
            Op::Spin(_, value) if grant.value != *value => What::Again(grant),
            _ => {
                self.go_on();
                What::Granted(grant)
            }
        }
    }

    /// An access was denied: level 1 is told and entered, where it may be. Else the processor is held.
    fn deny(&mut self, refusal: &Refusal, slot: Option<u64>) -> What
        requires { 0 < self.old.room }
        ensures { (does : List Cached) → Comes self.old self.new result
            (denied_or_held (origin_of self.old) refusal.now does slot) }
    {
        let note = self.note_of(refusal);
        match interrupt_entry(&mut self.bank, &mut self.levels, self.limits.pages) {
            Ok(_) => denied(refusal, self.controllers.synic.post(slot, note)),
            Err(_) => denied(refusal, Posted::Held),
        }
    }

    /// A register is written, if it may be named here and takes this value.
    fn set(&mut self, name: Name, value: u128) -> What
        ensures { Comes self.old self.new result (set_outcome (origin_of self.old) name value) }
    {
        if !self.may_name(name) {
            return What::Fault(GuestFault::Gp);
        }
        let level = self.levels.active();
        match self.bank.put(level, name, value) {
            Ok(()) => {
                self.go_on();
                What::Plain
            }
            Err(BadValue) => What::Fault(GuestFault::Gp),
        }
    }

    /// A register is read, if it may be named here.
    fn get(&mut self, name: Name) -> What
        ensures { Comes self.old self.new result (get_outcome (origin_of self.old) name) }
    {
        if !self.may_name(name) {
            return What::Fault(GuestFault::Gp);
        }
        let value = self.bank.get(self.levels.active(), name);
        self.go_on();
        What::Value(value)
    }

    fn jump_ne(&mut self, name: Name, value: u64, rip: u64)
        ensures { self.new ≡ record self.old { state = jumped self.old.state name value rip } }
    {
        if word_of(&self.bank, &self.levels, name) == value {
            self.go_on();
        } else {
            self.put_legal(Name::Rip, u128::from(rip));
        }
    }

    /// The vector that is delivered next goes into service and into a register.
    fn ack(&mut self, name: Name) -> What
        ensures { Comes self.old self.new result (ack_outcome (origin_of self.old) name) }
    {
        let cr8 = word_of(&self.bank, &self.levels, Name::Cr8);
        let vector = match self.levels.active() {
            Vtl::Zero => self.controllers.zero.ack(cr8),
            Vtl::One => self.controllers.one.ack(cr8),
        };
        let value = u128::from(vector.unwrap_or(0));
        self.put_legal(name, value);
        self.go_on();
        What::Value(value)
    }

    /// The active level's highest vector in service is served.
    fn end_interrupt(&mut self) -> What
        ensures { Comes self.old self.new result (eoi_outcome (origin_of self.old)) }
    {
        match self.levels.active() {
            Vtl::Zero => self.controllers.zero.eoi(),
            Vtl::One => self.controllers.one.eoi(),
        }
        self.go_on();
        What::Plain
    }

    fn local(&mut self, op: &Op) -> What
        ensures { Comes self.old self.new result (local_outcome (origin_of self.old) op.now) }
    {
        match op {
            Op::Set(name, value) => self.set(*name, *value),
            Op::Get(name) => self.get(*name),
            Op::Jump(rip) => {
                self.put_legal(Name::Rip, u128::from(*rip));
                What::Plain
            }
            Op::JumpNe(name, value, rip) => {
                self.jump_ne(*name, *value, *rip);
                What::Plain
            }
            Op::Ack(name) => self.ack(*name),
            Op::Eoi => self.end_interrupt(),
            _ => What::Fault(GuestFault::Undefined),
        }
    }

    /// Level 1 intercepts a register: it is told and entered, where it may be. Else the processor is held.
    fn intercept(&mut self, op: &Op, slot: Option<u64>) -> What
        requires { 0 < self.old.room }
        ensures { Comes self.old self.new result (hit_or_held (origin_of self.old) op.now slot) }
    {
        let note = self.hit_note_of(op);
        match interrupt_entry(&mut self.bank, &mut self.levels, self.limits.pages) {
            Ok(_) => What::Hit(self.controllers.synic.post(slot, note)),
            Err(_) => What::Hit(Posted::Held),
        }
    }

    /// Level 0 calls level 1.
    fn call(&mut self) -> What
        ensures { Comes self.old self.new result
            (switched (may_call_lem self.old.state) (origin_of self.old) (called self.old.state)) }
    {
        match call(&mut self.bank, &mut self.levels, self.limits.pages) {
            Ok(_) => What::Plain,
            Err(_) => What::Fault(GuestFault::Undefined),
        }
    }

    /// Level 1 returns to level 0.
    fn give_back(&mut self, pair: Option<(u64, u64)>) -> What
        ensures { Comes self.old self.new result
            (switched (may_return_lem self.old.state) (origin_of self.old) (returned self.old.state pair)) }
    {
        match give_back(&mut self.bank, &mut self.levels, pair) {
            Ok(()) => What::Plain,
            Err(_) => What::Fault(GuestFault::Undefined),
        }
    }

    /// A poll has taken these words.
    fn poll(&mut self, found: &[u64; 8]) -> What
        ensures { Comes self.old self.new result
            (polled_outcome self.old.state (with_taken self.old.controllers found.now)) }
    {
        let wanted = self.is_wanted(found);
        self.controllers.zero.request_all(&lower(found));
        self.controllers.one.request_all(&upper(found));
        self.go_on();
        if wanted {
            self.levels.begin_at(Vtl::One);
            What::Entered
        } else {
            What::Plain
        }
    }

    /// A message of the active level is ended. Level 0 never has one.
    fn end_message(&mut self, slot: Option<u64>) -> What
        ensures { Comes self.old self.new result (eom_outcome (origin_of self.old) slot) }
    {
        let word = match self.levels.active() {
            Vtl::Zero => EomWord::Nothing,
            Vtl::One => word_of_step(self.controllers.synic.eom(slot)),
        };
        self.go_on();
        What::Eom(word)
    }

    /// The end of an attempt, as it was decided.
    pub fn finish(&mut self, under: &Under) -> What
        requires room { 0 < self.old.room }
        requires is { DecidedIs (origin_of self.old) under.now under.now.decided }
        ensures { Comes self.old self.new result (result_of (origin_of self.old) under.now) }
    {
        match under.decided {
            Decided::Local => self.local(&under.op),
            Decided::Hit(slot) => self.intercept(&under.op, slot),
            Decided::Called => self.call(),
            Decided::Returned(pair) => self.give_back(pair),
            Decided::Granted(value) => self.granted(&under.op, grant_of(&under.path.fill, value)),
            Decided::Denied(slot) => self.deny(&under.refusal, slot),
            Decided::Fault(fault) => What::Fault(fault),
            Decided::Polled => self.poll(&under.taken),
            Decided::Replied(value) => self.reply(value),
            Decided::Enabled(level, value) => self.enable(&under.header, level, value),
            Decided::Part(next) => self.part(next),
            Decided::Set(target) => self.set_registers(target, &under.slice),
            Decided::Eom(slot) => self.end_message(slot),
        }
    }
}

/// An input value with this start index. The bits above the index must be zero.
fn with_start(value: u64, start: u16) -> u64
    ensures { result ≡ with_start_lem value start }
{
    value % (1 << 48) + (u64::from(start) << 48)
}

impl VpState {
    /// A call has its result.
    pub fn reply(&mut self, value: u64) -> What
        ensures what { result ≡ What.Reply value }
        ensures state { self.new ≡ record self.old { state = with_result self.old.state value } }
    {
        self.put_legal(Name::Rax, u128::from(value));
        self.go_on();
        What::Reply(value)
    }

    /// A level gets its context, unless it is enabled already or the context has a bit that must be zero.
    pub fn give_context(&mut self, level: Vtl, words: &[u64; 28])
        ensures { self.new ≡ record self.old { state = with_context self.old.state (Some (level, words.now)) } }
    {
        if let Ok(context) = Context::read(words) {
            let _ = self.levels.enable(&mut self.bank, level, &context);
        }
    }

    /// A call has enabled a level, whose context these words begin with, and has its result.
    pub fn enable(&mut self, words: &[u64; 32], level: Vtl, value: u64) -> What
        ensures { Comes self.old self.new result
            (reply_outcome (origin_of self.old) (with_context self.old.state (Some (level, take 28 words.now)))
            value) }
    {
        self.give_context(level, &front_of(words));
        self.reply(value)
    }

    /// A call goes on at this element: the register that has its input value, which was this, says so.
    fn go_on_at(&mut self, value: u64, next: u16) -> What
        ensures what { result ≡ What.Part next }
        ensures state { self.new ≡ record self.old
            { state = put_legal_lem self.old.state Name.Rcx (with_start_lem value next) } }
    {
        let value = with_start(value, next);
        self.put_legal(Name::Rcx, u128::from(value));
        What::Part(next)
    }

    /// A call goes on at this element.
    pub fn part(&mut self, next: u16) -> What
        ensures { Comes self.old self.new result (part_outcome (origin_of self.old) self.old.state [] next) }
    {
        let value = word_of(&self.bank, &self.levels, Name::Rcx);
        self.go_on_at(value, next)
    }

    /// The elements of a slice set registers of a level, up to the first that is refused.
    pub fn set_registers(&mut self, target: Vtl, words: &[u64; 32]) -> What
        requires { start_of (origin_of self.old) ≤ count_of (origin_of self.old) }
        ensures { Comes self.old self.new result
            (set_outcome_of (origin_of self.old) target
            (frame_of (count_of (origin_of self.old)) (start_of (origin_of self.old))) words.now) }
    {
        let value = word_of(&self.bank, &self.levels, Name::Rcx);
        let (start, count) = self.elements();
        let caller = self.levels.active();
        let mut frame = RepFrame::new(count, start);
        match set_slice(&mut self.bank, caller, target, &mut frame, words) {
            SliceEnd::Refused(status, _) => self.reply(frame.finish(status).bits()),
            SliceEnd::GoesOn(next) => self.go_on_at(value, next),
            SliceEnd::Complete(_) => self.reply(frame.finish(HvStatus::SUCCESS).bits()),
        }
    }
}

impl Under {
    /// The grant of a spin that found another value.
    pub fn again(&self) -> Option<Grant>
        requires { (from : Origin) × DecidedIs from self.now self.now.decided }
        ensures { result ≡ again_by self.now self.now.op self.now.decided }
    {
        match (&self.op, self.decided) {
            (Op::Spin(_, wanted), Decided::Granted(value)) if value != *wanted => {
                Some(grant_of(&self.path.fill, value))
            }
            _ => None,
        }
    }
}

// The course of an attempt: its first stage, what comes next, and what is done by the answer.
ghost use Rattle.std.specs.Prelude.{◌≡◌, ◌<◌, ◌≤◌, true, false, if◌then◌else◌, take, drop, IsTrue};
ghost use Rattle.attempt.specs.Asked.{word_step};
ghost use Rattle.attempt.specs.Calls.{access_of};
ghost use Rattle.attempt.specs.Cited.{after, attempt, by_page_mask, call_tree, eom_tree, goal_of_lem, intercepted};
ghost use Rattle.attempt.specs.Cited.{is_read_hit_lem, is_wanted_lem, is_write_hit_lem, leaves, may_enter_lem};
ghost use Rattle.attempt.specs.Cited.{may_name_lem, operand_lem, polled_lem, return_tree, takes, then_, vector_words};
ghost use Rattle.attempt.specs.Cited.{with_taken, Ends};
ghost use Rattle.attempt.specs.Heads.{GoesOn, IsHeadOf, StandsAt};
ghost use Rattle.attempt.specs.Nexts.{IsAnswerTo, IsNext};
ghost use Rattle.attempt.specs.Paths.{goal_of, is_aligned, reached_rest, IsReached};
ghost use Rattle.attempt.specs.Plans.{PlanIs};
ghost use Rattle.attempt.specs.Rests.{behind_rest, inner_rest, made_rest, output_masked, reaching, rest_of, words_rest};
ghost use Rattle.attempt.specs.Rests.{BehindIs, InnerIs, IsHead, MakeIs, Moves, StageIs};
ghost use Rattle.attempt.specs.Results.{granted_of, hit_note, local_outcome};
ghost use Rattle.attempt.specs.Views.{origin_of};
ghost use Rattle.attempt.specs.Words.{word_at};

use crate::path::{Aim, Place, Reached, mask_of, may_start};
use crate::plans::{BY_INTERRUPT, nothing};
use crate::stage::{Behind, Decided, Gate, Inner, Matter, Next, Refusal, Stage, Step};
use crate::state::VpState;
use crate::under::Under;
use reg_intercept::Watch;
use register_file::is_legal;
use vsm_base::{Access, Gva, Mask, Name, VpIndex, Vtl};
use vsm_core::{Op, Operand, PendingWord};
use vtl_state::{privilege_of, word_of};
use vtl_switch::{Back, call_kind, return_kind};

/// The places in the assist page of what a return makes RAX and RCX (TLFS, Virtual Processor Assist Page, VTL control).
const RAX: u16 = 2;

const RCX: u16 = 3;

/// Level 1 was entered by a call (TLFS, HV_VTL_ENTRY_REASON).
const BY_CALL: u32 = 1;

/// How many words of pending vectors a processor has.
const WORDS: u8 = 8;

impl VpState {
    /// The attempt of an operation begins. The partition has at most eight processors.
    pub fn begin(&self, under: &mut Under, op: Op)
        requires { self.now.limits.vps ≤ 8 }
        ensures rest { rest_of (origin_of self.now) under.new ≡ attempt (origin_of self.now) op }
        ensures is { StageIs (origin_of self.now) under.new }
        ensures op { under.new.op ≡ op }
    {
        under.op = op;
        match op {
            Op::Load(_, gva) => self.accessing(under, Access::Read, gva, 0),
            Op::Spin(gva, _) => self.accessing(under, Access::Read, gva, 0),
            Op::Store(gva, what) => self.accessing(under, Access::Write, gva, self.operand(what)),
            Op::Exec(gva) => self.accessing(under, Access::Execute, gva, 0),
            Op::Set(name, value) => self.naming(under, self.is_write_hit(name, value)),
            Op::Get(name) => self.naming(under, self.is_read_hit(name)),
            Op::VtlCall => self.calling(under),
            Op::VtlReturn => self.returning(under),
            Op::Hypercall => self.hypercalling(under),
            Op::Poll => self.taken(under, 0),
            Op::Eom => self.ending(under),
            Op::Jump(_) | Op::JumpNe(..) | Op::Ack(_) | Op::Eoi | Op::Invlpg(_) => {
                under.end(Decided::Local);
            }
        }
    }

    /// What a store writes.
    fn operand(&self, what: Operand) -> u64
        ensures { result ≡ operand_lem self.now.state what }
    {
        match what {
            Operand::Number(value) => value,
            Operand::Register(name) => word_of(&self.bank, &self.levels, name),
        }
    }

    /// What an operation's access is for. An address at which something is executed needn't be a multiple of 8.
    fn aim(&self, access: Access, gva: Gva, value: u64) -> Aim
        ensures { goal_of result
            ≡ goal_of_lem self.now.limits.pages self.now.state access (is_aligned access) gva.0 value }
    {
        let (need, aligned) = match access {
            Access::Read => (1, true),
            Access::Write => (2, true),
            Access::Execute => (12, false),
        };
        Aim {
            level: self.levels.active(),
            cpl: privilege_of(&self.bank, &self.levels),
            cr0: word_of(&self.bank, &self.levels, Name::Cr0),
            cr3: word_of(&self.bank, &self.levels, Name::Cr3),
            gva,
            access,
            need,
            aligned,
            value,
            pages: self.limits.pages,
        }
    }

    /// The first stage of an operation that makes one access.
    fn accessing(&self, under: &mut Under, access: Access, gva: Gva, value: u64)
        ensures { Moves self.now under.old under.new (λ from. reaching from under.old.op access gva.0 value) }
    {
        let aim = self.aim(access, gva, value);
        match may_start(&aim) {
            Ok(()) => {
                under.path.aim = aim;
                under.path.place = Place::Start;
                under.stage = Stage::Access;
            }
            Err(fault) => under.end(Decided::Fault(fault)),
        }
    }

    /// The first stage of an end of message.
    fn ending(&self, under: &mut Under)
        ensures { Moves self.now under.old under.new eom_tree }
    {
        under.end(Decided::Eom(None));
        match self.levels.active() {
            Vtl::Zero => return,
            Vtl::One => {}
        }
        let Some(page) = self.message_page() else {
            return;
        };
        if self.controllers.synic.waiting().is_empty() {
            return;
        }
        under.stage = Stage::Enter(Inner::Look(page, Matter::Ending));
    }

    /// The first stage of a call.
    fn calling(&self, under: &mut Under)
        ensures { Moves self.now under.old under.new call_tree }
    {
        under.end(Decided::Called);
        if let Ok(Some(page)) = call_kind(&self.bank, &self.levels, self.limits.pages) {
            under.plan = nothing(Some(page), BY_CALL);
            under.stage = Stage::Enter(Inner::Make);
        }
    }

    /// The first stage of a return.
    fn returning(&self, under: &mut Under)
        ensures { Moves self.now under.old under.new return_tree }
    {
        under.end(Decided::Returned(None));
        match return_kind(&self.bank, &self.levels, self.limits.pages) {
            Ok(Back::Restore(page)) => under.stage = Stage::Enter(Inner::Restore(page)),
            Ok(Back::Fast | Back::Plain) | Err(_) => {}
        }
    }

    /// Whether an operation may name this register.
    pub fn may_name(&self, name: Name) -> bool
        ensures { result ≡ may_name_lem self.now.state name }
    {
        privilege_of(&self.bank, &self.levels) == 0
            || matches!(name, Name::Rsp | Name::Rflags)
            || name.general()
    }

    /// Whether a write of a register is lawful and level 1 intercepts it (TLFS, HV_REGISTER_CR_INTERCEPT_CONTROL).
    fn is_write_hit(&self, name: Name, value: u128) -> bool
        ensures hit { result ≡ is_write_hit_lem (origin_of self.now) name value }
        ensures enters { IsTrue result → may_enter_lem self.now.state ≡ true }
    {
        let old = self.bank.get(self.levels.active(), name);
        self.may_name(name)
            && is_legal(name, value)
            && self.may_enter()
            && Watch::of(&self.bank).on_write(name, old, value)
    }

    /// Whether a read of a register is lawful and level 1 intercepts it.
    fn is_read_hit(&self, name: Name) -> bool
        ensures hit { result ≡ is_read_hit_lem (origin_of self.now) name }
        ensures enters { IsTrue result → may_enter_lem self.now.state ≡ true }
    {
        self.may_name(name) && self.may_enter() && Watch::of(&self.bank).on_read(name)
    }

    /// The first stage of a write or a read of a register, by whether level 1 intercepts it.
    fn naming(&self, under: &mut Under, hit: bool)
        requires { IsTrue hit → may_enter_lem self.now.state ≡ true }
        ensures { Moves self.now under.old under.new (λ from. if hit
            then intercepted from (hit_note from under.old.op) else Ends (local_outcome from under.old.op)) }
    {
        if hit {
            self.intercepting(under);
        } else {
            under.end(Decided::Local);
        }
    }

    /// Level 1 is told of the register of the operation, which it intercepts, in an access of its own where that
    /// touches words.
    fn intercepting(&self, under: &mut Under)
        requires { may_enter_lem self.now.state ≡ true }
        ensures { Moves self.now under.old under.new (λ from. intercepted from (hit_note from under.old.op)) }
    {
        under.end(Decided::Hit(None));
        if let Some(page) = self.message_page() {
            under.stage = Stage::Enter(Inner::Look(page, Matter::Hit));
            return;
        }
        if let Some(page) = self.assist_page() {
            under.plan = nothing(Some(page), BY_INTERRUPT);
            under.stage = Stage::Enter(Inner::Make);
        }
    }
}

/// A word of pending vectors by its place among the eight, level 0's first.
fn word_at(place: u8) -> PendingWord
    requires { place < 8 }
    ensures { result ≡ word_at place }
{
    let level = if place < 4 { Vtl::Zero } else { Vtl::One };
    let part = place % 4;
    PendingWord::Vectors { level, part }
}

/// The words of level 0 among those that a poll has taken.
pub fn lower(found: &[u64; 8]) -> [u64; 4]
    ensures { result ≡ take 4 found.now }
{
    [found[0], found[1], found[2], found[3]]
}

/// The words of level 1.
pub fn upper(found: &[u64; 8]) -> [u64; 4]
    ensures { result ≡ drop 4 found.now }
{
    [found[4], found[5], found[6], found[7]]
}

impl VpState {
    /// Whether level 1 is entered, once what a poll has taken is requested (TLFS, Virtual Secure Mode, VTL Entry).
    pub fn is_wanted(&self, found: &[u64; 8]) -> bool
        ensures { result ≡ is_wanted_lem self.now.state (with_taken self.now.controllers found.now) }
    {
        let mut one = self.controllers.one;
        one.request_all(&upper(found));
        let cr8 = self.word_of_one(Name::Cr8);
        self.may_enter() && one.deliverable(cr8).is_some()
    }

    /// A poll has taken all words.
    fn polled(&self, under: &mut Under)
        ensures { Moves self.now under.old under.new (λ from. polled_lem from under.old.taken) }
    {
        under.end(Decided::Polled);
        if !self.is_wanted(&under.taken) {
            return;
        }
        if let Some(page) = self.assist_page() {
            under.plan = nothing(Some(page), BY_INTERRUPT);
            under.stage = Stage::Enter(Inner::Make);
        }
    }

    /// A poll has taken so many words.
    fn taken(&self, under: &mut Under, count: u8)
        requires { count ≤ 8 }
        ensures { Moves self.now under.old under.new
            (λ from. takes (drop count vector_words) (take count under.old.taken) (polled_lem from)) }
    {
        if count < WORDS {
            under.stage = Stage::Take(count);
        } else {
            self.polled(under);
        }
    }

    /// The next planned step or, where none is left, the leave.
    fn planned(&self, under: &Under) -> Step
        requires { PlanIs under.now.plan }
        ensures { IsNext (made_rest (origin_of self.now) under.now) (word_step result) }
    {
        let mut plan = under.plan;
        match plan.popped(self.number, &under.output) {
            Some(step) => step,
            None => Step::Leave,
        }
    }

    /// What comes next of an attempt.
    #[inline(always)]
    pub fn next(&self, under: &Under) -> Next
        requires { StageIs (origin_of self.now) under.now }
        ensures head { IsHeadOf (origin_of self.now) under.now (rest_of (origin_of self.now) under.now) result }
        ensures at { StandsAt result under.now.stage }
    {
        match under.stage {
            Stage::Access => Next::Ask(under.path.next()),
            Stage::Enter(_) => Next::Ask(Step::Enter),
            Stage::Check(_) => Next::Ask(Step::Check),
            Stage::Mask(gate, _) => Next::Ask(Step::Mask {
                page: gate.site.page,
            }),
            Stage::Look(page, _) => Next::Ask(Step::Read { page, index: 0 }),
            Stage::Rax(page) => Next::Ask(Step::Read { page, index: RAX }),
            Stage::Rcx(page, _) => Next::Ask(Step::Read { page, index: RCX }),
            Stage::Header(reads) => Next::Ask(reads.next()),
            Stage::Slice(reads) => Next::Ask(reads.next()),
            Stage::Make => Next::Ask(self.planned(under)),
            Stage::Take(count) => Next::Ask(Step::Take {
                word: word_at(count),
            }),
            Stage::Depart(_) | Stage::Quit(_) => Next::Ask(Step::Leave),
            Stage::Want(asked) => Next::Want(asked),
            Stage::Send(sending) => Next::Ask(sending.next_post()),
            Stage::End => Next::End,
        }
    }

    /// Whether an attempt goes on: it has a step left, or something to ask.
    pub fn goes_on(&self, under: &Under) -> bool
        requires { StageIs (origin_of self.now) under.now }
        ensures goes { GoesOn (origin_of self.now) under.now (rest_of (origin_of self.now) under.now) result }
        ensures end { result ≡ false → under.now.stage ≡ Stage.End }
    {
        match under.stage {
            Stage::End => false,
            _ => true,
        }
    }

    /// Where an answer has led an access.
    fn reached(&self, under: &mut Under, reached: Reached)
        requires { IsReached under.old.path reached }
        ensures { Moves self.now under.old under.new (λ from. then_ (reached_rest under.old.path reached)
            (leaves from under.old.path.aim.gva.0 (granted_of from.state under.old.op))) }
    {
        match reached {
            Reached::On => under.stage = Stage::Access,
            Reached::Denied(refusal) => self.refused(under, refusal),
            Reached::Granted(value) => under.leave(Decided::Granted(value)),
            Reached::Fault(fault) => under.leave(Decided::Fault(fault)),
        }
    }

    /// The mask of a hypercall's page is known.
    fn masked(&self, under: &mut Under, gate: Gate, generation: u64, mask: Mask)
        requires { BehindIs (origin_of self.now) under.old gate.behind }
        ensures { Moves self.now under.old under.new
            (λ from. by_page_mask from (access_of gate.behind) gate.site.address generation
            (behind_rest from under.old gate.behind generation) mask) }
    {
        let access = gate.behind.access();
        if mask.allows(access) {
            self.behind(under, gate.behind, generation);
            return;
        }
        let refusal = Refusal {
            page: gate.site.page,
            mask,
            generation,
            access,
            gva: None,
            gpa: gate.site.address,
            filled: false,
        };
        self.refused(under, refusal);
    }

    /// A planned step was made or, where none was left, the leave.
    fn made(&self, under: &mut Under)
        requires { MakeIs (origin_of self.now) under.old }
        ensures { Moves self.now under.old under.new (λ from. after (made_rest from under.old) 0) }
    {
        match under.plan.popped(self.number, &under.output) {
            Some(_) => under.stage = Stage::Make,
            None => under.stage = Stage::End,
        }
    }

    /// Goes on by the answer to what came next.
    pub fn resume(&self, under: &mut Under, answer: u64)
        requires is { StageIs (origin_of self.now) under.old }
        requires answer { IsAnswerTo (rest_of (origin_of self.now) under.old) answer }
        ensures rest { rest_of (origin_of self.now) under.new ≡ after (rest_of (origin_of self.now) under.old) answer }
        ensures is { StageIs (origin_of self.now) under.new }
        ensures op { under.new.op ≡ under.old.op }
    {
        match under.stage {
            Stage::Access => {
                let reached = under.path.resume(answer);
                self.reached(under, reached);
            }
            Stage::Enter(inner) => under.stage = Stage::Check(inner),
            Stage::Check(inner) => self.opened(under, inner, answer),
            Stage::Mask(gate, generation) => self.masked(under, gate, generation, mask_of(answer)),
            Stage::Look(_, matter) => self.found(under, matter, answer),
            Stage::Rax(page) => under.stage = Stage::Rcx(page, answer),
            Stage::Rcx(_, rax) => under.leave(Decided::Returned(Some((rax, answer)))),
            Stage::Header(reads) => {
                let reads = reads.read(&mut under.header, answer);
                self.header_read(under, reads);
            }
            Stage::Slice(reads) => {
                let reads = reads.read(&mut under.slice, answer);
                self.slice_read(under, reads);
            }
            Stage::Make => self.made(under),
            Stage::Take(count) => {
                under.taken[count as usize] = answer;
                self.taken(under, count + 1);
            }
            Stage::Depart(asked) => under.stage = Stage::Want(asked),
            Stage::Quit(sends) => self.send(under, sends),
            Stage::Send(sending) => self.sent(under, sending),
            Stage::Want(_) | Stage::End => unreachable!(),
        }
    }

    /// The mask of the output's page comes next at level 0, where there is an output.
    fn output(&self, under: &mut Under, generation: u64)
        requires { IsHead (origin_of self.now) under.old }
        ensures { Moves self.now under.old under.new
            (λ from. output_masked from under.old.head.output generation (words_rest from under.old)) }
    {
        let behind = Behind::Words;
        match (self.levels.active(), under.head.output) {
            (Vtl::Zero, Some(site)) => under.stage = Stage::Mask(Gate { site, behind }, generation),
            _ => self.words(under),
        }
    }

    /// What comes once a mask has allowed it.
    fn behind(&self, under: &mut Under, behind: Behind, generation: u64)
        requires { BehindIs (origin_of self.now) under.old behind }
        ensures { Moves self.now under.old under.new (λ from. behind_rest from under.old behind generation) }
    {
        match behind {
            Behind::Input => self.output(under, generation),
            Behind::Words => self.words(under),
            Behind::Make => under.stage = Stage::Make,
        }
    }

    /// The generation is checked. A hypercall's page has a mask at level 0; none binds level 1.
    fn opened(&self, under: &mut Under, inner: Inner, generation: u64)
        requires { InnerIs (origin_of self.now) under.old inner }
        ensures { Moves self.now under.old under.new (λ from. inner_rest from under.old inner generation) }
    {
        match inner {
            Inner::Look(page, matter) => under.stage = Stage::Look(page, matter),
            Inner::Make => under.stage = Stage::Make,
            Inner::Restore(page) => under.stage = Stage::Rax(page),
            Inner::Page(gate) => match self.levels.active() {
                Vtl::Zero => under.stage = Stage::Mask(gate, generation),
                Vtl::One => self.behind(under, gate.behind, generation),
            },
        }
    }
}

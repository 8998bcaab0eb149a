// The steps of a plan, the notes by which level 1 is told of an intercept, and the plans that post them.
ghost use Rattle.std.specs.Prelude.{◌≡◌, ◌+◌, ◌≤◌, ◌++◌, ℕ, List, take};
ghost use Rattle.vsm_core.specs.declared.operation.Op.{Op};
ghost use Rattle.attempt.specs.Cited.{flagged_lem, message_page_lem, message_steps, note_of_lem, number_of};
ghost use Rattle.attempt.specs.Cited.{pending_steps, posting_lem, refused_lem, sending_lem, told_on, writes};
ghost use Rattle.attempt.specs.Plans.{planned, IsPopped, IsUntold, PlanIs};
ghost use Rattle.attempt.specs.Rests.{by_word, posts, told_of, with_refusal, DecidedIs, MatterIs, Moves};
ghost use Rattle.attempt.specs.Results.{done_by, hit_note, outcome_of, refusal_of};
ghost use Rattle.attempt.specs.Unders.{only_told};
ghost use Rattle.attempt.specs.Views.{origin_of};

use crate::stage::{Decided, Matter, Plan, Refusal, Stage, Step};
use crate::state::VpState;
use crate::under::Under;
use intercept_msg::words;
use synic::{is_open, with_pending};
use vsm_base::{Name, Page, VpIndex, Vtl};
use vsm_core::{MemNote, Note, Op, PendingWord, RegNote};
use vtl_state::word_of;
use vtl_switch::entry_word;

/// Level 1 was entered by an interrupt or an intercept (TLFS, HV_VTL_ENTRY_REASON).
pub const BY_INTERRUPT: u32 = 2;

/// The place in the assist page of the reason of an entry (TLFS, Virtual Processor Assist Page, VTL control).
const REASON: u16 = 1;

impl Plan {
    /// Takes the next step, if one is left.
    pub fn popped(&mut self, vp: VpIndex, words: &[u64; 16]) -> Option<Step>
        requires { PlanIs self.old }
        ensures steps { IsPopped vp.0 words.now self.old self.new result }
        ensures is { PlanIs self.new }
    {
        if self.next < self.count {
            let step = Step::Write {
                page: self.page,
                index: self.at + u16::from(self.next),
                value: words[self.next as usize],
            };
            self.next += 1;
            return Some(step);
        }
        if let Some(vector) = self.vector {
            self.vector = None;
            return Some(Step::Post {
                vp,
                word: PendingWord::Vectors {
                    level: Vtl::One,
                    part: vector / 64,
                },
                bits: 1 << (vector % 64),
            });
        }
        let page = self.told?;
        self.told = None;
        Some(Step::Write {
            page,
            index: REASON,
            value: entry_word(self.reason),
        })
    }
}

/// No step, but that the assist page is told the reason, where it is on.
pub fn nothing(told: Option<Page>, reason: u32) -> Plan
    ensures { result ≡ only_told told reason }
{
    Plan {
        page: Page(0),
        at: 0,
        next: 0,
        count: 0,
        vector: None,
        told,
        reason,
    }
}

/// So many words go to a page, from this place on.
pub fn put_words(page: Page, at: u16, count: u8) -> Plan
    requires few { count ≤ 16 }
    requires inside { at + count ≤ 512 }
    ensures steps { (number : ℕ) (words : List ℕ) → planned number words result ≡ writes page.0 at (take count words) }
    ensures is { IsUntold result }
{
    Plan {
        page,
        at,
        count,
        ..nothing(None, BY_INTERRUPT)
    }
}

/// The same steps, and then the assist page is told the reason, where it is on.
pub fn telling(plan: Plan, told: Option<Page>) -> Plan
    requires { IsUntold plan }
    ensures steps { (number : ℕ) (words : List ℕ)
        → planned number words result ≡ planned number words plan ++ told_on (number_of told) plan.reason }
    ensures is { PlanIs result }
{
    Plan { told, ..plan }
}

/// The slot is told that more messages wait.
fn pending(output: &mut [u64; 16], page: Page, word: u64) -> Plan
    ensures steps { (number : ℕ) → planned number output.new result ≡ pending_steps page.0 word }
    ensures is { IsUntold result }
{
    output[0] = with_pending(word);
    put_words(page, 0, 1)
}

/// A message's words, with MessagePending where more wait.
fn flagged(words: [u64; 12], more: bool) -> [u64; 12]
    ensures { result ≡ flagged_lem more words }
{
    let mut words = words;
    if more {
        words[0] = with_pending(words[0]);
    }
    words
}

impl VpState {
    /// A message goes to the slot.
    fn message(&self, output: &mut [u64; 16], page: Page, words: &[u64; 12]) -> Plan
        ensures steps { planned self.now.number output.new result
            ≡ message_steps self.now.number self.now.state page.0 words.now }
        ensures is { IsUntold result }
    {
        output[..12].copy_from_slice(words);
        let vector = self.sint0_vector();
        Plan {
            page,
            count: 12,
            vector,
            ..nothing(None, BY_INTERRUPT)
        }
    }

    /// The steps by which a new note's message is posted, where the message slot has this first word.
    pub fn posting(&self, output: &mut [u64; 16], note: &Note, word: u64) -> Plan
        ensures steps { planned self.now.number output.new result
            ≡ posting_lem (origin_of self.now) (message_page_lem self.now.limits.pages self.now.state) note.now
            (Some word) }
        ensures is { IsUntold result }
    {
        let Some(page) = self.message_page() else {
            return nothing(None, BY_INTERRUPT);
        };
        if !is_open(Some(word)) {
            return pending(output, page, word);
        }
        if self.controllers.synic.waiting().is_empty() {
            self.message(output, page, &words(note))
        } else {
            nothing(None, BY_INTERRUPT)
        }
    }

    /// The steps of an end of message, where the message slot has this first word.
    pub fn sending(&self, output: &mut [u64; 16], word: u64) -> Plan
        ensures steps { planned self.now.number output.new result
            ≡ sending_lem (origin_of self.now) (message_page_lem self.now.limits.pages self.now.state)
            self.now.controllers.waiting word }
        ensures is { PlanIs result }
    {
        let Some(page) = self.message_page() else {
            return nothing(None, BY_INTERRUPT);
        };
        let waiting = self.controllers.synic.waiting();
        let Some(note) = waiting.first() else {
            return nothing(None, BY_INTERRUPT);
        };
        if !is_open(Some(word)) {
            return pending(output, page, word);
        }
        self.message(output, page, &flagged(words(note), waiting.len() > 1))
    }
}

impl VpState {
    /// What level 1 is told of a denied access.
    pub fn note_of(&self, refusal: &Refusal) -> Note
        ensures { result ≡ note_of_lem (origin_of self.now) refusal.now.gva (refusal_of refusal.now) }
    {
        let level = self.levels.active();
        Note::Memory(MemNote {
            vp: self.number,
            access: refusal.access,
            cs: self.bank.get(level, Name::Cs),
            rip: word_of(&self.bank, &self.levels, Name::Rip),
            rflags: word_of(&self.bank, &self.levels, Name::Rflags),
            gva: refusal.gva,
            gpa: refusal.gpa,
        })
    }

    /// What level 1 is told of a register that it intercepts: a read has value 0.
    fn register_note(&self, name: Name, written: Option<u128>) -> Note
        ensures { result ≡ told_of (origin_of self.now) name written }
    {
        let level = self.levels.active();
        Note::Register(RegNote {
            vp: self.number,
            write: written.is_some(),
            cs: self.bank.get(level, Name::Cs),
            rip: word_of(&self.bank, &self.levels, Name::Rip),
            rflags: word_of(&self.bank, &self.levels, Name::Rflags),
            name: name.number(),
            value: written.unwrap_or(0),
        })
    }

    /// What level 1 is told of an operation whose register it intercepts (TLFS, Register Intercept Messages).
    pub fn hit_note_of(&self, op: &Op) -> Note
        ensures { result ≡ hit_note (origin_of self.now) op.now }
    {
        match op {
            Op::Set(name, value) => self.register_note(*name, Some(*value)),
            Op::Get(name) => self.register_note(*name, None),
            _ => self.register_note(Name::Rax, None),
        }
    }

    /// An access was denied.
    pub fn refused(&self, under: &mut Under, refusal: Refusal)
        ensures { Moves self.now under.old under.new (λ from. refused_lem from refusal.gva (refusal_of refusal)
            (done_by from (with_refusal under.old refusal))) }
    {
        under.refusal = refusal;
        if !self.may_enter() {
            under.leave(Decided::Denied(None));
            return;
        }
        match self.message_page() {
            Some(page) => under.stage = Stage::Look(page, Matter::Denial),
            None => {
                let plan = nothing(self.assist_page(), BY_INTERRUPT);
                under.make(plan, Decided::Denied(None));
            }
        }
    }

    /// The first word of the message slot was read: a note of level 0 is posted.
    fn posted(&self, under: &mut Under, note: &Note, word: u64, decided: Decided)
        requires { DecidedIs (origin_of self.now) under.old decided }
        ensures { Moves self.now under.old under.new
            (λ from. posts from note.now word (outcome_of from under.old decided)) }
    {
        let plan = self.posting(&mut under.output, note, word);
        under.make(telling(plan, self.assist_page()), decided);
    }

    /// The first word of the message slot was read.
    pub fn found(&self, under: &mut Under, matter: Matter, word: u64)
        requires { MatterIs (origin_of self.now) matter }
        ensures { Moves self.now under.old under.new (λ from. by_word from under.old matter word) }
    {
        match matter {
            Matter::Denial => {
                let note = self.note_of(&under.refusal);
                self.posted(under, &note, word, Decided::Denied(Some(word)));
            }
            Matter::Hit => {
                let note = self.hit_note_of(&under.op);
                self.posted(under, &note, word, Decided::Hit(Some(word)));
            }
            Matter::Ending => {
                let plan = self.sending(&mut under.output, word);
                under.make(plan, Decided::Eom(Some(word)));
            }
        }
    }
}

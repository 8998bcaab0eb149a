// What has been read so far, line by line.
ghost use Rattle.std.specs.Prelude.{◌≡◌, IfOk, IsTrue};
ghost use Rattle.std.specs.List.{list_all};
ghost use Rattle.guest_script.specs.Lines.{words_of};
ghost use Rattle.guest_script.specs.Fields.{entries};
ghost use Rattle.guest_script.specs.Line.{Becomes, Collects, is_text, is_comment, vsm_line, vps_line, pages_line, budget_line, started_line, mask_line, word_line, program_line, with_op, set_line, get_line, load_line, store_line, exec_line, spin_line, jump_line, jump_ne_line, hypercall_line, vtl_call_line, vtl_return_line, poll_line, ack_line, eoi_line, eom_line, schedule_line, end_line, after_words, after_line, is_masked, is_begun};
ghost use Rattle.guest_script.specs.Schedules.{all_known};
ghost use Rattle.guest_script.specs.Sound.{IsSound, script_of};
ghost use Rattle.guest_script.specs.declared.reading.LineError.TheVariants.{Memory, Refused};

use crate::fields::{any_number, entry, named_register, no_more, number, operand, register};
use crate::keyword::{Keyword, Stage, keyword_of, stands};
use crate::programs::Programs;
use crate::schedule::{Schedule, turns_of};
use crate::word_list::WordList;
use crate::words::next_word;
use crate::{Script, Turns, Why};
use std::alloc::{AllocError, Global};
use vsm_base::{Gva, Items, Limits, Mask, Page};
use vsm_core::Op;

// How many processors and levels a script may have.
const MOST_VPS: u128 = 8;

const MOST_LEVELS: u128 = 2;

#[derive(Clone, Copy, Debug, PartialEq, Eq)]
pub enum LineError {
    Refused(Why),
    Memory,
}

impl From<Why> for LineError {
    ghost from_gives = { λ why e. e ≡ Refused why };

    fn from(why: Why) -> Self {
        LineError::Refused(why)
    }
}

impl From<AllocError> for LineError {
    ghost from_gives = { λ _ e. e ≡ Memory };

    fn from(_: AllocError) -> Self {
        LineError::Memory
    }
}

/// What has been read so far.
#[derive(Drop)]
pub struct Reading {
    pub stage: Stage,
    pub limits: Limits,
    pub started: u8,
    pub masks: Items<(Page, Mask)>,
    pub words: WordList,
    pub programs: Programs,
    /// The processor and level of each program that was begun.
    pub begun: Items<(u8, u8)>,
    pub schedule: Schedule,
}

fn is_text(line: &[u8]) -> bool
    ensures { result ≡ list_all is_text line.now }
{
    line.iter().all(|b| 32 <= *b && *b <= 126)
}

fn is_comment(word: &[u8]) -> bool
    ensures { result ≡ is_comment word.now }
{
    word.first() == Some(&b'#')
}

fn is_masked(page: u32, masks: &[(Page, Mask)]) -> bool
    ensures { result ≡ is_masked page masks.now }
{
    masks.iter().any(|m| m.0.0 == page)
}

fn is_begun(vp: u8, level: u8, begun: &[(u8, u8)]) -> bool
    ensures { result ≡ is_begun vp level begun.now }
{
    begun.iter().any(|b| b.0 == vp && b.1 == level)
}

// All the words as entries.
fn all_entries(alloc: Global, vps: u8, line: &[u8]) -> Result<Items<Turns>, LineError>
    ensures said { Collects result (entries vps (words_of line.now)) }
    ensures known { IfOk result (λ turns. IsTrue (all_known vps turns)) }
{
    let mut turns = Items::new(alloc);
    let mut rest = line;
    while let Some((word, others)) = next_word(rest) {
        turns.push(entry(vps, word)?)?;
        rest = others;
    }
    Ok(turns)
}

impl Reading {
    ghost use Rattle.guest_script.specs.Grammar.{start};

    pub fn new(alloc: Global) -> Result<Reading, AllocError>
        ensures start { IfOk result (λ r. r ≡ start) }
        ensures sound { IfOk result IsSound }
    {
        let programs = Programs::empty(alloc, 1)?;
        Ok(Reading {
            stage: Stage::Vsm,
            limits: Limits {
                vps: 1,
                pages: 1,
                budget: 1,
            },
            started: 1,
            masks: Items::new(alloc),
            words: WordList::new(alloc),
            programs,
            begun: Items::new(alloc),
            schedule: Schedule::new(alloc),
        })
    }

    #[tactic(auto, unfolding(crate::specs::Line::vsm_line))]
    fn vsm_line(&mut self, rest: &[u8]) -> Result<(), LineError>
        requires sound { IsSound self.old }
        ensures said { Becomes self.new result (vsm_line self.old (words_of rest.now)) }
        ensures sound { IsSound self.new }
    {
        let (_, rest) = number(rest, 1, 2)?;
        no_more(rest)?;
        self.stage = Stage::Vps;
        Ok(())
    }

    #[tactic(auto, unfolding(crate::specs::Line::vps_line))]
    fn vps_line(&mut self, alloc: Global, rest: &[u8]) -> Result<(), LineError>
        requires sound { IsSound self.old }
        ensures said { Becomes self.new result (vps_line self.old (words_of rest.now)) }
        ensures sound { IsSound self.new }
    {
        let (vps, rest) = number(rest, 1, MOST_VPS + 1)?;
        no_more(rest)?;
        let vps = vps as u8;
        self.programs = Programs::empty(alloc, vps)?;
        self.schedule = Schedule::new(alloc);
        self.limits.vps = vps;
        self.started = vps;
        self.stage = Stage::Pages;
        Ok(())
    }

    #[tactic(auto, unfolding(crate::specs::Line::pages_line))]
    fn pages_line(&mut self, rest: &[u8]) -> Result<(), LineError>
        requires sound { IsSound self.old }
        ensures said { Becomes self.new result (pages_line self.old (words_of rest.now)) }
        ensures sound { IsSound self.new }
    {
        let (pages, rest) = number(rest, 1, 257)?;
        no_more(rest)?;
        self.limits.pages = pages as u32;
        self.stage = Stage::Budget;
        Ok(())
    }

    #[tactic(auto, unfolding(crate::specs::Line::budget_line))]
    fn budget_line(&mut self, rest: &[u8]) -> Result<(), LineError>
        requires sound { IsSound self.old }
        ensures said { Becomes self.new result (budget_line self.old (words_of rest.now)) }
        ensures sound { IsSound self.new }
    {
        let (budget, rest) = number(rest, 1, 10_001)?;
        no_more(rest)?;
        self.limits.budget = budget as u32;
        self.stage = Stage::Started;
        Ok(())
    }

    #[tactic(auto, unfolding(crate::specs::Line::started_line))]
    fn started_line(&mut self, rest: &[u8]) -> Result<(), LineError>
        requires sound { IsSound self.old }
        ensures said { Becomes self.new result (started_line self.old (words_of rest.now)) }
        ensures sound { IsSound self.new }
    {
        let (started, rest) = number(rest, 1, u128::from(self.limits.vps) + 1)?;
        no_more(rest)?;
        self.started = started as u8;
        self.stage = Stage::Memory;
        Ok(())
    }

    #[tactic(auto, unfolding(crate::specs::Line::mask_line))]
    fn mask_line(&mut self, rest: &[u8]) -> Result<(), LineError>
        requires sound { IsSound self.old }
        ensures said { Becomes self.new result (mask_line self.old (words_of rest.now)) }
        ensures sound { IsSound self.new }
    {
        let (page, rest) = number(rest, 0, u128::from(self.limits.pages))?;
        let (bits, rest) = number(rest, 0, 16)?;
        let Some(mask) = Mask::of(bits as u32) else {
            return Err(LineError::Refused(Why::OutOfRange));
        };
        no_more(rest)?;
        if is_masked(page as u32, self.masks.as_slice()) {
            return Err(LineError::Refused(Why::Twice));
        }
        self.masks.push((Page(page as u32), mask))?;
        Ok(())
    }

    #[tactic(auto, unfolding(crate::specs::Line::word_line))]
    fn word_line(&mut self, rest: &[u8]) -> Result<(), LineError>
        requires sound { IsSound self.old }
        ensures said { Becomes self.new result (word_line self.old (words_of rest.now)) }
        ensures sound { IsSound self.new }
    {
        let (page, rest) = number(rest, 0, u128::from(self.limits.pages))?;
        let (index, rest) = number(rest, 0, 512)?;
        let (value, rest) = number(rest, 0, 1 << 64)?;
        no_more(rest)?;
        if self.words.has(page as u32, index as u16) {
            return Err(LineError::Refused(Why::Twice));
        }
        self.words.push(page as u32, index as u16, value as u64)?;
        Ok(())
    }

    #[tactic(auto, unfolding(crate::specs::Line::program_line))]
    fn program_line(&mut self, rest: &[u8]) -> Result<(), LineError>
        requires sound { IsSound self.old }
        ensures said { Becomes self.new result (program_line self.old (words_of rest.now)) }
        ensures sound { IsSound self.new }
    {
        let (vp, rest) = number(rest, 0, u128::from(self.limits.vps))?;
        let (level, rest) = number(rest, 0, MOST_LEVELS)?;
        no_more(rest)?;
        if is_begun(vp as u8, level as u8, self.begun.as_slice()) {
            return Err(LineError::Refused(Why::Twice));
        }
        self.begun.push((vp as u8, level as u8))?;
        self.stage = Stage::Program(vp as u8, level as u8);
        Ok(())
    }

    // One more operation of the program that was begun last.
    fn add(&mut self, op: Op) -> Result<(), LineError>
        requires sound { IsSound self.old }
        ensures said { Becomes self.new result (with_op self.old op) }
        ensures sound { IsSound self.new }
    {
        let Stage::Program(vp, level) = self.stage else {
            return Err(LineError::Refused(Why::OutOfOrder));
        };
        if self.programs.operations(usize::from(vp), level) >= 4096 {
            return Err(LineError::Refused(Why::TooMany));
        }
        self.programs.add(usize::from(vp), level, op)?;
        Ok(())
    }

    #[tactic(auto, unfolding(crate::specs::Line::set_line))]
    fn set_line(&mut self, rest: &[u8]) -> Result<(), LineError>
        requires sound { IsSound self.old }
        ensures said { Becomes self.new result (set_line self.old (words_of rest.now)) }
        ensures sound { IsSound self.new }
    {
        let (target, rest) = named_register(rest)?;
        let (value, rest) = any_number(rest)?;
        no_more(rest)?;
        self.add(Op::Set(target, value))
    }

    #[tactic(auto, unfolding(crate::specs::Line::get_line))]
    fn get_line(&mut self, rest: &[u8]) -> Result<(), LineError>
        requires sound { IsSound self.old }
        ensures said { Becomes self.new result (get_line self.old (words_of rest.now)) }
        ensures sound { IsSound self.new }
    {
        let (name, rest) = named_register(rest)?;
        no_more(rest)?;
        self.add(Op::Get(name))
    }

    #[tactic(auto, unfolding(crate::specs::Line::load_line))]
    fn load_line(&mut self, rest: &[u8]) -> Result<(), LineError>
        requires sound { IsSound self.old }
        ensures said { Becomes self.new result (load_line self.old (words_of rest.now)) }
        ensures sound { IsSound self.new }
    {
        let (target, rest) = register(rest)?;
        let (address, rest) = number(rest, 0, 1 << 64)?;
        no_more(rest)?;
        self.add(Op::Load(target, Gva(address as u64)))
    }

    #[tactic(auto, unfolding(crate::specs::Line::store_line))]
    fn store_line(&mut self, rest: &[u8]) -> Result<(), LineError>
        requires sound { IsSound self.old }
        ensures said { Becomes self.new result (store_line self.old (words_of rest.now)) }
        ensures sound { IsSound self.new }
    {
        let (address, rest) = number(rest, 0, 1 << 64)?;
        let (value, rest) = operand(rest)?;
        no_more(rest)?;
        self.add(Op::Store(Gva(address as u64), value))
    }

    #[tactic(auto, unfolding(crate::specs::Line::exec_line))]
    fn exec_line(&mut self, rest: &[u8]) -> Result<(), LineError>
        requires sound { IsSound self.old }
        ensures said { Becomes self.new result (exec_line self.old (words_of rest.now)) }
        ensures sound { IsSound self.new }
    {
        let (address, rest) = number(rest, 0, 1 << 64)?;
        no_more(rest)?;
        self.add(Op::Exec(Gva(address as u64)))
    }

    #[tactic(auto, unfolding(crate::specs::Line::spin_line))]
    fn spin_line(&mut self, rest: &[u8]) -> Result<(), LineError>
        requires sound { IsSound self.old }
        ensures said { Becomes self.new result (spin_line self.old (words_of rest.now)) }
        ensures sound { IsSound self.new }
    {
        let (address, rest) = number(rest, 0, 1 << 64)?;
        let (value, rest) = number(rest, 0, 1 << 64)?;
        no_more(rest)?;
        self.add(Op::Spin(Gva(address as u64), value as u64))
    }

    #[tactic(auto, unfolding(crate::specs::Line::jump_line))]
    fn jump_line(&mut self, rest: &[u8]) -> Result<(), LineError>
        requires sound { IsSound self.old }
        ensures said { Becomes self.new result (jump_line self.old (words_of rest.now)) }
        ensures sound { IsSound self.new }
    {
        let (target, rest) = number(rest, 0, 1 << 64)?;
        no_more(rest)?;
        self.add(Op::Jump(target as u64))
    }

    #[tactic(auto, unfolding(crate::specs::Line::jump_ne_line))]
    fn jump_ne_line(&mut self, rest: &[u8]) -> Result<(), LineError>
        requires sound { IsSound self.old }
        ensures said { Becomes self.new result (jump_ne_line self.old (words_of rest.now)) }
        ensures sound { IsSound self.new }
    {
        let (name, rest) = register(rest)?;
        let (value, rest) = number(rest, 0, 1 << 64)?;
        let (target, rest) = number(rest, 0, 1 << 64)?;
        no_more(rest)?;
        self.add(Op::JumpNe(name, value as u64, target as u64))
    }

    #[tactic(auto, unfolding(crate::specs::Line::hypercall_line))]
    fn hypercall_line(&mut self, rest: &[u8]) -> Result<(), LineError>
        requires sound { IsSound self.old }
        ensures said { Becomes self.new result (hypercall_line self.old (words_of rest.now)) }
        ensures sound { IsSound self.new }
    {
        no_more(rest)?;
        self.add(Op::Hypercall)
    }

    #[tactic(auto, unfolding(crate::specs::Line::vtl_call_line))]
    fn vtl_call_line(&mut self, rest: &[u8]) -> Result<(), LineError>
        requires sound { IsSound self.old }
        ensures said { Becomes self.new result (vtl_call_line self.old (words_of rest.now)) }
        ensures sound { IsSound self.new }
    {
        no_more(rest)?;
        self.add(Op::VtlCall)
    }

    #[tactic(auto, unfolding(crate::specs::Line::vtl_return_line))]
    fn vtl_return_line(&mut self, rest: &[u8]) -> Result<(), LineError>
        requires sound { IsSound self.old }
        ensures said { Becomes self.new result (vtl_return_line self.old (words_of rest.now)) }
        ensures sound { IsSound self.new }
    {
        no_more(rest)?;
        self.add(Op::VtlReturn)
    }

    #[tactic(auto, unfolding(crate::specs::Line::poll_line))]
    fn poll_line(&mut self, rest: &[u8]) -> Result<(), LineError>
        requires sound { IsSound self.old }
        ensures said { Becomes self.new result (poll_line self.old (words_of rest.now)) }
        ensures sound { IsSound self.new }
    {
        no_more(rest)?;
        self.add(Op::Poll)
    }

    #[tactic(auto, unfolding(crate::specs::Line::ack_line))]
    fn ack_line(&mut self, rest: &[u8]) -> Result<(), LineError>
        requires sound { IsSound self.old }
        ensures said { Becomes self.new result (ack_line self.old (words_of rest.now)) }
        ensures sound { IsSound self.new }
    {
        let (target, rest) = register(rest)?;
        no_more(rest)?;
        self.add(Op::Ack(target))
    }

    #[tactic(auto, unfolding(crate::specs::Line::eoi_line))]
    fn eoi_line(&mut self, rest: &[u8]) -> Result<(), LineError>
        requires sound { IsSound self.old }
        ensures said { Becomes self.new result (eoi_line self.old (words_of rest.now)) }
        ensures sound { IsSound self.new }
    {
        no_more(rest)?;
        self.add(Op::Eoi)
    }

    #[tactic(auto, unfolding(crate::specs::Line::eom_line))]
    fn eom_line(&mut self, rest: &[u8]) -> Result<(), LineError>
        requires sound { IsSound self.old }
        ensures said { Becomes self.new result (eom_line self.old (words_of rest.now)) }
        ensures sound { IsSound self.new }
    {
        no_more(rest)?;
        self.add(Op::Eom)
    }

    #[tactic(auto, unfolding(crate::specs::Line::schedule_line), using(crate::proofs::Known::known_line))]
    fn schedule_line(&mut self, alloc: Global, rest: &[u8]) -> Result<(), LineError>
        requires sound { IsSound self.old }
        ensures said { Becomes self.new result (schedule_line self.old (words_of rest.now)) }
        ensures sound { IsSound self.new }
    {
        if next_word(rest).is_none() {
            return Err(LineError::Refused(Why::MissingWord));
        }
        let line = all_entries(alloc, self.limits.vps, rest)?;
        let more = turns_of(line.as_slice());
        if more.saturating_add(self.schedule.turns()) > 100_000 {
            return Err(LineError::Refused(Why::TooMany));
        }
        self.schedule.push(line, more)?;
        self.stage = Stage::Schedule;
        Ok(())
    }

    #[tactic(auto, unfolding(crate::specs::Line::end_line))]
    fn end_line(&mut self, rest: &[u8]) -> Result<(), LineError>
        requires sound { IsSound self.old }
        ensures said { Becomes self.new result (end_line self.old (words_of rest.now)) }
        ensures sound { IsSound self.new }
    {
        no_more(rest)?;
        self.stage = Stage::Done;
        Ok(())
    }

    fn after_keyword(
        &mut self,
        alloc: Global,
        keyword: Keyword,
        rest: &[u8],
    ) -> Result<(), LineError>
        requires sound { IsSound self.old }
        ensures said { Becomes self.new result (after_words self.old keyword (words_of rest.now)) }
        ensures sound { IsSound self.new }
    {
        match keyword {
            Keyword::Vsm => self.vsm_line(rest),
            Keyword::Vps => self.vps_line(alloc, rest),
            Keyword::Pages => self.pages_line(rest),
            Keyword::Budget => self.budget_line(rest),
            Keyword::Started => self.started_line(rest),
            Keyword::Mask => self.mask_line(rest),
            Keyword::Word => self.word_line(rest),
            Keyword::Program => self.program_line(rest),
            Keyword::Set => self.set_line(rest),
            Keyword::Get => self.get_line(rest),
            Keyword::Load => self.load_line(rest),
            Keyword::Store => self.store_line(rest),
            Keyword::Exec => self.exec_line(rest),
            Keyword::Spin => self.spin_line(rest),
            Keyword::Jump => self.jump_line(rest),
            Keyword::JumpNe => self.jump_ne_line(rest),
            Keyword::Hypercall => self.hypercall_line(rest),
            Keyword::VtlCall => self.vtl_call_line(rest),
            Keyword::VtlReturn => self.vtl_return_line(rest),
            Keyword::Poll => self.poll_line(rest),
            Keyword::Ack => self.ack_line(rest),
            Keyword::Eoi => self.eoi_line(rest),
            Keyword::Eom => self.eom_line(rest),
            Keyword::Schedule => self.schedule_line(alloc, rest),
            Keyword::End => self.end_line(rest),
        }
    }

    /// Reads a line. One that has no words, or whose first word begins with a number sign, changes nothing.
    #[tactic(auto, unfolding(crate::specs::Line::after_line))]
    pub fn line(&mut self, alloc: Global, line: &[u8]) -> Result<(), LineError>
        requires sound { IsSound self.old }
        ensures said { Becomes self.new result (after_line self.old line.now) }
        ensures sound { IsSound self.new }
    {
        if !is_text(line) {
            return Err(LineError::Refused(Why::NotText));
        }
        let Some((word, rest)) = next_word(line) else {
            return Ok(());
        };
        if is_comment(word) {
            return Ok(());
        }
        let Some(keyword) = keyword_of(word) else {
            return Err(LineError::Refused(Why::UnknownWord));
        };
        if !stands(keyword, self.stage) {
            return Err(LineError::Refused(Why::OutOfOrder));
        }
        self.after_keyword(alloc, keyword, rest)
    }

    /// The script that has been read.
    pub fn into_script(self) -> Script
        ensures { result ≡ script_of self }
    {
        Script {
            limits: self.limits,
            started: self.started,
            masks: self.masks,
            words: self.words.into_items(),
            programs: self.programs.into_items(),
            schedule: self.schedule.into_lines(),
        }
    }
}

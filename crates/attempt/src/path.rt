// One access under way: what it is for, how far it has come, and what is done by the answer of its next step.
ghost use Rattle.std.specs.Prelude.{◌≡◌, ◌<◌, ◌≤◌, ℕ, IfErr, OnOk, IsTrue, List};
ghost use Rattle.page_walk.specs.Half.{Stands};
ghost use Rattle.page_walk.specs.Told.{Tells, GoesOn, translation_of};
ghost use Rattle.vsm_base.specs.Masks.{is_mask};
ghost use Rattle.vsm_core.specs.Access.{start_fault, Decision, at_table, at_page};
ghost use Rattle.vsm_core.specs.Access.{from_check, query_of, by_mask, by_table_mask};
ghost use Rattle.vsm_core.specs.Tree.{after, Tree};
ghost use Rattle.vsm_core.specs.Walk.{Walked, is_paging};
ghost use Rattle.attempt.specs.Asked.{word_step};
ghost use Rattle.attempt.specs.Nexts.{IsNext, IsAnswerTo};
ghost use Rattle.attempt.specs.Paths.{found_by, goal_of, path_rest, IsPlaced, IsWalking, Leads, Reaches};
ghost use Rattle.attempt.specs.Paths.{place_rest, table_rest, taken_of, tables_of};

use crate::stage::{Refusal, Step};
use page_walk::{Translation, Walk, WalkStep};
use vsm_base::{Access, Gva, Mask, Page, Vtl};
use vsm_core::GuestFault;

/// One access, as an operation of a level asks for it.
#[derive(Clone, Copy)]
pub struct Aim {
    /// The level that makes it. No mask binds level 1.
    pub level: Vtl,
    /// The privilege level, 0 to 3 (Intel SDM, Privilege Levels).
    pub cpl: u8,
    /// Control register CR0, whose bit 31 turns paging on (Intel SDM, Control Registers).
    pub cr0: u64,
    /// Control register CR3, whose bits 51:12 name the page of the first table.
    pub cr3: u64,
    /// The address.
    pub gva: Gva,
    /// What it does to the word.
    pub access: Access,
    /// The bits that the mask of the data page must have at level 0.
    pub need: u32,
    /// Whether the address must be a multiple of 8.
    pub aligned: bool,
    /// What a write stores.
    pub value: u64,
    /// The page count: pages at or above it are unmapped.
    pub pages: u32,
}

/// Where an access leads: the address page, where that leads, the mask of that page, where one binds, and the
/// generation that was checked. It is what a cache keeps of an access that walked.
#[derive(Clone, Copy)]
pub struct Fill {
    pub at: u64,
    pub to: Translation,
    pub mask: Option<Mask>,
    pub generation: u64,
}

/// The step that comes next.
#[derive(Clone, Copy)]
pub enum Place {
    /// The access is entered.
    Start,
    /// The generation is checked.
    Check,
    /// The mask of a table's page is loaded.
    TableMask,
    /// An entry of a table is read.
    TableRead,
    /// The mask of the page to which it leads is loaded.
    DataMask,
    /// The word itself is read or written.
    Data,
}

/// One access under way: what it is for and how far it has come; its walk, how many entries that has taken, and which,
/// and the place of the one that it wants; and where it leads. A part is known where the next step needs it.
#[derive(Clone, Copy)]
pub struct Path {
    pub aim: Aim,
    pub place: Place,
    pub walk: Walk,
    pub taken: u8,
    pub entries: [u64; 4],
    pub page: Page,
    pub index: u16,
    pub fill: Fill,
}

/// Where an answer has led an access: on, or to its end. A grant has the word's value.
#[derive(Clone, Copy)]
pub enum Reached {
    On,
    Granted(u64),
    Denied(Refusal),
    Fault(GuestFault),
}

/// Why an access has no first step: `Align` where the address must be a multiple of 8 and isn't; else `Noncanonical`
/// where paging is on and the address isn't canonical (Intel SDM, Canonical Addressing).
pub fn may_start(aim: &Aim) -> Result<(), GuestFault>
    ensures ok { OnOk result (start_fault (goal_of aim.now) ≡ None) }
    ensures err { IfErr result (λ fault. start_fault (goal_of aim.now) ≡ Some fault) }
{
    if aim.aligned && aim.gva.0 % 8 != 0 {
        return Err(GuestFault::Align);
    }
    if paging(aim.cr0) {
        Walk::start(aim.cr3, aim.gva, aim.access, aim.cpl)?;
    }
    Ok(())
}

/// The mask that a mask word held.
pub fn mask_of(answer: u64) -> Mask
    requires { IsTrue (is_mask answer) }
    ensures { result ≡ answer }
{
    let Some(mask) = Mask::of(answer as u32) else {
        unreachable!()
    };
    mask
}

/// Whether paging is on (Intel SDM, Control Registers).
fn paging(cr0: u64) -> bool
    ensures { result ≡ is_paging cr0 }
{
    cr0 / (1 << 31) % 2 == 1
}

impl Path {
    /// The step that comes next.
    pub fn next(&self) -> Step
        requires { IsPlaced self.now }
        ensures { IsNext (path_rest self.now) (word_step result) }
    {
        match self.place {
            Place::Start => Step::Enter,
            Place::Check => Step::Check,
            Place::TableMask => Step::Mask { page: self.page },
            Place::TableRead => Step::Read {
                page: self.page,
                index: self.index,
            },
            Place::DataMask => Step::Mask {
                page: Page(self.fill.to.page as u32),
            },
            Place::Data => {
                let page = Page(self.fill.to.page as u32);
                let index = (self.aim.gva.0 / 8 % 512) as u16;
                let value = self.aim.value;
                match self.aim.access {
                    Access::Read | Access::Execute => Step::Read { page, index },
                    Access::Write => Step::Write { page, index, value },
                }
            }
        }
    }

    /// Where that step's answer leads.
    pub fn resume(&mut self, answer: u64) -> Reached
        requires is { IsPlaced self.old }
        requires answer { IsAnswerTo (path_rest self.old) answer }
        ensures { Reaches self.old.aim self.new result (after (path_rest self.old) answer) }
    {
        match self.place {
            Place::Start => {
                self.place = Place::Check;
                Reached::On
            }
            Place::Check => self.checked(answer),
            Place::TableMask => self.table_masked(mask_of(answer)),
            Place::TableRead => self.entered(answer),
            Place::DataMask => self.data_masked(mask_of(answer)),
            Place::Data => Reached::Granted(self.found(answer)),
        }
    }

    /// The value of the word: what was read there, or what was written.
    fn found(&self, answer: u64) -> u64
        ensures { result ≡ found_by self.now.aim.access self.now.aim.value answer }
    {
        match self.aim.access {
            Access::Read | Access::Execute => answer,
            Access::Write => self.aim.value,
        }
    }

    /// The generation is known.
    fn checked(&mut self, generation: u64) -> Reached
        ensures { Reaches self.old.aim self.new result (from_check (goal_of self.old.aim) generation) }
    {
        self.fill.generation = generation;
        if !paging(self.aim.cr0) {
            return self.at_data(Translation {
                page: self.aim.gva.0 / 4096,
                write: true,
                user: true,
                execute: true,
            });
        }
        match Walk::start(self.aim.cr3, self.aim.gva, self.aim.access, self.aim.cpl) {
            Ok(walk) => {
                let (page, index) = walk.first();
                self.walk = walk;
                self.taken = 0;
                self.at_walk(WalkStep::Need(page, index))
            }
            Err(fault) => Reached::Fault(fault),
        }
    }

    /// The walk wants an entry, is at its end, or fails.
    fn at_walk(&mut self, step: WalkStep) -> Reached
        requires goes_on { GoesOn step self.old.walk }
        requires taken { self.old.taken ≤ 4 }
        ensures { (now : Walked) (next : List ℕ → Tree Decision)
            → Tells step now (Stands self.old.walk (query_of (goal_of self.old.aim)) (taken_of self.old))
            → (self.old.taken < 4 → next ≡ tables_of self.old) → Reaches self.old.aim self.new result
            (at_table next (goal_of self.old.aim) (taken_of self.old) self.old.fill.generation now) }
    {
        match step {
            WalkStep::Need(page, _) if page >= u64::from(self.aim.pages) => Reached::Fault(
                GuestFault::Unmapped,
            ),
            WalkStep::Need(page, index) => self.wants(Page(page as u32), index),
            WalkStep::Mapped(to) => self.at_data(to),
            WalkStep::Fault(fault) => Reached::Fault(fault),
        }
    }

    /// The walk has come to the table of its next entry, in a page that is there.
    fn wants(&mut self, page: Page, index: u16) -> Reached
        ensures { IsWalking self.old → Reaches self.old.aim self.new result (table_rest self.old page.0 index) }
    {
        self.page = page;
        self.index = index;
        match self.aim.level {
            Vtl::Zero => self.place = Place::TableMask,
            Vtl::One => self.place = Place::TableRead,
        }
        Reached::On
    }

    /// The data page is known.
    fn at_data(&mut self, to: Translation) -> Reached
        ensures { Reaches self.old.aim self.new result
            (at_page (goal_of self.old.aim) (translation_of to) self.old.fill.generation) }
    {
        if to.page >= u64::from(self.aim.pages) {
            return Reached::Fault(GuestFault::Unmapped);
        }
        self.fill.at = self.aim.gva.0 / 4096;
        self.fill.to = to;
        self.fill.mask = None;
        match self.aim.level {
            Vtl::Zero => self.place = Place::DataMask,
            Vtl::One => self.place = Place::Data,
        }
        Reached::On
    }

    /// The mask of a table's page is known.
    fn table_masked(&mut self, mask: Mask) -> Reached
        requires { IsWalking self.old }
        ensures { Reaches self.old.aim self.new result (by_table_mask (tables_of self.old) (taken_of self.old)
            self.old.fill.generation self.old.page.0 self.old.index mask) }
    {
        if mask.allows(Access::Read) {
            self.place = Place::TableRead;
            return Reached::On;
        }
        let index = self.index;
        Reached::Denied(Refusal {
            page: self.page,
            mask,
            generation: self.fill.generation,
            access: Access::Read,
            gva: Some(self.aim.gva.0),
            gpa: u64::from(self.page.0) * 4096 + u64::from(index) * 8,
            filled: false,
        })
    }

    /// An entry of a table is read.
    fn entered(&mut self, entry: u64) -> Reached
        requires { IsWalking self.old }
        ensures { Reaches self.old.aim self.new result (after (place_rest self.old Place.TableRead) entry) }
    {
        let step = self.walk.next(entry);
        self.entries[self.taken as usize] = entry;
        self.taken += 1;
        self.at_walk(step)
    }

    /// The mask of the data page is known.
    fn data_masked(&mut self, mask: Mask) -> Reached
        requires { Leads self.old }
        ensures { Reaches self.old.aim self.new result
            (by_mask (goal_of self.old.aim) (translation_of self.old.fill.to) self.old.fill.generation mask) }
    {
        self.fill.mask = Some(mask);
        if mask.bits() & self.aim.need == self.aim.need {
            self.place = Place::Data;
            return Reached::On;
        }
        let page = Page(self.fill.to.page as u32);
        Reached::Denied(Refusal {
            page,
            mask,
            generation: self.fill.generation,
            access: self.aim.access,
            gva: Some(self.aim.gva.0),
            gpa: u64::from(page.0) * 4096 + self.aim.gva.0 % 4096,
            filled: true,
        })
    }
}

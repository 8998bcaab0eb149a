// The entries of a partition.
ghost use Rattle.std.specs.Prelude.{◌≡◌, ◌↔◌, ◌<◌, ◌≤◌, length, slice_index, IsErr, IfOk, IfErr, OnOk, OnErr};
ghost use Rattle.vsm_core.specs.Journal.{masks, settled, rounds};
ghost use Rattle.protection_map.specs.JournalView.{empty_journal, with_entry, with_ask, IsWithin};

use crate::tables::Tables;
use std::alloc::Global;
use std::marker::Model;
use vsm_base::{HvStatus, Items, Limits, Mask, Memory, Page, Reserved};
use vsm_core::Entry;

/// The journal of a partition: what became of its requests, the oldest entry first, over the masks that its pages had
/// before the first entry. Contracts see these opening masks, the entries, and for how many entries room was taken when
/// it was made. It takes no memory after that. A mask is one of TLFS, HvCallModifyVtlProtectionMask; the journal is this
/// project's own.
#[derive(Debug, Drop)]
pub struct Journal {
    opening: Vec<Mask>,
    tables: Tables,
    entries: Reserved<Entry>,
}

impl Model for Journal {
    ghost use Rattle.protection_map.specs.JournalView.{JournalView};
    ghost use Rattle.protection_map.specs.TablesOf.{IsKept};

    ghost Value = { JournalView };

    ghost view = { λ j. record { opening = j.opening.items; entries = j.entries.0; room = j.entries.1 } };

    ghost invariant = { λ j. IsKept j.opening.items j.tables j.entries.0 j.entries.1 };
}

impl Journal {
    /// A journal with no entry over these opening masks, one for each page. Its room is `vps + 11` entries for each mark
    /// that some processor may leave, `vps * budget` of them, and one entry for each page. Needs at most 8 processors,
    /// 256 pages and a budget of 10,000 marks.
    ///
    /// # Errors
    /// `Memory` where there is no memory for that room or for the masks, and for no other cause.
    pub fn new(alloc: Global, limits: &Limits, opening: &[Mask]) -> Result<Journal, Memory>
        requires vps { limits.now.vps ≤ 8 }
        requires pages { limits.now.pages ≤ 256 }
        requires budget { limits.now.budget ≤ 10000 }
        requires masks { length opening.now ≡ limits.now.pages }
        ensures { IfOk result (λ journal. journal ≡ empty_journal limits.now opening.now) }
    {
        let vps = limits.vps as usize;
        let room = vps * limits.budget as usize * (vps + 11) + limits.pages as usize;
        Ok(Journal {
            opening: opening.to_vec(alloc)?,
            tables: Tables::new(alloc, opening)?,
            entries: Reserved::new(alloc, room)?,
        })
    }

    /// Adds an entry at the end. Needs room for one entry, and that the page of an `Entry::Ask` is below the number of
    /// pages.
    pub fn add(&mut self, entry: Entry)
        requires room { length self.old.entries < self.old.room }
        requires page { IsWithin (length self.old.opening) entry }
        ensures { self.new ≡ with_entry self.old entry }
    {
        self.tables.follow(&entry);
        self.entries.push(entry);
    }

    /// Asks for the mask of a page: adds an `Entry::Ask` at the end. Needs room for one entry.
    ///
    /// # Errors
    /// `HvStatus::INVALID_PARAMETER` exactly where the page isn't below the number of pages. Then nothing changes. The
    /// status is this project's own choice.
    pub fn ask(&mut self, page: u64, mask: Mask) -> Result<(), HvStatus>
        requires room { length self.old.entries < self.old.room }
        ensures exact { IsErr result ↔ (length self.old.opening ≤ page) }
        ensures err { IfErr result (λ status. status ≡ HvStatus.INVALID_PARAMETER) }
        ensures ok { OnOk result (self.new ≡ with_ask self.old page mask) }
        ensures refused { OnErr result (self.new ≡ self.old) }
    {
        if page >= self.opening.len() as u64 {
            return Err(HvStatus::INVALID_PARAMETER);
        }
        let page = Page(page as u32);
        self.add(Entry::Ask { page, mask });
        Ok(())
    }

    /// The entries, the oldest first.
    pub fn entries(&self) -> &[Entry]
        ensures { result.now ≡ self.now.entries }
    {
        self.entries.as_slice()
    }

    /// Gives up the journal for its entries, the oldest first. None of them is copied.
    pub fn into_entries(self) -> Items<Entry>
        ensures { result ≡ self.entries }
    {
        let Journal {
            opening: _,
            tables: _,
            entries,
        } = self;
        entries.into_items()
    }

    /// The mask of each page, by its number: the opening masks, with each ask applied in its turn.
    pub fn masks(&self) -> &[Mask]
        ensures masks { result.now ≡ masks self.now.opening self.now.entries }
        ensures pages { length result.now ≡ length self.now.opening }
    {
        &self.tables.masks
    }

    /// The mask that the page had when a round was last reported, and its opening mask where none was. The page must be
    /// below the number of pages.
    pub fn settled(&self, page: Page) -> Mask
        requires { page.0 < length self.now.opening }
        ensures { result ≡ slice_index (settled self.now.opening self.now.entries) page.0 }
    {
        self.tables.settled[page.0 as usize]
    }

    /// How many rounds were reported.
    pub fn rounds(&self) -> u64
        ensures { result ≡ rounds self.now.entries }
    {
        self.tables.rounds
    }
}

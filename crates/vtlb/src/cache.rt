// The cache of a processor.
ghost use Rattle.std.specs.Prelude.{◌≡◌, [], ◌∷◌};
ghost use Rattle.page_walk.specs.Told.{translation_of};
ghost use Rattle.vsm_core.specs.Fills.{Filled, Dropped, Emptied};
ghost use Rattle.vsm_core.specs.Hits.{hit};
ghost use Rattle.vtlb.specs.Told.{fill_of, found_of, told_of};

use crate::past::Past;
use crate::slot::{Cached, Done, Slot};
use crate::slots::{Slots, answer_of, nothing, place_of, without};
use page_walk::Translation;
use std::marker::Model;
use vsm_base::{Mask, Vtl};

/// The translations that a processor keeps (Intel SDM, Caching Translation Information). Each level has 64 places, and
/// an address page has the place of its number modulo 64: this project's own. Contracts see all that was done to the
/// translations, newest first.
///
/// An address page is an address divided by 4,096. The generation counts the rounds of protection that are reported,
/// and what was kept at another one is no longer used: this project's own, too.
#[derive(Drop)]
pub struct Cache {
    slots: Slots,
    past: Past,
}

impl Model for Cache {
    ghost use Rattle.std.specs.Prelude.{List};
    ghost use Rattle.vsm_core.specs.Fills.{Cached as Happened};
    ghost use Rattle.vtlb.specs.Fits.{Fits};

    ghost Value = { List Happened };

    ghost view = { λ c. c.past };

    ghost invariant = { λ c. Fits c.slots c.past };
}

impl Cache {
    /// Nothing is kept.
    pub fn new() -> Cache
        ensures { result ≡ [] }
    {
        Cache {
            slots: Slots {
                zero: nothing(),
                one: nothing(),
            },
            past: Past::new(),
        }
    }

    /// What is kept of an address page at a level. `None` exactly where nothing was kept in its place yet, or since the
    /// level was dropped, where what was kept there last is of another address page or of another generation than this,
    /// or where the address page was dropped since.
    pub fn lookup(&self, level: Vtl, page: u64, generation: u64) -> Option<Cached>
        ensures { told_of result ≡ found_of (hit self.now level page generation) }
    {
        let slot = self.slots.at(level, place_of(page));
        answer_of(slot, page, generation)
    }

    /// Keeps where an address page leads at a level, with the generation that was checked before the walk and the mask
    /// of the page that it leads to (none for level 1). It takes the place of what was kept there.
    pub fn fill(
        &mut self,
        level: Vtl,
        page: u64,
        generation: u64,
        to: Translation,
        mask: Option<Mask>,
    )
        ensures { self.new
            ≡ Filled level (record { at = page; to = translation_of to; mask = mask; generation = generation })
            ∷ self.old }
    {
        let slot = slot_of(page, generation, &to, &mask);
        let done = slot_of(page, generation, &to, &mask);
        self.slots.put(level, place_of(page), Some(slot));
        self.past.add(Done::Filled(level, done));
    }

    /// Drops an address page of a level (Intel SDM, INVLPG). Another one in its place stays.
    pub fn drop_page(&mut self, level: Vtl, page: u64)
        ensures { self.new ≡ Dropped level page ∷ self.old }
    {
        let place = place_of(page);
        let old = self.slots.at(level, place);
        let new = without(old, page);
        self.slots.put(level, place, new);
        self.past.add(Done::Dropped(level, page));
    }

    /// Drops all that is kept at a level, as a write of its CR0, CR3 or CR4 does (Intel SDM, Operations that Invalidate
    /// TLBs and Paging-Structure Caches; that each such write does is this project's own).
    pub fn drop_level(&mut self, level: Vtl)
        ensures { self.new ≡ Emptied level ∷ self.old }
    {
        self.slots.empty(level);
        self.past.add(Done::Emptied(level));
    }
}

// A translation as a place holds it.
fn slot_of(page: u64, generation: u64, to: &Translation, mask: &Option<Mask>) -> Slot
    ensures { fill_of result
        ≡ record { at = page; to = translation_of to.now; mask = mask.now; generation = generation } }
{
    Slot {
        at: page,
        kept: Cached {
            to: *to,
            mask: *mask,
        },
        generation,
    }
}

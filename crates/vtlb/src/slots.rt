// The places of both levels.
ghost use Rattle.std.specs.Prelude.{◌≡◌, ◌<◌, ◌%◌};
ghost use Rattle.vtlb.specs.Slots.{answer, dropped, emptied, nones, put_at, slot_at};
ghost use Rattle.vtlb.specs.Told.{found_of, told_of};

use crate::slot::{Cached, Slot};
use vsm_base::Vtl;

#[derive(Drop)]
pub(crate) struct Slots {
    pub(crate) zero: [Option<Slot>; 64],
    pub(crate) one: [Option<Slot>; 64],
}

impl Slots {
    // What a place of a level holds.
    pub(crate) fn at(&self, level: Vtl, place: usize) -> Option<Slot>
        requires { place < 64 }
        ensures { result ≡ slot_at self.now level place }
    {
        match level {
            Vtl::Zero => self.zero[place],
            Vtl::One => self.one[place],
        }
    }

    // From now on a place of a level holds this.
    pub(crate) fn put(&mut self, level: Vtl, place: usize, slot: Option<Slot>)
        requires { place < 64 }
        ensures { self.new ≡ put_at self.old level place slot }
    {
        match level {
            Vtl::Zero => self.zero[place] = slot,
            Vtl::One => self.one[place] = slot,
        }
    }

    // No place of a level holds anything.
    pub(crate) fn empty(&mut self, level: Vtl)
        ensures { self.new ≡ emptied self.old level }
    {
        match level {
            Vtl::Zero => self.zero = nothing(),
            Vtl::One => self.one = nothing(),
        }
    }
}

// The place of an address page.
pub(crate) fn place_of(page: u64) -> usize
    ensures { result ≡ page % 64 }
{
    (page % 64) as usize
}

// What a place answers to a look for an address page at a generation.
pub(crate) fn answer_of(slot: Option<Slot>, page: u64, generation: u64) -> Option<Cached>
    ensures { told_of result ≡ found_of (answer slot page generation) }
{
    match slot {
        None => None,
        Some(slot) => if slot.at == page && slot.generation == generation {
            Some(slot.kept)
        } else {
            None
        },
    }
}

// What a place holds after a drop of an address page.
pub(crate) fn without(slot: Option<Slot>, page: u64) -> Option<Slot>
    ensures { result ≡ dropped slot page }
{
    match slot {
        None => None,
        Some(slot) => if slot.at == page { None } else { Some(slot) },
    }
}

// The places of a level that keeps nothing.
pub(crate) fn nothing() -> [Option<Slot>; 64]
    ensures { result ≡ nones }
{
    [None; 64]
}

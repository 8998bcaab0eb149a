// A processor's way to a plain fabric.
ghost use Rattle.std.specs.Prelude.{◌≡◌, None, Some, get_or};

use crate::count::one_more;
use crate::layout::{busy_place, memory_word, posted_word};
use crate::plain::PlainFabric;
use crate::port::Port;
use vsm_base::{Mask, Page, VpIndex};
use vsm_core::{Event, PendingWord, Phase};

/// The way of one processor to a plain fabric.
#[derive(Drop)]
pub struct PlainPort<'a> {
    fabric: &'a mut PlainFabric,
    vp: VpIndex,
    last: Option<Event>,
    steps: u64,
}

impl PlainPort<'_> {
    ghost use Rattle.fabric.specs.Plain.{first_seat};
    ghost use Rattle.fabric.specs.Seats.{plain_seat};

    pub(crate) fn new(fabric: &mut PlainFabric, vp: VpIndex) -> PlainPort<'_>
        ensures { plain_seat result ≡ first_seat fabric.entry.ghost_name vp.0 fabric.old }
    {
        PlainPort {
            fabric,
            vp,
            last: None,
            steps: 0,
        }
    }

    /// The event of the last step that was made through this port, if one was.
    pub fn last(&self) -> Option<Event>
        ensures { result ≡ (plain_seat self.now).last }
    {
        self.last
    }
}

impl Port for PlainPort<'_> {
    ghost use Rattle.fabric.specs.Seats.{plain_seat};

    ghost seat = { plain_seat };

    fn enter(&mut self) {
        let at = busy_place(&self.fabric.limits(), self.vp);
        self.fabric.store(at, 1);
        self.fabric.set_phase(self.vp, Phase::Entered);
        self.last = Some(Event::Enter);
        self.steps = one_more(self.steps);
    }

    fn check(&mut self) -> u64 {
        let at = self.fabric.limits().pages as usize;
        let generation = self.fabric.load(at);
        self.fabric.set_phase(self.vp, Phase::In { generation });
        self.last = Some(Event::Check { generation });
        self.steps = one_more(self.steps);
        generation
    }

    fn mask(&mut self, page: Page) -> Mask {
        let mask = self.fabric.mask(page);
        self.last = Some(Event::Mask { page, mask });
        self.steps = one_more(self.steps);
        mask
    }

    fn read(&mut self, page: Page, index: u16) -> u64 {
        let at = memory_word(&self.fabric.limits(), page, index);
        let value = self.fabric.load(at);
        self.last = Some(Event::Read { page, index, value });
        self.steps = one_more(self.steps);
        value
    }

    fn write(&mut self, page: Page, index: u16, value: u64) -> u64 {
        let at = memory_word(&self.fabric.limits(), page, index);
        let old = self.fabric.load(at);
        self.fabric.store(at, value);
        self.last = Some(Event::Write { page, index, value });
        self.steps = one_more(self.steps);
        old
    }

    fn leave(&mut self) {
        let at = busy_place(&self.fabric.limits(), self.vp);
        self.fabric.store(at, 0);
        self.fabric.set_phase(self.vp, Phase::Idle);
        self.last = Some(Event::Leave);
        self.steps = one_more(self.steps);
    }

    fn post(&mut self, vp: VpIndex, word: PendingWord, bits: u64) -> u64 {
        let at = posted_word(&self.fabric.limits(), vp, word);
        let old = self.fabric.load(at);
        self.fabric.store(at, old | bits);
        self.last = Some(Event::Post { vp, word, bits });
        self.steps = one_more(self.steps);
        old
    }

    fn take(&mut self, word: PendingWord) -> u64 {
        let at = posted_word(&self.fabric.limits(), self.vp, word);
        let bits = self.fabric.load(at);
        self.fabric.store(at, 0);
        self.last = Some(Event::Take { word, bits });
        self.steps = one_more(self.steps);
        bits
    }
}

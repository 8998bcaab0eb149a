// The state of one processor: before its first attempt, as its attempts begin from it, and as it starts.
ghost use Rattle.std.specs.Prelude.{◌≡◌, ◌%◌, ◌^◌, IfOk};
ghost use Rattle.vsm_base.specs.declared.name.Name.{Name};
ghost use Rattle.vsm_core.specs.Registers.{get};
ghost use Rattle.vsm_core.specs.Starts.{active_at, started_by, with_contexts, with_waiting, with_zero};
ghost use Rattle.attempt.specs.Cited.{asked_of, assist_page_lem, may_enter_lem, message_page_lem, number_of};
ghost use Rattle.attempt.specs.Cited.{sint0_vector_lem};
ghost use Rattle.attempt.specs.Views.{opening_view, origin_of};

use register_file::{Bank, Context};
use secure_intr::Pending;
use std::alloc::Global;
use std::marker::Model;
use synic::Synic;
use vsm_base::{Limits, Memory, Name, Page, VpIndex, Vtl};
use vsm_core::{PartCall, Request};
use vtl_state::Levels;

/// Each level's vectors, and the notes whose messages wait for level 1's slot.
#[derive(Drop)]
pub struct Controllers {
    pub zero: Pending,
    pub one: Pending,
    pub synic: Synic,
}

/// The limits, and the number, the registers, the levels and the interrupt controllers of one processor. Contracts see
/// what an attempt begins with, and for how many notes there is room.
#[derive(Drop)]
pub struct VpState {
    pub limits: Limits,
    pub number: VpIndex,
    pub bank: Bank,
    pub levels: Levels,
    pub controllers: Controllers,
}

impl Model for VpState {
    ghost use Rattle.attempt.specs.Views.{VpView};

    ghost Value = { VpView };

    ghost use Rattle.attempt.specs.States.{view_of};

    ghost view = { view_of };
}

impl VpState {
    /// The low 64 bits of a register of level 1.
    pub fn word_of_one(&self, name: Name) -> u64
        ensures { result ≡ get self.now.state.registers Vtl.One name % 2 ^ 64 }
    {
        (self.bank.get(Vtl::One, name) % (1 << 64)) as u64
    }

    /// The page of level 1's message slot, where it is on (TLFS, SCONTROL and SIMP Registers).
    pub fn message_page(&self) -> Option<Page>
        ensures page { number_of result ≡ message_page_lem self.now.limits.pages self.now.state }
    {
        let scontrol = self.word_of_one(Name::Scontrol);
        let simp = self.word_of_one(Name::Simp);
        let page = simp / 4096;
        if scontrol % 2 == 1 && simp % 2 == 1 && page < u64::from(self.limits.pages) {
            Some(Page(page as u32))
        } else {
            None
        }
    }

    /// The vector of Sint0, where it isn't masked and is one (TLFS, SINT Registers).
    pub fn sint0_vector(&self) -> Option<u8>
        ensures { result ≡ sint0_vector_lem (get self.now.state.registers Vtl.One Name.Sint0 % 2 ^ 64) }
    {
        let sint = self.word_of_one(Name::Sint0);
        let vector = (sint % 256) as u8;
        if (sint >> 16) % 2 == 0 && vector >= 16 {
            Some(vector)
        } else {
            None
        }
    }

    /// Whether level 1 may be entered from level 0.
    pub fn may_enter(&self) -> bool
        ensures { result ≡ may_enter_lem self.now.state }
    {
        vtl_switch::may_enter(&self.bank, &self.levels)
    }

    /// Level 1's assist page, where it is on.
    pub fn assist_page(&self) -> Option<Page>
        ensures { number_of result ≡ assist_page_lem self.now.limits.pages self.now.state }
    {
        vtl_switch::assist_page(&self.bank, &self.levels, self.limits.pages)
    }
}

impl VpState {
    /// The state of a processor at an opening. It takes room for as many notes that wait as the budget says.
    ///
    /// # Errors
    /// `Memory` where there is no memory for that room.
    #[tactic(auto, unfolding(vsm_core::specs::State::opening_state, vsm_core::specs::Controllers::opening_controllers))]
    pub fn opening(alloc: Global, number: VpIndex, limits: &Limits) -> Result<VpState, Memory>
        ensures { IfOk result (λ state. state ≡ opening_view limits.now number.0) }
    {
        let synic = Synic::new(alloc, limits.budget)?;
        Ok(VpState {
            limits: *limits,
            number,
            bank: Bank::opening(),
            levels: Levels::opening(),
            controllers: Controllers {
                zero: Pending::new(),
                one: Pending::new(),
                synic,
            },
        })
    }

    /// What the processor asks of the partition by a call.
    pub fn asks(&self, call: PartCall) -> Request
        ensures { result ≡ asked_of (origin_of self.now) call }
    {
        Request {
            by: self.number,
            level: self.levels.active(),
            call,
        }
    }

    /// What a starting processor asks for once it has taken its start word: its contexts.
    pub fn fetch(&self) -> Request
        ensures { result ≡ asked_of (origin_of self.now) PartCall.Fetch }
    {
        self.asks(PartCall::Fetch)
    }

    /// Level 0's own registers become the context's, unless a register of it has a bit that must be zero.
    fn give_zero(&mut self, words: &[u64; 28])
        ensures { self.new ≡ record self.old { state = with_zero self.old.state words.now } }
    {
        if let Ok(context) = Context::read(words) {
            context.place(self.bank.private_mut(Vtl::Zero));
        }
    }

    /// Level 1 is enabled with the context that has waited for it, if one has.
    fn give_waiting(&mut self, waiting: &Option<[u64; 28]>)
        ensures { self.new ≡ record self.old { state = with_waiting self.old.state waiting.now } }
    {
        if let Some(words) = waiting {
            self.give_context(Vtl::One, words);
        }
    }

    /// The start's context goes to the level of the start. One that has waited is left aside where that is level 1.
    fn give_contexts(&mut self, level: Vtl, words: &[u64; 28], waiting: &Option<[u64; 28]>)
        ensures { self.new ≡ record self.old { state = with_contexts self.old.state level words.now waiting.now } }
    {
        match level {
            Vtl::Zero => {
                self.give_zero(words);
                self.give_waiting(waiting);
            }
            Vtl::One => self.give_context(Vtl::One, words),
        }
    }

    /// The level of the start becomes the active one, if the processor has it.
    fn begin_at(&mut self, level: Vtl)
        ensures { self.new ≡ record self.old { state = active_at self.old.state level } }
    {
        if self.levels.enabled(level) {
            self.levels.begin_at(level);
        }
    }

    /// A processor begins with the contexts that it has fetched. Without any the registers stay.
    pub fn start(&mut self, context: &Option<(Vtl, [u64; 28], Option<[u64; 28]>)>)
        ensures { self.new ≡ record self.old { state = started_by self.old.state context.now } }
    {
        if let Some(context) = context {
            self.give_contexts(context.0, &context.1, &context.2);
            self.begin_at(context.0);
        }
    }
}

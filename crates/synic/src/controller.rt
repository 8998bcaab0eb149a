// The notes that wait for the message slot.
ghost use Rattle.std.specs.Prelude.{◌≡◌, ◌<◌, [], IfOk};
ghost use Rattle.vsm_core.specs.Controllers.{posted_by, waiting_after, eom_by, waiting_then};
ghost use Rattle.synic.specs.SynicView.{room_after};
ghost use Rattle.synic.specs.Ends.{eom_step, eom_word};

use crate::slot::is_open;
use std::alloc::Global;
use std::marker::Model;
use vsm_base::{Memory, Reserved};
use vsm_core::{Note, Posted};

/// What an end of message did.
#[derive(Clone, Copy, Debug, PartialEq, Eq)]
pub enum EomStep {
    /// No message waits.
    Nothing,
    /// The message of this note, the oldest that waited, goes to the slot. The truth value says whether more wait.
    Slot(Note, bool),
    /// Messages wait, but the slot isn't free or its page is off.
    Waiting,
}

/// The synthetic interrupt controller of level 1, as far as messages go (TLFS, Synthetic Interrupt Controller): the notes
/// whose messages wait for the message slot. Contracts see these, the oldest first, and how many more notes it has room
/// for. Its room was taken when it was made, and what a note took isn't given back; that there is one slot and one list
/// is this project's own.
#[derive(Debug, Drop)]
pub struct Synic {
    notes: Reserved<Note>,
    // How many of the notes have gone to the slot.
    sent: usize,
}

impl Model for Synic {
    ghost use Rattle.std.specs.Prelude.{◌-◌, ◌^◌, ◌<◌, ◌≤◌, length, drop};
    ghost use Rattle.synic.specs.SynicView.{SynicView};

    ghost Value = { SynicView };

    ghost view = { λ s. record { waiting = drop s.sent s.notes.0; room = s.notes.1 - length s.notes.0 } };

    ghost invariant = { λ s. (s.sent ≤ length s.notes.0) × (length s.notes.0 ≤ s.notes.1) × (s.notes.1 < 2 ^ 32) };
}

impl Synic {
    /// A controller in which no note waits, with room for `budget` of them.
    ///
    /// # Errors
    /// `Memory` where there is no memory for that room, and for no other cause.
    pub fn new(alloc: Global, budget: u32) -> Result<Synic, Memory>
        ensures { IfOk result (λ synic. synic ≡ record { waiting = []; room = budget }) }
    {
        Ok(Synic {
            notes: Reserved::new(alloc, budget as usize)?,
            sent: 0,
        })
    }

    /// The notes whose messages wait for the slot, the oldest first.
    pub fn waiting(&self) -> &[Note]
        ensures { result.now ≡ self.now.waiting }
    {
        &self.notes.as_slice()[self.sent..]
    }

    /// Decides where the message of a new note goes. `slot` is the first word of the message slot, and `None` where the
    /// slot's page is off. `Posted::Slot` comes exactly where the slot is there and free and no older message waits: then
    /// the caller writes the message, and nothing changes here. Else the answer is `Posted::Waiting`: the note waits behind
    /// all older ones, and takes room for one. `Posted::Held` never comes. Needs room for one note.
    pub fn post(&mut self, slot: Option<u64>, note: Note) -> Posted
        requires { 0 < self.old.room }
        ensures posted { result ≡ posted_by slot self.old.waiting }
        ensures waiting { self.new.waiting ≡ waiting_after result self.old.waiting note }
        ensures room { self.new.room ≡ room_after result self.old.room }
    {
        if is_open(slot) && self.waiting().is_empty() {
            Posted::Slot
        } else {
            self.notes.push(note);
            Posted::Waiting
        }
    }

    /// Does an end of message (TLFS, EOM Register), in constant time. `slot` is the first word of the message slot, and
    /// `None` where the slot's page is off. `EomStep::Nothing` comes exactly where no note waits. Where some wait and the
    /// slot is there and free, the oldest leaves the list, and the answer is that note and whether more wait. Where some
    /// wait and the slot isn't free or not there, the answer is `EomStep::Waiting`, and nothing changes. No room is given
    /// back.
    pub fn eom(&mut self, slot: Option<u64>) -> EomStep
        ensures step { result ≡ eom_step slot self.old.waiting }
        ensures word { eom_word result ≡ eom_by slot self.old.waiting }
        ensures waiting { self.new.waiting ≡ waiting_then slot self.old.waiting }
        ensures room { self.new.room ≡ self.old.room }
    {
        let Some(note) = self.waiting().first().copied() else {
            return EomStep::Nothing;
        };
        if !is_open(slot) {
            return EomStep::Waiting;
        }
        self.sent += 1;
        EomStep::Slot(note, !self.waiting().is_empty())
    }
}

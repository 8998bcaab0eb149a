// What an attempt leaves.
use vsm_base::{Access, Mask, Page, Vtl};

/// An access that was granted.
#[derive(Clone, Copy, Debug, PartialEq, Eq)]
pub struct Grant {
    pub page: Page,
    /// The mask that allowed it; none for level 1.
    pub mask: Option<Mask>,
    pub generation: u64,
    /// The word that was read or written.
    pub value: u64,
    /// Whether a cached translation was used.
    pub hit: bool,
}

/// Where the note of an intercept went.
#[derive(Clone, Copy, Debug, PartialEq, Eq)]
pub enum Posted {
    /// Into the message slot.
    Slot,
    /// Onto the waiting list.
    Waiting,
    /// Nowhere: the processor has no level 1 and is held.
    Held,
}

/// An access that was denied.
#[derive(Clone, Copy, Debug, PartialEq, Eq)]
pub struct Denial {
    pub page: Page,
    pub mask: Mask,
    pub generation: u64,
    pub access: Access,
    pub posted: Posted,
}

/// Why the guest can't go on.
#[derive(Clone, Copy, Debug, PartialEq, Eq)]
pub enum GuestFault {
    /// The address isn't a multiple of 8.
    Align,
    /// The address isn't canonical (Intel SDM, Canonical Addressing).
    Noncanonical,
    /// A page isn't below the page count.
    Unmapped,
    /// A page fault (Intel SDM, Interrupt 14).
    Page,
    /// An undefined operation (Intel SDM, Interrupt 6).
    Undefined,
    /// A general protection fault (Intel SDM, Interrupt 13).
    Gp,
}

/// What an end of message did.
#[derive(Clone, Copy, Debug, PartialEq, Eq)]
pub enum EomWord {
    Nothing,
    Slot,
    Waiting,
}

/// What an attempt came to.
#[derive(Clone, Copy, Debug, PartialEq, Eq)]
pub enum What {
    /// The access was granted.
    Granted(Grant),
    /// A spin found another value.
    Again(Grant),
    /// The access was denied.
    Denied(Denial),
    /// The guest can't go on.
    Fault(GuestFault),
    /// A register's value.
    Value(u128),
    /// Level 1 intercepts the register.
    Hit(Posted),
    /// The hypercall goes on at this element.
    Part(u16),
    /// The hypercall's result.
    Reply(u64),
    /// Level 1 was entered for an interrupt.
    Entered,
    /// It was done, and there is nothing to tell.
    Plain,
    /// What an end of message did.
    Eom(EomWord),
    /// The processor has started.
    Started,
}

/// The record of one attempt: its level and Rip as it began, and the part of the processor's events that is its own.
#[derive(Clone, Copy, Debug, PartialEq, Eq)]
pub struct Mark {
    pub level: Vtl,
    pub rip: u64,
    pub what: What,
    /// The place of its first event.
    pub first: u32,
    /// How many events it has, at most 64.
    pub count: u32,
}

/// Why a processor runs no more.
#[derive(Clone, Copy, Debug, PartialEq, Eq)]
pub enum Ending {
    /// Rip isn't below the length of the active level's program.
    Done,
    /// It has left as many marks as the budget allows.
    Budget,
    /// It spun in vain too often.
    Spun,
    /// An intercept without level 1.
    Held,
    /// A guest fault.
    Fault(GuestFault),
    /// It never started.
    Unstarted,
    /// The schedule ended first.
    Cut,
}

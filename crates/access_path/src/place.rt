// How far an access has come.
use page_walk::{Translation, Walk};
use vsm_base::{Access, Mask, Page};
use vsm_core::{Event, Grant, GuestFault};

/// What one step of an access came to.
#[derive(Clone, Copy, Debug, PartialEq, Eq)]
pub enum PathTurn {
    /// The access goes on.
    Moved,
    /// It was granted, and the step was the one that it was for.
    Granted(Grant),
    /// The mask of a page denied it. `access` is what was denied, which at a table is a read, and `gpa` is the guest
    /// physical address of the word that was denied, in bytes.
    Denied {
        page: Page,
        mask: Mask,
        generation: u64,
        access: Access,
        gpa: u64,
    },
    /// The guest can't go on: `Unmapped` where a table's page or the data page isn't below the page count, and `Page`
    /// where the walk ended in a page fault.
    Fault(GuestFault),
}

/// The step that comes next, with what it needs.
#[derive(Clone, Copy, Debug)]
pub enum Place {
    Start,
    Check,
    TableMask {
        walk: Walk,
        generation: u64,
        page: Page,
        index: u16,
    },
    TableRead {
        walk: Walk,
        generation: u64,
        page: Page,
        index: u16,
    },
    DataMask {
        generation: u64,
        page: Page,
        to: Translation,
    },
    Data {
        generation: u64,
        page: Page,
        mask: Option<Mask>,
        to: Translation,
    },
    Over,
}

/// Where a step led, and what it came to.
#[derive(Clone, Copy, Debug)]
pub struct Next {
    pub place: Place,
    pub turn: PathTurn,
}

/// One step with its event, where it led, and what it came to.
#[derive(Clone, Copy, Debug)]
pub struct Stepped {
    pub event: Event,
    pub place: Place,
    pub turn: PathTurn,
}

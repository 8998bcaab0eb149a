// What is kept of a translation, and what is done to translations.
use page_walk::Translation;
use vsm_base::{Mask, Vtl};

/// What a processor keeps of an address page (Intel SDM, Caching Translation Information).
#[derive(Clone, Copy, Debug, PartialEq, Eq)]
pub struct Cached {
    /// Where the address page leads, and what the walked entries allow.
    pub to: Translation,
    /// What level 0 may do with the page that it leads to, as the walk found it; none for level 1, which no mask binds.
    pub mask: Option<Mask>,
}

// What a place holds: of which address page, and which generation was checked before it was walked.
#[derive(Clone, Copy)]
pub(crate) struct Slot {
    pub(crate) at: u64,
    pub(crate) kept: Cached,
    pub(crate) generation: u64,
}

// A translation is kept, an address page dropped, or a whole level.
#[derive(Clone, Copy)]
pub(crate) enum Done {
    Filled(Vtl, Slot),
    Dropped(Vtl, u64),
    Emptied(Vtl),
}

// What an access is for.
use vsm_base::{Access, Gva, Vtl};

/// One access, as an operation of a level asks for it.
#[derive(Clone, Copy, Debug, PartialEq, Eq)]
pub struct Aim {
    /// The level that makes it. No mask binds level 1.
    pub level: Vtl,
    /// The privilege level, 0 to 3 (Intel SDM, Privilege Levels).
    pub cpl: u8,
    /// Control register CR0, whose bit 31 turns paging on (Intel SDM, Control Registers).
    pub cr0: u64,
    /// Control register CR3, whose bits 51:12 name the page of the first table.
    pub cr3: u64,
    /// The address.
    pub gva: Gva,
    /// What it does to the word.
    pub access: Access,
    /// The bits that the mask of the data page must have at level 0.
    pub need: u32,
    /// Whether the address must be a multiple of 8.
    pub aligned: bool,
    /// What a write stores.
    pub value: u64,
    /// The page count: pages at or above it are unmapped.
    pub pages: u32,
}

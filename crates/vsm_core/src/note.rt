// Notes of intercepts, from which level 1's messages are made.
use vsm_base::{Access, VpIndex};

/// A memory intercept (TLFS, Memory Access Messages).
#[derive(Clone, Copy, Debug, PartialEq, Eq)]
pub struct MemNote {
    pub vp: VpIndex,
    pub access: Access,
    pub cs: u128,
    pub rip: u64,
    pub rflags: u64,
    /// The guest virtual address, where there is one.
    pub gva: Option<u64>,
    /// The guest physical address.
    pub gpa: u64,
}

/// A register intercept.
#[derive(Clone, Copy, Debug, PartialEq, Eq)]
pub struct RegNote {
    pub vp: VpIndex,
    /// Whether the register was to be written.
    pub write: bool,
    pub cs: u128,
    pub rip: u64,
    pub rflags: u64,
    /// The register's number.
    pub name: u32,
    /// The value that was to be written.
    pub value: u128,
}

/// What level 1 is told of an intercept.
#[derive(Clone, Copy, Debug, PartialEq, Eq)]
pub enum Note {
    Memory(MemNote),
    Register(RegNote),
}

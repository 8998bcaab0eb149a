// Levels, processors, pages, addresses and limits.
ghost use Rattle.std.specs.Prelude.{◌↔◌, ◌≤◌, IsSome, IfSome, ◌≡◌};
ghost use Rattle.vsm_base.specs.Levels.{level_number};

/// A virtual trust level (TLFS, Virtual Secure Mode). Level 0 is the less privileged.
#[derive(Clone, Copy, Debug, PartialEq, Eq)]
pub enum Vtl {
    /// Level 0.
    Zero,
    /// Level 1, the more privileged.
    One,
}

impl Vtl {
    /// The level of this number: `None` exactly above 1.
    pub fn of(number: u8) -> Option<Vtl>
        ensures known { IsSome result ↔ (number ≤ 1) }
        ensures number { IfSome result (λ level. level_number level ≡ number) }
    {
        match number {
            0 => Some(Vtl::Zero),
            1 => Some(Vtl::One),
            _ => None,
        }
    }
}

/// The index of a virtual processor, from 0 (TLFS, HV_VP_INDEX). A run has at most 8, so it is below 8 there.
#[derive(Clone, Copy, Debug, PartialEq, Eq)]
pub struct VpIndex(pub u8);

/// The number of a guest physical page of 4,096 bytes, from 0 (TLFS, Guest Physical Address Spaces). A run has
/// at most 256, so it is below 256 there. The default is page 0.
#[derive(Clone, Copy, Debug, Default, PartialEq, Eq)]
pub struct Page(pub u32);

/// A guest virtual address, in bytes (TLFS, Guest Virtual Address Spaces).
#[derive(Clone, Copy, Debug, PartialEq, Eq)]
pub struct Gva(pub u64);

/// What an access does to the word that it reaches (TLFS, HV_INTERCEPT_ACCESS_TYPE).
#[derive(Clone, Copy, Debug, PartialEq, Eq)]
pub enum Access {
    /// It reads the word.
    Read,
    /// It writes the word.
    Write,
    /// It fetches the word as an instruction.
    Execute,
}

/// How large a run may be. These limits are this project's own.
#[derive(Clone, Copy, Debug, PartialEq, Eq)]
pub struct Limits {
    /// How many virtual processors there are, 1 to 8.
    pub vps: u8,
    /// How many pages there are, 1 to 256.
    pub pages: u32,
    /// How many marks a processor may leave, 1 to 10,000.
    pub budget: u32,
}

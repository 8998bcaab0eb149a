// What a page may be used for.
ghost use Rattle.std.specs.Prelude.{◌≡◌, ◌↔◌, IsTrue, IsSome, IfSome};
ghost use Rattle.vsm_base.specs.Masks.{is_mask, allows};

use crate::places::Access;
use std::marker::Model;

/// A protection mask (TLFS, HvCallModifyVtlProtectionMask): bit value 1 lets a page be read, 2 written, and 4
/// and 8 executed by the kernel and by the user. Contracts see its bits. The default allows no access.
#[derive(Clone, Copy, Debug, Default, PartialEq, Eq)]
pub struct Mask {
    bits: u32,
}

impl Model for Mask {
    ghost use Rattle.std.specs.Prelude.{ℕ, IsTrue};
    ghost use Rattle.vsm_base.specs.Masks.{is_mask};

    ghost Value = { ℕ };

    ghost view = { λ m. m.bits };

    ghost invariant = { λ m. IsTrue (is_mask m.bits) };

    ghost inverse = { λ v. record { bits = v } };
}

impl Mask {
    /// The mask of these bits: `None` exactly where they are none of 0, 1, 3, 13 and 15, the masks that this
    /// project takes as valid.
    pub fn of(bits: u32) -> Option<Mask>
        ensures valid { IsSome result ↔ IsTrue (is_mask bits) }
        ensures value { IfSome result (λ m. m ≡ bits) }
    {
        if bits == 0 || bits == 1 || bits == 3 || bits == 13 || bits == 15 {
            Some(Mask { bits })
        } else {
            None
        }
    }

    /// The mask that allows every access, 15.
    pub fn all() -> Mask
        ensures { result ≡ 15 }
    {
        Mask { bits: 15 }
    }

    /// Its bits: 0, 1, 3, 13 or 15.
    pub fn bits(self) -> u32
        ensures value { result ≡ self }
        ensures valid { IsTrue (is_mask self) }
    {
        self.bits
    }

    /// Whether a page with this mask may be used so: a read needs bit value 1, a write 2, and an execution both
    /// 4 and 8, which is this project's own rule, since it has no mode of the processor.
    pub fn allows(self, access: Access) -> bool
        ensures { result ≡ allows self access }
    {
        let need = match access {
            Access::Read => 1,
            Access::Write => 2,
            Access::Execute => 12,
        };
        self.bits & need == need
    }
}

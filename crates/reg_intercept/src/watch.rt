// What level 1 watches.
ghost use Rattle.std.specs.Prelude.{◌≡◌, ◌%◌, ◌^◌};
ghost use Rattle.vsm_base.specs.declared.places.Vtl.TheVariants.{One};
ghost use Rattle.vsm_core.specs.Registers.{get};
ghost use Rattle.vsm_core.specs.Watches.{watched_in, hits_write, hits_read, changes_watched};
ghost use Rattle.reg_intercept.specs.Watching.{watched_by};

use crate::bits::{changes, has_bit, read_bit, write_bit};
use register_file::Bank;
use vsm_base::{Name, Vtl};

/// Which accesses of level 0 to a processor's registers level 1 intercepts, and which bits of Cr0 and Cr4 it watches (TLFS,
/// Virtual Secure Mode, HvRegisterCrInterceptControl, HvRegisterCrInterceptCr0Mask and HvRegisterCrInterceptCr4Mask).
#[derive(Clone, Copy, Debug, PartialEq, Eq)]
pub struct Watch {
    /// Which accesses: bit 0 for a write of Cr0 and bit 1 for one of Cr4; bits 6 and 5 for a write and a read of Lstar, 8
    /// and 7 of Star, 14 and 13 of Efer; and bits 15 to 21 for a write of Gdtr, Idtr, Ldtr, Tr, SysenterCs, SysenterEip and
    /// SysenterEsp. These places are this project's own table after HV_REGISTER_CR_INTERCEPT_CONTROL.
    pub control: u64,
    /// The bits of Cr0 whose change is intercepted.
    pub cr0_mask: u64,
    /// The bits of Cr4 whose change is intercepted.
    pub cr4_mask: u64,
}

/// The low 64 bits of a register, as level 1 sees it.
fn word_of(bank: &Bank, name: Name) -> u64
    ensures { result ≡ get bank.now One name % 2 ^ 64 }
{
    (bank.get(Vtl::One, name) % (1 << 64)) as u64
}

impl Watch {
    /// What these registers say of it. The three are level 1's, and the levels share them.
    pub fn of(bank: &Bank) -> Watch
        ensures { watched_by result ≡ watched_in bank.now }
    {
        Watch {
            control: word_of(bank, Name::CrInterceptControl),
            cr0_mask: word_of(bank, Name::CrInterceptCr0Mask),
            cr4_mask: word_of(bank, Name::CrInterceptCr4Mask),
        }
    }

    /// Whether a write that takes a register from one value to another changes what is watched of it: of Cr0 and Cr4 a bit
    /// of the register's mask, and of any other register whatever it is.
    #[tactic(auto, unfolding(vsm_core::specs::Watches::changes_watched))]
    fn is_changed(&self, name: Name, old: u128, new: u128) -> bool
        ensures { result ≡ changes_watched (watched_by self.now) name old new }
    {
        match name {
            Name::Cr0 => changes(self.cr0_mask, old, new),
            Name::Cr4 => changes(self.cr4_mask, old, new),
            _ => true,
        }
    }

    /// Whether level 1 intercepts a write of a register that has the value `old` and would get `new`: its bit of the control
    /// is set, and of Cr0 and Cr4 a bit of the register's mask changes.
    pub fn on_write(&self, name: Name, old: u128, new: u128) -> bool
        ensures { result ≡ hits_write (watched_by self.now) name old new }
    {
        has_bit(self.control, write_bit(name)) && self.is_changed(name, old, new)
    }

    /// Whether level 1 intercepts a read of a register: its bit of the control is set.
    pub fn on_read(&self, name: Name) -> bool
        ensures { result ≡ hits_read (watched_by self.now) name }
    {
        has_bit(self.control, read_bit(name))
    }
}

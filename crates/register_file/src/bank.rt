// The registers of a processor at both levels.
ghost use Rattle.std.specs.Prelude.{◌≡◌, ◌↔◌, IsOk, IsTrue, OnOk, OnErr};
ghost use Rattle.std.specs.Borrow.{sem};
ghost use Rattle.vsm_core.specs.Registers.{get, put, opening, is_legal, private_of, IsWhole};
ghost use Rattle.register_file.specs.Lending.{LendsPrivate};
ghost use Rattle.register_file.specs.Values.{private_values};

use crate::legal::is_legal;
use crate::private_set::PrivateSet;
use crate::shared_set::{self, SHARED};
use std::marker::Model;
use thiserror::Error;
use vsm_base::{Name, Vtl};

/// A register can't have this value: a bit is set that must be zero.
#[derive(Clone, Copy, Debug, PartialEq, Eq, Error)]
#[error("a bit of a register is set that must be zero")]
pub struct BadValue;

/// The registers of a virtual processor: those that the levels have as one, and each level's own (TLFS, Virtual
/// Secure Mode, shared and private state). Contracts see the values of all, in the order of the registers' numbers.
#[derive(Drop)]
pub struct Bank {
    shared: [u64; SHARED],
    zero: PrivateSet,
    one: PrivateSet,
}

impl Model for Bank {
    ghost use Rattle.vsm_core.specs.Registers.{Registers};
    ghost use Rattle.register_file.specs.Values.{private_values};

    ghost Value = { Registers };

    ghost view = { λ bank. record { shared = bank.shared; zero = private_values bank.zero; one = private_values bank.one } };
}

impl Bank {
    /// The registers before the first operation, at both levels.
    #[tactic(auto, unfolding(vsm_core::specs::Registers::opening_shared, vsm_core::specs::Registers::shared_names, vsm_core::specs::Registers::opening_value, vsm_base::specs::Names::all_names))]
    pub fn opening() -> Bank
        ensures opening { result ≡ opening }
        ensures whole { IsWhole result }
    {
        Bank {
            shared: [0; SHARED],
            zero: PrivateSet::opening(),
            one: PrivateSet::opening(),
        }
    }

    /// The register of this name, as this level sees it: one that the levels share is the same at both.
    pub fn get(&self, level: Vtl, name: Name) -> u128
        ensures value { result ≡ get self.now level name }
        ensures whole { IsWhole self.now }
    {
        if name.shared() {
            return shared_set::get(&self.shared, name);
        }
        match level {
            Vtl::Zero => self.zero.get(name),
            Vtl::One => self.one.get(name),
        }
    }

    /// Makes the register of this name, as this level sees it, have this value, and changes no other.
    ///
    /// The bits that must be zero, by this project's own rules: from bit 4 on in Cr8, from 16 in Efer, from 32 in
    /// Rflags, Cr0, Cr4, Dr6 and Dr7, from 52 in Cr3; none in the segment registers, Ldtr and Tr; bits 47 to 0 in Idtr
    /// and Gdtr; and from 64 in all others.
    ///
    /// # Errors
    /// `BadValue` exactly where the value has a bit set that must be zero in this register. Then nothing changes.
    pub fn put(&mut self, level: Vtl, name: Name, value: u128) -> Result<(), BadValue>
        ensures ok { OnOk result (self.new ≡ put self.old level name value) }
        ensures err { OnErr result (self.new ≡ self.old) }
        ensures exact { IsOk result ↔ IsTrue (is_legal name value) }
        ensures whole { OnOk result (IsWhole self.new) }
    {
        if !is_legal(name, value) {
            return Err(BadValue);
        }
        if name.shared() {
            shared_set::put(&mut self.shared, name, value);
            return Ok(());
        }
        match level {
            Vtl::Zero => self.zero.put(name, value),
            Vtl::One => self.one.put(name, value),
        }
        Ok(())
    }

    /// This level's own registers, to be read and written in place. What is written there is that level's, and all
    /// other registers stay.
    pub fn private_mut(&mut self, level: Vtl) -> &mut PrivateSet
        ensures* writes_back { sem 𝓛 (LendsPrivate self.entry level result) }
        ensures values { private_values result.now ≡ private_of self.old level }
        ensures whole { IsWhole self.old }
    {
        match level {
            Vtl::Zero => &mut self.zero,
            Vtl::One => &mut self.one,
        }
    }
}

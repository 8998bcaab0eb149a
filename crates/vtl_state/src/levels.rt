// The levels of a processor.
ghost use Rattle.std.specs.Prelude.{◌≡◌, ◌↔◌, IsErr, IsTrue, IfErr, OnOk, OnErr, false};
ghost use Rattle.vtl_state.specs.Levels.{is_enabled, at_level};
ghost use Rattle.vtl_state.specs.States.{state_of, enabled_with};

use register_file::{Bank, Context};
use std::marker::Model;
use vsm_base::{HvStatus, Vtl};

/// The levels of a virtual processor: which is active, and which are enabled (TLFS, Virtual Secure Mode). Level 0 is
/// always enabled, and the active level is an enabled one. Contracts see the active level and whether level 1 is
/// enabled.
#[derive(Clone, Copy, Debug, PartialEq, Eq)]
pub struct Levels {
    active: Vtl,
    one: bool,
}

impl Model for Levels {
    ghost use Rattle.std.specs.Prelude.{IsTrue};
    ghost use Rattle.vtl_state.specs.Levels.{LevelsView, is_enabled};

    ghost Value = { LevelsView };

    ghost view = { λ l. record { active = l.active; enabled = l.one } };

    ghost invariant = { λ l. IsTrue (is_enabled (record { active = l.active; enabled = l.one }) l.active) };

    ghost inverse = { λ v. record { active = v.active; one = v.enabled } };
}

impl Levels {
    /// The levels before the first operation: level 0 is active, and level 1 isn't enabled.
    pub fn opening() -> Levels
        ensures { result ≡ record { active = Vtl.Zero; enabled = false } }
    {
        Levels {
            active: Vtl::Zero,
            one: false,
        }
    }

    /// The active level.
    pub fn active(&self) -> Vtl
        ensures active { result ≡ self.now.active }
        ensures enabled { IsTrue (is_enabled self.now result) }
    {
        self.active
    }

    /// Whether this level is enabled. Level 0 always is.
    pub fn enabled(&self, level: Vtl) -> bool
        ensures { result ≡ is_enabled self.now level }
    {
        match level {
            Vtl::Zero => true,
            Vtl::One => self.one,
        }
    }

    /// Enables a level and gives it its initial registers (TLFS, HvCallEnableVpVtl): its own become the context's, and
    /// those that the context doesn't name what they are at the opening. All other registers and the active level stay.
    /// That the registers outside the context become those of the opening is this project's own rule.
    ///
    /// # Errors
    /// `HvStatus::VTL_ALREADY_ENABLED` exactly where the level is enabled already. Then nothing changes. The status is
    /// this project's own choice.
    pub fn enable(&mut self, bank: &mut Bank, level: Vtl, context: &Context) -> Result<(), HvStatus>
        ensures exact { IsErr result ↔ IsTrue (is_enabled self.old level) }
        ensures err { IfErr result (λ status. status ≡ HvStatus.VTL_ALREADY_ENABLED) }
        ensures ok { OnOk result (state_of bank.new self.new ≡ enabled_with (state_of bank.old self.old) level context.now) }
        ensures refused { OnErr result (state_of bank.new self.new ≡ state_of bank.old self.old) }
    {
        if self.enabled(level) {
            return Err(HvStatus::VTL_ALREADY_ENABLED);
        }
        context.place(bank.private_mut(level));
        self.one = true;
        Ok(())
    }

    /// Makes this level the active one: a processor that starts begins there, or a switch comes there. It must be
    /// enabled.
    pub fn begin_at(&mut self, level: Vtl)
        requires { IsTrue (is_enabled self.old level) }
        ensures { self.new ≡ at_level self.old level }
    {
        self.active = level;
    }
}

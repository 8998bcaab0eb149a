// Which switches are lawful.
ghost use Rattle.std.specs.Prelude.{◌≡◌, ◌==◌, IsTrue};
ghost use Rattle.vsm_core.specs.State.{privilege_of as privilege_of_lem};
ghost use Rattle.vsm_core.specs.Switch.{is_zero as is_zero_lem, may_call as may_call_lem, may_enter as may_enter_lem, may_return as may_return_lem, is_fast as is_fast_lem};
ghost use Rattle.vtl_state.specs.Levels.{is_enabled};
ghost use Rattle.vtl_state.specs.States.{state_of};

use register_file::Bank;
use vsm_base::{Name, Vtl};
use vtl_state::{Levels, privilege_of, word_of};

fn is_zero(level: Vtl) -> bool
    ensures { result ≡ is_zero_lem level }
{
    matches!(level, Vtl::Zero)
}

fn is_most_privileged(bank: &Bank, levels: &Levels) -> bool
    ensures { result ≡ (privilege_of_lem (state_of bank.now levels.now) == 0) }
{
    privilege_of(bank, levels) == 0
}

/// Whether an interrupt or an intercept may enter level 1: exactly where level 0 is active and level 1 is enabled (TLFS,
/// Virtual Secure Mode, VTL Entry).
pub fn may_enter(bank: &Bank, levels: &Levels) -> bool
    ensures lawful { result ≡ may_enter_lem (state_of bank.now levels.now) }
    ensures enabled { IsTrue result → IsTrue (is_enabled levels.now Vtl.One) }
{
    is_zero(levels.active()) && levels.enabled(Vtl::One)
}

/// Whether a call may enter level 1.
pub fn may_call(bank: &Bank, levels: &Levels) -> bool
    ensures lawful { result ≡ may_call_lem (state_of bank.now levels.now) }
    ensures enabled { IsTrue result → IsTrue (is_enabled levels.now Vtl.One) }
{
    is_most_privileged(bank, levels)
        && is_zero(levels.active())
        && levels.enabled(Vtl::One)
        && word_of(bank, levels, Name::Rcx) == 0
}

/// Whether a return may leave level 1.
pub fn may_return(bank: &Bank, levels: &Levels) -> bool
    ensures { result ≡ may_return_lem (state_of bank.now levels.now) }
{
    is_most_privileged(bank, levels)
        && !is_zero(levels.active())
        && word_of(bank, levels, Name::Rcx) / 2 == 0
}

/// Whether a return keeps RAX and RCX.
pub fn is_fast(bank: &Bank, levels: &Levels) -> bool
    ensures { result ≡ is_fast_lem (state_of bank.now levels.now) }
{
    word_of(bank, levels, Name::Rcx) % 2 == 1
}

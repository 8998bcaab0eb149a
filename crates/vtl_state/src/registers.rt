// The registers as the active level's program sees and changes them.
ghost use Rattle.std.specs.Prelude.{◌≡◌};
ghost use Rattle.vsm_core.specs.State.{word_of as word_of_lem, put_legal as put_legal_lem, gone_on, privilege_of as privilege_of_lem};
ghost use Rattle.vtl_state.specs.States.{state_of};

use crate::Levels;
use register_file::Bank;
use vsm_base::Name;

/// The low 64 bits of a register of the active level. That these are what an operation reads is this project's own rule.
pub fn word_of(bank: &Bank, levels: &Levels, name: Name) -> u64
    ensures { result ≡ word_of_lem (state_of bank.now levels.now) name }
{
    (bank.get(levels.active(), name) % (1 << 64)) as u64
}

/// Writes a register of the active level, if it takes this value; else nothing changes. This project's own rule.
pub fn put_legal(bank: &mut Bank, levels: &Levels, name: Name, value: u128)
    ensures { state_of bank.new levels.now ≡ put_legal_lem (state_of bank.old levels.now) name value }
{
    let _ = bank.put(levels.active(), name, value);
}

/// The active level's program then stands at its next operation: Rip rises by 1, and stays where it is 2^64 - 1. This
/// project's own rule.
pub fn go_on(bank: &mut Bank, levels: &Levels)
    ensures { state_of bank.new levels.now ≡ gone_on (state_of bank.old levels.now) }
{
    let rip = word_of(bank, levels, Name::Rip);
    put_legal(bank, levels, Name::Rip, u128::from(rip) + 1);
}

/// The privilege level of the active level's program, 0 to 3: the two low bits of the selector of Cs (Intel SDM, Privilege
/// Levels).
pub fn privilege_of(bank: &Bank, levels: &Levels) -> u8
    ensures { result ≡ privilege_of_lem (state_of bank.now levels.now) }
{
    ((bank.get(levels.active(), Name::Cs) >> 96) % 4) as u8
}

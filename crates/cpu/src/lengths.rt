// The lengths of a processor's two programs, and the operation where it stands.
ghost use Rattle.std.specs.Prelude.{◌≡◌, ◌<◌, Some, length};
ghost use Rattle.vsm_core.specs.Processor.{operation_at, operations_of};
ghost use Rattle.vsm_core.specs.State.{rip_of};
ghost use Rattle.cpu.specs.Sound.{length_at};

use attempt::VpState;
use vsm_base::{Name, Vtl};
use vsm_core::{Op, Program};
use vtl_state::word_of;

/// How many operations the programs of the two levels have.
#[derive(Clone, Copy)]
pub struct Lengths {
    pub zero: usize,
    pub one: usize,
}

impl Lengths {
    /// The length of a level's program.
    pub fn at(&self, level: Vtl) -> usize
        ensures { result ≡ length_at self.now level }
    {
        match level {
            Vtl::Zero => self.zero,
            Vtl::One => self.one,
        }
    }
}

/// The operations of a level.
fn operations(program: &Program, level: Vtl) -> &[Op]
    ensures { result.now ≡ operations_of program.now level }
{
    match level {
        Vtl::Zero => program.zero.as_slice(),
        Vtl::One => program.one.as_slice(),
    }
}

/// Where the active level's program stands.
pub fn rip_of(state: &VpState) -> u64
    ensures { result ≡ rip_of state.now.state }
{
    word_of(&state.bank, &state.levels, Name::Rip)
}

/// The operation where the active level's program stands.
pub fn operation(program: &Program, state: &VpState) -> Op
    requires { rip_of state.now.state < length (operations_of program.now state.now.state.active) }
    ensures { operation_at program.now state.now.state ≡ Some result }
{
    let ops = operations(program, state.levels.active());
    ops[rip_of(state) as usize]
}

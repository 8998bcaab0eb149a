// What is under way when the next step is made.
ghost use Rattle.std.specs.Prelude.{◌≡◌, ◌<◌, ◌≤◌, true, Some, Option, IfSome, length};
ghost use Rattle.vsm_core.specs.Processor.{operation_at, operations_of};
ghost use Rattle.vsm_core.specs.State.{rip_of};
ghost use Rattle.vsm_core.specs.declared.mark.Grant.{Grant};
ghost use Rattle.vsm_core.specs.declared.request.Heard.{Heard};
ghost use Rattle.vsm_core.specs.Tree.{Ends};
ghost use Rattle.attempt.specs.Rests.{rest_of};
ghost use Rattle.attempt.specs.Results.{result_of};
ghost use Rattle.attempt.specs.Views.{origin_of};
ghost use Rattle.cpu.specs.declared.log.Log.{Log};
ghost use Rattle.cpu.specs.UnderWay.{Means, Way, op_of};

use crate::lengths::operation;
use attempt::{Under, VpState};
use vsm_core::{Program, What};

/// A new attempt begins where none is under way. One that is at its end with no step, and was a spin in vain, was under
/// way before.
pub fn begun(state: &VpState, under: &mut Under, acting: bool, program: &Program)
    requires vp { state.now.number < state.now.limits.vps }
    requires vps { state.now.limits.vps ≤ 8 }
    requires rip { rip_of state.now.state < length (operations_of program.now state.now.state.active) }
    requires same { IfSome (op_of acting under.old) (λ op. operation_at program.now state.now.state ≡ Some op) }
    ensures means { (heard : Option Heard) (log : Log) → Means acting state.now under.old heard log
        → Way state.now under.new heard log }
    ensures op { operation_at program.now state.now.state ≡ Some under.new.op }
    ensures kept { (grant : Grant) → rest_of (origin_of state.now) under.new
        ≡ Ends (result_of (origin_of state.now) under.new)
        → (result_of (origin_of state.now) under.new).what ≡ What.Again grant
        → op_of acting under.old ≡ Some under.new.op }
{
    if !acting {
        state.begin(under, operation(program, state));
    }
}

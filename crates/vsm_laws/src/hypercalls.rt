// What a refused hypercall leaves. Each function's contract is the law; it computes nothing.
ghost use Rattle.std.specs.Prelude.{ℕ, ◌≢◌, ◌<◌, ◌^◌, List, []};
ghost use Rattle.vsm_base.specs.declared.status.HvStatus.{HvStatus};
ghost use Rattle.vsm_core.specs.Attempt.{attempt, puts_out};
ghost use Rattle.vsm_core.specs.Calls.{result_value};
ghost use Rattle.vsm_core.specs.Hypercalls.{result_outcome};
ghost use Rattle.vsm_core.specs.Outcomes.{Origin};
ghost use Rattle.vsm_core.specs.Processor.{Vp, attempted};
ghost use Rattle.vsm_core.specs.Whole.{Flat};
ghost use Rattle.vsm_core.specs.declared.operation.Op.TheVariants.{Hypercall};
ghost use Rattle.vsm_core.specs.declared.operation.Program.{Program};
ghost use Rattle.vsm_core.specs.declared.partition_state.PartitionState.{PartitionState};
ghost use Rattle.vsm_laws.specs.ReadWords.{words_read};
ghost use Rattle.vsm_laws.specs.Refusals.{EndsChanging, IsRefusedAtOnce, LeavesTheDoneIfRefused, LeavesTheRest};
ghost use Rattle.vsm_laws.specs.Refusals.{put_out};

/// Whatever is answered, a hypercall whose result has a status other than 0 has written what its elements that are done
/// put out, posted nothing and set what they set; it keeps all else but RAX and the active level's Rip, and what it
/// asked of the partition is refused there (`tree`). So does one that is made at once: memory but for what was put out,
/// and all posted words, stay (`at_once`). A definition in which a refused get puts out other words, such as zeros,
/// isn't so (`no_others`).
pub fn refused_hypercalls_keep_the_rest()
    ensures tree { (from : Origin) → EndsChanging (LeavesTheDoneIfRefused from) [] [] [] (attempt from Hypercall) }
    ensures at_once { (program : Program) (v : Vp) (s : PartitionState) (flat : Flat) (value : ℕ)
        → IsRefusedAtOnce program v s flat value
        → LeavesTheRest v s flat (words_read program v s flat) value (attempted program v s flat) }
    ensures no_others { (from : Origin) (read words : List ℕ) (status : HvStatus) (done : ℕ)
        → 0 < status.0 → status.0 < 2 ^ 16 → words ≢ put_out from read (result_value status done)
        → ¬ EndsChanging (LeavesTheDoneIfRefused from) read [] []
        (puts_out from words (result_outcome from from.state status done)) }
{}

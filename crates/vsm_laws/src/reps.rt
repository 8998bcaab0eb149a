// The slices of rep calls. Each function's contract is the law; it computes nothing.
ghost use Rattle.std.specs.Prelude.{ℕ, List, [], ◌∷◌, ◌≡◌, ◌+◌, ◌-◌, ◌*◌, ◌/◌, ◌^◌, true, length, Some, None};
ghost use Rattle.vsm_base.specs.declared.status.HvStatus.{HvStatus};
ghost use Rattle.vsm_base.specs.declared.status.TheConstants.HvStatus.{SUCCESS};
ghost use Rattle.vsm_core.specs.Calls.{code_in, result_value};
ghost use Rattle.vsm_core.specs.Hypercalls.{input_value};
ghost use Rattle.vsm_core.specs.Processor.{Vp, attempted, operation_at, origin_of};
ghost use Rattle.vsm_core.specs.RegisterCalls.{count_of, slice_end, start_of};
ghost use Rattle.vsm_core.specs.Reps.{acting, refusing};
ghost use Rattle.vsm_core.specs.Whole.{Flat};
ghost use Rattle.vsm_core.specs.declared.mark.What.{What};
ghost use Rattle.vsm_core.specs.declared.mark.What.TheVariants.{Reply as Result};
ghost use Rattle.vsm_core.specs.declared.operation.Op.TheVariants.{Hypercall};
ghost use Rattle.vsm_core.specs.declared.operation.Program.{Program};
ghost use Rattle.vsm_core.specs.declared.partition_state.PartitionState.{PartitionState};
ghost use Rattle.vsm_laws.specs.ReadWords.{words_read};
ghost use Rattle.vsm_laws.specs.Slices.{GoThrough, IsAdmitted, IsAtCall, goes_or_ends, is_part, refusals_of};
ghost use Rattle.vsm_laws.specs.Slices.{slice_refusals, slices_from, slices_of, what_of, whats_left};

/// The attempts of one rep call take its elements slice by slice. Each ends as the first refused element of its own
/// slice says, or for want of one (`each`). After one that leaves elements RCX has the input value whose start is
/// eight higher, all else the same, and the processor is at the call again (`part`). So the slices are [s, s + 8),
/// [s + 8, s + 16) .. (`slices`). Where no element is refused the result has the count of all, and there is one
/// attempt for each eight elements (`complete`). Else it has the status and the index of the first that is refused,
/// and that one's slice is the last (`refused`). A call that flushes a list of addresses does all its elements at
/// once (`flush`).
pub fn slices_come_to_the_count()
    ensures each { (program : Program) (v : Vp) (s : PartitionState) (flat : Flat) (what : What) → IsAtCall program v
        → let from = origin_of v in IsAdmitted from
        → whats_left v (attempted program v s flat).vp ≡ what ∷ [] → goes_or_ends what ≡ true
        → what ≡ what_of (slice_end from (slice_refusals s from (words_read program v s flat))) }
    ensures part { (program : Program) (v : Vp) (s : PartitionState) (flat : Flat) → IsAtCall program v
        → let new = (attempted program v s flat).vp in is_part (whats_left v new) ≡ true
        → IsAtCall program new × (input_value new.state ≡ input_value v.state + 8 * 2 ^ 48) }
    ensures slices { (program : Program) (v : Vp) (es : List (PartitionState × Flat)) (result : ℕ)
        → IsAtCall program v → GoThrough program v es result
        → slices_of program v es ≡ slices_from (length es) (start_of (origin_of v)) (count_of (origin_of v)) }
    ensures complete { (program : Program) (v : Vp) (es : List (PartitionState × Flat)) (result : ℕ)
        → IsAtCall program v → GoThrough program v es result → refusing (refusals_of program v es) ≡ None
        → (result ≡ result_value SUCCESS (count_of (origin_of v)))
        × (length es ≡ (count_of (origin_of v) - start_of (origin_of v) + 7) / 8) }
    ensures refused { (program : Program) (v : Vp) (es : List (PartitionState × Flat)) (result : ℕ) (status : HvStatus)
        → IsAtCall program v → GoThrough program v es result → refusing (refusals_of program v es) ≡ Some status
        → let done = acting (refusals_of program v es)
        in (result ≡ result_value status (start_of (origin_of v) + done)) × (length es ≡ done / 8 + 1) }
    ensures flush { (program : Program) (v : Vp) (s : PartitionState) (flat : Flat) (what : What)
        → v.started ≡ true → operation_at program v.state ≡ Some Hypercall → code_in (input_value v.state) ≡ 0x0003
        → let from = origin_of v in IsAdmitted from
        → whats_left v (attempted program v s flat).vp ≡ what ∷ [] → goes_or_ends what ≡ true
        → what ≡ Result (result_value SUCCESS (count_of from)) }
{}

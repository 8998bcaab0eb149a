// Laws of the definitions. Each function's contract is the law; it computes nothing.
ghost use Rattle.std.specs.Prelude.{ℕ, List, ◌++◌, ◌≡◌, ◌≢◌, ◌⊎◌, ◌+◌, ◌<◌, ◌≤◌, false, length, take, Some, None};
ghost use Rattle.vsm_base.specs.declared.places.Vtl.{Vtl};
ghost use Rattle.vsm_base.specs.declared.status.HvStatus.{HvStatus};
ghost use Rattle.vsm_base.specs.declared.status.TheConstants.HvStatus.{SUCCESS};
ghost use Rattle.vsm_core.specs.AtOnce.{SameDid, IsInStep};
ghost use Rattle.vsm_core.specs.Blocks.{IsWhole as IsWholeJournal};
ghost use Rattle.vsm_core.specs.Entries.{words_by_entries};
ghost use Rattle.vsm_core.specs.Hypercalls.{input_value, refused_call};
ghost use Rattle.vsm_core.specs.Keeps.{EndsIn, KeepsTheRest, RefusesAll, RefusesRest};
ghost use Rattle.vsm_core.specs.Processor.{Vp, acts};
ghost use Rattle.vsm_base.specs.declared.name.Name.{Name};
ghost use Rattle.vsm_base.specs.declared.name.Name.TheVariants.{Rcx};
ghost use Rattle.vsm_core.specs.Calls.{start_in, count_in};
ghost use Rattle.vsm_core.specs.Fills.{Cached};
ghost use Rattle.vsm_core.specs.RegisterCalls.{Setting, all_set, set_refusals, get_refusals, set_slice, got_slice, part_outcome};
ghost use Rattle.vsm_core.specs.Registers.{IsWhole, get};
ghost use Rattle.vsm_core.specs.Reps.{acting, refusing};
ghost use Rattle.vsm_core.specs.Protection.{IsSlice, owed};
ghost use Rattle.vsm_core.specs.Served.{answer, after, block, state_after, AreServed, joined};
ghost use Rattle.vsm_core.specs.Status.{protects};
ghost use Rattle.vsm_core.specs.declared.journal.Entry.{Entry};
ghost use Rattle.vsm_core.specs.declared.operation.Program.{Program};
ghost use Rattle.vsm_core.specs.declared.partition_state.PartitionState.{PartitionState};
ghost use Rattle.vsm_core.specs.declared.request.Request.{Request};
ghost use Rattle.vsm_core.specs.Tree.{Counts};
ghost use Rattle.vsm_core.specs.State.{State};
ghost use Rattle.vsm_core.specs.Attempt.{attempt, gets_by, sets_by, served, most_steps};
ghost use Rattle.vsm_core.specs.Controllers.{Controllers};
ghost use Rattle.vsm_core.specs.Outcomes.{Origin, origin_in};
ghost use Rattle.vsm_core.specs.Sound.{Sound, IsOver};
ghost use Rattle.vsm_core.specs.Starts.{start_tree};
ghost use Rattle.vsm_core.specs.Steps.{phase_of};
ghost use Rattle.vsm_base.specs.declared.places.Limits.{Limits};
ghost use Rattle.vsm_core.specs.Whole.{Flat, answer_in, flat_after, with_entries};
ghost use Rattle.vsm_core.specs.Words.{Holds, answer_of, words_by};
ghost use Rattle.vsm_core.specs.declared.event.Event.{Event};
ghost use Rattle.vsm_core.specs.declared.event.Phase.TheVariants.{Idle};
ghost use Rattle.vsm_core.specs.declared.operation.Op.{Op};

/// An attempt of one of the processors, or its start, asks each step only where it may be made, whatever the words answer,
/// and ends between two accesses.
pub fn attempts_are_sound()
    ensures attempts { (limits : Limits) (p : ℕ) (state : State) (controllers : Controllers) (op : Op) (events : List Event) → p < limits.vps → phase_of events ≡ Idle
        → Sound limits IsOver events (attempt (origin_in limits p state controllers) op) }
    ensures starts { (limits : Limits) (p : ℕ) (state : State) (controllers : Controllers) (events : List Event) → p < limits.vps → phase_of events ≡ Idle
        → Sound limits IsOver events (start_tree (origin_in limits p state controllers)) }
{}

/// Whatever the words answer, an attempt has at most thirteen steps, and at most twelve where it is denied without
/// level 1. Where level 1 is told of a denial, its message and its entry add at most fifteen to these twelve. An end of
/// message has at most seventeen, an intercepted register eighteen, and a hypercall thirty-eight. There are at most eight
/// processors, which is what a call that interrupts them rests on.
pub fn attempts_are_short()
    ensures attempts { (from : Origin) (op : Op) → from.vps ≤ 8 → Counts most_steps 0 (attempt from op) }
    ensures starts { (from : Origin) → Counts most_steps 0 (start_tree from) }
{}

/// An attempt, or a start, whose steps, and those of its requests, are made one by one on all the shared words comes to what
/// it comes to at once over the journal, the posted words and the memory: the masks that the words hold are those of the
/// journal, and the generation is the number of its reports. It serves the same requests, whose entries the journal then has.
pub fn attempts_are_whole()
    ensures same { (program : Program) (v : Vp) (s : PartitionState) (words : List ℕ) (flat : Flat) → v.number < v.limits.vps → IsInStep v.limits s flat → Holds v.limits words flat
        → SameDid v.limits (acts (answer_of v.limits v.number) (words_by v.limits v.number) (words_by_entries v.limits) program s v words) (acts (answer_in v.limits v.number) (flat_after v.limits v.number) with_entries program s v flat) }
    ensures in_step { (program : Program) (v : Vp) (s : PartitionState) (flat : Flat) → IsInStep v.limits s flat
        → let did = acts (answer_in v.limits v.number) (flat_after v.limits v.number) with_entries program s v flat in IsInStep v.limits (state_after s did.served) did.words }
    ensures journal { (program : Program) (v : Vp) (s : PartitionState) (flat : Flat)
        → let did = acts (answer_in v.limits v.number) (flat_after v.limits v.number) with_entries program s v flat in did.words.journal ≡ flat.journal ++ joined did.served }
{}

/// A hypercall that is refused before its first step keeps all of its processor but RAX and the active level's Rip.
pub fn refused_calls_keep_the_rest()
    ensures { (from : Origin) (status : HvStatus) → KeepsTheRest from (refused_call from status) }
{}

/// So does one that the partition refuses. The partition keeps its state, and its journal gains the refusal alone; where
/// elements before a refused one were done, they are done as if there were no others.
pub fn refused_requests_keep_the_rest()
    ensures partition { (s : PartitionState) (r : Request) → (answer s r).status ≢ SUCCESS → RefusesAll s r ⊎ RefusesRest s r }
    ensures processor { (from : Origin) (s : PartitionState) (r : Request) (code : ℕ) → (answer s r).status ≢ SUCCESS → KeepsTheRest from (served from code (answer s r)) }
{}

/// A call that gets or sets registers and is refused at its header keeps the rest, too. Where it is refused at an element,
/// it does so but for the registers that the elements before that one have set.
pub fn refused_elements_keep_the_rest()
    ensures get_header { (from : Origin) (header words : List ℕ) (status : HvStatus) → EndsIn (KeepsTheRest from) (gets_by from header words (Some status)) }
    ensures set_header { (from : Origin) (header words : List ℕ) (status : HvStatus) → EndsIn (KeepsTheRest from) (sets_by from header words (Some status)) }
    ensures get_element { (from : Origin) (target : Vtl) (numbers : List ℕ) → refusing (get_refusals from target numbers) ≢ None → KeepsTheRest from (got_slice from target numbers) }
    ensures set_element { (from : Origin) (target : Vtl) (settings : List Setting) → refusing (set_refusals from target settings) ≢ None
        → KeepsTheRest (record from { state = all_set target from.state (take (acting (set_refusals from target settings)) settings) }) (set_slice from target settings) }
{}

/// A slice after which elements are left keeps Rip, RAX and all other registers but RCX as its elements have left them. RCX
/// then is the input value with the next element's index as its start.
pub fn parts_go_on()
    ensures registers { (from : Origin) (state : State) (does : List Cached) (next : ℕ) (level : Vtl) (name : Name) → name ≢ Rcx
        → get (part_outcome from state does next).state.registers level name ≡ get state.registers level name }
    ensures start { (from : Origin) (state : State) (does : List Cached) (next : ℕ) → IsWhole state.registers → next < 4096 → start_in (input_value (part_outcome from state does next).state) ≡ next }
    ensures count { (from : Origin) (state : State) (does : List Cached) (next : ℕ) → IsWhole state.registers → next < 4096 → count_in (input_value (part_outcome from state does next).state) ≡ count_in (input_value from.state) }
{}

/// The journal of requests that were served one after the other, from a partition without protection or rounds on, is whole:
/// the entries of each are a block of their own. In a round the clears of all processors, in their order, stand between the
/// turn and the report, and the reply comes after the report.
pub fn served_journals_are_whole()
    ensures { (s : PartitionState) (served : List (Request × List Entry)) → protects s.config ≡ false → s.rounds ≡ 0 → AreServed s served → IsWholeJournal (length s.vps) (joined served) }
{}

/// A request adds at most eleven entries and one for each processor, and once, when protection is turned on, one more for
/// each page.
pub fn requests_add_few_entries()
    ensures { (s : PartitionState) (r : Request) → IsSlice r.call → length (block s r) + owed (after s r) ≤ length s.vps + 11 + owed s }
{}

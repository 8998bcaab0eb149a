// Laws over the runs of all scripts, of which the contracts of the code that runs them speak. Each function's contract is
// the law; it computes nothing.
ghost use Rattle.std.specs.Prelude.{◌≡◌, ◌≢◌, ◌⊎◌, ℕ, [], Some, None, slice_get};
ghost use Rattle.guest_script.specs.Within.{IsWithin};
ghost use Rattle.guest_script.specs.declared.script.Script.{Script};
ghost use Rattle.vsm_core.specs.Blocks.{IsWhole};
ghost use Rattle.vsm_core.specs.Journal.{masks};
ghost use Rattle.vsm_core.specs.Processor.{Vp};
ghost use Rattle.vsm_core.specs.Served.{AreServed, joined};
ghost use Rattle.vsm_core.specs.declared.mark.Ending.{Ending};
ghost use Rattle.vsm_core.specs.declared.mark.Ending.TheVariants.{Cut, Unstarted};
ghost use Rattle.vsm_report.specs.Acting.{first_partition};
ghost use Rattle.vsm_report.specs.Endings.{Says, last_state};
ghost use Rattle.vsm_report.specs.FlatRun.{closed, flat, served};
ghost use Rattle.vsm_report.specs.MoreTurns.{HasOneMore, HasStarted, IsOver, one_by_one, with_turn};
ghost use Rattle.vsm_report.specs.Opening.{opening_masks};
ghost use Rattle.vsm_report.specs.Telling.{kept_marks, told_entries, told_marks};
ghost use Rattle.vsm_report.specs.Trace.{traced};
ghost use Rattle.vsm_report.specs.declared.report.Track.{Track};

/// The run of a script step by step on the shared words has the report of the run that makes each attempt at once. Each
/// script that is read keeps the limits.
pub fn steps_come_to_attempts()
    ensures { (s : Script) → IsWithin s → traced s ≡ flat s }
{}

/// Each request that a run serves adds what it adds to the state that those before it leave, and the journal is that of
/// these requests, whole. The masks at the end are the opening masks with the journal's asks applied.
pub fn runs_serve_in_order()
    ensures served { (s : Script) → AreServed (first_partition s) (served s) }
    ensures journal { (s : Script) → (flat s).journal ≡ joined (served s) }
    ensures whole { (s : Script) → IsWhole s.limits.vps (flat s).journal }
    ensures masks { (s : Script) → (flat s).masks ≡ masks (opening_masks s) (flat s).journal }
{}

/// The lines tell each mark of each processor in its order, and no other. They tell each spin in vain, too, of which the
/// processor keeps only the one behind which the schedule ended.
pub fn lines_tell_the_marks()
    ensures tracks { (s : Script) (p : ℕ) (track : Track) (ending : Ending) → slice_get (flat s).tracks p ≡ Some track → slice_get (flat s).ends p ≡ Some ending
        → track.marks ≡ kept_marks ending (told_marks p (flat s).lines) }
    ensures others { (s : Script) (p : ℕ) → slice_get (flat s).tracks p ≡ None → told_marks p (flat s).lines ≡ [] }
{}

/// The lines tell each entry of the journal in its order, and no other.
pub fn lines_tell_the_journal()
    ensures { (s : Script) → told_entries (flat s).lines ≡ (flat s).journal }
{}

/// The ending that a report tells of a processor is the one that the processor's last state says, and no other is said of it.
pub fn endings_tell_the_last_state()
    ensures says { (s : Script) (p : ℕ) (v : Vp) (ending : Ending) → slice_get (closed s).vps p ≡ Some v
        → slice_get (flat s).ends p ≡ Some ending → Says (last_state s p v) ending }
    ensures only { (s : Script) (p : ℕ) (v : Vp) (ending : Ending) → slice_get (closed s).vps p ≡ Some v
        → Says (last_state s p v) ending → slice_get (flat s).ends p ≡ Some ending }
{}

/// A schedule is no more than its turns, in order, and one turn more has its processor act alone, and only where it may. A
/// processor that the schedule cut short makes one attempt more; one that has ended does nothing, and so does a number of
/// no processor; one that hasn't started starts or waits.
pub fn turns_act_alone()
    ensures turns { (s : Script) → flat (one_by_one s) ≡ flat s }
    ensures cut { (s : Script) (p : ℕ) → slice_get (flat s).ends p ≡ Some Cut → HasOneMore p (flat s) (flat (with_turn s p)) }
    ensures over { (s : Script) (p : ℕ) (ending : Ending) → slice_get (flat s).ends p ≡ Some ending → IsOver ending
        → flat (with_turn s p) ≡ flat s }
    ensures nobody { (s : Script) (p : ℕ) → slice_get (flat s).ends p ≡ None → flat (with_turn s p) ≡ flat s }
    ensures unstarted { (s : Script) (p : ℕ) → slice_get (flat s).ends p ≡ Some Unstarted
        → (flat (with_turn s p) ≡ flat s) ⊎ HasStarted p (flat s) (flat (with_turn s p)) }
    ensures tracks { (s : Script) (p q : ℕ) → q ≢ p
        → slice_get (flat (with_turn s p)).tracks q ≡ slice_get (flat s).tracks q }
    ensures ends { (s : Script) (p q : ℕ) → q ≢ p → slice_get (flat (with_turn s p)).ends q ≡ slice_get (flat s).ends q }
{}

// What attempts leave of a processor's registers. Each function's contract is the law; it computes nothing.
ghost use Rattle.std.specs.Prelude.{List, [], ◌≡◌, ◌≢◌, Bool, false, Some};
ghost use Rattle.vsm_base.specs.declared.name.Name.{Name};
ghost use Rattle.vsm_base.specs.declared.name.Name.TheVariants.{Rip};
ghost use Rattle.vsm_base.specs.declared.places.Vtl.{Vtl};
ghost use Rattle.vsm_core.specs.Attempt.{attempt};
ghost use Rattle.vsm_core.specs.Keeps.{EndsIn, after_attempts};
ghost use Rattle.vsm_core.specs.Outcomes.{Origin};
ghost use Rattle.vsm_core.specs.Processor.{Vp};
ghost use Rattle.vsm_core.specs.RegisterCalls.{Setting, register_of};
ghost use Rattle.vsm_core.specs.Registers.{get, private_of};
ghost use Rattle.vsm_core.specs.Whole.{Flat};
ghost use Rattle.vsm_core.specs.declared.operation.Op.{Op};
ghost use Rattle.vsm_core.specs.declared.operation.Program.{Program};
ghost use Rattle.vsm_core.specs.declared.partition_state.PartitionState.{PartitionState};
ghost use Rattle.vsm_core.specs.declared.register.CallRegister.TheVariants.{PartitionConfig};
ghost use Rattle.vsm_laws.specs.Changes.{IsAway, NoneChanges, may_change, names_kept, sets_leaving};
ghost use Rattle.vsm_laws.specs.ReadWords.{EndsReading};

/// While a level isn't active its own registers come back as they were, whatever the attempts of the other level do and
/// whatever they find, unless level 1 is enabled meanwhile, or a call of level 1 sets one of them: one of the call's
/// elements is done and names it (`back`). An element that is refused isn't done, and that of the partition's
/// configuration names no register of a level (`configuration`).
pub fn own_registers_come_back()
    ensures back { (level : Vtl) (program : Program) (v : Vp) (attempts : List (PartitionState × Flat))
        → IsAway level program v attempts
        → private_of (after_attempts program v attempts).state.registers level
        ≡ private_of v.state.registers level }
    ensures configuration { (test : Name → Bool) (s : Setting) → register_of s.number ≡ Some PartitionConfig
        → names_kept test s ≡ false }
{}

/// Whatever is answered, an attempt keeps each register of both levels but those that it may change, by its operation
/// and the words that it reads. So do attempts one after the other. One that switches levels keeps all but Rip, and RAX
/// and RCX where a return takes them from the assist page.
pub fn attempts_change_few_registers()
    ensures one { (from : Origin) (op : Op) → EndsReading (λ words o. (level : Vtl) (name : Name)
        → may_change from op words o.state level name ≡ false
        → get o.state.registers level name ≡ get from.state.registers level name) [] (attempt from op) }
    ensures switches { (from : Origin) (op : Op) → EndsIn (λ o. o.state.active ≢ from.state.active
        → (level : Vtl) (name : Name) → name ≢ Rip → sets_leaving from op name ≡ false
        → get o.state.registers level name ≡ get from.state.registers level name) (attempt from op) }
    ensures all { (level : Vtl) (name : Name) (program : Program) (v : Vp) (attempts : List (PartitionState × Flat))
        → NoneChanges level name program v attempts
        → get (after_attempts program v attempts).state.registers level name ≡ get v.state.registers level name }
{}

// One layout a register: what the definitions read of a register are the fields of its type.
ghost use Rattle.std.specs.Prelude.{◌≡◌, ◌<◌, ◌%◌, ◌^◌};
ghost use Rattle.register_file.specs.Parts.{IsSegment, segment_bits};
ghost use Rattle.register_file.specs.declared.parts.Segment.{Segment};
ghost use Rattle.vsm_base.specs.declared.name.Name.TheVariants.{Cs};
ghost use Rattle.vsm_core.specs.State.{State, get, privilege_of};
ghost use Rattle.vsm_core.specs.Status.{default_mask, denies_startup, protects};
ghost use Rattle.vsm_status.specs.Layouts.{partition_config_bits};
ghost use Rattle.vsm_status.specs.declared.partition_config.PartitionConfig.{PartitionConfig};

/// The definitions that read a configuration of the partition read the fields of `PartitionConfig` in its bits, and the
/// privilege level is the two low bits of the selector of the active level's code segment.
pub fn layouts_agree()
    ensures protects { (config : PartitionConfig) → config.default < 16
        → protects (partition_config_bits config) ≡ config.protect }
    ensures default { (config : PartitionConfig) → config.default < 16
        → default_mask (partition_config_bits config) ≡ config.default }
    ensures denies { (config : PartitionConfig) → config.default < 16
        → denies_startup (partition_config_bits config) ≡ config.deny_startup }
    ensures privilege { (state : State) (code : Segment) → IsSegment code → get state Cs ≡ segment_bits code
        → privilege_of state ≡ code.selector % 4 }
{}

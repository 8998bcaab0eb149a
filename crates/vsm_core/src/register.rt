// What the register calls name.
use vsm_base::Name;

/// A register as the calls that get and set registers name it (TLFS, HV_REGISTER_NAME).
#[derive(Clone, Copy, Debug, PartialEq, Eq)]
pub enum CallRegister {
    /// One that a processor keeps.
    Kept(Name),
    /// The end of a message (TLFS, HvRegisterEom). It has no value.
    EndOfMessage,
    /// Where the code of the two switches begins (TLFS, HvRegisterVsmCodePageOffsets).
    CodePageOffsets,
    /// The levels of the processor (TLFS, HvRegisterVsmVpStatus).
    VpStatus,
    /// The levels of the partition (TLFS, HvRegisterVsmPartitionStatus).
    PartitionStatus,
    /// What the hypervisor offers (TLFS, HvRegisterVsmCapabilities).
    Capabilities,
    /// What level 1 asks for the whole partition (TLFS, HvRegisterVsmPartitionConfig).
    PartitionConfig,
}

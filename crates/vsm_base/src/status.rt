// Hypercall statuses.

/// A hypercall's status (TLFS, Hypercall Status Codes).
#[derive(Clone, Copy, Debug, PartialEq, Eq)]
pub struct HvStatus(pub u16);

impl HvStatus {
    /// The call did what it was asked.
    pub const SUCCESS: HvStatus = HvStatus(0x0000);
    /// There is no such call.
    pub const INVALID_HYPERCALL_CODE: HvStatus = HvStatus(0x0002);
    /// The input value or the input's extent isn't one that the call takes.
    pub const INVALID_HYPERCALL_INPUT: HvStatus = HvStatus(0x0003);
    /// The input or the output isn't aligned.
    pub const INVALID_ALIGNMENT: HvStatus = HvStatus(0x0004);
    /// A field has a value that the call doesn't take.
    pub const INVALID_PARAMETER: HvStatus = HvStatus(0x0005);
    /// The caller may not do this.
    pub const ACCESS_DENIED: HvStatus = HvStatus(0x0006);
    /// There is no such partition.
    pub const INVALID_PARTITION_ID: HvStatus = HvStatus(0x000D);
    /// There is no such processor.
    pub const INVALID_VP_INDEX: HvStatus = HvStatus(0x000E);
    /// The processor's state doesn't let it.
    pub const INVALID_VP_STATE: HvStatus = HvStatus(0x0015);
    /// A register can't have this value.
    pub const INVALID_REGISTER_VALUE: HvStatus = HvStatus(0x0050);
    /// The level's state doesn't let it.
    pub const INVALID_VTL_STATE: HvStatus = HvStatus(0x0051);
    /// The level is enabled already.
    pub const VTL_ALREADY_ENABLED: HvStatus = HvStatus(0x0086);
}

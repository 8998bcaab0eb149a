// The calls there are.
ghost use Rattle.std.specs.Prelude.{◌≡◌, option_map};
ghost use Rattle.vsm_core.specs.Calls.{row_of};
ghost use Rattle.hyper_abi.specs.Told.{row_from, row_for};

/// The form of a call's input and output (TLFS, Hypercall Interface).
#[derive(Clone, Copy, Debug, PartialEq, Eq)]
pub struct CallForm {
    /// The call's code.
    pub code: u16,
    /// Whether it is a rep call, which does one element after the other.
    pub rep: bool,
    /// Whether it may be fast: its input may stand in registers in place of memory.
    pub fast: bool,
    /// How many bytes its header has.
    pub header: u16,
    /// How many bytes each of its elements has, 0 where it has none.
    pub element: u16,
    /// How many bytes of each of its elements are read, 0 where none is.
    pub read: u16,
    /// How many bytes it puts out for each element, 0 where it puts out nothing.
    pub output: u16,
}

/// A call that there is.
#[derive(Clone, Copy, Debug, PartialEq, Eq)]
pub enum Call {
    /// HvCallFlushVirtualAddressSpace.
    FlushVirtualAddressSpace,
    /// HvCallFlushVirtualAddressList.
    FlushVirtualAddressList,
    /// HvCallSendSyntheticClusterIpi.
    SendSyntheticClusterIpi,
    /// HvCallModifyVtlProtectionMask.
    ModifyVtlProtectionMask,
    /// HvCallEnablePartitionVtl.
    EnablePartitionVtl,
    /// HvCallEnableVpVtl.
    EnableVpVtl,
    /// HvCallGetVpRegisters.
    GetVpRegisters,
    /// HvCallSetVpRegisters.
    SetVpRegisters,
    /// HvCallStartVirtualProcessor.
    StartVirtualProcessor,
}

impl Call {
    /// The call of this code: 0x0002 is HvCallFlushVirtualAddressSpace and 0x0003 is HvCallFlushVirtualAddressList (TLFS,
    /// Virtual MMU), 0x000B is HvCallSendSyntheticClusterIpi (TLFS, Virtual Interrupt Control), 0x000C is
    /// HvCallModifyVtlProtectionMask, 0x000D is HvCallEnablePartitionVtl and 0x000F is HvCallEnableVpVtl (TLFS, Virtual
    /// Secure Mode), 0x0050 is HvCallGetVpRegisters, 0x0051 is HvCallSetVpRegisters and 0x0099 is
    /// HvCallStartVirtualProcessor (TLFS, Virtual Processors). That there are no other calls is this project's own.
    ///
    /// `None` exactly where no call has the code.
    #[tactic(auto, unfolding(vsm_core::specs::Calls::row_of, vsm_core::specs::Calls::rows))]
    pub fn of(code: u16) -> Option<Call>
        ensures { option_map row_for result ≡ row_of code }
    {
        match code {
            0x0002 => Some(Call::FlushVirtualAddressSpace),
            0x0003 => Some(Call::FlushVirtualAddressList),
            0x000B => Some(Call::SendSyntheticClusterIpi),
            0x000C => Some(Call::ModifyVtlProtectionMask),
            0x000D => Some(Call::EnablePartitionVtl),
            0x000F => Some(Call::EnableVpVtl),
            0x0050 => Some(Call::GetVpRegisters),
            0x0051 => Some(Call::SetVpRegisters),
            0x0099 => Some(Call::StartVirtualProcessor),
            _ => None,
        }
    }

    /// The form of its input and output. Those that get and set registers or ask for masks are rep calls, and so is the
    /// flush of a list, whose elements aren't read: a flush here is always of all translations, which is this project's own.
    pub fn form(self) -> CallForm
        ensures { row_from result ≡ row_for self }
    {
        match self {
            Call::FlushVirtualAddressSpace => CallForm {
                code: 0x0002,
                rep: false,
                fast: false,
                header: 24,
                element: 0,
                read: 0,
                output: 0,
            },
            Call::FlushVirtualAddressList => CallForm {
                code: 0x0003,
                rep: true,
                fast: false,
                header: 24,
                element: 8,
                read: 0,
                output: 0,
            },
            Call::SendSyntheticClusterIpi => CallForm {
                code: 0x000B,
                rep: false,
                fast: true,
                header: 16,
                element: 0,
                read: 0,
                output: 0,
            },
            Call::ModifyVtlProtectionMask => CallForm {
                code: 0x000C,
                rep: true,
                fast: false,
                header: 16,
                element: 8,
                read: 8,
                output: 0,
            },
            Call::EnablePartitionVtl => CallForm {
                code: 0x000D,
                rep: false,
                fast: true,
                header: 16,
                element: 0,
                read: 0,
                output: 0,
            },
            Call::EnableVpVtl => CallForm {
                code: 0x000F,
                rep: false,
                fast: false,
                header: 240,
                element: 0,
                read: 0,
                output: 0,
            },
            Call::GetVpRegisters => CallForm {
                code: 0x0050,
                rep: true,
                fast: false,
                header: 16,
                element: 4,
                read: 4,
                output: 16,
            },
            Call::SetVpRegisters => CallForm {
                code: 0x0051,
                rep: true,
                fast: false,
                header: 16,
                element: 32,
                read: 32,
                output: 0,
            },
            Call::StartVirtualProcessor => CallForm {
                code: 0x0099,
                rep: false,
                fast: false,
                header: 240,
                element: 0,
                read: 0,
                output: 0,
            },
        }
    }
}

/// The form of the call of this code.
///
/// `None` exactly where no call has the code.
pub fn form_of(code: u16) -> Option<CallForm>
    ensures { option_map row_from result ≡ row_of code }
{
    let call = Call::of(code)?;
    Some(call.form())
}

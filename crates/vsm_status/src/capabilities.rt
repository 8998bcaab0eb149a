// What the hypervisor offers.
ghost use Rattle.std.specs.Prelude.{◌≡◌, ◌≢◌, IfNone, IfSome, Some};
ghost use Rattle.vsm_status.specs.Layouts.{capabilities_bits, read_capabilities};
ghost use Rattle.vsm_status.specs.declared.capabilities.Capabilities.{Capabilities};

/// What the hypervisor offers (TLFS, Virtual Secure Mode, HV_REGISTER_VSM_CAPABILITIES).
#[derive(Clone, Copy, Debug, PartialEq, Eq)]
pub struct Capabilities {
    /// Whether the levels share the register DR6, bit 0 (Dr6Shared).
    pub dr6_shared: bool,
    /// Whether a level can deny the levels below to start or reset a processor, bit 17 (DenyLowerVtlStartup).
    pub deny_startup: bool,
}

impl Capabilities {
    /// The register's bits: its fields, and all others zero. That MbecVtlMask, bits 16:1, is zero is this project's own,
    /// which has no mode-based execute control.
    pub fn bits(self) -> u64
        ensures value { result ≡ capabilities_bits self }
        ensures reads_back { read_capabilities result ≡ Some self }
    {
        u64::from(self.dr6_shared) + (u64::from(self.deny_startup) << 17)
    }

    /// The capabilities of these bits: `None` exactly where none have them.
    pub fn read(bits: u64) -> Option<Capabilities>
        ensures value { result ≡ read_capabilities bits }
        ensures has { IfSome result (λ capabilities. capabilities_bits capabilities ≡ bits) }
        ensures none { IfNone result ((capabilities : Capabilities) → capabilities_bits capabilities ≢ bits) }
    {
        let capabilities = Capabilities {
            dr6_shared: bits % 2 == 1,
            deny_startup: bits / (1 << 17) % 2 == 1,
        };
        (capabilities.bits() == bits).then_some(capabilities)
    }
}

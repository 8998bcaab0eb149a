// Which levels a processor has, and which is active.
ghost use Rattle.std.specs.Prelude.{◌≡◌, ◌≢◌, IfNone, IfSome, Some};
ghost use Rattle.vsm_base.specs.Levels.{level_number};
ghost use Rattle.vsm_status.specs.Layouts.{vp_status_bits, read_vp_status, level_in as level_in_lem};
ghost use Rattle.vsm_status.specs.declared.vp_status.VpStatus.{VpStatus};

use vsm_base::Vtl;

/// Which level is active on a processor, and which are enabled there: level 0 always is (TLFS, Virtual Secure Mode,
/// HV_REGISTER_VSM_VP_STATUS). That the active level is an enabled one isn't asked here.
#[derive(Clone, Copy, Debug, PartialEq, Eq)]
pub struct VpStatus {
    /// The active level, bits 3:0 (ActiveVtl).
    pub active: Vtl,
    /// Whether level 1 is enabled on this processor, bit 17 (the second bit of EnabledVtlSet).
    pub one_enabled: bool,
}

// The number of a level.
fn number_of(level: Vtl) -> u64
    ensures { result ≡ level_number level }
{
    match level {
        Vtl::Zero => 0,
        Vtl::One => 1,
    }
}

// The active level, if these are the bits of a status.
fn level_in(bits: u64) -> Vtl
    ensures { result ≡ level_in_lem bits }
{
    if bits % 16 == 1 { Vtl::One } else { Vtl::Zero }
}

impl VpStatus {
    /// The register's bits: the active level in bits 3:0, bit 16 set for level 0, bit 17 where level 1 is enabled, and all
    /// others zero. That bit 4 (ActiveMbecEnabled) and bits 31:18 of EnabledVtlSet are zero is this project's own, which has
    /// no mode-based execute control and no level above 1.
    pub fn bits(self) -> u64
        ensures value { result ≡ vp_status_bits self }
        ensures reads_back { read_vp_status result ≡ Some self }
    {
        number_of(self.active) + (1 << 16) + (u64::from(self.one_enabled) << 17)
    }

    /// The status of these bits: `None` exactly where no status has them.
    pub fn read(bits: u64) -> Option<VpStatus>
        ensures value { result ≡ read_vp_status bits }
        ensures has { IfSome result (λ status. vp_status_bits status ≡ bits) }
        ensures none { IfNone result ((status : VpStatus) → vp_status_bits status ≢ bits) }
    {
        let status = VpStatus {
            active: level_in(bits),
            one_enabled: bits / (1 << 17) % 2 == 1,
        };
        (status.bits() == bits).then_some(status)
    }
}

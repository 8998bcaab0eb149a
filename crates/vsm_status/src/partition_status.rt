// Which levels a partition has.
ghost use Rattle.std.specs.Prelude.{◌≡◌, ◌≢◌, IfNone, IfSome, Some};
ghost use Rattle.vsm_status.specs.Layouts.{partition_status_bits, read_partition_status};
ghost use Rattle.vsm_status.specs.declared.partition_status.PartitionStatus.{PartitionStatus};

/// Which levels are enabled for a partition: level 0 always is (TLFS, Virtual Secure Mode,
/// HV_REGISTER_VSM_PARTITION_STATUS).
#[derive(Clone, Copy, Debug, PartialEq, Eq)]
pub struct PartitionStatus {
    /// Whether level 1 is enabled for the partition, bit 1 (the second bit of EnabledVtlSet).
    pub one_enabled: bool,
}

impl PartitionStatus {
    /// The register's bits: bit 0 set for level 0, bit 1 where level 1 is enabled, the greatest level, 1, in bits 19:16
    /// (MaximumVtl), and all others zero. That the greatest level is 1 and that MbecEnabledVtlSet, bits 35:20, is
    /// zero are this project's own.
    pub fn bits(self) -> u64
        ensures value { result ≡ partition_status_bits self }
        ensures reads_back { read_partition_status result ≡ Some self }
    {
        1 + (u64::from(self.one_enabled) << 1) + (1 << 16)
    }

    /// The status of these bits: `None` exactly where no status has them.
    pub fn read(bits: u64) -> Option<PartitionStatus>
        ensures value { result ≡ read_partition_status bits }
        ensures has { IfSome result (λ status. partition_status_bits status ≡ bits) }
        ensures none { IfNone result ((status : PartitionStatus) → partition_status_bits status ≢ bits) }
    {
        let status = PartitionStatus {
            one_enabled: bits / 2 % 2 == 1,
        };
        (status.bits() == bits).then_some(status)
    }
}

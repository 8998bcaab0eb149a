// What a level asks for the whole partition.
ghost use Rattle.std.specs.Prelude.{◌≡◌, ◌≢◌, ◌<◌, IfNone, IfSome, Some};
ghost use Rattle.vsm_status.specs.Layouts.{partition_config_bits, partition_config_in, read_partition_config};
ghost use Rattle.vsm_status.specs.declared.partition_config.PartitionConfig.{PartitionConfig};

/// What a level asks for the whole partition (TLFS, Virtual Secure Mode, HV_REGISTER_VSM_PARTITION_CONFIG).
#[derive(Clone, Copy, Debug, PartialEq, Eq)]
pub struct PartitionConfig {
    /// Whether the level protects memory from the levels below, bit 0 (EnableVtlProtection).
    pub protect: bool,
    /// The protection mask of pages that were given none, bits 4:1 (DefaultVtlProtectionMask), below 16. Any number of
    /// four bits, a valid mask or not.
    pub default: u8,
    /// Whether memory is zeroed before the partition is reset, bit 5 (ZeroMemoryOnReset).
    pub zero_on_reset: bool,
    /// Whether the levels below are denied to start or reset a processor, bit 6 (DenyLowerVtlStartup).
    pub deny_startup: bool,
}

impl PartitionConfig {
    /// The register's bits: its fields, and all others zero. That the bits above 6 are zero is this project's own.
    pub fn bits(self) -> u64
        requires { self.default < 16 }
        ensures value { result ≡ partition_config_bits self }
        ensures reads_back { read_partition_config result ≡ Some self }
    {
        u64::from(self.protect)
            + (u64::from(self.default) << 1)
            + (u64::from(self.zero_on_reset) << 5)
            + (u64::from(self.deny_startup) << 6)
    }

    /// The fields that these bits have. The bits above 6 aren't looked at.
    pub fn fields_in(bits: u64) -> PartitionConfig
        ensures value { result ≡ partition_config_in bits }
        ensures range { result.default < 16 }
    {
        PartitionConfig {
            protect: bits % 2 == 1,
            default: (bits / 2 % (1 << 4)) as u8,
            zero_on_reset: bits / (1 << 5) % 2 == 1,
            deny_startup: bits / (1 << 6) % 2 == 1,
        }
    }

    /// The configuration of these bits: `None` exactly where none has them.
    pub fn read(bits: u64) -> Option<PartitionConfig>
        ensures value { result ≡ read_partition_config bits }
        ensures has { IfSome result (λ config. partition_config_bits config ≡ bits) }
        ensures range { IfSome result (λ config. config.default < 16) }
        ensures none { IfNone result ((config : PartitionConfig) → config.default < 16 → partition_config_bits config ≢ bits) }
    {
        let config = PartitionConfig::fields_in(bits);
        (config.bits() == bits).then_some(config)
    }
}

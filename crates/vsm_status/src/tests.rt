use super::*;
use vsm_base::Vtl;

#[test]
fn a_processor_has_its_active_level_and_those_enabled(rt: HostRuntime) {
    let low = VpStatus {
        active: Vtl::Zero,
        one_enabled: false,
    };
    let high = VpStatus {
        active: Vtl::One,
        one_enabled: true,
    };
    assert_eq!(rt; low.bits(), 0x10000);
    assert_eq!(rt; VpStatus::read(0x10000), Some(low));
    assert_eq!(rt; high.bits(), 0x30001);
    assert_eq!(rt; VpStatus::read(0x30001), Some(high));
    assert_eq!(rt; VpStatus::read(0x20001), None);
    assert_eq!(rt; VpStatus::read(0x30002), None);
}

#[test]
fn a_partition_has_the_levels_enabled_and_the_greatest(rt: HostRuntime) {
    let one = PartitionStatus { one_enabled: false };
    let two = PartitionStatus { one_enabled: true };
    assert_eq!(rt; one.bits(), 0x10001);
    assert_eq!(rt; PartitionStatus::read(0x10001), Some(one));
    assert_eq!(rt; two.bits(), 0x10003);
    assert_eq!(rt; PartitionStatus::read(0x10003), Some(two));
    assert_eq!(rt; PartitionStatus::read(0x10002), None);
    assert_eq!(rt; PartitionStatus::read(0x20003), None);
}

#[test]
fn a_configuration_has_its_four_fields(rt: HostRuntime) {
    let open = PartitionConfig {
        protect: true,
        default: 15,
        zero_on_reset: false,
        deny_startup: false,
    };
    let shut = PartitionConfig {
        protect: false,
        default: 1,
        zero_on_reset: true,
        deny_startup: true,
    };
    assert_eq!(rt; open.bits(), 0x1F);
    assert_eq!(rt; PartitionConfig::read(0x1F), Some(open));
    assert_eq!(rt; shut.bits(), 0x62);
    assert_eq!(rt; PartitionConfig::read(0x62), Some(shut));
}

#[test]
fn capabilities_are_two_bits(rt: HostRuntime) {
    let both = Capabilities {
        dr6_shared: true,
        deny_startup: true,
    };
    let deny = Capabilities {
        dr6_shared: false,
        ..both
    };
    assert_eq!(rt; both.bits(), 0x20001);
    assert_eq!(rt; Capabilities::read(0x20001), Some(both));
    assert_eq!(rt; deny.bits(), 0x20000);
    assert_eq!(rt; Capabilities::read(0x20000), Some(deny));
}

#[test]
fn offsets_are_twelve_bits_each(rt: HostRuntime) {
    let near = CodePageOffsets {
        call: 0x10,
        back: 0x20,
    };
    let last = CodePageOffsets {
        call: 0xFFE,
        back: 0xFFF,
    };
    assert_eq!(rt; near.bits(), 0x2_0010);
    assert_eq!(rt; CodePageOffsets::read(0x2_0010), Some(near));
    assert_eq!(rt; last.bits(), 0xFF_FFFE);
    assert_eq!(rt; CodePageOffsets::read(0xFF_FFFE), Some(last));
}

/// Which of the five registers may have this bit set.
fn accepted(bit: u32) -> [bool; 5] {
    let more = 1u64.wrapping_shl(bit);
    [
        VpStatus::read(0x10000 | more).is_some(),
        PartitionStatus::read(0x10001 | more).is_some(),
        PartitionConfig::read(more).is_some(),
        Capabilities::read(more).is_some(),
        CodePageOffsets::read(more).is_some(),
    ]
}

/// Which of them have the bit in a field, or always set.
fn wanted(bit: u32) -> [bool; 5] {
    [
        bit == 0 || bit == 16 || bit == 17,
        bit == 0 || bit == 1 || bit == 16,
        bit < 7,
        bit == 0 || bit == 17,
        bit < 24,
    ]
}

#[test]
fn no_bit_but_those_of_the_fields_may_be_set(rt: HostRuntime) {
    for bit in 0..64 {
        assert_eq!(rt; accepted(bit), wanted(bit), "bit {bit}");
    }
}

// The call that requests an interrupt of processors.
ghost use Rattle.std.specs.Prelude.{◌≤◌};

use super::*;
use vsm_base::{HvStatus, Vtl};

const DENIED: Option<HvStatus> = Some(HvStatus(0x0006));

const BAD: Option<HvStatus> = Some(HvStatus(0x0005));

/// A first word with this input VTL byte.
fn byte(byte: u64, vector: u64) -> u64 {
    byte << 32 | vector
}

/// What a caller of this level is answered that names processor 0.
fn named(caller: Vtl, first: u64) -> Option<HvStatus> {
    interrupt_refusal(4, caller, &[first, 1])
}

#[test]
fn an_interrupt_is_for_no_level_above_the_caller(rt: HostRuntime) {
    for (first, status) in [
        (byte(0x00, 0x40), None),
        (byte(0x01, 0x40), None),
        (byte(0x0F, 0x40), None),
        (byte(0x10, 0x40), None),
        (byte(0x11, 0x40), DENIED),
        (byte(0x12, 0x40), BAD),
        (byte(0x1F, 0x40), BAD),
        (byte(0x20, 0x40), BAD),
        (byte(0x31, 0x40), BAD),
        (byte(0x80, 0x40), BAD),
        (byte(0x100, 0x40), BAD),
        (1 << 63 | 0x40, BAD),
    ] {
        assert_eq!(rt; named(Vtl::Zero, first), status, "{first}");
    }
    assert_eq!(rt; named(Vtl::One, byte(0x11, 0x40)), None);
    assert_eq!(rt; named(Vtl::One, byte(0x10, 0x40)), None);
    assert_eq!(rt; named(Vtl::One, byte(0x12, 0x40)), BAD);
}

#[test]
fn a_vector_is_from_16_to_255(rt: HostRuntime) {
    for (vector, status) in [
        (0, BAD),
        (0x0F, BAD),
        (0x10, None),
        (0xFF, None),
        (0x100, BAD),
        (0x110, BAD),
        (0xFFFF_FFFF, BAD),
    ] {
        assert_eq!(rt; named(Vtl::Zero, vector), status, "{vector}");
    }
}

/// What a caller is answered that names processors by these bits, among so many.
fn among(vps: u8, bits: u64) -> Option<HvStatus>
    requires { vps ≤ 8 }
{
    interrupt_refusal(vps, Vtl::Zero, &[0x40, bits])
}

#[test]
fn each_processor_that_is_named_is_one_that_there_is(rt: HostRuntime) {
    assert_eq!(rt; among(1, 0), None);
    assert_eq!(rt; among(1, 1), None);
    assert_eq!(rt; among(1, 2), BAD);
    assert_eq!(rt; among(4, 0x0F), None);
    assert_eq!(rt; among(4, 0x10), BAD);
    assert_eq!(rt; among(4, 0x1F), BAD);
    assert_eq!(rt; among(8, 0xFF), None);
    assert_eq!(rt; among(8, 0x100), BAD);
    assert_eq!(rt; among(8, 1 << 63), BAD);
    assert_eq!(rt; among(8, u64::MAX), BAD);
}

#[test]
fn the_byte_is_looked_at_before_the_level_and_that_before_the_vector(rt: HostRuntime) {
    let all = u64::MAX;
    for (first, second, status) in [
        (byte(0x31, 0x0F), all, BAD),
        (byte(0x11, 0x0F), all, DENIED),
        (byte(0x11, 0x40), all, DENIED),
        (byte(0x11, 0x0F), 1, DENIED),
        (byte(0x10, 0x0F), 1, BAD),
    ] {
        let refusal = interrupt_refusal(4, Vtl::Zero, &[first, second]);
        assert_eq!(rt; refusal, status, "{first}");
    }
}

#[test]
fn an_interrupt_has_its_fields(rt: HostRuntime) {
    let interrupt = interrupt_of(Vtl::One, &[0x10_0000_0010, 0x81]);
    let read = Interrupt {
        level: Vtl::Zero,
        vector: 0x10,
        processors: 0x81,
    };
    assert_eq!(rt; interrupt, read);
    let own = interrupt_of(Vtl::One, &[0xFF, 0xFF]);
    let read = Interrupt {
        level: Vtl::One,
        vector: 0xFF,
        processors: 0xFF,
    };
    assert_eq!(rt; own, read);
}

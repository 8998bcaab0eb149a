ghost use Rattle.std.specs.Prelude.{◌<◌};

use super::*;
use vsm_base::{Access, Gva};
use vsm_core::GuestFault;

const PRESENT: u64 = 1;

const WRITE: u64 = 2;

const USER: u64 = 4;

const NO_EXECUTE: u64 = 1 << 63;

const ALL: u64 = PRESENT | WRITE | USER;

const FAULT: WalkStep = WalkStep::Fault(GuestFault::Page);

/// Bits 47:39 are 1, 38:30 are 2, 29:21 are 511 and 20:12 are 3.
const ADDRESS: Gva = Gva(0x80_BFE0_3FFF);

/// The last answer of a walk through these entries, and how many it took.
fn walked(entries: [u64; 4], access: Access, cpl: u8) -> (WalkStep, u8) {
    let Ok(mut walk) = Walk::start(0x1000, ADDRESS, access, cpl) else {
        return (WalkStep::Fault(GuestFault::Noncanonical), 0);
    };
    let first = walk.next(entries[0]);
    let WalkStep::Need(_, _) = first else {
        return (first, 1);
    };
    let second = walk.next(entries[1]);
    let WalkStep::Need(_, _) = second else {
        return (second, 2);
    };
    let third = walk.next(entries[2]);
    let WalkStep::Need(_, _) = third else {
        return (third, 3);
    };
    (walk.next(entries[3]), 4)
}

/// Four entries with all rights, the last of which leads to page 9, with these bits of one entry turned over.
fn all_but(place: usize, bits: u64) -> [u64; 4]
    requires { place < 4 }
{
    let mut entries = [0x2000 | ALL, 0x3000 | ALL, 0x4000 | ALL, 0x9000 | ALL];
    entries[place] ^= bits;
    entries
}

fn to(write: bool, user: bool, execute: bool) -> WalkStep {
    WalkStep::Mapped(Translation {
        page: 9,
        write,
        user,
        execute,
    })
}

#[test]
fn an_address_is_canonical_or_not(rt: HostRuntime) {
    let table = [
        (0x0000_7FFF_FFFF_FFFF, true),
        (0x0000_8000_0000_0000, false),
        (0xFFFF_7FFF_FFFF_FFFF, false),
        (0xFFFF_8000_0000_0000, true),
    ];
    for (gva, is_canonical) in table {
        let start = Walk::start(0, Gva(gva), Access::Read, 0);
        assert_eq!(rt; start.is_ok(), is_canonical, "at {gva}");
    }
}

#[test]
fn each_table_is_read_at_its_index(rt: HostRuntime) {
    let Ok(mut walk) = Walk::start(0xFFF0_0000_0000_1FFF, ADDRESS, Access::Read, 0) else {
        assert!(rt; false, "canonical");
        return;
    };
    assert_eq!(rt; walk.first(), (1, 1));
    let second = walk.next(0x7FF0_0000_0000_2FF9);
    assert_eq!(rt; second, WalkStep::Need(2, 2));
    let WalkStep::Need(_, _) = second else {
        return;
    };
    let third = walk.next(0x000F_FFFF_FFFF_F001);
    assert_eq!(rt; third, WalkStep::Need(0xFF_FFFF_FFFF, 511));
    let WalkStep::Need(_, _) = third else {
        return;
    };
    assert_eq!(rt; walk.next(0x4001), WalkStep::Need(4, 3));
}

#[test]
fn entries_allow_what_all_four_say(rt: HostRuntime) {
    let changes = [
        (PRESENT, Access::Read, 0, FAULT),
        (WRITE, Access::Write, 0, FAULT),
        (WRITE, Access::Read, 0, to(false, true, true)),
        (USER, Access::Read, 3, FAULT),
        (USER, Access::Write, 3, FAULT),
        (USER, Access::Execute, 3, FAULT),
        (USER, Access::Write, 2, to(true, false, true)),
        (NO_EXECUTE, Access::Execute, 0, FAULT),
        (NO_EXECUTE, Access::Write, 3, to(true, true, false)),
        (
            0x7FF0_0000_0000_0FF8,
            Access::Execute,
            3,
            to(true, true, true),
        ),
    ];
    for place in 0..4usize {
        for (bits, access, cpl, step) in changes {
            let count = if bits == PRESENT { place as u8 + 1 } else { 4 };
            let found = walked(all_but(place, bits), access, cpl);
            assert_eq!(rt; found, (step, count), "entry {place}, bits {bits}");
        }
    }
}

#[test]
fn a_read_at_level_0_needs_presence_alone(rt: HostRuntime) {
    let bits = PRESENT | NO_EXECUTE;
    let entries = [0x2000 | bits, 0x3000 | bits, 0x4000 | bits, 0x9000 | bits];
    assert_eq!(rt;
        walked(entries, Access::Read, 0),
        (to(false, false, false), 4)
    );
}

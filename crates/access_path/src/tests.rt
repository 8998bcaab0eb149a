// Accesses on a fabric of one processor and six pages: pages 1 to 4 hold the tables, which lead `ADDRESS` to page 5.
ghost use Rattle.std.specs.Prelude.{◌≡◌, ◌*◌, IfOk, length, get_or};

use super::*;
use fabric::{PlainFabric, Steward};
use std::alloc::Global;
use std::test::Fail;
use vsm_base::{Access, Gva, Limits, Mask, Memory, Page, VpIndex, Vtl};
use vsm_core::{Grant, GuestFault, Phase};

const LIMITS: Limits = Limits {
    vps: 1,
    pages: 6,
    budget: 1,
};

/// Bits 47:39 are 1, 38:30 are 2, 29:21 are 511, 20:12 are 3, and it is the second word of its page.
const ADDRESS: u64 = 0x80_BFE0_3008;

const NONCANONICAL: u64 = 0x8000_0000_0000;

/// The places of the entries on the way, and of the word at `ADDRESS`, among the words of memory.
const ENTRIES: [usize; 4] = [0x201, 0x402, 0x7FF, 0x803];

const WORD: usize = 0xA01;

const VALUE: u64 = 77;

const READ: Aim = Aim {
    level: Vtl::Zero,
    cpl: 0,
    cr0: 1 << 31,
    cr3: 0x1000,
    gva: Gva(ADDRESS),
    access: Access::Read,
    need: 1,
    aligned: true,
    value: 0,
    pages: 6,
};

const WRITE: Aim = Aim {
    access: Access::Write,
    need: 2,
    value: 99,
    ..READ
};

/// It needs no alignment.
const EXECUTE: Aim = Aim {
    access: Access::Execute,
    need: 12,
    gva: Gva(ADDRESS + 3),
    aligned: false,
    ..READ
};

const NO_PAGING: Aim = Aim {
    cr0: 1,
    gva: Gva(0x5008),
    ..READ
};

/// Lays the tables and the word at `ADDRESS` into memory, and then changes one word.
fn lay(words: &mut [u64], place: usize, value: u64)
    requires { length words.old ≡ 512 * 6 }
{
    words[ENTRIES[0]] = 0x2007;
    words[ENTRIES[1]] = 0x3007;
    words[ENTRIES[2]] = 0x4007;
    words[ENTRIES[3]] = 0x5007;
    words[WORD] = VALUE;
    if let Some(word) = words.get_mut(place) {
        *word = value;
    }
}

/// A fabric after its first turn, whose masks allow everything but one.
fn opened(alloc: Global, words: &[u64], page: usize, mask: Mask) -> Result<PlainFabric, Memory>
    requires { length words.now ≡ 512 * 6 }
    ensures limits { IfOk result (λ f. f.limits ≡ LIMITS) }
    ensures idle { IfOk result (λ f. get_or f.fabric.phases 0 Phase.Idle ≡ Phase.Idle) }
{
    let mut masks = [Mask::all(); 6];
    if let Some(kept) = masks.get_mut(page) {
        *kept = mask;
    }
    let mut fabric = PlainFabric::new(alloc, &LIMITS, &masks, words)?;
    fabric.steward().turn();
    Ok(fabric)
}

/// What an access comes to, and after how many steps.
fn outcome(fabric: &mut PlainFabric, aim: Aim) -> (PathTurn, u8)
    requires limits { fabric.old.limits ≡ LIMITS }
    requires idle { get_or fabric.old.fabric.phases 0 Phase.Idle ≡ Phase.Idle }
    requires pages { aim.pages ≡ 6 }
{
    let mut path = match Path::start(aim) {
        Ok(path) => path,
        Err(fault) => return (PathTurn::Fault(fault), 0),
    };
    let mut port = fabric.port(VpIndex(0));
    for made in 0..12u8 {
        match path.turn(&mut port) {
            PathTurn::Moved => {}
            turn => return (turn, made + 1),
        }
    }
    (PathTurn::Moved, 12)
}

/// The mask of these bits, and the one that allows everything where there is none.
fn mask_of(bits: u32) -> Mask {
    Mask::of(bits).unwrap_or(Mask::all())
}

/// What was changed before an access: a word of memory, and the mask of a page.
#[derive(Clone, Copy)]
struct Change {
    place: usize,
    value: u64,
    page: usize,
    bits: u32,
}

/// Nothing was changed.
const NOTHING: Change = Change {
    place: 0,
    value: 0,
    page: 0,
    bits: 15,
};

/// What an access comes to after a change and after how many steps, and the word at `ADDRESS` then.
fn accessed(alloc: Global, change: Change, aim: Aim) -> Result<(PathTurn, u8, u64), Memory> {
    let mut words = [0; 3072];
    lay(&mut words, change.place, change.value);
    let mut fabric = opened(alloc, &words, change.page, mask_of(change.bits))?;
    let aim = Aim { pages: 6, ..aim };
    let (turn, steps) = outcome(&mut fabric, aim);
    let after = fabric.words().get(17 + WORD).copied().unwrap_or(0);
    Ok((turn, steps, after))
}

fn granted(bits: Option<u32>, value: u64) -> PathTurn {
    PathTurn::Granted(Grant {
        page: Page(5),
        mask: bits.map(mask_of),
        generation: 1,
        value,
        hit: false,
    })
}

fn denied(page: u32, bits: u32, access: Access, gpa: u64) -> PathTurn {
    PathTurn::Denied {
        page: Page(page),
        mask: mask_of(bits),
        generation: 1,
        access,
        gpa,
    }
}

fn fault(fault: GuestFault) -> PathTurn {
    PathTurn::Fault(fault)
}

#[test]
fn an_access_has_a_start_or_a_fault(rt: HostRuntime) -> Result<(), Fail> {
    let table = [
        (
            Aim {
                gva: Gva(NONCANONICAL + 1),
                ..READ
            },
            GuestFault::Align,
            0,
        ),
        (
            Aim {
                gva: Gva(NONCANONICAL),
                ..READ
            },
            GuestFault::Noncanonical,
            0,
        ),
        (
            Aim {
                gva: Gva(NONCANONICAL),
                ..NO_PAGING
            },
            GuestFault::Unmapped,
            2,
        ),
        (
            Aim {
                cr3: 0x6000,
                ..READ
            },
            GuestFault::Unmapped,
            2,
        ),
    ];
    for (aim, cause, steps) in table {
        let found = accessed(rt.alloc(), NOTHING, aim)?;
        assert_eq!(rt; found, (fault(cause), steps, VALUE));
    }
    Ok(())
}

#[test]
fn each_entry_leads_on_or_not(rt: HostRuntime) -> Result<(), Fail> {
    let gpas = [0x1008, 0x2010, 0x3FF8, 0x4018];
    for k in 0..4usize {
        let place = ENTRIES[k];
        let page = k + 1;
        let read = 2 * page as u8 + 2;
        let unmapped = accessed(
            rt.alloc(),
            Change {
                place,
                value: 0x6007,
                ..NOTHING
            },
            READ,
        )?;
        assert_eq!(rt;
            unmapped,
            (fault(GuestFault::Unmapped), read, VALUE),
            "unmapped at {k}"
        );
        let absent = accessed(
            rt.alloc(),
            Change {
                place,
                value: 0x5006,
                ..NOTHING
            },
            READ,
        )?;
        assert_eq!(rt;
            absent,
            (fault(GuestFault::Page), read, VALUE),
            "absent at {k}"
        );
        let closed = accessed(
            rt.alloc(),
            Change {
                page,
                bits: 0,
                ..NOTHING
            },
            WRITE,
        )?;
        let turn = denied(page as u32, 0, Access::Read, gpas[k]);
        assert_eq!(rt; closed, (turn, read - 1, VALUE), "denied at {k}");
    }
    Ok(())
}

#[test]
fn the_walk_needs_rights(rt: HostRuntime) -> Result<(), Fail> {
    let place = ENTRIES[3];
    let of_user = |aim: Aim| Aim { cpl: 3, ..aim };
    let table = [
        (0x5005, WRITE, false),
        (0x5003, of_user(READ), false),
        (1 << 63 | 0x5007, EXECUTE, false),
        (1 << 63 | 0x5001, READ, true),
        (0x5005, of_user(READ), true),
    ];
    for (value, aim, is_right) in table {
        let wanted = if is_right {
            (granted(Some(15), VALUE), 12, VALUE)
        } else {
            (fault(GuestFault::Page), 10, VALUE)
        };
        let found = accessed(
            rt.alloc(),
            Change {
                place,
                value,
                ..NOTHING
            },
            aim,
        )?;
        assert_eq!(rt; found, wanted, "at {value}");
    }
    Ok(())
}

#[test]
fn the_mask_of_the_data_page_decides(rt: HostRuntime) -> Result<(), Fail> {
    let table = [
        (0, READ, denied(5, 0, Access::Read, 0x5008), 11, VALUE),
        (1, WRITE, denied(5, 1, Access::Write, 0x5008), 11, VALUE),
        (3, EXECUTE, denied(5, 3, Access::Execute, 0x500B), 11, VALUE),
        (
            1,
            Aim { need: 3, ..READ },
            denied(5, 1, Access::Read, 0x5008),
            11,
            VALUE,
        ),
        (1, READ, granted(Some(1), VALUE), 12, VALUE),
        (3, WRITE, granted(Some(3), 99), 12, 99),
        (13, EXECUTE, granted(Some(13), VALUE), 12, VALUE),
        (1, NO_PAGING, granted(Some(1), VALUE), 4, VALUE),
        (0, NO_PAGING, denied(5, 0, Access::Read, 0x5008), 3, VALUE),
    ];
    for (bits, aim, turn, steps, after) in table {
        let found = accessed(
            rt.alloc(),
            Change {
                page: 5,
                bits,
                ..NOTHING
            },
            aim,
        )?;
        assert_eq!(rt; found, (turn, steps, after), "mask {bits}");
    }
    Ok(())
}

#[test]
fn no_mask_binds_level_1(rt: HostRuntime) -> Result<(), Fail> {
    let above = |aim: Aim| Aim {
        level: Vtl::One,
        ..aim
    };
    for page in 1..6usize {
        let change = Change {
            page,
            bits: 0,
            ..NOTHING
        };
        let read = accessed(rt.alloc(), change, above(READ))?;
        assert_eq!(rt; read, (granted(None, VALUE), 7, VALUE), "page {page}");
    }
    let change = Change {
        page: 5,
        bits: 0,
        ..NOTHING
    };
    let written = accessed(
        rt.alloc(),
        change,
        above(Aim {
            gva: Gva(0x5008),
            cr0: 0,
            ..WRITE
        }),
    )?;
    assert_eq!(rt; written, (granted(None, 99), 3, 99));
    Ok(())
}

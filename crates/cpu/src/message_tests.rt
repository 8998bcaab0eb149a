use super::*;
use crate::left::Left;
use crate::runs::{Opening, PAGE_1, Put, Run, Way, leaves, mark};
use std::alloc::Global;
use std::test::Fail;
use vsm_base::{Access, Gva, Mask, Name, Page, VpIndex, Vtl};
use vsm_core::{Denial, EomWord, Event, Op, Operand, PendingWord, Posted, What};

/// Level 1's synthetic interrupt controller is on, its message page is page 0, and Sint0 has a vector. Level 1's assist
/// page is page 1. Level 0 stands at its second operation.
pub const OPENING: [Put; 7] = [
    PAGE_1,
    (Vtl::One, Name::Scontrol, 1),
    (Vtl::One, Name::Simp, 1),
    (Vtl::One, Name::Sint0, 0x31),
    (
        Vtl::Zero,
        Name::Cs,
        0x209B_0010_FFFF_FFFF_0000_0000_0000_1000,
    ),
    (Vtl::Zero, Name::Rflags, 0x246),
    (Vtl::Zero, Name::Rip, 1),
];

pub const STORE: Op = Op::Store(Gva(0x328), Operand::Number(7));

/// Level 0 stores at its second operation.
pub const STORES: [Op; 3] = [Op::Eom, STORE, Op::Eom];

/// A slot's first word with a message in it.
pub const TAKEN: u64 = 0x8000_0001;

/// A generation.
pub const ROUND: u64 = 5;

/// Makes so many attempts of a processor that begins with level 0 and whose port answers so. These registers are put
/// after those of the opening.
pub fn answered<'a>(
    alloc: Global,
    programs: (&'a [Op], &'a [Op]),
    puts: &'a [Put],
    answers: &'a [u64],
    attempts: usize,
    left: &[Left],
) -> Result<(), Fail> {
    let (zero, one) = programs;
    let run = Run {
        zero,
        one,
        opening: Opening::Both(Vtl::Zero, &OPENING, puts),
        way: Way::Fed(answers),
        attempts,
        turns: 0,
    };
    leaves(alloc, &run, left)
}

/// A page that may be read alone.
fn read_only() -> Mask {
    Mask::of(1).unwrap_or(Mask::all())
}

pub fn denied(posted: Posted) -> What {
    What::Denied(Denial {
        page: Page(0),
        mask: read_only(),
        generation: ROUND,
        access: Access::Write,
        posted,
    })
}

/// A word of the message slot is written.
pub fn slot(index: u16, value: u64) -> Event {
    Event::Write {
        page: Page(0),
        index,
        value,
    }
}

/// The first word of the message slot is read.
pub fn looked(value: u64) -> Event {
    Event::Read {
        page: Page(0),
        index: 0,
        value,
    }
}

/// The assist page is told that an interrupt or an intercept entered level 1.
pub fn told() -> Event {
    Event::Write {
        page: Page(1),
        index: 1,
        value: 2,
    }
}

/// The vector of Sint0 is requested for level 1.
pub fn rung() -> Event {
    Event::Post {
        vp: VpIndex(0),
        word: PendingWord::Vectors {
            level: Vtl::One,
            part: 0,
        },
        bits: 1 << 49,
    }
}

pub fn checked() -> Event {
    Event::Check { generation: ROUND }
}

fn masked() -> Event {
    Event::Mask {
        page: Page(0),
        mask: read_only(),
    }
}

#[test]
fn level_one_is_told_of_a_denied_store(rt: HostRuntime) -> Result<(), Fail> {
    let events = [
        Event::Enter,
        checked(),
        masked(),
        looked(0),
        slot(0, 0x0000_0050_8000_0001),
        slot(1, 0),
        slot(2, 0x0000_0100_0000_0000),
        slot(3, 0x1000),
        slot(4, 0x209B_0010_FFFF_FFFF),
        slot(5, 1),
        slot(6, 0x246),
        slot(7, 0x0000_0100_0000_0000),
        slot(8, 0x328),
        slot(9, 0x328),
        slot(10, 0),
        slot(11, 0),
        rung(),
        told(),
        Event::Leave,
    ];
    let left = [
        Left::Seen(&events),
        Left::Mark(0, mark(Vtl::Zero, 1, denied(Posted::Slot), 19)),
        // No note waits.
        Left::What(1, What::Eom(EomWord::Nothing)),
        Left::Active(Vtl::One),
        Left::Register(Vtl::Zero, Name::Rip, 1),
        Left::Ended(None),
    ];
    answered(
        rt.alloc(),
        (&STORES, &[Op::Eom; 2]),
        &[],
        &[ROUND, 1, 0],
        2,
        &left,
    )
}

#[test]
fn a_walk_that_is_denied_at_its_end_has_27_events(rt: HostRuntime) -> Result<(), Fail> {
    let zero = [Op::Eoi, Op::Exec(Gva(0x328)), Op::Eoi];
    let puts = [(Vtl::Zero, Name::Cr0, 0x8000_0001)];
    let answers = [ROUND, 15, 0x1007, 15, 0x1007, 15, 0x1007, 15, 0x1007, 1, 0];
    let left = [
        Left::Count(1),
        Left::Many(0, 27),
        Left::Event(0, 11, looked(0)),
        Left::Event(0, 14, slot(2, 0x0000_0200_0000_0000)),
        // The address of the operation, and the guest physical address that was denied.
        Left::Event(0, 20, slot(8, 0x328)),
        Left::Event(0, 21, slot(9, 0x1328)),
        Left::Active(Vtl::One),
    ];
    answered(rt.alloc(), (&zero, &[Op::Eom]), &puts, &answers, 1, &left)
}

#[test]
fn a_note_waits_behind_an_older_one(rt: HostRuntime) -> Result<(), Fail> {
    // The first note waits since the page is off. Then level 1 turns it on and returns.
    let ops = [
        Op::Set(Name::Scontrol, 1),
        Op::Set(Name::Simp, 1),
        Op::VtlReturn,
        Op::Eom,
    ];
    let puts = [
        (Vtl::One, Name::Scontrol, 0),
        (Vtl::One, Name::Simp, 0),
        (Vtl::Zero, Name::Rcx, 1),
    ];
    let whats = [
        denied(Posted::Waiting),
        What::Plain,
        What::Plain,
        What::Plain,
        denied(Posted::Waiting),
    ];
    let events = [
        Event::Enter,
        checked(),
        masked(),
        told(),
        Event::Leave,
        Event::Enter,
        checked(),
        masked(),
        looked(0),
        told(),
        Event::Leave,
    ];
    let left = [
        Left::Whats(&whats),
        Left::Seen(&events),
        Left::Span(0, 0, 5),
        Left::Span(4, 5, 6),
        Left::Active(Vtl::One),
    ];
    answered(
        rt.alloc(),
        (&STORES, &ops),
        &puts,
        &[ROUND, 1, ROUND, 1, 0],
        5,
        &left,
    )
}

#[test]
fn no_vector_is_requested_where_sint0_has_none(rt: HostRuntime) -> Result<(), Fail> {
    let left = [
        Left::Marks(&[mark(Vtl::Zero, 1, denied(Posted::Slot), 18)]),
        Left::Event(0, 15, slot(11, 0)),
        Left::Event(0, 16, told()),
    ];
    for sint in [0x1_0031, 0x0F] {
        let puts = [(Vtl::One, Name::Sint0, sint)];
        answered(
            rt.alloc(),
            (&STORES, &[Op::Eom]),
            &puts,
            &[ROUND, 1, 0],
            1,
            &left,
        )?;
    }
    Ok(())
}

/// Fails unless the store is denied with these registers and answers by these events, and its note waits.
fn waits(alloc: Global, puts: &[Put], answers: &[u64], events: &[Event]) -> Result<(), Fail> {
    let left = [
        Left::Seen(events),
        Left::Whats(&[denied(Posted::Waiting)]),
        Left::Active(Vtl::One),
    ];
    answered(alloc, (&STORES, &[Op::Eom]), puts, answers, 1, &left)
}

#[test]
fn a_note_waits_where_its_slot_is_taken_or_off(rt: HostRuntime) -> Result<(), Fail> {
    let alloc = rt.alloc();
    let taken = [
        Event::Enter,
        checked(),
        masked(),
        looked(TAKEN),
        slot(0, 0x0100_8000_0001),
        told(),
        Event::Leave,
    ];
    waits(alloc, &[], &[ROUND, 1, TAKEN], &taken)?;
    let off = [Event::Enter, checked(), masked(), told(), Event::Leave];
    for put in [
        (Vtl::One, Name::Scontrol, 0),
        (Vtl::One, Name::Simp, 0),
        (Vtl::One, Name::Simp, 0x2001),
    ] {
        waits(alloc, &[put], &[ROUND, 1], &off)?;
    }
    let puts = [
        (Vtl::One, Name::VpAssistPage, 0),
        (Vtl::One, Name::Scontrol, 0),
    ];
    let untold = [Event::Enter, checked(), masked(), Event::Leave];
    waits(alloc, &puts, &[ROUND, 1], &untold)
}

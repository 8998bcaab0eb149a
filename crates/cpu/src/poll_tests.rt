use super::*;
use crate::left::Left;
use crate::message_tests::{ROUND, answered, checked, told};
use crate::runs::{Put, mark};
use std::alloc::Global;
use std::test::Fail;
use vsm_base::{Name, Vtl};
use vsm_core::{Event, Op, PendingWord, What};

/// Level 0 polls at its second operation.
const POLLS: [Op; 3] = [Op::Eoi, Op::Poll, Op::Eoi];

/// Vector 0x40 is requested for level 1.
const FOR_ONE: [u64; 9] = [0, 0, 0, 0, 0, 1, 0, 0, ROUND];

/// Vectors 0 to 15 of both levels are requested.
const TOO_LOW: [u64; 9] = [0xFFFF, 0, 0, 0, 0xFFFF, 0, 0, 0, ROUND];

/// A poll has taken this from the words of this level, one after the other.
fn taken(level: Vtl, part: u8, bits: u64) -> Event {
    Event::Take {
        word: PendingWord::Vectors { level, part },
        bits,
    }
}

#[test]
fn a_poll_enters_level_one_for_its_vector(rt: HostRuntime) -> Result<(), Fail> {
    let one = [Op::Ack(Name::Rbx), Op::Ack(Name::Rdx), Op::Eoi];
    let puts = [(Vtl::One, Name::Rdx, 7)];
    let events = [
        taken(Vtl::Zero, 0, 0),
        taken(Vtl::Zero, 1, 0),
        taken(Vtl::Zero, 2, 0),
        taken(Vtl::Zero, 3, 0),
        taken(Vtl::One, 0, 0),
        taken(Vtl::One, 1, 1),
        taken(Vtl::One, 2, 0),
        taken(Vtl::One, 3, 0),
        Event::Enter,
        checked(),
        told(),
        Event::Leave,
    ];
    let left = [
        Left::Seen(&events),
        Left::Whats(&[What::Entered, What::Value(0x40), What::Value(0)]),
        Left::Active(Vtl::One),
        Left::Register(Vtl::Zero, Name::Rip, 2),
        Left::Register(Vtl::One, Name::Rbx, 0x40),
        Left::Register(Vtl::One, Name::Rdx, 0),
    ];
    answered(rt.alloc(), (&POLLS, &one), &puts, &FOR_ONE, 3, &left)
}

#[test]
fn level_one_ends_its_own_interrupt(rt: HostRuntime) -> Result<(), Fail> {
    let ack = Op::Ack(Name::Rax);
    let one = [ack, ack, Op::Eoi, ack, Op::Eoi];
    // Vectors 0x40 and 0x41 of both levels.
    let answers = [0, 3, 0, 0, 0, 3, 0, 0, ROUND];
    let whats = [
        What::Entered,
        What::Value(0x41),
        What::Value(0),
        What::Plain,
        What::Value(0x40),
    ];
    answered(
        rt.alloc(),
        (&POLLS, &one),
        &[],
        &answers,
        5,
        &[Left::Whats(&whats)],
    )
}

/// Fails unless a poll that takes these words comes to this by eight takes alone, at this level.
fn only_takes(
    alloc: Global,
    put: Put,
    answers: &[u64],
    what: What,
    level: Vtl,
) -> Result<(), Fail> {
    let left = [
        Left::Marks(&[mark(Vtl::Zero, 1, what, 8)]),
        Left::Active(level),
        Left::Register(Vtl::Zero, Name::Rip, 2),
    ];
    answered(alloc, (&POLLS, &[Op::Eoi; 2]), &[put], answers, 1, &left)
}

#[test]
fn a_poll_that_tells_nothing_takes_eight_words(rt: HostRuntime) -> Result<(), Fail> {
    let alloc = rt.alloc();
    // Level 1 has no page that is told.
    let page = (Vtl::One, Name::VpAssistPage, 0);
    only_takes(alloc, page, &FOR_ONE, What::Entered, Vtl::One)?;
    // Its Cr8 keeps the class off.
    only_takes(
        alloc,
        (Vtl::One, Name::Cr8, 4),
        &FOR_ONE,
        What::Plain,
        Vtl::Zero,
    )?;
    // No vector can be requested.
    only_takes(
        alloc,
        (Vtl::One, Name::Cr8, 0),
        &TOO_LOW,
        What::Plain,
        Vtl::Zero,
    )
}

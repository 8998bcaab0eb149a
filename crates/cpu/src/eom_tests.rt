use super::*;
use crate::left::Left;
use crate::message_tests::{
    ROUND, STORE, STORES, TAKEN, answered, checked, denied, looked, rung, slot,
};
use std::test::Fail;
use vsm_base::{Gva, Name, Vtl};
use vsm_core::{EomWord, Event, Op, Operand, Posted, What};

#[test]
fn an_end_of_message_sends_the_note_that_waits(rt: HostRuntime) -> Result<(), Fail> {
    let events = [
        Event::Enter,
        checked(),
        looked(0),
        slot(0, 0x0000_0050_8000_0001),
        slot(1, 0),
        slot(2, 0x0000_0100_0000_0000),
        slot(3, 0x1000),
        slot(4, 0x209B_0010_FFFF_FFFF),
        slot(5, 1),
        slot(6, 0x246),
        slot(7, 0x0000_0100_0000_0000),
        slot(8, 0x328),
        slot(9, 0x328),
        slot(10, 0),
        slot(11, 0),
        rung(),
        Event::Leave,
    ];
    let whats = [
        denied(Posted::Waiting),
        What::Eom(EomWord::Slot),
        What::Eom(EomWord::Nothing),
    ];
    let left = [
        Left::Whats(&whats),
        Left::Events(1, &events),
        Left::Many(2, 0),
        Left::Register(Vtl::One, Name::Rip, 2),
    ];
    answered(
        rt.alloc(),
        (&STORES, &[Op::Eom; 3]),
        &[],
        &[ROUND, 1, TAKEN, ROUND, 0],
        3,
        &left,
    )
}

#[test]
fn the_oldest_note_is_sent_first_and_says_that_more_wait(rt: HostRuntime) -> Result<(), Fail> {
    let other = Op::Store(Gva(0x330), Operand::Number(7));
    let zero = [Op::Eom, STORE, other];
    let one = [Op::VtlReturn, Op::Eom, Op::Eom, Op::Eom, Op::Eom];
    let puts = [(Vtl::Zero, Name::Rcx, 1)];
    // The first store is denied once, and then granted.
    let answers = [
        ROUND, 1, TAKEN, ROUND, 15, ROUND, 1, TAKEN, ROUND, 0, ROUND, 0,
    ];
    let left = [
        Left::What(0, denied(Posted::Waiting)),
        Left::What(3, denied(Posted::Waiting)),
        Left::What(4, What::Eom(EomWord::Slot)),
        Left::What(5, What::Eom(EomWord::Slot)),
        Left::What(6, What::Eom(EomWord::Nothing)),
        Left::Event(4, 3, slot(0, 0x0000_0150_8000_0001)),
        Left::Event(4, 8, slot(5, 1)),
        Left::Event(4, 11, slot(8, 0x328)),
        Left::Event(5, 3, slot(0, 0x0000_0050_8000_0001)),
        Left::Event(5, 8, slot(5, 2)),
        Left::Event(5, 11, slot(8, 0x330)),
    ];
    answered(rt.alloc(), (&zero, &one), &puts, &answers, 7, &left)
}

#[test]
fn an_end_of_message_may_send_nothing(rt: HostRuntime) -> Result<(), Fail> {
    let answers = [ROUND, 1, TAKEN, ROUND, TAKEN, ROUND, 0];
    let events = [
        Event::Enter,
        checked(),
        looked(TAKEN),
        slot(0, 0x0100_8000_0001),
        Event::Leave,
    ];
    let left = [
        Left::What(1, What::Eom(EomWord::Waiting)),
        Left::Events(1, &events),
        Left::What(2, What::Eom(EomWord::Slot)),
    ];
    answered(
        rt.alloc(),
        (&STORES, &[Op::Eom; 3]),
        &[],
        &answers,
        3,
        &left,
    )?;
    // Level 0 ends no message, and the note still waits for level 1.
    let call = Op::VtlCall;
    let zero = [
        Op::Eoi,
        STORE,
        Op::Eom,
        Op::Set(Name::Rcx, 0),
        call,
        Op::Eoi,
    ];
    let one = [Op::VtlReturn, Op::Eom, Op::Eom];
    let answers = [ROUND, 1, TAKEN, ROUND, 15, ROUND, ROUND, 0];
    let left = [
        Left::What(3, What::Eom(EomWord::Nothing)),
        Left::Many(3, 0),
        Left::What(6, What::Eom(EomWord::Slot)),
    ];
    answered(
        rt.alloc(),
        (&zero, &one),
        &[(Vtl::Zero, Name::Rcx, 1)],
        &answers,
        7,
        &left,
    )
}

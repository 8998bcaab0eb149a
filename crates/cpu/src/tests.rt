use super::*;
use crate::left::Left;
use crate::runs::{Answer, Opening, Run, Way, leaves, mark};
use std::alloc::Global;
use std::test::Fail;
use vsm_base::{Gva, Mask, Name, Page, Vtl};
use vsm_core::{Ending, Grant, GuestFault, Op, Operand, What};

/// A spin at the first word, and an operation behind it.
const SPIN: [Op; 2] = [Op::Spin(Gva(0), 7), Op::Get(Name::Rax)];

/// The spin reads 5, 6 and then 7.
const SPIN_ANSWERS: [u64; 9] = [0, 15, 5, 0, 15, 6, 0, 15, 7];

/// A spin behind another operation, which reads 5 three times.
const VAIN: [Op; 2] = [Op::Set(Name::Rbx, 1), Op::Spin(Gva(0), 7)];

const VAIN_ANSWERS: [u64; 9] = [0, 15, 5, 0, 15, 5, 0, 15, 5];

fn grant(value: u64) -> Grant {
    Grant {
        page: Page(0),
        mask: Some(Mask::all()),
        generation: 0,
        value,
        hit: false,
    }
}

fn granted(value: u64) -> What {
    What::Granted(grant(value))
}

/// Makes so many attempts of level 0 over memory of this mask and this word.
fn over(
    alloc: Global,
    ops: &[Op],
    mask: Mask,
    word: u64,
    attempts: usize,
    left: &[Left],
) -> Result<(), Fail> {
    let run = Run {
        zero: ops,
        one: &[],
        opening: Opening::Alone,
        way: Way::Memory(mask, word, [word, word]),
        attempts,
        turns: 0,
    };
    leaves(alloc, &run, left)
}

/// Makes so many attempts of level 0 whose port answers so.
fn answered<'a>(
    alloc: Global,
    ops: &'a [Op],
    answers: &'a [u64],
    attempts: usize,
    left: &[Left],
) -> Result<(), Fail> {
    let run = Run {
        zero: ops,
        one: &[],
        opening: Opening::Alone,
        way: Way::Fed(answers),
        attempts,
        turns: 0,
    };
    leaves(alloc, &run, left)
}

/// Makes so many attempts of the spin, and then so many turns.
fn spins(alloc: Global, attempts: usize, turns: usize, left: &[Left]) -> Result<(), Fail> {
    let run = Run {
        zero: &SPIN,
        one: &[],
        opening: Opening::Alone,
        way: Way::Fed(&SPIN_ANSWERS),
        attempts,
        turns,
    };
    leaves(alloc, &run, left)
}

/// Makes so many attempts of a processor that has spun two times less than it may.
fn spins_on(alloc: Global, attempts: usize, left: &[Left]) -> Result<(), Fail> {
    let run = Run {
        zero: &VAIN,
        one: &[],
        opening: Opening::NearlySpun,
        way: Way::Fed(&VAIN_ANSWERS),
        attempts,
        turns: 0,
    };
    leaves(alloc, &run, left)
}

#[test]
fn operations_do_what_they_say(rt: HostRuntime) -> Result<(), Fail> {
    let ops = [
        Op::Set(Name::Rax, 0x1234),
        Op::Get(Name::Rax),
        Op::Store(Gva(8), Operand::Register(Name::Rax)),
        Op::Load(Name::Rbx, Gva(8)),
        Op::Exec(Gva(9)),
        Op::Spin(Gva(8), 0x1234),
        Op::JumpNe(Name::Rbx, 0x1234, 0),
        Op::JumpNe(Name::Rbx, 5, 9),
        Op::Hypercall,
        Op::Jump(11),
        Op::Hypercall,
        Op::Jump(99),
    ];
    let whats = [
        What::Plain,
        What::Value(0x1234),
        granted(0x1234),
        granted(0x1234),
        granted(0x1234),
        granted(0x1234),
        What::Plain,
        What::Plain,
        What::Plain,
        What::Plain,
    ];
    let left = [
        Left::Whats(&whats),
        Left::Ended(Some(Ending::Done)),
        Left::Register(Vtl::Zero, Name::Rip, 99),
        Left::Register(Vtl::Zero, Name::Rbx, 0x1234),
        Left::Steps(20),
        Left::Word(1, 0x1234),
    ];
    over(rt.alloc(), &ops, Mask::all(), 0, 10, &left)
}

#[test]
fn an_operation_that_no_script_has_is_undefined(rt: HostRuntime) -> Result<(), Fail> {
    let left = [
        Left::Count(1),
        Left::Seen(&[]),
        Left::Ended(Some(Ending::Fault(GuestFault::Undefined))),
    ];
    over(rt.alloc(), &[Op::Invlpg(Gva(0))], Mask::all(), 0, 2, &left)
}

#[test]
fn the_mark_of_a_spin_in_vain_goes_at_the_next_turn(rt: HostRuntime) -> Result<(), Fail> {
    let left = [
        Left::Last(Answer::Again),
        Left::Marks(&[mark(Vtl::Zero, 0, What::Again(grant(5)), 5)]),
        Left::Standing(0),
        Left::Steps(5),
    ];
    spins(rt.alloc(), 1, 0, &left)?;
    // The mark goes at the next turn, and the events at the check of the next attempt.
    spins(rt.alloc(), 1, 1, &[Left::Steps(6), Left::Count(0)])?;
    spins(rt.alloc(), 1, 2, &[Left::Steps(2)])?;
    spins(rt.alloc(), 1, 3, &[Left::Steps(3)])?;
    spins(
        rt.alloc(),
        2,
        0,
        &[Left::Last(Answer::Again), Left::Steps(5)],
    )
}

#[test]
fn a_spin_leaves_its_last_attempt_alone(rt: HostRuntime) -> Result<(), Fail> {
    let left = [
        Left::Last(Answer::Attempt),
        Left::Whats(&[granted(7)]),
        Left::Steps(5),
        Left::Standing(1),
    ];
    spins(rt.alloc(), 3, 0, &left)
}

#[test]
fn a_spin_in_vain_ends_it(rt: HostRuntime) -> Result<(), Fail> {
    let spun = [
        Left::Last(Answer::Ended(Ending::Spun)),
        Left::Ended(Some(Ending::Spun)),
        Left::Count(1),
        Left::Seen(&[]),
    ];
    spins_on(rt.alloc(), 1, &[Left::Last(Answer::Attempt)])?;
    spins_on(rt.alloc(), 2, &[Left::Last(Answer::Again)])?;
    spins_on(rt.alloc(), 3, &spun)
}

#[test]
fn a_walk_has_twelve_steps_or_thirteen(rt: HostRuntime) -> Result<(), Fail> {
    let ops = [
        Op::Set(Name::Cr0, 0x8000_0001),
        Op::Load(Name::Rax, Gva(0)),
        Op::Store(Gva(0), Operand::Number(1)),
    ];
    let answers = [
        3, 15, 0x1007, 15, 0x1007, 15, 0x1007, 15, 0x1007, 1, 9, 3, 15, 0x1007, 15, 0x1007, 15,
        0x1007, 15, 0x1007, 1,
    ];
    let left = [
        Left::Count(3),
        Left::Span(0, 0, 0),
        Left::Span(1, 0, 13),
        Left::Span(2, 13, 12),
        Left::Register(Vtl::Zero, Name::Rax, 9),
        Left::Ended(Some(Ending::Held)),
    ];
    answered(rt.alloc(), &ops, &answers, 3, &left)
}

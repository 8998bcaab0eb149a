use super::*;
use crate::left::Left;
use crate::runs::{Answer, Opening, PAGE_1, Put, Run, Way, leaves, mark};
use std::alloc::Global;
use std::test::Fail;
use vsm_base::{Mask, Name, Page, Vtl};
use vsm_core::{Ending, Event, GuestFault, Op, What};

/// Why a processor at an operation that is undefined there ends.
const UNDEFINED: GuestFault = GuestFault::Undefined;

/// Makes so many attempts of a processor with both levels, where this one begins, over words of 7.
fn switches<'a>(
    alloc: Global,
    programs: (&'a [Op], &'a [Op]),
    level: Vtl,
    puts: &'a [Put],
    attempts: usize,
    left: &[Left],
) -> Result<(), Fail> {
    let (zero, one) = programs;
    let run = Run {
        zero,
        one,
        opening: Opening::Both(level, puts, &[]),
        way: Way::Memory(Mask::all(), 7, [7, 7]),
        attempts,
        turns: 0,
    };
    leaves(alloc, &run, left)
}

/// Makes a return to this program of level 0, where page 1 has 0x55 for RAX and 0x66 for RCX.
fn returns<'a>(alloc: Global, zero: &'a [Op], puts: &'a [Put], left: &[Left]) -> Result<(), Fail> {
    let run = Run {
        zero,
        one: &[Op::VtlReturn],
        opening: Opening::Both(Vtl::One, puts, &[]),
        way: Way::Memory(Mask::all(), 7, [0x55, 0x66]),
        attempts: 1,
        turns: 0,
    };
    leaves(alloc, &run, left)
}

/// Fails unless two calls and two returns make no step, with this in level 1's assist page register. The last return
/// leads behind the end of level 0's program.
fn makes_no_step(alloc: Global, assist: u128) -> Result<(), Fail> {
    let zero = [Op::VtlCall; 2];
    let one = [Op::VtlReturn; 2];
    let puts = [(Vtl::One, Name::VpAssistPage, assist)];
    let marks = [
        mark(Vtl::Zero, 0, What::Plain, 0),
        mark(Vtl::One, 0, What::Plain, 0),
        mark(Vtl::Zero, 1, What::Plain, 0),
        mark(Vtl::One, 1, What::Plain, 0),
    ];
    let left = [
        Left::Marks(&marks),
        Left::Seen(&[]),
        Left::Ended(Some(Ending::Done)),
    ];
    switches(alloc, (&zero, &one), Vtl::Zero, &puts, 4, &left)
}

/// Fails unless the only mark of the operation is its refusal as undefined, where the level begins that the register is
/// put in.
fn is_undefined(alloc: Global, op: Op, put: Put) -> Result<(), Fail> {
    let (level, _, _) = put;
    let ops = [op];
    let puts = [PAGE_1, put];
    let left = [
        Left::Marks(&[mark(level, 0, What::Fault(UNDEFINED), 0)]),
        Left::Ended(Some(Ending::Fault(UNDEFINED))),
        Left::Active(level),
        Left::Register(level, Name::Rip, 0),
    ];
    switches(alloc, (&ops, &ops), level, &puts, 2, &left)
}

#[test]
fn a_call_tells_why_it_enters(rt: HostRuntime) -> Result<(), Fail> {
    let zero = [Op::VtlCall];
    let one = [Op::Eoi, Op::Jump(2)];
    let puts = [PAGE_1, (Vtl::One, Name::Rip, 1)];
    let events = [
        Event::Enter,
        Event::Check { generation: 0 },
        Event::Write {
            page: Page(1),
            index: 1,
            value: 1,
        },
        Event::Leave,
    ];
    let left = [
        Left::Last(Answer::Attempt),
        Left::Seen(&events),
        Left::Marks(&[mark(Vtl::Zero, 0, What::Plain, 4)]),
        Left::Active(Vtl::One),
        Left::Enabled(true),
        Left::Register(Vtl::Zero, Name::Rip, 1),
        Left::Register(Vtl::One, Name::Rip, 1),
    ];
    switches(rt.alloc(), (&zero, &one), Vtl::Zero, &puts, 1, &left)
}

#[test]
fn a_return_takes_rax_and_rcx(rt: HostRuntime) -> Result<(), Fail> {
    let puts = [PAGE_1, (Vtl::Zero, Name::Rip, 1), (Vtl::Zero, Name::Rax, 5)];
    let page = Page(1);
    let events = [
        Event::Enter,
        Event::Check { generation: 0 },
        Event::Read {
            page,
            index: 2,
            value: 0x55,
        },
        Event::Read {
            page,
            index: 3,
            value: 0x66,
        },
        Event::Leave,
    ];
    let left = [
        Left::Last(Answer::Attempt),
        Left::Seen(&events),
        Left::Marks(&[mark(Vtl::One, 0, What::Plain, 5)]),
        Left::Active(Vtl::Zero),
        Left::Register(Vtl::Zero, Name::Rax, 0x55),
        Left::Register(Vtl::Zero, Name::Rcx, 0x66),
        Left::Register(Vtl::Zero, Name::Rip, 1),
        Left::Register(Vtl::One, Name::Rip, 1),
    ];
    returns(rt.alloc(), &[Op::Eoi; 2], &puts, &left)
}

#[test]
fn a_switch_that_is_not_lawful_is_undefined(rt: HostRuntime) -> Result<(), Fail> {
    let user = 3 << 96;
    for (op, put) in [
        (Op::VtlCall, (Vtl::Zero, Name::Cs, user)),
        (Op::VtlCall, (Vtl::Zero, Name::Rcx, 1)),
        (Op::VtlCall, (Vtl::One, Name::Rcx, 0)),
        (Op::VtlReturn, (Vtl::One, Name::Cs, user)),
        (Op::VtlReturn, (Vtl::One, Name::Rcx, 2)),
        (Op::VtlReturn, (Vtl::Zero, Name::Rcx, 0)),
    ] {
        is_undefined(rt.alloc(), op, put)?;
    }
    Ok(())
}

#[test]
fn no_step_is_made_without_the_page_or_words_to_take(rt: HostRuntime) -> Result<(), Fail> {
    for assist in [0, 0x1000, 0x2001] {
        makes_no_step(rt.alloc(), assist)?;
    }
    let fast = [PAGE_1, (Vtl::One, Name::Rcx, 1)];
    let left = [
        Left::Last(Answer::Attempt),
        Left::Seen(&[]),
        Left::Active(Vtl::Zero),
        Left::Register(Vtl::Zero, Name::Rax, 0),
        Left::Register(Vtl::Zero, Name::Rcx, 1),
    ];
    returns(rt.alloc(), &[Op::Eoi], &fast, &left)?;
    // A call to a level without operations.
    let left = [Left::Last(Answer::Ended(Ending::Done)), Left::Seen(&[])];
    switches(
        rt.alloc(),
        (&[Op::VtlCall; 2], &[]),
        Vtl::Zero,
        &[],
        1,
        &left,
    )
}

use super::*;
use crate::left::Left;
use crate::runs::{Answer, CONFIG, Opening, Put, Run, Way, leaves};
use std::alloc::Global;
use std::test::Fail;
use vsm_base::{Access, Mask, Name, Page, Vtl};
use vsm_core::{Denial, Event, Op, Posted, What};

/// A hypercall, and an operation behind it.
const CALLS: [Op; 2] = [Op::Hypercall, Op::Get(Name::Rax)];

/// The input values of HvCallEnablePartitionVtl, of HvCallEnableVpVtl and of HvCallStartVirtualProcessor.
const ENABLE_PARTITION: u128 = 0xD;

const ENABLE_VP: u128 = 0xF;

const START: u128 = 0x99;

/// The input value of HvCallModifyVtlProtectionMask for ten pages.
const MODIFY: u128 = 10 << 32 | 0xC;

/// Those of HvCallFlushVirtualAddressList for five elements, and of HvCallGetVpRegisters and HvCallSetVpRegisters for
/// one.
const FLUSH_LIST: u128 = 5 << 32 | 0x3;

const GET_ONE: u128 = 1 << 32 | 0x50;

const SET_ONE: u128 = 1 << 32 | 0x51;

/// The number of VsmPartitionConfig.
const PARTITION_CONFIG: u64 = 0x000D_0007;

/// The caller's own partition.
const SELF: u64 = u64::MAX;

/// Makes a hypercall with these in Rcx, Rdx and R8, by processor 0 over a port that answers so.
fn calls<'a>(
    alloc: Global,
    level: Vtl,
    puts: &'a [Put],
    answers: &'a [u64],
    left: &[Left],
) -> Result<(), Fail> {
    let run = Run {
        zero: &CALLS,
        one: &CALLS,
        opening: Opening::Both(level, puts, &[]),
        way: Way::Fed(answers),
        attempts: 1,
        turns: 0,
    };
    leaves(alloc, &run, left)
}

#[test]
fn a_call_reads_thirty_words_and_enables_level_1(rt: HostRuntime) -> Result<(), Fail> {
    let run = Run {
        zero: &[
            Op::Set(Name::Rcx, ENABLE_VP),
            Op::Set(Name::Rdx, 0x1F10),
            Op::Hypercall,
            Op::Eoi,
        ],
        one: &[Op::Eoi; 8],
        opening: Opening::Alone,
        way: Way::Fed(&[3, 15, SELF, 0x1_0000_0000, 7, 0x3000, 2]),
        attempts: 3,
        turns: 0,
    };
    let page = Page(1);
    let generation = 3;
    let left = [
        Left::Last(Answer::Attempt),
        Left::What(2, What::Reply(0)),
        Left::Many(2, 34),
        Left::Event(2, 1, Event::Check { generation }),
        Left::Event(
            2,
            4,
            Event::Read {
                page,
                index: 483,
                value: 0x1_0000_0000,
            },
        ),
        Left::Event(
            2,
            32,
            Event::Read {
                page,
                index: 511,
                value: 0,
            },
        ),
        Left::Event(2, 33, Event::Leave),
        Left::Enabled(true),
        Left::Active(Vtl::Zero),
        Left::Register(Vtl::One, Name::Rip, 7),
        Left::Register(Vtl::One, Name::Rsp, 0x3000),
        Left::Register(Vtl::Zero, Name::Rip, 3),
        Left::Register(Vtl::Zero, Name::Rsp, 0),
    ];
    leaves(rt.alloc(), &run, &left)
}

#[test]
fn an_input_that_may_not_be_read_is_denied(rt: HostRuntime) -> Result<(), Fail> {
    let puts = [
        (Vtl::Zero, Name::Rcx, ENABLE_PARTITION),
        (Vtl::Zero, Name::Rdx, 0x1008),
    ];
    let mask = Mask::of(0).unwrap_or(Mask::all());
    let page = Page(1);
    let denial = Denial {
        page,
        mask,
        generation: 3,
        access: Access::Read,
        posted: Posted::Waiting,
    };
    let generation = 3;
    let left = [
        Left::Whats(&[What::Denied(denial)]),
        Left::Seen(&[
            Event::Enter,
            Event::Check { generation },
            Event::Mask { page, mask },
            Event::Leave,
        ]),
        Left::Active(Vtl::One),
        Left::Register(Vtl::Zero, Name::Rip, 0),
        Left::Register(Vtl::Zero, Name::Rax, 0),
    ];
    calls(rt.alloc(), Vtl::Zero, &puts, &[3, 0], &left)
}

/// Makes a hypercall of a level by so many attempts, over a port that answers so. Its input begins at word 1 of page 1
/// and its output at word 32.
fn asks(
    alloc: Global,
    level: Vtl,
    value: u128,
    answers: &[u64],
    attempts: usize,
    left: &[Left],
) -> Result<(), Fail> {
    let puts = [
        (level, Name::Rcx, value),
        (level, Name::Rdx, 0x1008),
        (level, Name::R8, 0x1100),
    ];
    let run = Run {
        zero: &CALLS,
        one: &CALLS,
        opening: Opening::Both(level, &puts, &[]),
        way: Way::Fed(answers),
        attempts,
        turns: 0,
    };
    leaves(alloc, &run, left)
}

#[test]
fn a_slice_of_pages_goes_on_or_is_refused(rt: HostRuntime) -> Result<(), Fail> {
    let alloc = rt.alloc();
    let page = Page(1);
    let whole = [3, SELF, 0, 1, 2, 3, 4, 5, 6, 7, 8, 3, SELF, 0, 9, 10];
    let left = [
        Left::Whats(&[What::Part(8), What::Reply(10 << 32)]),
        Left::Many(0, 13),
        Left::Many(1, 7),
        Left::Event(
            1,
            4,
            Event::Read {
                page,
                index: 11,
                value: 9,
            },
        ),
        Left::Register(Vtl::One, Name::Rcx, 8 << 48 | MODIFY),
        Left::Register(Vtl::One, Name::Rax, 10 << 32),
        Left::Register(Vtl::One, Name::Rip, 1),
    ];
    asks(alloc, Vtl::One, MODIFY, &whole, 2, &left)?;
    let refused = [3, SELF, 0, 1, 2, 3, 99, 5, 6, 7, 8];
    let left = [
        Left::Whats(&[What::Reply(3 << 32 | 0x05)]),
        Left::Register(Vtl::One, Name::Rcx, MODIFY),
        Left::Register(Vtl::One, Name::Rip, 1),
    ];
    asks(alloc, Vtl::One, MODIFY, &refused, 1, &left)
}

/// Fails unless a hypercall comes to this result by so many steps, of which this is the one at its place.
fn results_in(
    alloc: Global,
    level: Vtl,
    value: u128,
    answers: &[u64],
    reply: u64,
    steps: usize,
    at: usize,
    event: &Event,
) -> Result<(), Fail> {
    let left = [
        Left::Whats(&[What::Reply(reply)]),
        Left::Steps(steps),
        Left::Event(0, at, *event),
    ];
    asks(alloc, level, value, answers, 1, &left)
}

#[test]
fn the_partition_flushes_and_has_its_configuration(rt: HostRuntime) -> Result<(), Fail> {
    let alloc = rt.alloc();
    let page = Page(1);
    let config = CONFIG as u64;
    let input = [3, 0, 0, 1];
    let (index, value) = (3, 1);
    let last = Event::Read { page, index, value };
    results_in(alloc, Vtl::One, FLUSH_LIST, &input, 5 << 32, 6, 4, &last)?;
    let input = [3, SELF, 0, PARTITION_CONFIG, 0, config, 0];
    let (index, value) = (6, 0);
    let last = Event::Read { page, index, value };
    results_in(alloc, Vtl::One, SET_ONE, &input, 1 << 32, 9, 7, &last)?;
    let input = [3, 15, SELF, 0, PARTITION_CONFIG, 0, config, 0];
    results_in(alloc, Vtl::Zero, SET_ONE, &input, 0x06, 10, 8, &last)?;
    let input = [3, SELF, 0, PARTITION_CONFIG, 3];
    let (index, value) = (32, config);
    let written = Event::Write { page, index, value };
    results_in(alloc, Vtl::One, GET_ONE, &input, 1 << 32, 11, 8, &written)?;
    let (index, value) = (30, 0);
    let last = Event::Read { page, index, value };
    results_in(alloc, Vtl::One, START, &[3], 0x02, 33, 31, &last)
}

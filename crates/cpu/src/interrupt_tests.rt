// Calls that request an interrupt of processors, by processor 0 of four.
use super::*;
use crate::left::Left;
use crate::runs::{Answer, Opening, Put, Run, Way, leaves};
use std::alloc::Global;
use std::test::Fail;
use vsm_base::{Access, Mask, Name, Page, VpIndex, Vtl};
use vsm_core::{Denial, Event, Op, PendingWord, Posted, What};

/// A hypercall, and an operation behind it.
const CALLS: [Op; 2] = [Op::Hypercall, Op::Get(Name::Rax)];

/// The input values of HvCallSendSyntheticClusterIpi in memory and in registers.
const SEND: u128 = 0xB;

const SEND_FAST: u128 = 0x1_000B;

/// Makes a hypercall of a level with these in Rcx, Rdx and R8, over a port that answers so.
fn calls(
    alloc: Global,
    level: Vtl,
    value: u128,
    words: [u128; 2],
    answers: &[u64],
    left: &[Left],
) -> Result<(), Fail> {
    let [second, third] = words;
    let puts: [Put; 3] = [
        (level, Name::Rcx, value),
        (level, Name::Rdx, second),
        (level, Name::R8, third),
    ];
    let run = Run {
        zero: &CALLS,
        one: &CALLS,
        opening: Opening::Both(level, &puts, &[]),
        way: Way::Fed(answers),
        attempts: 1,
        turns: 0,
    };
    leaves(alloc, &run, left)
}

/// The post of one bit to a word of a level of a processor.
fn post(vp: u8, level: Vtl, part: u8, bits: u64) -> Event {
    Event::Post {
        vp: VpIndex(vp),
        word: PendingWord::Vectors { level, part },
        bits,
    }
}

/// Fails unless a fast call of a level comes to this status by these events.
fn sends(
    alloc: Global,
    caller: Vtl,
    first: u128,
    second: u128,
    status: u64,
    events: &[Event],
) -> Result<(), Fail> {
    let left = [
        Left::Last(Answer::Attempt),
        Left::Whats(&[What::Reply(status)]),
        Left::Seen(events),
        Left::Active(caller),
        Left::Register(caller, Name::Rax, u128::from(status)),
        Left::Register(caller, Name::Rip, 1),
    ];
    calls(alloc, caller, SEND_FAST, [first, second], &[], &left)
}

#[test]
fn a_fast_call_posts_at_once(rt: HostRuntime) -> Result<(), Fail> {
    let alloc = rt.alloc();
    let own = post(0, Vtl::Zero, 1, 1);
    sends(alloc, Vtl::Zero, 0x40, 1, 0, &[own])?;
    let other = post(3, Vtl::Zero, 0, 1 << 16);
    sends(alloc, Vtl::Zero, 0x10, 8, 0, &[other])?;
    let three = [
        post(0, Vtl::Zero, 0, 1 << 63),
        post(2, Vtl::Zero, 0, 1 << 63),
        post(3, Vtl::Zero, 0, 1 << 63),
    ];
    sends(alloc, Vtl::Zero, 0x3F, 0xD, 0, &three)?;
    let all = [
        post(0, Vtl::Zero, 3, 1 << 63),
        post(1, Vtl::Zero, 3, 1 << 63),
        post(2, Vtl::Zero, 3, 1 << 63),
        post(3, Vtl::Zero, 3, 1 << 63),
    ];
    sends(alloc, Vtl::Zero, 0xFF, 0xF, 0, &all)?;
    sends(alloc, Vtl::Zero, 0x40, 0, 0, &[])
}

/// The input of a call of level 1 begins at word 1 of page 1.
const PLACE: [u128; 2] = [0x1008, 0];

/// Fails unless a call of level 1 with this input in memory comes to this status, and behind the leave of its access
/// makes these posts.
fn sends_by_memory(
    alloc: Global,
    first: u64,
    second: u64,
    status: u64,
    posts: &[Event],
) -> Result<(), Fail> {
    let page = Page(1);
    let generation = 3;
    let mut events = vec![in alloc;
        Event::Enter,
        Event::Check { generation },
        Event::Read {
            page,
            index: 1,
            value: first,
        },
        Event::Read {
            page,
            index: 2,
            value: second,
        },
        Event::Leave,
    ]?;
    events.extend_from_slice(posts)?;
    let left = [
        Left::Last(Answer::Attempt),
        Left::Whats(&[What::Reply(status)]),
        Left::Seen(&events),
        Left::Register(Vtl::One, Name::Rax, u128::from(status)),
        Left::Register(Vtl::One, Name::Rip, 1),
    ];
    let answers = [generation, first, second];
    calls(alloc, Vtl::One, SEND, PLACE, &answers, &left)
}

#[test]
fn a_call_in_memory_posts_behind_its_leave(rt: HostRuntime) -> Result<(), Fail> {
    let alloc = rt.alloc();
    let posts = [post(1, Vtl::One, 1, 1 << 5), post(2, Vtl::One, 1, 1 << 5)];
    sends_by_memory(alloc, 0x45, 6, 0, &posts)?;
    let own = post(0, Vtl::Zero, 3, 1 << 63);
    sends_by_memory(alloc, 0x10_0000_00FF, 1, 0, &[own])?;
    sends_by_memory(alloc, 0x45, 0, 0, &[])?;
    sends_by_memory(alloc, 0x0F, 1, 0x05, &[])?;
    sends_by_memory(alloc, 0x45, 0x10, 0x05, &[])
}

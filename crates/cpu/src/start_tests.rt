use super::*;
use crate::left::Left;
use crate::runs::{Answer, Fetched, Opening, Run, Way, leaves, mark};
use std::alloc::Global;
use std::test::Fail;
use vsm_base::{Name, Vtl};
use vsm_core::{Event, Op, PendingWord, What};

const ZERO: [Op; 2] = [Op::Get(Name::Rax), Op::Get(Name::Rsp)];

const ONE: [Op; 3] = [Op::Eoi, Op::Eoi, Op::Get(Name::Rsp)];

/// A start is posted at the second look.
const LOOKS: [u64; 2] = [0, 1];

/// The words of a context with these in Rip and Rsp.
fn context(rip: u64, rsp: u64) -> [u64; 28] {
    let mut words = [0; 28];
    words[0] = rip;
    words[1] = rsp;
    words
}

/// Makes so many attempts of a processor that waits and fetches these at its start.
fn starts(alloc: Global, fetched: Fetched, attempts: usize, left: &[Left]) -> Result<(), Fail> {
    let run = Run {
        zero: &ZERO,
        one: &ONE,
        opening: Opening::Waiting(fetched),
        way: Way::Fed(&LOOKS),
        attempts,
        turns: 0,
    };
    leaves(alloc, &run, left)
}

#[test]
fn a_posted_start_is_taken(rt: HostRuntime) -> Result<(), Fail> {
    let run = Run {
        zero: &ZERO,
        one: &ONE,
        opening: Opening::Waiting(None),
        way: Way::Started,
        attempts: 1,
        turns: 0,
    };
    let left = [Left::Last(Answer::Attempt), Left::Start(0)];
    leaves(rt.alloc(), &run, &left)
}

#[test]
fn a_processor_waits_for_its_start(rt: HostRuntime) -> Result<(), Fail> {
    let left = [Left::Last(Answer::Idle), Left::Seen(&[])];
    starts(rt.alloc(), Some((Vtl::Zero, context(1, 7), None)), 1, &left)
}

#[test]
fn it_starts_at_its_second_look(rt: HostRuntime) -> Result<(), Fail> {
    let fetched = Some((Vtl::Zero, context(1, 7), None));
    let bits = 1;
    let word = PendingWord::Start;
    let left = [
        Left::Last(Answer::Attempt),
        Left::Marks(&[mark(Vtl::Zero, 1, What::Started, 1)]),
        Left::Seen(&[Event::Take { word, bits }]),
        Left::Ended(None),
        Left::Active(Vtl::Zero),
        Left::Enabled(false),
        Left::Register(Vtl::Zero, Name::Rsp, 7),
    ];
    starts(rt.alloc(), fetched, 2, &left)
}

#[test]
fn without_a_context_it_stays_at_level_0(rt: HostRuntime) -> Result<(), Fail> {
    let left = [
        Left::Marks(&[mark(Vtl::Zero, 0, What::Started, 1)]),
        Left::Ended(None),
        Left::Active(Vtl::Zero),
        Left::Enabled(false),
    ];
    starts(rt.alloc(), None, 2, &left)
}

// Requests to a partition of three processors, of which the first two are started, and four pages.
ghost use Rattle.std.specs.Prelude.{◌≡◌, ◌≢◌, IfOk, None, get_or, length};
ghost use Rattle.fabric.specs.Plain.{first_stand};
ghost use Rattle.vsm_core.specs.Protection.{IsSlice};
ghost use Rattle.partition.specs.TestView.{IsOpen, phases_of};
ghost use Rattle.partition.specs.Turns.{IsPaced};

use super::*;
use arrayvec::ArrayVec;
use fabric::{PlainFabric, Port, Steward};
use protection_map::Journal;
use std::alloc::Global;
use std::test::Fail;
use vsm_base::{HvStatus, Limits, Mask, Memory, Page, VpIndex, Vtl};
use vsm_core::{Entry, PartCall, Phase, Reply, Request, requests_add_few_entries};

/// The number of a caller's own partition.
const OWN: u64 = u64::MAX;

/// The second word of a call for the caller itself.
const SELF: u64 = TARGET | 0xFFFF_FFFE;

/// Target level 1, in the second word of a call for a processor.
const TARGET: u64 = 1 << 32;

/// The lowest bit of Cr3 that must be zero.
const BAD_CR3: u64 = 1 << 52;

const FIRST: VpIndex = VpIndex(0);

const SECOND: VpIndex = VpIndex(1);

const THIRD: VpIndex = VpIndex(2);

/// What is asked.
#[derive(Clone, Copy)]
enum Asked {
    /// Processor 0 asks for level 1 for the partition, by these two words.
    Partition(u64, u64),
    /// A processor at a level asks for level 1 on a processor, by these two words and a context that is all zero but
    /// for Cr3.
    Processor(u8, Vtl, u64, u64, u64),
    /// A processor at a level asks for the start of a processor, by these two words and such a context.
    Start(u8, Vtl, u64, u64, u64),
    /// Processor 0 at a level asks for a mask, by this header, for these pages, elements 8 to 10 of 20.
    Masks(Vtl, u64, u64, [u64; 3]),
    /// Processor 1 asks for a flush that names seven elements.
    Flush,
    /// Processor 1 reads the partition's status.
    Status,
    /// Processor 1 reads the partition's configuration.
    Config,
    /// Processor 0 writes it.
    Write(u128),
    /// A processor fetches its contexts.
    Fetch(u8),
}

const ENABLE: Asked = Asked::Partition(OWN, 1);

/// Processor 0 asks for level 1 on itself.
const LEVEL: Asked = Asked::Processor(0, Vtl::Zero, OWN, SELF, 0x5000);

/// Level 1 of processor 0 asks for level 1 on processor 2, which isn't started.
const OTHER: Asked = Asked::Processor(0, Vtl::One, OWN, TARGET | 2, 0x5000);

/// Protection is turned on, and each page is to have mask 13.
const PROTECT: Asked = Asked::Write(0x1B);

/// Level 0 of processor 0 starts processor 2 at level 0.
const START: Asked = Asked::Start(0, Vtl::Zero, OWN, 2, 0x6000);

/// Level 1 of processor 0 starts processor 2 at level 1.
const START_ONE: Asked = Asked::Start(0, Vtl::One, OWN, TARGET | 2, 0x6000);

/// Level 0 may start no processor.
const DENY: Asked = Asked::Write(0x40);

/// The words of a context that is all zero but for Cr3.
fn context(cr3: u64) -> [u64; 28] {
    let mut words = [0; 28];
    words[25] = cr3;
    words
}

/// The words of a call for a processor.
fn words_of(first: u64, second: u64, cr3: u64) -> [u64; 30] {
    let mut words = [0; 30];
    words[0] = first;
    words[1] = second;
    words[27] = cr3;
    words
}

fn call_for_masks(first: u64, second: u64, elements: &[u64; 3]) -> PartCall
    ensures { IsSlice result }
{
    let mut pages = ArrayVec::new();
    pages.push(elements[0]);
    pages.push(elements[1]);
    pages.push(elements[2]);
    PartCall::Modify {
        header: [first, second],
        pages,
        start: 8,
        total: 20,
    }
}

fn request(asked: &Asked) -> Request
    ensures { IsSlice result.call }
{
    let (by, level, call) = match *asked {
        Asked::Partition(first, second) => {
            (0, Vtl::Zero, PartCall::EnablePartition([first, second]))
        }
        Asked::Processor(by, level, first, second, cr3) => {
            (by, level, PartCall::EnableVp(words_of(first, second, cr3)))
        }
        Asked::Start(by, level, first, second, cr3) => {
            (by, level, PartCall::Start(words_of(first, second, cr3)))
        }
        Asked::Masks(level, first, second, pages) => {
            (0, level, call_for_masks(first, second, &pages))
        }
        Asked::Flush => (1, Vtl::Zero, PartCall::Flush { total: 7 }),
        Asked::Status => (1, Vtl::Zero, PartCall::ReadStatus),
        Asked::Config => (1, Vtl::Zero, PartCall::ReadConfig),
        Asked::Write(value) => (0, Vtl::One, PartCall::WriteConfig(value)),
        Asked::Fetch(by) => (by, Vtl::Zero, PartCall::Fetch),
    };
    let by = VpIndex(by);
    Request { by, level, call }
}

/// The shared words before the first step.
fn opened(alloc: Global) -> Result<PlainFabric, Memory>
    ensures vps { IfOk result (λ f. f.limits.vps ≡ 3) }
    ensures pages { IfOk result (λ f. f.limits.pages ≡ 4) }
    ensures second { IfOk result (λ f. get_or f.fabric.phases 1 Phase.Idle ≡ Phase.Idle) }
    ensures turns { IfOk result (λ f. f.fabric.turns ≡ 0) }
    ensures cleared { IfOk result (λ f. f.fabric.cleared ≡ 3) }
{
    let limits = Limits {
        vps: 3,
        pages: 4,
        budget: 8,
    };
    let words = vec![in alloc; 0; 2048]?;
    let fabric = PlainFabric::new(alloc, &limits, &[Mask::all(); 4], &words)?;
    Ok(fabric)
}

/// The partition before the first request.
fn partition(alloc: Global) -> Result<Partition, Memory>
    ensures open { IfOk result (λ p. IsOpen p) }
    ensures entries { IfOk result (λ p. length p.journal.entries ≡ 0) }
{
    let limits = Limits {
        vps: 3,
        pages: 4,
        budget: 8,
    };
    let partition = Partition::new(alloc, &limits, &[Mask::all(); 4], 2)?;
    Ok(partition)
}

/// The last of up to twenty turns of the request under way.
fn finish<S: Steward>(partition: &mut Partition, steward: &mut S) -> PartTurn
    requires going { partition.old.under ≢ None }
    requires open { IsOpen partition.old }
    requires paced { IsPaced partition.old (S.stand steward.old) }
    ensures open { IsOpen partition.new }
    ensures paced { IsPaced partition.new (S.stand steward.new) }
    ensures name { (S.stand steward.new).name ≡ (S.stand steward.old).name }
    ensures phases { phases_of (S.stand steward.new) ≡ phases_of (S.stand steward.old) }
{
    for _turn in 0..20 {
        let turn = partition.turn(steward);
        match &turn {
            PartTurn::Moved => {}
            _ => return turn,
        }
    }
    PartTurn::Moved
}

/// The last turn of a request, where it may be begun.
fn serve<S: Steward>(
    partition: &mut Partition,
    request: Request,
    steward: &mut S,
) -> Option<PartTurn>
    requires open { IsOpen partition.old }
    requires paced { IsPaced partition.old (S.stand steward.old) }
    requires slice { IsSlice request.call }
    ensures open { IsOpen partition.new }
    ensures paced { IsPaced partition.new (S.stand steward.new) }
    ensures name { (S.stand steward.new).name ≡ (S.stand steward.old).name }
    ensures phases { phases_of (S.stand steward.new) ≡ phases_of (S.stand steward.old) }
{
    let has_room = partition.journal().entries().len() < 320;
    if request.by.0 >= 3 || !partition.is_free() || !has_room {
        return None;
    }
    requests_add_few_entries();
    partition.begin(request);
    Some(finish(partition, steward))
}

/// The journal after these requests and one more, and the reply to that one.
fn served(
    alloc: Global,
    before: &[Asked],
    asked: Asked,
) -> Result<(Journal, Option<Reply>), Memory> {
    let mut fabric = opened(alloc)?;
    let mut steward = fabric.steward();
    let mut partition = partition(alloc)?;
    for asked in before {
        serve(&mut partition, request(asked), &mut steward);
    }
    let reply = match serve(&mut partition, request(&asked), &mut steward) {
        Some(PartTurn::Done(reply)) => Some(reply),
        _ => None,
    };
    Ok((partition.into_journal(), reply))
}

/// The reply to a request after these.
fn reply_to(alloc: Global, before: &[Asked], asked: Asked) -> Result<Option<Reply>, Memory> {
    let (_, reply) = served(alloc, before, asked)?;
    Ok(reply)
}

/// Whether these requests and one more leave these entries.
fn leaves(
    alloc: Global,
    before: &[Asked],
    asked: Asked,
    entries: &[Entry],
) -> Result<bool, Memory> {
    let (journal, _) = served(alloc, before, asked)?;
    Ok(journal.into_entries().as_slice() == entries)
}

/// Whether a request has this status after the first so many of `ENABLE`, `LEVEL` and `PROTECT`.
fn has_status(alloc: Global, before: usize, asked: Asked, status: u16) -> Result<bool, Memory> {
    let all = [ENABLE, LEVEL, PROTECT];
    let reply = reply_to(alloc, &all[..before.min(3)], asked)?;
    Ok(reply.map(|reply| reply.status) == Some(HvStatus(status)))
}

/// A reply without a context.
fn plain(status: u16, done: u16, value: u64) -> Option<Reply> {
    Some(Reply {
        status: HvStatus(status),
        done,
        value,
        context: None,
    })
}

/// What processor 0 asks at level 0.
fn ask(first: u64, second: u64, cr3: u64) -> Asked {
    Asked::Processor(0, Vtl::Zero, first, second, cr3)
}

/// Level 1 of processor 0 asks by this second word for its mask for pages 0 to 2.
fn masks(second: u64) -> Asked {
    Asked::Masks(Vtl::One, OWN, second, [0, 1, 2])
}

/// The ask of a page's mask.
fn ask_of(page: u32, bits: u32) -> Entry {
    Entry::Ask {
        page: Page(page),
        mask: Mask::of(bits).unwrap_or(Mask::all()),
    }
}

#[test]
fn a_call_for_the_partition_is_refused_by_the_first_cause(rt: HostRuntime) -> Result<(), Fail> {
    let cases = [
        (0, Asked::Partition(0, 1), 0x000D),
        (0, Asked::Partition(OWN, 2), 0x0005),
        (0, Asked::Partition(OWN, 0x101), 0x0005),
        (1, ENABLE, 0x0086),
        (1, Asked::Partition(0, 2), 0x000D),
        (1, Asked::Partition(OWN, 0x101), 0x0005),
    ];
    for (before, asked, status) in cases {
        assert!(rt; has_status(rt.alloc(), before, asked, status)?);
    }
    Ok(())
}

#[test]
fn each_cause_refuses_a_call_for_a_processor(rt: HostRuntime) -> Result<(), Fail> {
    let cases = [
        (1, ask(0, SELF, 0), 0x000D),
        (1, ask(OWN, TARGET | 3, 0), 0x000E),
        (1, ask(OWN, 2 << 32, 0), 0x0005),
        (1, ask(OWN, SELF | 1 << 40, 0), 0x0005),
        (0, LEVEL, 0x0051),
        (2, Asked::Processor(0, Vtl::One, OWN, SELF, 0), 0x0086),
        (2, Asked::Processor(1, Vtl::Zero, OWN, SELF, 0), 0x0006),
        (1, ask(OWN, TARGET | 1, 0), 0x0015),
        (1, ask(OWN, SELF, BAD_CR3), 0x0050),
    ];
    for (before, asked, status) in cases {
        assert!(rt; has_status(rt.alloc(), before, asked, status)?);
    }
    Ok(())
}

#[test]
fn the_first_of_two_causes_refuses_a_call_for_a_processor(rt: HostRuntime) -> Result<(), Fail> {
    let cases = [
        (1, ask(0, TARGET | 3, 0), 0x000D),
        (1, ask(OWN, 2 << 32 | 3, 0), 0x000E),
        (0, ask(OWN, SELF | 1 << 40, 0), 0x0005),
        (0, ask(OWN, TARGET | 1, BAD_CR3), 0x0051),
        (2, LEVEL, 0x0086),
        (2, ask(OWN, TARGET | 1, 0), 0x0006),
        (1, ask(OWN, TARGET | 1, BAD_CR3), 0x0015),
    ];
    for (before, asked, status) in cases {
        assert!(rt; has_status(rt.alloc(), before, asked, status)?);
    }
    Ok(())
}

#[test]
fn the_caller_gets_its_context_by_the_reply(rt: HostRuntime) -> Result<(), Fail> {
    let reply = Reply {
        status: HvStatus(0),
        done: 0,
        value: 0,
        context: Some((Vtl::One, context(0x5000), None)),
    };
    let by_index = Asked::Processor(1, Vtl::Zero, OWN, TARGET | 1, 0x5000);
    assert!(rt; reply_to(rt.alloc(), &[ENABLE], LEVEL)? == Some(reply));
    assert!(rt; reply_to(rt.alloc(), &[ENABLE], by_index)? == Some(reply));
    Ok(())
}

#[test]
fn the_context_of_a_processor_to_be_started_waits(rt: HostRuntime) -> Result<(), Fail> {
    assert!(rt; reply_to(rt.alloc(), &[ENABLE, LEVEL], OTHER)? == plain(0, 0, 0));
    Ok(())
}

#[test]
fn each_call_for_level_1_adds_one_entry(rt: HostRuntime) -> Result<(), Fail> {
    let by = FIRST;
    let entries = [
        Entry::Enable { by },
        Entry::Level { by, vp: by },
        Entry::Level { by, vp: THIRD },
    ];
    assert!(rt; leaves(rt.alloc(), &[ENABLE, LEVEL], OTHER, &entries)?);
    Ok(())
}

#[test]
fn a_refused_request_changes_nothing_but_the_journal(rt: HostRuntime) -> Result<(), Fail> {
    let by = FIRST;
    let refused = Asked::Partition(OWN, 2);
    let entries = [
        Entry::Refuse {
            by,
            status: HvStatus(0x0005),
        },
        Entry::Enable { by },
        Entry::Refuse {
            by,
            status: HvStatus(0x0086),
        },
    ];
    assert!(rt; leaves(rt.alloc(), &[refused, ENABLE], ENABLE, &entries)?);
    Ok(())
}

/// Whether level 0 of processor 0 is refused a start by these two words with this status, and nothing of it is done.
fn refuses(
    alloc: Global,
    before: &[Asked],
    first: u64,
    second: u64,
    status: u16,
) -> Result<bool, Memory> {
    let asked = Asked::Start(0, Vtl::Zero, first, second, 0);
    Ok(reply_to(alloc, before, asked)? == plain(status, 0, 0))
}

#[test]
fn each_cause_refuses_a_start(rt: HostRuntime) -> Result<(), Fail> {
    let alloc = rt.alloc();
    let bad = Asked::Start(0, Vtl::Zero, OWN, 2, BAD_CR3);
    assert!(rt; refuses(alloc, &[], 0, 2, 0x000D)?);
    assert!(rt; refuses(alloc, &[], OWN, 3, 0x000E)?);
    assert!(rt; refuses(alloc, &[], OWN, 2 << 32 | 2, 0x0005)?);
    assert!(rt; refuses(alloc, &[], OWN, 1 << 40 | 2, 0x0005)?);
    assert!(rt; refuses(alloc, &[], OWN, TARGET | 2, 0x0006)?);
    assert!(rt; refuses(alloc, &[DENY], OWN, 2, 0x0006)?);
    assert!(rt; reply_to(alloc, &[ENABLE, LEVEL], START_ONE)? == plain(0x0051, 0, 0));
    assert!(rt; refuses(alloc, &[], OWN, 1, 0x0015)?);
    assert!(rt; refuses(alloc, &[], OWN, 0xFFFF_FFFE, 0x0015)?);
    assert!(rt; refuses(alloc, &[START], OWN, 2, 0x0015)?);
    assert!(rt; reply_to(alloc, &[], bad)? == plain(0x0050, 0, 0));
    Ok(())
}

#[test]
fn the_first_of_two_causes_refuses_a_start(rt: HostRuntime) -> Result<(), Fail> {
    let alloc = rt.alloc();
    let started = Asked::Start(0, Vtl::One, OWN, TARGET | 1, 0);
    let bad = Asked::Start(0, Vtl::Zero, OWN, 1, BAD_CR3);
    assert!(rt; refuses(alloc, &[], 0, 3, 0x000D)?);
    assert!(rt; refuses(alloc, &[], OWN, 2 << 32 | 3, 0x000E)?);
    assert!(rt; refuses(alloc, &[DENY], OWN, 2 << 32 | 2, 0x0005)?);
    assert!(rt; refuses(alloc, &[], OWN, TARGET | 1, 0x0006)?);
    assert!(rt; refuses(alloc, &[DENY], OWN, 1, 0x0006)?);
    assert!(rt; reply_to(alloc, &[ENABLE, LEVEL], started)? == plain(0x0051, 0, 0));
    assert!(rt; reply_to(alloc, &[], bad)? == plain(0x0015, 0, 0));
    Ok(())
}

#[test]
fn level_1_starts_processors_where_level_0_may_not(rt: HostRuntime) -> Result<(), Fail> {
    let by = FIRST;
    let asked = Asked::Start(0, Vtl::One, OWN, 2, 0x6000);
    let entries = [
        Entry::Config { by, value: 0x40 },
        Entry::Refuse {
            by,
            status: HvStatus(0x0006),
        },
        Entry::Start {
            by,
            vp: THIRD,
            level: Vtl::Zero,
        },
    ];
    assert!(rt; leaves(rt.alloc(), &[DENY, START], asked, &entries)?);
    assert!(rt; reply_to(rt.alloc(), &[DENY], asked)? == plain(0, 0, 0));
    assert!(rt; reply_to(rt.alloc(), &[ENABLE, LEVEL, OTHER], START_ONE)? == plain(0, 0, 0));
    Ok(())
}

#[test]
fn a_starting_processor_fetches_the_contexts_that_wait(rt: HostRuntime) -> Result<(), Fail> {
    let alloc = rt.alloc();
    let reply = Reply {
        status: HvStatus(0),
        done: 0,
        value: 0,
        context: Some((Vtl::Zero, context(0x6000), None)),
    };
    let both = Reply {
        context: Some((Vtl::One, context(0x6000), Some(context(0x5000)))),
        ..reply
    };
    let fetch = Asked::Fetch(2);
    let refused = plain(0x0015, 0, 0);
    assert!(rt; reply_to(alloc, &[START], fetch)? == Some(reply));
    assert!(rt; reply_to(alloc, &[ENABLE, LEVEL, OTHER, START_ONE], fetch)? == Some(both));
    assert!(rt; reply_to(alloc, &[], fetch)? == refused);
    assert!(rt; reply_to(alloc, &[], Asked::Fetch(1))? == refused);
    assert!(rt; reply_to(alloc, &[START, fetch], fetch)? == refused);
    assert!(rt; reply_to(alloc, &[START, fetch], START)? == refused);
    Ok(())
}

#[test]
fn a_start_and_a_fetch_add_one_entry_each(rt: HostRuntime) -> Result<(), Fail> {
    let entries = [
        Entry::Start {
            by: FIRST,
            vp: THIRD,
            level: Vtl::Zero,
        },
        Entry::Fetch { vp: THIRD },
        Entry::Refuse {
            by: THIRD,
            status: HvStatus(0x0015),
        },
    ];
    let fetch = Asked::Fetch(2);
    assert!(rt; leaves(rt.alloc(), &[START, fetch], fetch, &entries)?);
    Ok(())
}

#[test]
fn an_accepted_processor_gets_no_level_1_from_another(rt: HostRuntime) -> Result<(), Fail> {
    let before = [ENABLE, LEVEL, START];
    let late = Asked::Processor(0, Vtl::One, OWN, TARGET | 2, 0x5000);
    assert!(rt; reply_to(rt.alloc(), &before[..1], START)? == plain(0, 0, 0));
    assert!(rt; reply_to(rt.alloc(), &before, late)? == plain(0x0015, 0, 0));
    Ok(())
}

#[test]
fn registers_of_the_partition_tell_what_was_set(rt: HostRuntime) -> Result<(), Fail> {
    let by = SECOND;
    assert!(rt; reply_to(rt.alloc(), &[], Asked::Status)? == plain(0, 1, 0x10001));
    assert!(rt; reply_to(rt.alloc(), &[ENABLE], Asked::Status)? == plain(0, 1, 0x10003));
    assert!(rt; reply_to(rt.alloc(), &[], Asked::Config)? == plain(0, 1, 0));
    assert!(rt; reply_to(rt.alloc(), &[PROTECT], Asked::Config)? == plain(0, 1, 0x1B));
    let entries = [Entry::Look { by }, Entry::Enable { by: FIRST }];
    assert!(rt; leaves(rt.alloc(), &[Asked::Status], ENABLE, &entries)?);
    Ok(())
}

#[test]
fn each_cause_refuses_a_call_for_masks(rt: HostRuntime) -> Result<(), Fail> {
    let cases = [
        (3, Asked::Masks(Vtl::One, 0, 1, [0, 1, 2]), 0x000D),
        (3, Asked::Masks(Vtl::Zero, OWN, 1, [0, 1, 2]), 0x0006),
        (3, masks(1 | 0x12 << 32), 0x0005),
        (3, masks(1 | 0x20 << 32), 0x0005),
        (3, masks(1 | 1 << 40), 0x0005),
        (2, masks(1), 0x0051),
        (3, masks(2), 0x0005),
        (3, masks(16), 0x0005),
        (3, Asked::Masks(Vtl::One, OWN, 1, [4, 0, 1]), 0x0005),
        (3, Asked::Masks(Vtl::One, OWN, 1, [1 << 32, 0, 1]), 0x0005),
        (3, masks(1 | 0x11 << 32), 0x0000),
        (3, masks(1 | 0x01 << 32), 0x0000),
    ];
    for (before, asked, status) in cases {
        assert!(rt; has_status(rt.alloc(), before, asked, status)?);
    }
    Ok(())
}

#[test]
fn the_first_of_two_causes_refuses_a_call_for_masks(rt: HostRuntime) -> Result<(), Fail> {
    let cases = [
        (3, Asked::Masks(Vtl::Zero, 0, 1, [0, 1, 2]), 0x000D),
        (
            3,
            Asked::Masks(Vtl::Zero, OWN, 1 | 1 << 40, [0, 1, 2]),
            0x0006,
        ),
        (2, masks(1 | 1 << 40), 0x0005),
        (2, masks(2), 0x0051),
    ];
    for (before, asked, status) in cases {
        assert!(rt; has_status(rt.alloc(), before, asked, status)?);
    }
    Ok(())
}

#[test]
fn a_slice_goes_as_far_as_its_pages_are_there(rt: HostRuntime) -> Result<(), Fail> {
    let alloc = rt.alloc();
    let before = [Asked::Write(0x1A), Asked::Write(0x5B)];
    let middle = Asked::Masks(Vtl::One, OWN, 3, [2, 9, 1]);
    let first = Asked::Masks(Vtl::One, OWN, 3, [9, 2, 1]);
    assert!(rt; reply_to(alloc, &before, masks(3))? == plain(0, 11, 0));
    assert!(rt; reply_to(alloc, &before, middle)? == plain(5, 9, 0));
    assert!(rt; reply_to(alloc, &before, first)? == plain(5, 8, 0));
    let (journal, _) = served(alloc, &[PROTECT], middle)?;
    let by = FIRST;
    let round = [
        ask_of(2, 3),
        Entry::Turn { round: 2, by },
        Entry::Clear { vp: FIRST },
        Entry::Clear { vp: SECOND },
        Entry::Clear { vp: THIRD },
        Entry::Report { round: 2 },
    ];
    assert!(rt; journal.entries().get(10..) == Some(round.as_slice()));
    let (journal, _) = served(alloc, &[PROTECT], first)?;
    let refusal = [Entry::Refuse {
        by,
        status: HvStatus(0x0005),
    }];
    assert!(rt; journal.entries().get(10..) == Some(refusal.as_slice()));
    Ok(())
}

#[test]
fn a_round_follows_the_write_that_turns_protection_on(rt: HostRuntime) -> Result<(), Fail> {
    let alloc = rt.alloc();
    let by = FIRST;
    let entries = [
        Entry::Config { by, value: 0x1B },
        ask_of(0, 13),
        ask_of(1, 13),
        ask_of(2, 13),
        ask_of(3, 13),
        Entry::Turn { round: 1, by },
        Entry::Clear { vp: FIRST },
        Entry::Clear { vp: SECOND },
        Entry::Clear { vp: THIRD },
        Entry::Report { round: 1 },
        Entry::Config { by, value: 0x5B },
    ];
    assert!(rt; leaves(alloc, &[PROTECT], Asked::Write(0x5B), &entries)?);
    assert!(rt; leaves(alloc, &[], PROTECT, &entries[..10])?);
    assert!(rt; reply_to(alloc, &[], PROTECT)? == plain(0, 1, 0));
    assert!(rt; reply_to(alloc, &[PROTECT], PROTECT)? == plain(0, 1, 0));
    Ok(())
}

#[test]
fn protection_stays_on_with_its_mask(rt: HostRuntime) -> Result<(), Fail> {
    let refused = plain(0x0050, 0, 0);
    for value in [0x1A, 0x1F, 0x07, 0x9B, 1 << 64 | 0x1B] {
        let write = Asked::Write(value);
        assert!(rt; reply_to(rt.alloc(), &[PROTECT], write)? == refused);
    }
    for value in [0x5B, 0x3B, 0x1B] {
        let write = Asked::Write(value);
        let before = [PROTECT, Asked::Write(0x7B), write];
        assert!(rt; reply_to(rt.alloc(), &before, Asked::Config)? == plain(0, 1, value as u64));
    }
    Ok(())
}

#[test]
fn the_mask_may_change_before_protection_is_on(rt: HostRuntime) -> Result<(), Fail> {
    let before = [Asked::Write(0x06)];
    assert!(rt; reply_to(rt.alloc(), &before, Asked::Write(0x1A))? == plain(0, 1, 0));
    assert!(rt; reply_to(rt.alloc(), &before, Asked::Write(0x04))? == plain(0x0050, 0, 0));
    assert!(rt; reply_to(rt.alloc(), &before, Asked::Write(0x86))? == plain(0x0050, 0, 0));
    Ok(())
}

#[test]
fn a_flush_is_a_round_that_asks_nothing(rt: HostRuntime) -> Result<(), Fail> {
    let entries = [
        Entry::Turn {
            round: 1,
            by: SECOND,
        },
        Entry::Clear { vp: FIRST },
        Entry::Clear { vp: SECOND },
        Entry::Clear { vp: THIRD },
        Entry::Report { round: 1 },
    ];
    assert!(rt; leaves(rt.alloc(), &[], Asked::Flush, &entries)?);
    assert!(rt; reply_to(rt.alloc(), &[], Asked::Flush)? == plain(0, 7, 0));
    Ok(())
}

/// The same as `serve`, and the fabric is known again when its steward is gone.
fn serve_over(
    partition: &mut Partition,
    request: Request,
    fabric: &mut PlainFabric,
) -> Option<PartTurn>
    requires open { IsOpen partition.old }
    requires paced { IsPaced partition.old (first_stand 0 fabric.old) }
    requires slice { IsSlice request.call }
    ensures open { IsOpen partition.new }
    ensures paced { IsPaced partition.new (first_stand 0 fabric.new) }
    ensures phases { fabric.new.fabric.phases ≡ fabric.old.fabric.phases }
{
    let mut steward = fabric.steward();
    serve(partition, request, &mut steward)
}

/// The same as `finish`.
fn finish_over(partition: &mut Partition, fabric: &mut PlainFabric) -> PartTurn
    requires going { partition.old.under ≢ None }
    requires open { IsOpen partition.old }
    requires paced { IsPaced partition.old (first_stand 0 fabric.old) }
    ensures open { IsOpen partition.new }
    ensures paced { IsPaced partition.new (first_stand 0 fabric.new) }
    ensures phases { fabric.new.fabric.phases ≡ fabric.old.fabric.phases }
{
    let mut steward = fabric.steward();
    finish(partition, &mut steward)
}

/// Processor 1 begins an access.
fn enter(fabric: &mut PlainFabric)
    requires vps { fabric.old.limits.vps ≡ 3 }
    requires idle { get_or fabric.old.fabric.phases 1 Phase.Idle ≡ Phase.Idle }
    ensures limits { fabric.new.limits ≡ fabric.old.limits }
    ensures turns { fabric.new.fabric.turns ≡ fabric.old.fabric.turns }
    ensures cleared { fabric.new.fabric.cleared ≡ fabric.old.fabric.cleared }
    ensures entered { get_or fabric.new.fabric.phases 1 Phase.Idle ≡ Phase.Entered }
{
    let mut port = fabric.port(SECOND);
    port.enter();
}

/// Processor 1 ends its access.
fn leave(fabric: &mut PlainFabric)
    requires vps { fabric.old.limits.vps ≡ 3 }
    requires entered { get_or fabric.old.fabric.phases 1 Phase.Idle ≡ Phase.Entered }
    ensures limits { fabric.new.limits ≡ fabric.old.limits }
    ensures turns { fabric.new.fabric.turns ≡ fabric.old.fabric.turns }
    ensures cleared { fabric.new.fabric.cleared ≡ fabric.old.fabric.cleared }
{
    let mut port = fabric.port(SECOND);
    port.leave();
}

#[test]
fn a_round_waits_for_a_busy_processor(rt: HostRuntime) -> Result<(), Fail> {
    let alloc = rt.alloc();
    let mut fabric = opened(alloc)?;
    let mut partition = partition(alloc)?;
    enter(&mut fabric);
    let turn = serve_over(&mut partition, request(&Asked::Flush), &mut fabric);
    assert!(rt; turn == Some(PartTurn::Busy(SECOND)));
    assert_eq!(rt; partition.journal().entries().len(), 2);
    let is_free = partition.is_free();
    assert!(rt; !is_free);
    let turn = finish_over(&mut partition, &mut fabric);
    assert!(rt; turn == PartTurn::Busy(SECOND));
    let is_free = partition.is_free();
    assert!(rt; !is_free);
    leave(&mut fabric);
    let turn = finish_over(&mut partition, &mut fabric);
    assert!(rt; Some(turn) == plain(0, 7, 0).map(PartTurn::Done));
    assert_eq!(rt; partition.journal().entries().len(), 5);
    Ok(())
}

#[test]
fn an_ended_processor_does_not_run(rt: HostRuntime) -> Result<(), Fail> {
    let alloc = rt.alloc();
    let mut fabric = opened(alloc)?;
    let mut partition = partition(alloc)?;
    assert_eq!(rt; partition.running(), 2);
    serve_over(&mut partition, request(&START), &mut fabric);
    assert_eq!(rt; partition.running(), 3);
    serve_over(&mut partition, request(&Asked::Fetch(2)), &mut fabric);
    assert_eq!(rt; partition.running(), 3);
    partition.ended(FIRST);
    assert_eq!(rt; partition.running(), 2);
    partition.ended(FIRST);
    partition.ended(VpIndex(200));
    assert_eq!(rt; partition.running(), 2);
    partition.ended(THIRD);
    assert_eq!(rt; partition.running(), 1);
    Ok(())
}

// What each request comes to.
ghost use Rattle.std.specs.Prelude.{◌≡◌, ◌+◌, ◌-◌, ◌<◌, ◌≤◌, ◌^◌, Some, None, [], length, take};
ghost use Rattle.vsm_core.specs.Calls.{first_failed};
ghost use Rattle.vsm_core.specs.Partition.{enable_partition_checks, standing};
ghost use Rattle.vsm_core.specs.Protection.{IsSlice, asks_for, config_checks, page_refusals};
ghost use Rattle.vsm_core.specs.Reps.{acting, refusing};
ghost use Rattle.vsm_core.specs.Served.{serve, serve_call, judged, enable_partition, fetch_of, look as look_lem, with_round as with_round_lem, write_config as write_config_lem};
ghost use Rattle.vsm_core.specs.Targets.{level_of};
ghost use Rattle.flush_round.specs.Steps.{AreWithin};
ghost use Rattle.partition.specs.Plans.{Plans};

use crate::block::Under;
use crate::checks::{
    config_refusal, context_of, default_mask, enable_partition_refusal, enable_vp_refusal,
    modify_refusal, page_refusal, protects, standing, start_refusal,
};
use arrayvec::ArrayVec;
use flush_round::Round;
use hyper_abi::{index_of, named, target_of};
use vsm_base::{HvStatus, Mask, Page, VpIndex, Vtl};
use vsm_core::{Accepted, Entry, PartCall, PartitionState, Reply, Request};
use vsm_status::PartitionStatus;

fn reply_of(status: HvStatus, done: u16, value: u64) -> Reply
    ensures { result ≡ record { status = status; done = done; value = value; context = None } }
{
    Reply {
        status,
        done,
        value,
        context: None,
    }
}

fn one_entry(by: VpIndex, entry: Entry, reply: Reply) -> Under
    ensures { result ≡ record { by = by; first = Some entry; round = None; reply = reply } }
{
    Under {
        by,
        first: Some(entry),
        round: None,
        reply,
    }
}

fn refused(by: VpIndex, done: u16, status: HvStatus) -> Under
    ensures { result ≡ record { by = by; first = Some (Entry.Refuse by status); round = None; reply = record { status = status; done = done; value = 0; context = None } } }
{
    one_entry(by, Entry::Refuse { by, status }, reply_of(status, done, 0))
}

/// A round, after an entry if there is one.
fn with_round(
    state: &mut PartitionState,
    by: VpIndex,
    first: Option<Entry>,
    round: Round,
    reply: Reply,
) -> Under
    requires rounds { state.old.rounds < 2 ^ 64 - 1 }
    ensures state { state.new ≡ record state.old { rounds = state.old.rounds + 1 } }
    ensures under { result ≡ record { by = by; first = first; round = Some round; reply = reply } }
{
    state.rounds += 1;
    Under {
        by,
        first,
        round: Some(round),
        reply,
    }
}

fn enable_partition(state: &mut PartitionState, by: VpIndex, words: &[u64; 2]) -> Under
    ensures { Plans state.old state.new result (judged state.old by 0 (first_failed (enable_partition_checks state.old words.now)) (enable_partition state.old by)) }
{
    if let Some(status) = enable_partition_refusal(state, words) {
        return refused(by, 0, status);
    }
    state.enabled = true;
    one_entry(by, Entry::Enable { by }, reply_of(HvStatus::SUCCESS, 0, 0))
}

fn enable_vp(state: &mut PartitionState, by: VpIndex, level: Vtl, words: &[u64; 30]) -> Under
    requires { length state.old.vps ≤ 8 }
    ensures { Plans state.old state.new result (serve_call state.old by level (PartCall.EnableVp words.now)) }
{
    if let Some(status) = enable_vp_refusal(state, by, level, words) {
        return refused(by, 0, status);
    }
    let vp = named(by, index_of(words));
    let context = context_of(words);
    let mut standing = standing(state, vp);
    let mut reply = reply_of(HvStatus::SUCCESS, 0, 0);
    standing.one = true;
    if vp == u32::from(by.0) {
        reply.context = Some((Vtl::One, context, None));
    } else {
        standing.waiting = Some(context);
    }
    state.vps.set(vp as usize, standing);
    let vp = VpIndex(vp as u8);
    one_entry(by, Entry::Level { by, vp }, reply)
}

fn level_of(number: u64) -> Vtl
    ensures { result ≡ level_of number }
{
    if number == 1 { Vtl::One } else { Vtl::Zero }
}

/// A start is accepted: its level and its context wait for the processor to fetch them.
fn start_vp(state: &mut PartitionState, by: VpIndex, level: Vtl, words: &[u64; 30]) -> Under
    requires { length state.old.vps ≤ 8 }
    ensures { Plans state.old state.new result (serve_call state.old by level (PartCall.Start words.now)) }
{
    if let Some(status) = start_refusal(state, by, level, words) {
        return refused(by, 0, status);
    }
    let vp = named(by, index_of(words));
    let level = level_of(target_of(words));
    let context = context_of(words);
    let mut standing = standing(state, vp);
    standing.start = Some(Accepted { level, context });
    state.vps.set(vp as usize, standing);
    let vp = VpIndex(vp as u8);
    let reply = reply_of(HvStatus::SUCCESS, 0, 0);
    one_entry(by, Entry::Start { by, vp, level }, reply)
}

/// A starting processor gets the contexts that wait for it by the reply, and is started.
fn fetch(state: &mut PartitionState, by: VpIndex) -> Under
    requires { by.0 < length state.old.vps }
    ensures { Plans state.old state.new result (fetch_of state.old by (standing state.old by.0).start) }
{
    let mut standing = standing(state, u32::from(by.0));
    let Some(start) = standing.start else {
        return refused(by, 0, HvStatus::INVALID_VP_STATE);
    };
    let Accepted { level, context } = start;
    let waiting = standing.waiting;
    let mut reply = reply_of(HvStatus::SUCCESS, 0, 0);
    reply.context = Some((level, context, waiting));
    standing.started = true;
    standing.start = None;
    standing.waiting = None;
    state.vps.set(usize::from(by.0), standing);
    one_entry(by, Entry::Fetch { vp: by }, reply)
}

/// The elements of a slice before the first that is refused, each with the mask, and what refuses that one, if there is one.
fn asks_of(pages: &[u64], count: u32, mask: Mask) -> (ArrayVec<(Page, Mask), 8>, Option<HvStatus>)
    requires { length pages.now ≤ 8 }
    ensures asks { result.0.items ≡ asks_for mask (take (acting (page_refusals count pages.now)) pages.now) }
    ensures acted { length result.0.items ≡ acting (page_refusals count pages.now) }
    ensures within { AreWithin count result.0.items }
    ensures refusal { result.1 ≡ refusing (page_refusals count pages.now) }
{
    let mut asks = ArrayVec::new();
    for page in pages {
        if let Some(status) = page_refusal(count, *page) {
            return (asks, Some(status));
        }
        asks.push((Page(*page as u32), mask));
    }
    (asks, None)
}

/// A slice of pages: a round asks for the mask of those before the first that is refused, and where it is the slice's first
/// the slice is refused.
fn modify(
    state: &mut PartitionState,
    by: VpIndex,
    level: Vtl,
    header: &[u64; 2],
    pages: &ArrayVec<u64, 8>,
    start: u16,
    total: u16,
) -> Under
    requires vps { length state.old.vps ≤ 8 }
    requires rounds { state.old.rounds < 2 ^ 64 - 1 }
    requires slice { IsSlice (PartCall.Modify header.now pages.now start total) }
    ensures { Plans state.old state.new result (serve_call state.old by level (PartCall.Modify header.now pages.now start total)) }
{
    if let Some(status) = modify_refusal(state, level, header) {
        return refused(by, start, status);
    }
    let Some(mask) = Mask::of(index_of(header)) else {
        unreachable!()
    };
    let (asks, refusal) = asks_of(pages.as_slice(), state.pages, mask);
    let done = start + asks.len() as u16;
    let Some(status) = refusal else {
        let round = Round::new(state.vps.len() as u8, asks);
        return with_round(state, by, None, round, reply_of(HvStatus::SUCCESS, done, 0));
    };
    if done == start {
        return refused(by, start, status);
    }
    let round = Round::new(state.vps.len() as u8, asks);
    with_round(state, by, None, round, reply_of(status, done, 0))
}

/// A flush: a round that asks nothing.
fn flush(state: &mut PartitionState, by: VpIndex, total: u16) -> Under
    requires vps { length state.old.vps ≤ 8 }
    requires rounds { state.old.rounds < 2 ^ 64 - 1 }
    ensures { Plans state.old state.new result (with_round_lem state.old by [] [] HvStatus.SUCCESS total) }
{
    let round = Round::new(state.vps.len() as u8, ArrayVec::new());
    let reply = reply_of(HvStatus::SUCCESS, total, 0);
    with_round(state, by, None, round, reply)
}

/// A register of the partition, which has this value, is read.
fn look(state: &PartitionState, by: VpIndex, value: u64) -> Under
    ensures { Plans state.now state.now result (look_lem state.now by value) }
{
    one_entry(
        by,
        Entry::Look { by },
        reply_of(HvStatus::SUCCESS, 1, value),
    )
}

/// The configuration is written. Where that turns protection on, a round asks for the mask of every page.
fn write_config(state: &mut PartitionState, by: VpIndex, value: u128) -> Under
    requires vps { length state.old.vps ≤ 8 }
    requires rounds { state.old.rounds < 2 ^ 64 - 1 }
    ensures { Plans state.old state.new result (judged state.old by 0 (first_failed (config_checks state.old.config value)) (write_config_lem state.old by value)) }
{
    if let Some(status) = config_refusal(state.config, value) {
        return refused(by, 0, status);
    }
    let value = value as u64;
    let was_on = protects(state.config);
    state.config = value;
    let entry = Entry::Config { by, value };
    let reply = reply_of(HvStatus::SUCCESS, 1, 0);
    if was_on || !protects(value) {
        return one_entry(by, entry, reply);
    }
    let Some(mask) = Mask::of(default_mask(value)) else {
        unreachable!()
    };
    let round = Round::all(state.vps.len() as u8, state.pages, mask);
    with_round(state, by, Some(entry), round, reply)
}

/// What a request comes to in a state, which becomes the one that the request leaves.
pub fn plan(state: &mut PartitionState, request: &Request) -> Under
    requires vps { length state.old.vps ≤ 8 }
    requires rounds { state.old.rounds < 2 ^ 64 - 1 }
    requires by { request.now.by.0 < length state.old.vps }
    requires slice { IsSlice request.now.call }
    ensures { Plans state.old state.new result (serve state.old request.now) }
{
    let by = request.by;
    match &request.call {
        PartCall::EnablePartition(words) => enable_partition(state, by, words),
        PartCall::EnableVp(words) => enable_vp(state, by, request.level, words),
        PartCall::Start(words) => start_vp(state, by, request.level, words),
        PartCall::Modify {
            header,
            pages,
            start,
            total,
        } => modify(state, by, request.level, header, pages, *start, *total),
        PartCall::Flush { total } => flush(state, by, *total),
        PartCall::ReadStatus => {
            let one_enabled = state.enabled;
            look(state, by, PartitionStatus { one_enabled }.bits())
        }
        PartCall::ReadConfig => look(state, by, state.config),
        PartCall::WriteConfig(value) => write_config(state, by, *value),
        PartCall::Fetch => fetch(state, by),
    }
}

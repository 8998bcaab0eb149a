// The partition, between two requests and while it serves one.
ghost use Rattle.std.specs.Option.{is_none};
ghost use Rattle.std.specs.List.{range_with_len};
ghost use Rattle.std.specs.Prelude.{◌≡◌, ◌≢◌, ◌+◌, ◌<◌, ◌≤◌, true, None, length, map, IfOk};
ghost use Rattle.vsm_core.specs.Partition.{opening_partition};
ghost use Rattle.vsm_core.specs.Served.{block};
ghost use Rattle.partition.specs.PartView.{begun, has_ended, opening_view, not_ended, running_of, with_ended};
ghost use Rattle.vsm_core.specs.Protection.{IsSlice};
ghost use Rattle.partition.specs.Turns.{Turns, IsKept, IsPaced};

use crate::block::{Next, Under, make_next};
use crate::plans::plan;
use crate::running::{end, running_of};
use crate::turn::PartTurn;
use fabric::Steward;
use protection_map::Journal;
use std::alloc::{AllocError, Global};
use std::marker::Model;
use vsm_base::{Items, Limits, Mask, Memory, VpIndex};
use vsm_core::{PartitionState, Request, Standing};

/// The partition, between two requests and while it serves one.
#[derive(Debug, Drop)]
pub struct Partition {
    state: PartitionState,
    journal: Journal,
    under: Option<Under>,
    ended: Items<bool>,
}

impl Model for Partition {
    ghost use Rattle.partition.specs.PartView.{PartView};
    ghost use Rattle.partition.specs.Plans.{doing};
    ghost use Rattle.partition.specs.Sound.{IsSound};

    ghost Value = { PartView };

    ghost view = { λ p. record { state = p.state; journal = p.journal; under = doing p.state.rounds p.under; ended = p.ended } };

    ghost invariant = { λ p. IsSound p.state p.journal p.under p.ended };
}

/// What the partition knows before the first request.
fn opening_partition(
    alloc: Global,
    limits: &Limits,
    started: u8,
) -> Result<PartitionState, AllocError>
    ensures { IfOk result (λ state. state ≡ opening_partition limits.now started) }
{
    let mut vps = Items::new(alloc);
    for vp in 0..limits.vps {
        vps.push(Standing {
            one: false,
            started: vp < started,
            start: None,
            waiting: None,
        })?;
    }
    Ok(PartitionState {
        pages: limits.pages,
        enabled: false,
        config: 0,
        rounds: 0,
        vps,
    })
}

/// None of so many processors counts as ended.
fn none_ended(alloc: Global, vps: u8) -> Result<Items<bool>, AllocError>
    ensures { IfOk result (λ ended. ended ≡ map not_ended (range_with_len 0 vps)) }
{
    let mut ended = Items::new(alloc);
    for _vp in 0..vps {
        ended.push(false)?;
    }
    Ok(ended)
}

impl Partition {
    /// A partition that is free, with no entry in its journal. Level 1 isn't enabled anywhere, the first `started`
    /// processors are started, none counts as ended, and `masks` has the mask of each page. Needs at most 8 processors, 256 pages and a budget
    /// of 10,000 marks, a mask for each page, and no more started processors than there are.
    ///
    /// # Errors
    /// `Memory` where there is no memory for the processors or for the journal, and for no other cause.
    pub fn new(
        alloc: Global,
        limits: &Limits,
        masks: &[Mask],
        started: u8,
    ) -> Result<Partition, Memory>
        requires vps { limits.now.vps ≤ 8 }
        requires pages { limits.now.pages ≤ 256 }
        requires budget { limits.now.budget ≤ 10000 }
        requires masks { length masks.now ≡ limits.now.pages }
        requires started { started ≤ limits.now.vps }
        ensures { IfOk result (λ partition. partition ≡ opening_view limits.now masks.now started) }
    {
        Ok(Partition {
            state: opening_partition(alloc, limits, started)?,
            journal: Journal::new(alloc, limits, masks)?,
            under: None,
            ended: none_ended(alloc, limits.vps)?,
        })
    }

    /// Whether no request is under way.
    pub fn is_free(&self) -> bool
        ensures { result ≡ is_none self.now.under }
    {
        self.under.is_none()
    }

    /// The journal so far.
    pub fn journal(&self) -> &Journal
        ensures { result.now ≡ self.now.journal }
    {
        &self.journal
    }

    /// Gives up the partition for its journal.
    pub fn into_journal(self) -> Journal
        ensures { result ≡ self.journal }
    {
        let Partition {
            state: _,
            journal,
            under: _,
            ended: _,
        } = self;
        journal
    }

    /// From now on a processor counts as ended, where there is one of this number: `running` doesn't count it. A second
    /// call changes nothing. That it is told is this project's own.
    pub fn ended(&mut self, vp: VpIndex)
        ensures view { self.new ≡ with_ended self.old vp.0 }
        ensures ended { vp.0 < length self.old.state.vps → has_ended self.new.ended vp.0 ≡ true }
    {
        end(&mut self.ended, vp);
    }

    /// How many processors are started, or their start is accepted, and don't count as ended. This project's own.
    pub fn running(&self) -> u8
        ensures { result ≡ running_of self.now.state self.now.ended }
    {
        running_of(&self.state, &self.ended)
    }

    /// Begins a request. What it comes to is decided here, by the state as it is now, and `turn` adds its entries. Needs
    /// that no request is under way, that the caller is below the number of processors, room for the entries, and of a
    /// call that asks for masks that its slice has at most eight pages, which are some of the call's elements. A call has
    /// fewer than 4,096 elements.
    ///
    /// `PartCall::EnablePartition` enables level 1 for the partition (TLFS, HvCallEnablePartitionVtl). Its status is
    /// the first of these whose cause is there, and else `SUCCESS`:
    /// 1. `INVALID_PARTITION_ID`: the first word isn't 2^64 - 1, which names the caller's own partition.
    /// 2. `INVALID_PARAMETER`: the target level, bits 7:0 of the second word, isn't 1, or a bit above it is set.
    /// 3. `VTL_ALREADY_ENABLED`: level 1 is enabled for the partition already.
    ///
    /// `PartCall::EnableVp` enables level 1 on a processor, with the context in the words from the third on (TLFS,
    /// HvCallEnableVpVtl). Its status is the first of these whose cause is there, and else `SUCCESS`:
    /// 1. `INVALID_PARTITION_ID`: the first word isn't 2^64 - 1.
    /// 2. `INVALID_VP_INDEX`: no processor has the index, bits 31:0 of the second word. 0xFFFFFFFE is the caller.
    /// 3. `INVALID_PARAMETER`: the target level, bits 39:32 of the second word, isn't 1, or a bit above it is set.
    /// 4. `INVALID_VTL_STATE`: level 1 isn't enabled for the partition.
    /// 5. `VTL_ALREADY_ENABLED`: level 1 is enabled on that processor already.
    /// 6. `ACCESS_DENIED`: level 0 calls, and level 1 is enabled on some processor.
    /// 7. `INVALID_VP_STATE`: that processor isn't the caller, and is started or its start was accepted.
    /// 8. `INVALID_REGISTER_VALUE`: a register of the context has a bit set that must be zero.
    ///
    /// The caller gets its own context by the reply; the context of another processor waits for that one's start.
    ///
    /// `PartCall::Start` starts a processor at a level, with the context in the words from the third on (TLFS,
    /// HvCallStartVirtualProcessor). Its status is the first of these whose cause is there, and else `SUCCESS`:
    /// 1. `INVALID_PARTITION_ID`: the first word isn't 2^64 - 1.
    /// 2. `INVALID_VP_INDEX`: no processor has the index, bits 31:0 of the second word. 0xFFFFFFFE is the caller.
    /// 3. `INVALID_PARAMETER`: the target level, bits 39:32 of the second word, is above 1, or a bit above it is set.
    /// 4. `ACCESS_DENIED`: level 0 calls, and the target level is 1 or bit 6 (DenyLowerVtlStartup) of the partition's
    ///    configuration is set.
    /// 5. `INVALID_VTL_STATE`: the target level is 1, and level 1 isn't enabled on that processor.
    /// 6. `INVALID_VP_STATE`: that processor is started, or its start was accepted.
    /// 7. `INVALID_REGISTER_VALUE`: a register of the context has a bit set that must be zero.
    ///
    /// The start is accepted then. Its level and its context wait for the processor, whose start word is posted to with
    /// the entry.
    ///
    /// `PartCall::Fetch` gives the contexts to a processor that starts: the reply has the level and the context of its
    /// start, and level 1's context that has waited, if one has. It is started then, and nothing waits for it any more.
    /// The status is `SUCCESS`, and no element is done. It is refused with `INVALID_VP_STATE` where no start of the caller
    /// was accepted. It is this project's own.
    ///
    /// `PartCall::Modify` is a slice of a call that asks for one mask for pages, which binds level 0 (TLFS,
    /// HvCallModifyVtlProtectionMask). It is refused by the first of these whose cause is there:
    /// 1. `INVALID_PARTITION_ID`: the first word isn't 2^64 - 1.
    /// 2. `ACCESS_DENIED`: level 0 calls.
    /// 3. `INVALID_PARAMETER`: bit 4 of the byte in bits 39:32 of the second word is set and its bits 3:0 aren't 0 or 1, or
    ///    a bit is set above bit 4 of the byte or behind the byte. Whether it names a level, and which, doesn't matter.
    /// 4. `INVALID_VTL_STATE`: the protection of pages isn't on.
    /// 5. `INVALID_PARAMETER`: the map flags, bits 31:0 of the second word, are none of the masks 0, 1, 3, 13 and 15.
    ///
    /// Else each of its pages is looked at in turn, and refused with `INVALID_PARAMETER` where there is no such page. Where
    /// the first is refused the slice is refused with that status. Where another is, the pages before it get the mask by a
    /// round, and the status is that one's; where none is, all get it by a round, and the status is `SUCCESS`. Pages behind
    /// one that is refused aren't looked at. The reply's `done` is the index, among all elements of the call, of the first
    /// that isn't done: the slice's start, and one more for each page that gets the mask.
    ///
    /// `PartCall::Flush` flushes translations (TLFS, HvCallFlushVirtualAddressSpace and HvCallFlushVirtualAddressList): a
    /// round with no asks. Its status is `SUCCESS`, and all elements that it names are done.
    ///
    /// `PartCall::ReadStatus` reads VsmPartitionStatus and `PartCall::ReadConfig` reads VsmPartitionConfig: the status is
    /// `SUCCESS`, one element is done, and the value is that of the register (TLFS, HV_REGISTER_VSM_PARTITION_STATUS and
    /// HV_REGISTER_VSM_PARTITION_CONFIG). Nothing changes.
    ///
    /// `PartCall::WriteConfig` writes VsmPartitionConfig (TLFS, HV_REGISTER_VSM_PARTITION_CONFIG). It is refused with
    /// `INVALID_REGISTER_VALUE` where one of these is so, and then no element is done:
    /// 1. A bit above bit 6 is set.
    /// 2. The mask of pages that were given none, bits 4:1, is none of 0, 1, 3, 13 and 15.
    /// 3. Protection is on, and bit 0 would turn it off.
    /// 4. Protection is on, and the mask of pages that were given none would change.
    ///
    /// Else the status is `SUCCESS`, and one element is done. Where bit 0 becomes set a round asks for that mask for every
    /// page. Bit 5 (ZeroMemoryOnReset) and bit 6 (DenyLowerVtlStartup) may be set and cleared at any time.
    ///
    /// A refused request adds the entry of its refusal alone and changes nothing else. That, the masks, and the order of
    /// the causes, are this project's own.
    pub fn begin(&mut self, request: Request)
        requires free { self.old.under ≡ None }
        requires by { request.by.0 < length self.old.state.vps }
        requires slice { IsSlice request.call }
        requires room { length self.old.journal.entries + length (block self.old.state request) ≤ self.old.journal.room }
        ensures view { self.new ≡ begun self.old request }
        ensures kept { IsKept self.old self.new }
    {
        let under = plan(&mut self.state, &request);
        self.under = Some(under);
    }

    /// Adds the next entry of the request under way to the journal, with the step on the shared words that it takes,
    /// if it takes one: an ask of a page's mask, a turn, a clear of a processor, or the post of a start. Where the
    /// entry clears a processor that is found busy, nothing is added. The entries of a round are its asks, its turn, the
    /// clear of each processor in the order of their numbers, and its report, with which the request is done. Needs that a
    /// request is under way, that the steward has the partition's processors and pages, and that its turns and cleared
    /// processors are those of the journal. The order of the entries is this project's own.
    pub fn turn<S: Steward>(&mut self, steward: &mut S) -> PartTurn
        requires going { self.old.under ≢ None }
        requires paced { IsPaced self.old (S.stand steward.old) }
        ensures turn { Turns self.old (S.stand steward.old) self.new (S.stand steward.new) result }
        ensures paced { IsPaced self.new (S.stand steward.new) }
        ensures kept { IsKept self.old self.new }
    {
        let Some(under) = &mut self.under else {
            unreachable!()
        };
        let next = make_next(under, steward);
        let reply = under.reply;
        match next {
            Next::Busy(vp) => PartTurn::Busy(vp),
            Next::Entry(entry) => {
                self.journal.add(entry);
                PartTurn::Moved
            }
            Next::Last(entry) => {
                self.journal.add(entry);
                self.under = None;
                PartTurn::Done(reply)
            }
        }
    }
}

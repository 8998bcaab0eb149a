// Steps on a fabric of two processors and two pages: masks at 0 and 1, the generation at 2, busy words at 3 and 4, start
// words at 5 and 6, eight words of pending vectors from 7 and from 15, and memory from 23.
ghost use Rattle.std.specs.Prelude.{◌≡◌, ◌+◌, ◌*◌, ◌<◌, IfOk, length, get_or};
ghost use Rattle.vsm_core.specs.Seat.{MayMake, Makes, fabric_after};
ghost use Rattle.vsm_core.specs.Tree.{Entering};

use super::*;
use std::alloc::Global;
use std::test::Fail;
use vsm_base::{Limits, Mask, Memory, Page, VpIndex, Vtl};
use vsm_core::{PendingWord, Phase};

const FIRST: VpIndex = VpIndex(0);

const SECOND: VpIndex = VpIndex(1);

/// A fabric whose mask words are these and whose memory words are all the same.
fn opened(alloc: Global, masks: &[Mask; 2], value: u64) -> Result<PlainFabric, Memory>
    ensures vps { IfOk result (λ f. f.limits.vps ≡ 2) }
    ensures pages { IfOk result (λ f. f.limits.pages ≡ 2) }
    ensures first { IfOk result (λ f. get_or f.fabric.phases 0 Phase.Idle ≡ Phase.Idle) }
    ensures second { IfOk result (λ f. get_or f.fabric.phases 1 Phase.Idle ≡ Phase.Idle) }
    ensures turns { IfOk result (λ f. f.fabric.turns ≡ 0) }
    ensures cleared { IfOk result (λ f. f.fabric.cleared ≡ 2) }
{
    let limits = Limits {
        vps: 2,
        pages: 2,
        budget: 1,
    };
    let words = vec![in alloc; value; 1024]?;
    let fabric = PlainFabric::new(alloc, &limits, masks, &words)?;
    Ok(fabric)
}

/// A word, or the mark 77 where there is none.
fn word(fabric: &PlainFabric, at: usize) -> u64 {
    fabric.words().get(at).copied().unwrap_or(77)
}

/// What a caller knows of a step that it lets another make through a port.
fn enter_by<P: Port>(port: &mut P)
    requires { MayMake (P.seat port.old) Entering }
    ensures { Makes (P.seat port.old) Entering 0 (P.seat port.new) }
{
    port.enter();
}

/// The fabric is known again when its port is gone.
fn enter_at(fabric: &mut PlainFabric, vp: VpIndex)
    requires there { vp.0 < fabric.old.limits.vps }
    requires idle { get_or fabric.old.fabric.phases vp.0 Phase.Idle ≡ Phase.Idle }
    ensures limits { fabric.new.limits ≡ fabric.old.limits }
    ensures fabric { fabric.new.fabric ≡ fabric_after fabric.old.limits vp.0 Phase.Entered Entering fabric.old.fabric }
{
    let mut port = fabric.port(vp);
    enter_by(&mut port);
}

#[test]
fn parts_lie_in_order(rt: HostRuntime) {
    let small = Layout {
        masks: 0,
        generation: 1,
        busy: 2,
        start: 3,
        pending: 4,
        memory: 12,
        length: 524,
    };
    let largest = Layout {
        masks: 0,
        generation: 256,
        busy: 257,
        start: 265,
        pending: 273,
        memory: 337,
        length: 131_409,
    };
    let (one, most) = (
        Limits {
            vps: 1,
            pages: 1,
            budget: 1,
        },
        Limits {
            vps: 8,
            pages: 256,
            budget: 10_000,
        },
    );
    assert_eq!(rt; Layout::of(&one), small);
    assert_eq!(rt; Layout::of(&most), largest);
}

#[test]
fn a_fabric_opens_with_masks_zeros_and_memory(rt: HostRuntime) -> Result<(), Fail> {
    let alloc = rt.alloc();
    let Some(none) = Mask::of(0) else {
        panic!(rt);
    };
    let fabric = opened(alloc, &[Mask::all(), none], 9)?;
    let words = fabric.words();
    assert_eq!(rt; words.len(), 1047);
    for (at, word) in words.iter().enumerate() {
        let wanted = match at {
            0 => 15,
            1..=22 => 0,
            _ => 9,
        };
        assert_eq!(rt; *word, wanted, "at {at}");
    }
    Ok(())
}

#[test]
fn a_processor_loads_and_writes(rt: HostRuntime) -> Result<(), Fail> {
    let alloc = rt.alloc();
    let Some(read) = Mask::of(1) else {
        panic!(rt);
    };
    let mut fabric = opened(alloc, &[Mask::all(), read], 9)?;
    enter_at(&mut fabric, SECOND);
    assert_eq!(rt; (word(&fabric, 3), word(&fabric, 4)), (0, 1));
    let mut port = fabric.port(SECOND);
    assert_eq!(rt; port.check(), 0);
    assert_eq!(rt; port.mask(Page(0)), Mask::all());
    assert_eq!(rt; port.mask(Page(1)), read);
    assert_eq!(rt; port.write(Page(1), 511, 5), 9);
    assert_eq!(rt; port.write(Page(1), 511, 6), 5);
    assert_eq!(rt; port.read(Page(1), 511), 6);
    assert_eq!(rt; port.read(Page(1), 510), 9);
    assert_eq!(rt; (word(&fabric, 1046), word(&fabric, 1045)), (6, 9));
    fabric.port(SECOND).leave();
    assert_eq!(rt; word(&fabric, 4), 0);
    Ok(())
}

#[test]
fn bits_are_posted_and_taken(rt: HostRuntime) -> Result<(), Fail> {
    let alloc = rt.alloc();
    let mut fabric = opened(alloc, &[Mask::all(), Mask::all()], 0)?;
    let last = PendingWord::Vectors {
        level: Vtl::One,
        part: 3,
    };
    let mut port = fabric.port(FIRST);
    assert_eq!(rt; port.post(SECOND, last, 6), 0);
    assert_eq!(rt; port.post(SECOND, last, 9), 6);
    assert_eq!(rt; word(&fabric, 22), 15);
    let mut port = fabric.port(SECOND);
    assert_eq!(rt; port.take(last), 15);
    assert_eq!(rt; port.take(last), 0);
    assert_eq!(rt; port.take(PendingWord::Start), 0);
    assert_eq!(rt; word(&fabric, 22), 0);
    Ok(())
}

/// The first word that is not 0 when a bit was posted to this one.
fn posted_at(alloc: Global, vp: VpIndex, level: Vtl, part: u8) -> Result<Option<usize>, Fail>
    requires there { vp.0 < 2 }
    requires part { part < 4 }
{
    let Some(none) = Mask::of(0) else {
        return Ok(None);
    };
    let mut fabric = opened(alloc, &[none, none], 0)?;
    fabric
        .port(FIRST)
        .post(vp, PendingWord::Vectors { level, part }, 1);
    Ok(fabric.words().iter().position(|word| *word != 0))
}

#[test]
fn each_processor_has_eight_words_of_vectors(rt: HostRuntime) -> Result<(), Fail> {
    let alloc = rt.alloc();
    for part in 0..4u8 {
        let at = part as usize;
        assert_eq!(rt; posted_at(alloc, FIRST, Vtl::Zero, part)?, Some(7 + at));
        assert_eq!(rt; posted_at(alloc, FIRST, Vtl::One, part)?, Some(11 + at));
        assert_eq!(rt; posted_at(alloc, SECOND, Vtl::Zero, part)?, Some(15 + at));
        assert_eq!(rt; posted_at(alloc, SECOND, Vtl::One, part)?, Some(19 + at));
    }
    Ok(())
}

#[test]
fn the_partition_changes_masks_in_rounds(rt: HostRuntime) -> Result<(), Fail> {
    let alloc = rt.alloc();
    let Some(read) = Mask::of(1) else {
        panic!(rt);
    };
    let mut fabric = opened(alloc, &[Mask::all(), Mask::all()], 9)?;
    enter_at(&mut fabric, SECOND);
    let mut steward = fabric.steward();
    assert_eq!(rt; steward.ask(Page(1), read), Mask::all());
    assert_eq!(rt; steward.ask(Page(1), read), read);
    assert_eq!(rt; steward.turn(), 1);
    let free = steward.clear(FIRST);
    assert!(rt; free);
    let free = steward.clear(SECOND);
    assert!(rt; !free);
    assert_eq!(rt;
        (word(&fabric, 0), word(&fabric, 1), word(&fabric, 2)),
        (15, 1, 1)
    );
    fabric.port(SECOND).leave();
    let mut steward = fabric.steward();
    let free = steward.clear(SECOND);
    assert!(rt; free);
    assert_eq!(rt; steward.turn(), 2);
    assert_eq!(rt; word(&fabric, 2), 2);
    Ok(())
}

#[test]
fn a_processor_is_started(rt: HostRuntime) -> Result<(), Fail> {
    let alloc = rt.alloc();
    let mut fabric = opened(alloc, &[Mask::all(), Mask::all()], 9)?;
    assert_eq!(rt; fabric.steward().post(SECOND), 0);
    assert_eq!(rt; fabric.steward().post(SECOND), 1);
    assert_eq!(rt; (word(&fabric, 5), word(&fabric, 6)), (0, 1));
    assert_eq!(rt; fabric.port(SECOND).take(PendingWord::Start), 1);
    assert_eq!(rt; word(&fabric, 6), 0);
    Ok(())
}

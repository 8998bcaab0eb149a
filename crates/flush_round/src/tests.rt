// Rounds over two processors and two pages.
ghost use Rattle.std.specs.Prelude.{◌≡◌, ◌≢◌, IfOk, get_or};
ghost use Rattle.flush_round.specs.Steps.{IsReady};
ghost use Rattle.flush_round.specs.declared.round.Stage.TheVariants.{Over};

use super::*;
use arrayvec::ArrayVec;
use fabric::{PlainFabric, Port, Steward};
use std::alloc::Global;
use std::test::Fail;
use vsm_base::{Limits, Mask, Memory, Page, VpIndex};
use vsm_core::Phase;

const FIRST: VpIndex = VpIndex(0);

const SECOND: VpIndex = VpIndex(1);

/// The shared words before the first step.
fn opened(alloc: Global) -> Result<PlainFabric, Memory>
    ensures vps { IfOk result (λ f. f.limits.vps ≡ 2) }
    ensures pages { IfOk result (λ f. f.limits.pages ≡ 2) }
    ensures second { IfOk result (λ f. get_or f.fabric.phases 1 Phase.Idle ≡ Phase.Idle) }
    ensures turns { IfOk result (λ f. f.fabric.turns ≡ 0) }
    ensures cleared { IfOk result (λ f. f.fabric.cleared ≡ 2) }
{
    let limits = Limits {
        vps: 2,
        pages: 2,
        budget: 1,
    };
    let words = vec![in alloc; 0; 1024]?;
    let fabric = PlainFabric::new(alloc, &limits, &[Mask::all(), Mask::all()], &words)?;
    Ok(fabric)
}

/// A word, or the mark 77 where there is none.
fn word(fabric: &PlainFabric, at: usize) -> u64 {
    fabric.words().get(at).copied().unwrap_or(77)
}

/// What a round does, up to the ninth step, until it is done or finds a processor busy.
fn steps<S: Steward>(round: &mut Round, steward: &mut S) -> [Option<RoundStep>; 9]
    requires going { round.old.stage ≢ Over }
    requires ready { IsReady round.old (S.stand steward.old) }
{
    let mut made = [None; 9];
    for at in 0..9 {
        let step = round.step(steward);
        made[at] = Some(step);
        match &step {
            RoundStep::Busy(_) | RoundStep::Done(_) => return made,
            _ => {}
        }
    }
    made
}

#[test]
fn a_round_asks_and_turns_and_clears_each_processor(rt: HostRuntime) -> Result<(), Fail> {
    let alloc = rt.alloc();
    let (Some(read), Some(write)) = (Mask::of(1), Mask::of(3)) else {
        panic!(rt);
    };
    let mut asks = ArrayVec::new();
    asks.push((Page(1), read));
    asks.push((Page(0), write));
    let mut fabric = opened(alloc)?;
    let made = steps(&mut Round::new(2, asks), &mut fabric.steward());
    let expected = [
        Some(RoundStep::Asked(Page(1), read)),
        Some(RoundStep::Asked(Page(0), write)),
        Some(RoundStep::Turned(1)),
        Some(RoundStep::Cleared(FIRST)),
        Some(RoundStep::Cleared(SECOND)),
        Some(RoundStep::Done(1)),
        None,
        None,
        None,
    ];
    assert_eq!(rt; made, expected);
    assert_eq!(rt;
        (word(&fabric, 0), word(&fabric, 1), word(&fabric, 2)),
        (3, 1, 1)
    );
    Ok(())
}

#[test]
fn a_round_of_all_pages_asks_each_page(rt: HostRuntime) -> Result<(), Fail> {
    let alloc = rt.alloc();
    let Some(read) = Mask::of(1) else {
        panic!(rt);
    };
    let mut fabric = opened(alloc)?;
    let made = steps(&mut Round::all(2, 2, read), &mut fabric.steward());
    let expected = [
        Some(RoundStep::Asked(Page(0), read)),
        Some(RoundStep::Asked(Page(1), read)),
        Some(RoundStep::Turned(1)),
        Some(RoundStep::Cleared(FIRST)),
        Some(RoundStep::Cleared(SECOND)),
        Some(RoundStep::Done(1)),
        None,
        None,
        None,
    ];
    assert_eq!(rt; made, expected);
    Ok(())
}

#[test]
fn a_busy_processor_is_loaded_again(rt: HostRuntime) -> Result<(), Fail> {
    let mut fabric = opened(rt.alloc())?;
    let mut round = Round::new(2, ArrayVec::new());
    fabric.port(SECOND).enter();
    let mut steward = fabric.steward();
    assert_eq!(rt; round.step(&mut steward), RoundStep::Turned(1));
    assert_eq!(rt; round.step(&mut steward), RoundStep::Cleared(FIRST));
    assert_eq!(rt; round.step(&mut steward), RoundStep::Busy(SECOND));
    assert_eq!(rt; round.step(&mut steward), RoundStep::Busy(SECOND));
    fabric.port(SECOND).leave();
    let mut steward = fabric.steward();
    assert_eq!(rt; round.step(&mut steward), RoundStep::Cleared(SECOND));
    assert_eq!(rt; round.step(&mut steward), RoundStep::Done(1));
    Ok(())
}

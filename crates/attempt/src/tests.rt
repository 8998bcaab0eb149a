// Attempts over answers that a test gives.
ghost use Rattle.std.specs.Prelude.{◌≡◌, ◌<◌, IfOk, true};
ghost use Rattle.attempt.specs.Asked.{word_step, IsAnswer};
ghost use Rattle.attempt.specs.Rests.{StageIs};
ghost use Rattle.attempt.specs.Views.{origin_of};

use super::*;
use register_file::Bank;
use secure_intr::Pending;
use std::alloc::Global;
use std::mem::size_of;
use std::test::Fail;
use synic::Synic;
use vsm_base::{Gva, Limits, Mask, Name, VpIndex, Vtl};
use vsm_core::{Denial, Op, PartCall, Posted, What};
use vtl_state::Levels;

const LIMITS: Limits = Limits {
    vps: 1,
    pages: 8,
    budget: 100,
};

/// A load of a word in page 2.
const LOAD: Op = Op::Load(Name::Rax, Gva(0x2008));

/// The input value of HvCallEnablePartitionVtl, whose input stands in memory.
const ENABLE_PARTITION: u128 = 0xD;

/// A processor alone, at level 0, in whose registers these were put.
fn opened(alloc: Global, puts: &[(Name, u128)]) -> Result<VpState, Fail>
    ensures vps { IfOk result (λ state. state.limits.vps ≡ 1) }
    ensures room { IfOk result (λ state. state.room ≡ 100) }
{
    let mut bank = Bank::opening();
    for (name, value) in puts {
        let _ = bank.put(Vtl::Zero, *name, *value);
    }
    let synic = Synic::new(alloc, 100)?;
    Ok(VpState {
        limits: LIMITS,
        number: VpIndex(0),
        bank,
        levels: Levels::opening(),
        controllers: Controllers {
            zero: Pending::new(),
            one: Pending::new(),
            synic,
        },
    })
}

/// A digit for each kind of step.
fn digit(step: Step) -> u64 {
    match step {
        Step::Enter => 1,
        Step::Check => 2,
        Step::Mask { .. } => 3,
        Step::Read { .. } => 4,
        Step::Write { .. } => 5,
        Step::Leave => 6,
        Step::Post { .. } => 7,
        Step::Take { .. } => 8,
    }
}

/// Whether a step may be answered so.
fn may_answer(step: Step, answer: u64) -> bool
    ensures { result ≡ true → IsAnswer (word_step step) answer }
{
    match step {
        Step::Mask { .. } => answer < 16 && Mask::of(answer as u32).is_some(),
        _ => true,
    }
}

/// Makes the steps of an attempt by these answers; the result has their digits.
fn made(state: &VpState, under: &mut Under, answers: &[u64]) -> u64
    requires { StageIs (origin_of state.now) under.old }
    ensures { StageIs (origin_of state.now) under.new }
{
    let mut digits: u64 = 0;
    for answer in answers {
        let Next::Ask(step) = state.next(under) else {
            return digits;
        };
        if !may_answer(step, *answer) {
            return digits;
        }
        digits = digits.wrapping_mul(10).wrapping_add(digit(step));
        state.resume(under, *answer);
    }
    digits
}

/// What an attempt came to, where no step is left.
fn ended(state: &mut VpState, under: &Under) -> Option<What>
    requires room { 0 < state.old.room }
    requires is { StageIs (origin_of state.old) under.now }
{
    match under.stage {
        Stage::End => Some(state.finish(under)),
        _ => None,
    }
}

#[test]
fn a_poll_takes_eight_words(rt: HostRuntime) -> Result<(), Fail> {
    let mut state = opened(rt.alloc(), &[])?;
    let mut under = Under::idle();
    state.begin(&mut under, Op::Poll);
    let digits = made(&state, &mut under, &[0; 9]);
    assert_eq!(rt; digits, 88888888, "digits");
    let what = ended(&mut state, &under);
    assert_eq!(rt; what, Some(What::Plain), "what");
    Ok(())
}

#[test]
fn a_load_reads_behind_its_mask(rt: HostRuntime) -> Result<(), Fail> {
    let mut state = opened(rt.alloc(), &[])?;
    let mut under = Under::idle();
    state.begin(&mut under, LOAD);
    let digits = made(&state, &mut under, &[0, 5, 15, 77, 0]);
    assert_eq!(rt; digits, 12346, "digits");
    let what = ended(&mut state, &under);
    assert!(rt; matches!(what, Some(What::Granted(_))), "what");
    assert_eq!(rt; state.bank.get(Vtl::Zero, Name::Rax), 77, "rax");
    Ok(())
}

#[test]
fn a_denied_load_is_held(rt: HostRuntime) -> Result<(), Fail> {
    let mut state = opened(rt.alloc(), &[])?;
    let mut under = Under::idle();
    state.begin(&mut under, LOAD);
    let digits = made(&state, &mut under, &[0, 5, 0, 0, 0]);
    assert_eq!(rt; digits, 1236, "digits");
    let what = ended(&mut state, &under);
    let held = matches!(
        what,
        Some(What::Denied(Denial {
            posted: Posted::Held,
            ..
        }))
    );
    assert!(rt; held, "held");
    assert_eq!(rt; state.bank.get(Vtl::Zero, Name::Rax), 0, "rax");
    Ok(())
}

#[test]
fn a_walk_reads_four_tables(rt: HostRuntime) -> Result<(), Fail> {
    let mut state = opened(rt.alloc(), &[(Name::Cr0, 0x8000_0001)])?;
    let mut under = Under::idle();
    state.begin(&mut under, LOAD);
    let answers = [
        0, 5, 15, 0x1007, 15, 0x2007, 15, 0x3007, 15, 0x4007, 15, 9, 0,
    ];
    let digits = made(&state, &mut under, &answers);
    assert_eq!(rt; digits, 1234343434346, "digits");
    let what = ended(&mut state, &under);
    assert!(rt; matches!(what, Some(What::Granted(_))), "what");
    assert_eq!(rt; state.bank.get(Vtl::Zero, Name::Rax), 9, "rax");
    Ok(())
}

#[test]
fn a_hypercall_wants_its_request(rt: HostRuntime) -> Result<(), Fail> {
    let puts = [(Name::Rcx, ENABLE_PARTITION), (Name::Rdx, 0x3000)];
    let state = opened(rt.alloc(), &puts)?;
    let mut under = Under::idle();
    state.begin(&mut under, Op::Hypercall);
    let digits = made(&state, &mut under, &[0, 5, 15, 21, 22, 0]);
    assert_eq!(rt; digits, 123446, "digits");
    let Next::Want(Asked::EnablePartition) = state.next(&under) else {
        assert!(rt; false, "nothing is asked");
        return Ok(());
    };
    let request = state.request(&under, Asked::EnablePartition);
    let PartCall::EnablePartition(words) = request.call else {
        assert!(rt; false, "another call");
        return Ok(());
    };
    assert_eq!(rt; words, [21, 22], "words");
    Ok(())
}

#[test]
fn a_stage_is_small(rt: HostRuntime) -> Result<(), Fail> {
    assert!(rt; size_of::<Stage>() <= 64, "a stage has more than 64 bytes");
    Ok(())
}

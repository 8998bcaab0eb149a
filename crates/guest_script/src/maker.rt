// Making a large script from a number.
ghost use Rattle.std.specs.Prelude.{◌≡◌, ◌≤◌, ◌++◌, ◌==◌, if◌then◌else◌, [], IfOk, OnOk, Ok};
ghost use Rattle.guest_script.specs.Grammar.{script};
ghost use Rattle.guest_script.specs.Made.{access_of, accesses, address_of, enabling, inputs, made, made_program, made_programs, made_schedule, made_words, next_state, protecting, state_after, trying};
ghost use Rattle.guest_script.specs.Print.{printed};
ghost use Rattle.guest_script.specs.Within.{IsWithin};

use crate::{Script, Turns};
use std::alloc::{AllocError, Global};
use vsm_base::{Gva, Items, Limits, Memory, Name, Page, VpIndex};
use vsm_core::{Op, Operand, Program};

const VPS: u8 = 4;

// Level 1 is enabled, for the partition and for the processor, and called.
const ENABLING: [Op; 9] = [
    Op::Set(Name::Rcx, 0x1000d),
    Op::Set(Name::Rdx, 0xffff_ffff_ffff_ffff),
    Op::Set(Name::R8, 1),
    Op::Hypercall,
    Op::Set(Name::Rcx, 0xf),
    Op::Set(Name::Rdx, 0x1000),
    Op::Hypercall,
    Op::Set(Name::Rcx, 0),
    Op::VtlCall,
];

// Protection is turned on, sixteen pages get a mask in two slices, and level 0 goes on.
const PROTECTING: [Op; 8] = [
    Op::Set(Name::Rcx, 0x1_0000_0051),
    Op::Set(Name::Rdx, 0x2000),
    Op::Hypercall,
    Op::Set(Name::Rcx, 0x10_0000_000c),
    Op::Set(Name::Rdx, 0x3000),
    Op::Hypercall,
    Op::Set(Name::Rcx, 0),
    Op::VtlReturn,
];

// A load from a protected page, and a store to it.
const TRYING: [Op; 2] = [
    Op::Load(Name::Rax, Gva(0x20000)),
    Op::Store(Gva(0x20000), Operand::Number(1)),
];

// The inputs of the hypercalls, but for the pages that get a mask.
const INPUTS: [(Page, u16, u64); 8] = [
    (Page(1), 0, 0xffff_ffff_ffff_ffff),
    (Page(1), 1, 0x1_ffff_fffe),
    (Page(2), 0, 0xffff_ffff_ffff_ffff),
    (Page(2), 1, 0xffff_fffe),
    (Page(2), 2, 0xd_0007),
    (Page(2), 4, 0x1f),
    (Page(3), 0, 0xffff_ffff_ffff_ffff),
    (Page(3), 1, 0x10_0000_000d),
];

// The next state of the generator.
#[tactic(auto, unfolding(crate::specs::Made::next_state))]
fn next_state(x: u64) -> u64
    ensures { result ≡ next_state x }
{
    let next = u128::from(x) * 6_364_136_223_846_793_005 + 1_442_695_040_888_963_407;
    (next % (1 << 64)) as u64
}

#[tactic(auto, unfolding(crate::specs::Made::address_of))]
fn address_of(vp: u8, x: u64) -> Gva
    ensures { result.0 ≡ address_of vp x }
{
    let page = 8 * u64::from(vp) + (x >> 61);
    Gva((page * 512 + (x >> 52) % 512) * 8)
}

// The access that a state stands for.
#[tactic(auto, unfolding(crate::specs::Made::access_of))]
fn access_of(vp: u8, number: u64, x: u64) -> Op
    ensures { result ≡ access_of vp number x }
{
    let address = address_of(vp, x);
    if (x >> 51) % 2 == 1 {
        Op::Store(address, Operand::Number(number))
    } else {
        Op::Load(Name::Rax, address)
    }
}

// Adds items at the end.
pub fn push_all<T: Copy>(items: &mut Items<T>, more: &[T]) -> Result<(), AllocError>
    ensures { OnOk result (items.new ≡ items.old ++ more.now) }
{
    for item in more {
        items.push(*item)?;
    }
    Ok(())
}

// Adds so many accesses of a processor by the states after this one, and answers the last state.
fn push_accesses(ops: &mut Items<Op>, vp: u8, n: u32, x: u64) -> Result<u64, AllocError>
    ensures ops { IfOk result (λ _. ops.new ≡ ops.old ++ accesses vp 1 n x) }
    ensures state { IfOk result (λ last. last ≡ state_after n x) }
{
    let mut state = x;
    for number in 0..n {
        state = next_state(state);
        ops.push(access_of(vp, u64::from(number) + 1, state))?;
    }
    Ok(state)
}

// What a processor does in level 0 before its accesses.
#[tactic(auto, unfolding(crate::specs::Made::enabling))]
fn opening(vp: u8) -> &'static [Op]
    ensures { result.now ≡ if vp == 0 then enabling else [] }
{
    if vp == 0 { &ENABLING } else { &[] }
}

// What a processor does in level 1.
#[tactic(auto, unfolding(crate::specs::Made::protecting))]
fn level_1(vp: u8) -> &'static [Op]
    ensures { result.now ≡ if vp == 0 then protecting else [] }
{
    if vp == 0 { &PROTECTING } else { &[] }
}

#[tactic(auto, unfolding(crate::specs::Made::trying))]
fn push_trying(ops: &mut Items<Op>) -> Result<(), AllocError>
    ensures { OnOk result (ops.new ≡ ops.old ++ trying) }
{
    push_all(ops, &TRYING)
}

// The programs of a processor, and the state after them.
fn program(alloc: Global, n: u32, vp: u8, x: u64) -> Result<(Program, u64), AllocError>
    ensures { IfOk result (λ made. made ≡ (made_program n vp x, state_after n x)) }
{
    let mut zero = Items::new(alloc);
    push_all(&mut zero, opening(vp))?;
    let state = push_accesses(&mut zero, vp, n, x)?;
    push_trying(&mut zero)?;
    let mut one = Items::new(alloc);
    push_all(&mut one, level_1(vp))?;
    Ok((Program { zero, one }, state))
}

fn programs(alloc: Global, n: u32) -> Result<Items<Program>, AllocError>
    ensures { IfOk result (λ programs. programs ≡ made_programs n 0 4 n) }
{
    let mut programs = Items::new(alloc);
    let mut state = u64::from(n);
    for vp in 0..VPS {
        let (made, next) = program(alloc, n, vp, state)?;
        programs.push(made)?;
        state = next;
    }
    Ok(programs)
}

#[tactic(auto, unfolding(crate::specs::Made::inputs))]
fn push_inputs(words: &mut Items<(Page, u16, u64)>) -> Result<(), AllocError>
    ensures { OnOk result (words.new ≡ words.old ++ inputs) }
{
    push_all(words, &INPUTS)
}

fn words(alloc: Global) -> Result<Items<(Page, u16, u64)>, AllocError>
    ensures { IfOk result (λ words. words ≡ made_words) }
{
    let mut words = Items::new(alloc);
    push_inputs(&mut words)?;
    for i in 0..16u16 {
        words.push((Page(3), i + 2, u64::from(i) + 32))?;
    }
    Ok(words)
}

fn schedule(alloc: Global, n: u32) -> Result<Items<Items<Turns>>, AllocError>
    requires { n ≤ 1000 }
    ensures { IfOk result (λ schedule. schedule ≡ made_schedule n) }
{
    let mut line = Items::new(alloc);
    for vp in 0..VPS {
        line.push(Turns {
            vp: VpIndex(vp),
            single: false,
            count: n + 40,
        })?;
    }
    let mut schedule = Items::new(alloc);
    schedule.push(line)?;
    Ok(schedule)
}

/// The script of a number, 1 to 1,000: four processors make so many loads and stores each, all over pages of their
/// own, after level 1 of the first has protected sixteen pages, and then each tries a load from a protected page and a
/// store to it. The accesses come from a linear congruence of 64 bits that begins with the number. This project's own.
///
/// # Errors
///
/// `Memory` where there was no memory.
#[tactic(auto, unfolding(crate::specs::Made::made))]
pub fn make(alloc: Global, n: u32) -> Result<Script, Memory>
    requires some { 1 ≤ n }
    requires most { n ≤ 1000 }
    ensures made { IfOk result (λ s. s ≡ made n) }
    ensures within { IfOk result IsWithin }
    ensures spelled { IfOk result (λ s. script (printed s) ≡ Ok s) }
{
    Ok(Script {
        limits: Limits {
            vps: VPS,
            pages: 64,
            budget: 10_000,
        },
        started: VPS,
        masks: Items::new(alloc),
        words: words(alloc)?,
        programs: programs(alloc, n)?,
        schedule: schedule(alloc, n)?,
    })
}

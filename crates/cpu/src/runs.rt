// Runs of a processor from an opening over a port, and what each must leave.
ghost use Rattle.std.specs.Prelude.{◌≡◌, ◌<◌, ◌≤◌, get_or, IfOk, IfSome, None, false};
ghost use Rattle.cpu.specs.Turns.{VpServes, Fits, phase_at};

use super::*;
use crate::fed::new_fed;
use crate::left::{Left, Rest, holds};
use fabric::{PlainFabric, Port, Steward};
use register_file::{Bank, Context};
use std::alloc::Global;
use std::test::Fail;
use vsm_base::{HvStatus, Items, Limits, Mask, Name, VpIndex, Vtl};
use vsm_core::{Ending, Mark, Op, PartCall, Phase, Program, Reply, Request, What};
use vtl_state::Levels;

pub const LIMITS: Limits = Limits {
    vps: 4,
    pages: 2,
    budget: 10,
};

/// A register of a level, and a value.
pub type Put = (Vtl, Name, u128);

/// Level 1's assist page is page 1, and is on.
pub const PAGE_1: Put = (Vtl::One, Name::VpAssistPage, 0x1001);

/// The level of a start, the words of its context, and those of level 1's context that has waited.
pub type Fetched = Option<(Vtl, [u64; 28], Option<[u64; 28]>)>;

/// How a processor begins.
#[derive(Clone, Copy)]
pub enum Opening<'a> {
    /// It waits for its start, at which it fetches these.
    Waiting(Fetched),
    /// It has started, and level 1 isn't enabled.
    Alone,
    /// The same, two reads short of the last that its spins may make in vain.
    NearlySpun,
    /// Level 1 is enabled, this level is active, and these registers were put, one after the other.
    Both(Vtl, &'a [Put], &'a [Put]),
}

/// Where a processor's port leads.
#[derive(Clone, Copy)]
pub enum Way<'a> {
    /// To nothing: it answers by these numbers in turn, and then by 0.
    Fed(&'a [u64]),
    /// To memory whose pages have this mask, whose words are this number, but for the two of page 1 that a return
    /// takes.
    Memory(Mask, u64, [u64; 2]),
    /// To memory of zeros, and a start is posted.
    Started,
}

/// A run: the programs, how the processor begins, where its port leads, and how many whole attempts are made and how
/// many turns after them.
#[derive(Clone, Copy)]
pub struct Run<'a> {
    pub zero: &'a [Op],
    pub one: &'a [Op],
    pub opening: Opening<'a>,
    pub way: Way<'a>,
    pub attempts: usize,
    pub turns: usize,
}

/// Makes a run, and fails unless it leaves all that.
pub fn leaves(alloc: Global, run: &Run, left: &[Left]) -> Result<(), Fail> {
    let program = programs(alloc, run.zero, run.one)?;
    let cpu = opened(alloc, &program, &run.opening)?;
    over_port(alloc, cpu, &program, run, left)
}

/// A mark of an attempt of level 0 or 1 that stood there, whose events are the first.
pub fn mark(level: Vtl, rip: u64, what: What, count: u32) -> Mark {
    Mark {
        level,
        rip,
        what,
        first: 0,
        count,
    }
}

fn programs(alloc: Global, zero: &[Op], one: &[Op]) -> Result<Program, Fail> {
    let zero = Items::from_vec(Vec::from_slice(alloc, zero)?);
    let one = Items::from_vec(Vec::from_slice(alloc, one)?);
    Ok(Program { zero, one })
}

fn processor(alloc: Global, started: bool, program: &Program) -> Result<Cpu, Fail>
    ensures fits { IfOk result (λ cpu. Fits program.now cpu) }
    ensures number { IfOk result (λ cpu. cpu.number ≡ 0) }
    ensures limits { IfOk result (λ cpu. cpu.limits ≡ LIMITS) }
    ensures idle { IfOk result (λ cpu. phase_at cpu.seen cpu.first ≡ Phase.Idle) }
    ensures answered { IfOk result (λ cpu. cpu.owes ≡ false) }
{
    Ok(Cpu::new(alloc, VpIndex(0), &LIMITS, started, program)?)
}

fn put_all(bank: &mut Bank, puts: &[Put]) -> bool {
    for (level, name, value) in puts {
        if bank.put(*level, *name, *value).is_err() {
            return false;
        }
    }
    true
}

/// The processor with level 1 enabled, these registers, and this level active.
fn placed(cpu: Cpu, level: Vtl, first: &[Put], then: &[Put]) -> Option<Cpu>
    ensures state { IfSome result (λ now. now ≡ record cpu { state = now.state }) }
    ensures idle { IfSome result (λ now. now.op ≡ None) }
{
    let mut bank = Bank::opening();
    let mut levels = Levels::opening();
    let context = Context::read(&[0; 28]).ok()?;
    levels.enable(&mut bank, Vtl::One, &context).ok()?;
    let put = put_all(&mut bank, first) && put_all(&mut bank, then);
    if !put || !levels.enabled(level) {
        return None;
    }
    levels.begin_at(level);
    cpu.with_state(bank, levels)
}

fn with_both(
    alloc: Global,
    program: &Program,
    level: Vtl,
    first: &[Put],
    then: &[Put],
) -> Result<Cpu, Fail>
    ensures fits { IfOk result (λ cpu. Fits program.now cpu) }
    ensures number { IfOk result (λ cpu. cpu.number ≡ 0) }
    ensures limits { IfOk result (λ cpu. cpu.limits ≡ LIMITS) }
    ensures idle { IfOk result (λ cpu. phase_at cpu.seen cpu.first ≡ Phase.Idle) }
    ensures answered { IfOk result (λ cpu. cpu.owes ≡ false) }
{
    let cpu = processor(alloc, true, program)?;
    match placed(cpu, level, first, then) {
        Some(cpu) => Ok(cpu),
        None => Err("a processor with level 1".into()),
    }
}

fn opened(alloc: Global, program: &Program, opening: &Opening) -> Result<Cpu, Fail>
    ensures fits { IfOk result (λ cpu. Fits program.now cpu) }
    ensures number { IfOk result (λ cpu. cpu.number ≡ 0) }
    ensures limits { IfOk result (λ cpu. cpu.limits ≡ LIMITS) }
    ensures idle { IfOk result (λ cpu. phase_at cpu.seen cpu.first ≡ Phase.Idle) }
    ensures answered { IfOk result (λ cpu. cpu.owes ≡ false) }
{
    match opening {
        Opening::Waiting(_) => processor(alloc, false, program),
        Opening::Alone => processor(alloc, true, program),
        Opening::NearlySpun => Ok(processor(alloc, true, program)?.after_spins(19_999_998)),
        Opening::Both(level, first, then) => with_both(alloc, program, *level, first, then),
    }
}

fn plain(alloc: Global, mask: Mask, word: u64, given: [u64; 2]) -> Result<PlainFabric, Fail>
    ensures limits { IfOk result (λ f. f.limits ≡ LIMITS) }
    ensures idle { IfOk result (λ f. get_or f.fabric.phases 0 Phase.Idle ≡ Phase.Idle) }
{
    let masks = [mask; 2];
    let mut words = vec![in alloc; word; 512 * LIMITS.pages as usize]?;
    words[514] = given[0];
    words[515] = given[1];
    Ok(PlainFabric::new(alloc, &LIMITS, masks.as_slice(), &words)?)
}

/// What a turn answered; a request was answered at once.
#[derive(Clone, Copy, Debug, PartialEq, Eq)]
pub enum Answer {
    Moved,
    Idle,
    Attempt,
    Again,
    Ended(Ending),
}

/// A status that tells who asked: 0 for processor 0 and its own partition, else one of a refusal.
fn status_of(by: VpIndex, words: &[u64]) -> HvStatus {
    match (by, words.first()) {
        (VpIndex(0), Some(0xFFFF_FFFF_FFFF_FFFF)) => HvStatus::SUCCESS,
        (VpIndex(0), _) => HvStatus::INVALID_PARTITION_ID,
        _ => HvStatus::INVALID_VP_INDEX,
    }
}

/// The context of level 1 behind two words.
fn context_in(words: &[u64; 30]) -> [u64; 28] {
    let mut context = [0; 28];
    context.copy_from_slice(&words[2..]);
    context
}

/// The configuration of the partition of these tests.
pub const CONFIG: u128 = 0x1F;

/// A reply without a context, where so many elements are done.
fn reply_of(status: HvStatus, done: u16, value: u64) -> Reply
    ensures { result.done < 4096 }
{
    Reply {
        status,
        done: done.min(4095),
        value,
        context: None,
    }
}

/// What is replied to a slice of pages, of which each is one more than its index: it is refused at the first other one.
fn modified(start: u16, pages: &[u64]) -> Reply
    ensures { result.done < 4096 }
{
    let mut done = start;
    for page in pages {
        if *page != u64::from(done).saturating_add(1) {
            return reply_of(HvStatus::INVALID_PARAMETER, done, 0);
        }
        done = done.saturating_add(1);
    }
    reply_of(HvStatus::SUCCESS, done, 0)
}

/// What a partition of these tests replies, by the words of the request alone, where a start fetches these.
fn reply_to(request: &Request, fetched: &Fetched) -> Reply
    ensures { result.done < 4096 }
{
    match &request.call {
        PartCall::EnablePartition(words) => reply_of(status_of(request.by, words), 0, 0),
        PartCall::EnableVp(words) => {
            Reply {
                context: Some((Vtl::One, context_in(words), None)),
                ..reply_of(status_of(request.by, words), 0, 0)
            }
        }
        PartCall::Modify { pages, start, .. } => modified(*start, pages.as_slice()),
        PartCall::Flush { total } => reply_of(HvStatus::SUCCESS, *total, 0),
        PartCall::WriteConfig(value) if *value == CONFIG => reply_of(HvStatus::SUCCESS, 1, 0),
        PartCall::ReadConfig => reply_of(HvStatus::SUCCESS, 1, CONFIG as u64),
        PartCall::Fetch => {
            Reply {
                context: *fetched,
                ..reply_of(status_of(request.by, &[u64::MAX]), 0, 0)
            }
        }
        _ => reply_of(HvStatus::INVALID_HYPERCALL_CODE, 0, 0),
    }
}

fn answer_of(turn: &CpuTurn) -> Answer {
    match turn {
        CpuTurn::Moved => Answer::Moved,
        CpuTurn::Idle => Answer::Idle,
        CpuTurn::Attempt => Answer::Attempt,
        CpuTurn::Again => Answer::Again,
        CpuTurn::Wants(_) => Answer::Moved,
        CpuTurn::Ended(ending) => Answer::Ended(*ending),
    }
}

/// Makes a turn, and takes the reply where the turn asks for something.
fn whole_turn<P: Port>(cpu: &mut Cpu, port: &mut P, program: &Program, fetched: &Fetched) -> Answer
    requires going { cpu.old.ended ≡ None }
    requires fits { Fits program.now cpu.old }
    requires serves { VpServes cpu.old (P.seat port.old) }
    requires answered { cpu.old.owes ≡ false }
    ensures fits { Fits program.now cpu.new }
    ensures serves { VpServes cpu.new (P.seat port.new) }
    ensures answered { cpu.new.owes ≡ false }
{
    match cpu.turn(port, program) {
        CpuTurn::Wants(request) => {
            let turn = cpu.accept(reply_to(&request, fetched));
            answer_of(&turn)
        }
        turn => answer_of(&turn),
    }
}

/// Makes so many turns, while there is no ending.
fn turns<P: Port>(cpu: &mut Cpu, port: &mut P, program: &Program, fetched: &Fetched, count: usize)
    requires fits { Fits program.now cpu.old }
    requires serves { VpServes cpu.old (P.seat port.old) }
    requires answered { cpu.old.owes ≡ false }
    ensures fits { Fits program.now cpu.new }
    ensures serves { VpServes cpu.new (P.seat port.new) }
    ensures answered { cpu.new.owes ≡ false }
{
    'turns: for _ in 0..count {
        if cpu.ended().is_none() {
            whole_turn(cpu, port, program, fetched);
        }
    }
}

/// Makes turns until one doesn't answer that the attempt goes on, at most so many as an attempt may have.
fn attempt<P: Port>(
    cpu: &mut Cpu,
    port: &mut P,
    program: &Program,
    fetched: &Fetched,
) -> Option<Answer>
    requires fits { Fits program.now cpu.old }
    requires serves { VpServes cpu.old (P.seat port.old) }
    requires answered { cpu.old.owes ≡ false }
    ensures fits { Fits program.now cpu.new }
    ensures serves { VpServes cpu.new (P.seat port.new) }
    ensures answered { cpu.new.owes ≡ false }
{
    'turns: for _ in 0..35 {
        if cpu.ended().is_some() {
            return None;
        }
        match whole_turn(cpu, port, program, fetched) {
            Answer::Moved => {}
            answer => return Some(answer),
        }
    }
    None
}

/// Makes so many attempts, and says what the last one answered.
fn attempts<P: Port>(
    cpu: &mut Cpu,
    port: &mut P,
    program: &Program,
    fetched: &Fetched,
    count: usize,
) -> Option<Answer>
    requires fits { Fits program.now cpu.old }
    requires serves { VpServes cpu.old (P.seat port.old) }
    requires answered { cpu.old.owes ≡ false }
    ensures fits { Fits program.now cpu.new }
    ensures serves { VpServes cpu.new (P.seat port.new) }
    ensures answered { cpu.new.owes ≡ false }
{
    let mut last = None;
    'attempts: for _ in 0..count {
        last = attempt(cpu, port, program, fetched);
    }
    last
}

/// What a processor that begins so fetches at its start.
fn fetched_at(opening: &Opening) -> Fetched {
    match opening {
        Opening::Waiting(fetched) => *fetched,
        _ => None,
    }
}

/// Makes the attempts and then the turns of a run, and says what the last attempt answered.
fn made<P: Port>(cpu: &mut Cpu, port: &mut P, program: &Program, run: &Run) -> Option<Answer>
    requires fits { Fits program.now cpu.old }
    requires serves { VpServes cpu.old (P.seat port.old) }
    requires answered { cpu.old.owes ≡ false }
{
    let fetched = fetched_at(&run.opening);
    let last = attempts(cpu, port, program, &fetched, run.attempts);
    turns(cpu, port, program, &fetched, run.turns);
    last
}

/// Gives up the lists, and says whether they are as long as they were.
fn gives_lists(cpu: Cpu) -> bool {
    let lengths = (cpu.marks().len(), cpu.seen().len());
    let (marks, seen) = cpu.into_lists();
    lengths == (marks.len(), seen.len())
}

fn judged(cpu: Cpu, words: &[u64], last: Option<Answer>, left: &[Left]) -> Result<(), Fail> {
    let rest = Rest {
        cpu: &cpu,
        words,
        last,
    };
    let missed = left.iter().find(|fact| !holds(&rest, fact));
    if !gives_lists(cpu) {
        return Err("the lists that are given up".into());
    }
    match missed {
        Some(fact) => Err(Fail::new(format_args!("this doesn't hold: {fact:?}"))),
        None => Ok(()),
    }
}

fn over_fed(
    alloc: Global,
    cpu: Cpu,
    program: &Program,
    run: &Run,
    answers: &[u64],
    left: &[Left],
) -> Result<(), Fail>
    requires fits { Fits program.now cpu }
    requires number { cpu.number ≡ 0 }
    requires limits { cpu.limits ≡ LIMITS }
    requires idle { phase_at cpu.seen cpu.first ≡ Phase.Idle }
    requires answered { cpu.owes ≡ false }
{
    let mut cpu = cpu;
    let mut port = new_fed(alloc, LIMITS, answers)?;
    let last = made(&mut cpu, &mut port, program, run);
    judged(cpu, &[], last, left)
}

fn over_plain(
    cpu: Cpu,
    fabric: PlainFabric,
    program: &Program,
    run: &Run,
    left: &[Left],
) -> Result<(), Fail>
    requires fits { Fits program.now cpu }
    requires number { cpu.number ≡ 0 }
    requires limits { cpu.limits ≡ LIMITS }
    requires idle { phase_at cpu.seen cpu.first ≡ Phase.Idle }
    requires answered { cpu.owes ≡ false }
    requires same { fabric.limits ≡ LIMITS }
    requires free { get_or fabric.fabric.phases 0 Phase.Idle ≡ Phase.Idle }
{
    let mut cpu = cpu;
    let mut fabric = fabric;
    if let Way::Started = run.way {
        fabric.steward().post(VpIndex(0));
    }
    let mut port = fabric.port(VpIndex(0));
    let last = made(&mut cpu, &mut port, program, run);
    judged(cpu, fabric.words(), last, left)
}

fn over_port(
    alloc: Global,
    cpu: Cpu,
    program: &Program,
    run: &Run,
    left: &[Left],
) -> Result<(), Fail>
    requires fits { Fits program.now cpu }
    requires number { cpu.number ≡ 0 }
    requires limits { cpu.limits ≡ LIMITS }
    requires idle { phase_at cpu.seen cpu.first ≡ Phase.Idle }
    requires answered { cpu.owes ≡ false }
{
    match run.way {
        Way::Fed(answers) => over_fed(alloc, cpu, program, run, answers, left),
        Way::Memory(mask, word, given) => {
            let fabric = plain(alloc, mask, word, given)?;
            over_plain(cpu, fabric, program, run, left)
        }
        Way::Started => {
            let fabric = plain(alloc, Mask::all(), 0, [0, 0])?;
            over_plain(cpu, fabric, program, run, left)
        }
    }
}

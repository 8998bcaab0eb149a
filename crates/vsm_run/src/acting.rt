// One processor acts.
ghost use Rattle.std.specs.Prelude.{◌≡◌, ◌≢◌, ℕ, ◌+◌, ◌*◌, ◌≤◌, ◌<◌, [], ◌∷◌, ◌++◌, length, map, get_or, true, false, None, Some};
ghost use Rattle.vsm_core.specs.declared.request.Request.{Request};
ghost use Rattle.vsm_core.specs.Entries.{words_by_entries};
ghost use Rattle.vsm_core.specs.Hypercalls.{asked_of};
ghost use Rattle.vsm_core.specs.Processor.{asking, operation_at, origin_of, standing, start_rest};
ghost use Rattle.vsm_core.specs.Protection.{IsSlice, owed};
ghost use Rattle.vsm_core.specs.Served.{answer, block};
ghost use Rattle.cpu.specs.Turns.{asked_next, asks_by, phase_at, turn_of};
ghost use Rattle.vsm_report.specs.Acting.{attempt_lines, entry_line, mark_line};
ghost use Rattle.vsm_report.specs.Trace.{made_steps};
ghost use Rattle.vsm_run.specs.Asked.{HasAsked, MayServe};
ghost use Rattle.vsm_run.specs.Fits.{FitsOne};
ghost use Rattle.vsm_run.specs.Rests.{AllIdle, IsAtRest, IsInPlace};
ghost use Rattle.vsm_run.specs.Serving.{AddsFew, Agrees, HasRoomForOne, IsDone, IsFree, IsPacedBy, NoneBusy, with_served};
ghost use Rattle.vsm_run.specs.Starting.{StartsBy, fetches};
ghost use Rattle.vsm_run.specs.Wholes.{HasHeard, Leads};

use cpu::{Cpu, CpuTurn, Pace};
use fabric::PlainFabric;
use partition::{PartTurn, Partition};
use vsm_base::{Reserved, VpIndex};
use vsm_core::{Entry, Mark, PartCall, Phase, Program, Reply, Request};
use vsm_report::{Line, add_entry, add_mark};

// Lets a processor make one turn.
fn turn_at(fabric: &mut PlainFabric, cpu: &mut Cpu, program: &Program) -> Pace
    requires going { cpu.old.ended ≡ None }
    requires started { cpu.old.started ≡ true }
    requires answered { cpu.old.owes ≡ false }
    requires fits { FitsOne program.now cpu.old }
    requires limits { cpu.old.limits ≡ fabric.old.limits }
    requires phase { get_or fabric.old.fabric.phases cpu.old.number Phase.Idle ≡ phase_at cpu.old.seen cpu.old.first }
    requires heard { HasHeard cpu.old }
    ensures leads { Leads (turn_of result (asked_next cpu.new)) fabric.old.limits cpu.old.number (operation_at program.now cpu.old.state) cpu.old cpu.new fabric.old.fabric.words fabric.new.fabric.words }
    ensures owes { cpu.new.owes ≡ asks_by result }
    ensures limits { fabric.new.limits ≡ fabric.old.limits }
    ensures phase { get_or fabric.new.fabric.phases cpu.old.number Phase.Idle ≡ phase_at cpu.new.seen cpu.new.first }
    ensures others { (q : ℕ) → q ≢ cpu.old.number → get_or fabric.new.fabric.phases q Phase.Idle ≡ get_or fabric.old.fabric.phases q Phase.Idle }
    ensures first { cpu.new.first ≤ length cpu.new.seen }
    ensures few { length cpu.new.seen ≤ cpu.new.first + 38 }
    ensures agrees { Agrees fabric.old.limits fabric.old.fabric → Agrees fabric.old.limits fabric.new.fabric }
    ensures turns { fabric.new.fabric.turns ≡ fabric.old.fabric.turns }
    ensures cleared { fabric.new.fabric.cleared ≡ fabric.old.fabric.cleared }
{
    let vp = cpu.vp();
    let mut port = fabric.port(vp);
    let pace = cpu.step(&mut port, program);
    let _vp = cpu.vp();
    pace
}

// Lets the partition serve a request at once: it adds its entries one by one, each with its step on the words. No
// processor is in an access meanwhile, so that none is found busy.
fn serve(partition: &mut Partition, fabric: &mut PlainFabric, request: Request) -> Reply
    requires free { IsFree fabric.old.limits partition.old }
    requires paced { IsPacedBy partition.old fabric.old }
    requires by { request.by.0 < length partition.old.state.vps }
    requires slice { IsSlice request.call }
    requires room { length partition.old.journal.entries + length (block partition.old.state request) ≤ partition.old.journal.room }
    requires idle { NoneBusy fabric.old.limits fabric.old.fabric.words }
    ensures reply { result ≡ answer partition.old.state request }
    ensures done { result.done < 4096 }
    ensures served { partition.new ≡ with_served partition.old ((request, block partition.old.state request) ∷ []) }
    ensures limits { fabric.new.limits ≡ fabric.old.limits }
    ensures phases { fabric.new.fabric.phases ≡ fabric.old.fabric.phases }
    ensures words { fabric.new.fabric.words ≡ words_by_entries fabric.old.limits fabric.old.fabric.words (block partition.old.state request) }
    ensures idle { NoneBusy fabric.old.limits fabric.new.fabric.words }
    ensures paced { IsPacedBy partition.new fabric.new }
{
    partition.begin(request);
    'entries: loop {
        match partition.turn(&mut fabric.steward()) {
            PartTurn::Moved => {}
            PartTurn::Busy(_) => unreachable!(),
            PartTurn::Done(reply) => return reply,
        }
    }
}

// Lets the partition serve what a processor asks, and the processor take the reply: whether its attempt then goes on.
// It isn't part of an attempt's function, whose locals are cleared at each call.
#[inline(never)]
fn ask_at(fabric: &mut PlainFabric, partition: &mut Partition, cpu: &mut Cpu) -> bool
    requires owes { cpu.old.owes ≡ true }
    requires serves { (q : Request) → asked_next cpu.old ≡ Some q → IsSlice q.call → MayServe q fabric.old.limits partition.old fabric.old.fabric.words }
    requires paced { IsPacedBy partition.old fabric.old }
    ensures asked { HasAsked fabric.old.limits result cpu.old cpu.new partition.old partition.new fabric.old.fabric.words fabric.new.fabric.words }
    ensures limits { fabric.new.limits ≡ fabric.old.limits }
    ensures phases { fabric.new.fabric.phases ≡ fabric.old.fabric.phases }
    ensures phase { phase_at cpu.new.seen cpu.new.first ≡ phase_at cpu.old.seen cpu.old.first }
    ensures idle { NoneBusy fabric.old.limits fabric.new.fabric.words }
    ensures paced { IsPacedBy partition.new fabric.new }
{
    let request = cpu.wanted();
    let reply = serve(partition, fabric, request);
    match cpu.accept(reply) {
        CpuTurn::Moved => true,
        _ => false,
    }
}

// Lets a processor make its attempt to the end: its steps, and on with the reply to its request, if it has one. No other
// processor acts meanwhile.
fn attempt_at(fabric: &mut PlainFabric, partition: &mut Partition, cpu: &mut Cpu, program: &Program)
    requires going { cpu.old.ended ≡ None }
    requires started { cpu.old.started ≡ true }
    requires place { IsInPlace fabric.old.limits cpu.old.number cpu.old }
    requires fits { FitsOne program.now cpu.old }
    requires idle { AllIdle fabric.old.fabric.phases }
    requires free { IsFree fabric.old.limits partition.old }
    requires paced { IsPacedBy partition.old fabric.old }
    requires agrees { Agrees fabric.old.limits fabric.old.fabric }
    requires room { HasRoomForOne partition.old }
    ensures done { IsDone (made_steps program.now cpu.old partition.old.state fabric.old.fabric.words) cpu.new fabric.new.fabric.words partition.old partition.new }
    ensures few { AddsFew (length partition.old.state.vps + 11) (made_steps program.now cpu.old partition.old.state fabric.old.fabric.words) partition.old partition.new }
    ensures limits { fabric.new.limits ≡ fabric.old.limits }
    ensures rests { IsAtRest cpu.new }
    ensures unheard { cpu.new.heard ≡ None }
    ensures idle { AllIdle fabric.new.fabric.phases }
    ensures agrees { Agrees fabric.old.limits fabric.new.fabric }
    ensures paced { IsPacedBy partition.new fabric.new }
{
    'turns: loop {
        match turn_at(fabric, cpu, program) {
            Pace::Moved => {}
            Pace::Wants => {
                let goes_on = ask_at(fabric, partition, cpu);
                if !goes_on {
                    return;
                }
            }
            _ => return,
        }
    }
}

// Lets a processor that hasn't started take from its start word. Where that was 0 nothing changes.
fn take_at(fabric: &mut PlainFabric, cpu: &mut Cpu, program: &Program) -> CpuTurn
    requires going { cpu.old.ended ≡ None }
    requires waits { cpu.old.started ≡ false }
    requires place { IsInPlace fabric.old.limits cpu.old.number cpu.old }
    requires fits { FitsOne program.now cpu.old }
    requires idle { AllIdle fabric.old.fabric.phases }
    ensures takes { StartsBy result fabric.old.limits cpu.old cpu.new fabric.old.fabric.words fabric.new.fabric.words }
    ensures limits { fabric.new.limits ≡ fabric.old.limits }
    ensures phases { fabric.new.fabric.phases ≡ fabric.old.fabric.phases }
    ensures turns { fabric.new.fabric.turns ≡ fabric.old.fabric.turns }
    ensures cleared { fabric.new.fabric.cleared ≡ fabric.old.fabric.cleared }
    ensures agrees { Agrees fabric.old.limits fabric.old.fabric → Agrees fabric.old.limits fabric.new.fabric }
{
    let vp = cpu.vp();
    let mut port = fabric.port(vp);
    let turn = cpu.turn(&mut port, program);
    let _vp = cpu.vp();
    turn
}

// Lets a processor that has taken a start from its start word ask for its contexts, by which no word changes.
fn fetch_at(fabric: &mut PlainFabric, cpu: &mut Cpu, program: &Program) -> Request
    requires going { cpu.old.ended ≡ None }
    requires waits { cpu.old.started ≡ false }
    requires answered { cpu.old.owes ≡ false }
    requires fits { FitsOne program.now cpu.old }
    requires limits { cpu.old.limits ≡ fabric.old.limits }
    requires phase { get_or fabric.old.fabric.phases cpu.old.number Phase.Idle ≡ phase_at cpu.old.seen cpu.old.first }
    requires taken { start_rest cpu.old ≡ fetches (origin_of cpu.old) }
    ensures request { result ≡ asked_of (origin_of cpu.old) PartCall.Fetch }
    ensures asks { cpu.new ≡ asking None cpu.old }
    ensures stays { fabric.new ≡ fabric.old }
{
    let vp = cpu.vp();
    let mut port = fabric.port(vp);
    let CpuTurn::Wants(request) = cpu.turn(&mut port, program) else {
        unreachable!()
    };
    request
}

// Lets a processor that hasn't started take from its start word, and where that was posted to it fetches its contexts and
// starts with them. No other processor acts meanwhile.
// It isn't part of an attempt's function, whose locals are cleared at each call.
#[inline(never)]
fn start_at(fabric: &mut PlainFabric, partition: &mut Partition, cpu: &mut Cpu, program: &Program)
    requires going { cpu.old.ended ≡ None }
    requires waits { cpu.old.started ≡ false }
    requires place { IsInPlace fabric.old.limits cpu.old.number cpu.old }
    requires fits { FitsOne program.now cpu.old }
    requires idle { AllIdle fabric.old.fabric.phases }
    requires free { IsFree fabric.old.limits partition.old }
    requires paced { IsPacedBy partition.old fabric.old }
    requires agrees { Agrees fabric.old.limits fabric.old.fabric }
    requires room { HasRoomForOne partition.old }
    ensures done { IsDone (made_steps program.now cpu.old partition.old.state fabric.old.fabric.words) cpu.new fabric.new.fabric.words partition.old partition.new }
    ensures few { AddsFew (length partition.old.state.vps + 11) (made_steps program.now cpu.old partition.old.state fabric.old.fabric.words) partition.old partition.new }
    ensures limits { fabric.new.limits ≡ fabric.old.limits }
    ensures rests { IsAtRest cpu.new }
    ensures unheard { cpu.new.heard ≡ None }
    ensures idle { AllIdle fabric.new.fabric.phases }
    ensures agrees { Agrees fabric.old.limits fabric.new.fabric }
    ensures paced { IsPacedBy partition.new fabric.new }
{
    let CpuTurn::Moved = take_at(fabric, cpu, program) else {
        return;
    };
    let request = fetch_at(fabric, cpu, program);
    let reply = serve(partition, fabric, request);
    let _turn = cpu.accept(reply);
}

// Lets a processor make its attempt, or its start where it hasn't started, to the end.
fn make_at(fabric: &mut PlainFabric, partition: &mut Partition, cpu: &mut Cpu, program: &Program)
    requires going { cpu.old.ended ≡ None }
    requires place { IsInPlace fabric.old.limits cpu.old.number cpu.old }
    requires fits { FitsOne program.now cpu.old }
    requires idle { AllIdle fabric.old.fabric.phases }
    requires free { IsFree fabric.old.limits partition.old }
    requires paced { IsPacedBy partition.old fabric.old }
    requires agrees { Agrees fabric.old.limits fabric.old.fabric }
    requires room { HasRoomForOne partition.old }
    ensures done { IsDone (made_steps program.now cpu.old partition.old.state fabric.old.fabric.words) cpu.new fabric.new.fabric.words partition.old partition.new }
    ensures few { AddsFew (length partition.old.state.vps + 11) (made_steps program.now cpu.old partition.old.state fabric.old.fabric.words) partition.old partition.new }
    ensures limits { fabric.new.limits ≡ fabric.old.limits }
    ensures rests { IsAtRest cpu.new }
    ensures unheard { cpu.new.heard ≡ None }
    ensures idle { AllIdle fabric.new.fabric.phases }
    ensures agrees { Agrees fabric.old.limits fabric.new.fabric }
    ensures paced { IsPacedBy partition.new fabric.new }
{
    if cpu.started() {
        attempt_at(fabric, partition, cpu, program);
    } else {
        start_at(fabric, partition, cpu, program);
    }
}

// Adds the lines of entries, in room that was taken before.
fn add_entries(lines: &mut Reserved<Line>, entries: &[Entry])
    requires { length lines.old.0 + length entries.now ≤ lines.old.1 }
    ensures { lines.new ≡ (lines.old.0 ++ map entry_line entries.now, lines.old.1) }
{
    for entry in entries {
        add_entry(lines, entry, &[], &[]);
    }
}

// Adds the lines of marks, in room that was taken before.
fn add_marks(lines: &mut Reserved<Line>, vp: VpIndex, marks: &[Mark])
    requires { length lines.old.0 + length marks.now ≤ lines.old.1 }
    ensures { lines.new ≡ (lines.old.0 ++ map (mark_line vp.0) marks.now, lines.old.1) }
{
    for mark in marks {
        add_mark(lines, vp, mark, &[], &[]);
    }
}

/// Lets a processor that has not ended act: it makes a whole attempt, or starts if that was posted to it, and the lines of
/// the entries and of the mark that this leaves are added.
pub fn act_at(
    fabric: &mut PlainFabric,
    partition: &mut Partition,
    cpu: &mut Cpu,
    program: &Program,
    lines: &mut Reserved<Line>,
)
    requires going { cpu.old.ended ≡ None }
    requires place { IsInPlace fabric.old.limits cpu.old.number cpu.old }
    requires fits { FitsOne program.now cpu.old }
    requires idle { AllIdle fabric.old.fabric.phases }
    requires free { IsFree fabric.old.limits partition.old }
    requires paced { IsPacedBy partition.old fabric.old }
    requires agrees { Agrees fabric.old.limits fabric.old.fabric }
    requires entries { HasRoomForOne partition.old }
    requires room { length lines.old.0 + (length partition.old.state.vps + 12) + owed partition.old.state ≤ lines.old.1 }
    ensures done { IsDone (made_steps program.now cpu.old partition.old.state fabric.old.fabric.words) cpu.new fabric.new.fabric.words partition.old partition.new }
    ensures lines { lines.new ≡ (lines.old.0 ++ attempt_lines cpu.old.number (made_steps program.now cpu.old partition.old.state fabric.old.fabric.words).served cpu.old cpu.new, lines.old.1) }
    ensures grows { length lines.new.0 + owed partition.new.state ≤ length lines.old.0 + owed partition.old.state + (length partition.old.state.vps + 12) }
    ensures spends { length partition.new.journal.entries + owed partition.new.state + (length partition.old.state.vps + 11) * length (standing cpu.old) ≤ length partition.old.journal.entries + owed partition.old.state + (length partition.old.state.vps + 11) * length (standing cpu.new) }
    ensures marks { length (standing cpu.new) ≤ length (standing cpu.old) + 1 }
    ensures limits { fabric.new.limits ≡ fabric.old.limits }
    ensures place { IsInPlace fabric.old.limits cpu.old.number cpu.new }
    ensures fits { FitsOne program.now cpu.new }
    ensures idle { AllIdle fabric.new.fabric.phases }
    ensures agrees { Agrees fabric.old.limits fabric.new.fabric }
    ensures paced { IsPacedBy partition.new fabric.new }
    ensures free { IsFree fabric.old.limits partition.new }
{
    let vp = cpu.vp();
    let stood = cpu.standing();
    let before = partition.journal().entries().len();
    make_at(fabric, partition, cpu, program);
    add_entries(lines, &partition.journal().entries()[before..]);
    add_marks(lines, vp, &cpu.marks()[stood..]);
}

// Texts of reports that were made by hand.
use crate::text_buffer::TextBuffer;
use crate::{Line, Report, StepWord, write};
use guest_script::Script;
use std::alloc::{AllocError, Global};
use std::test::Fail;
use vsm_base::{Access, Gva, HvStatus, Items, Limits, Mask, MemSink, Name, Page, VpIndex, Vtl};
use vsm_core::{
    Denial, Ending, Entry, EomWord, Grant, GuestFault, Mark, Op, Operand, Posted, Program, What,
};

const ACCESSES: &[u8] = b"vsm-report 1 trace\n\
0.0 0 load ok page 1 mask 15 gen 2 value 0x00000000000000ab\n\
0.1 0 store ok page 1 mask - gen 2 value 0x00000000000000ab\n\
0.0 2 exec ok page 1 mask 15 gen 2\n\
0.0 3 spin ok page 1 mask 15 gen 2 value 0x00000000000000ab\n\
0.0 3 spin again page 1 mask 15 gen 2 value 0x00000000000000ab\n\
0.0 1 store denied page 1 mask 1 gen 2 access write slot\n\
0.0 0 load fault align\n\
0.0 4 set Cr8 fault gp\n\
0.0 9 start ok\n\
close\n";

const REGISTERS: &[u8] = b"vsm-report 1 trace\n\
0.0 4 set Cr8 ok\n\
0.0 4 set Cr8 intercept held\n\
0.0 5 get Cs 0x0000000000000000000000000000abcd\n\
0.0 6 get Rax 0x000000000000abcd\n\
0.0 6 get Rax intercept waiting\n\
0.0 12 ack Rbx 0x000000000000abcd\n\
0.0 7 jump ok\n\
0.0 8 hypercall part 3\n\
0.0 8 hypercall done 0x0000000000000006\n\
0.0 9 vtlcall ok\n\
0.0 9 vtlcall fault undefined\n\
0.1 1 vtlreturn ok\n\
0.1 1 vtlreturn fault undefined\n\
0.0 10 poll ok\n\
0.0 10 poll enter\n\
0.0 11 eoi ok\n\
0.0 13 eom none\n\
0.0 13 eom slot\n\
0.0 13 eom waiting\n\
0.0 0 load\n\
close\n";

const REST: &[u8] = b"vsm-report 1 trace\n\
j enable 0\n\
j level 0 1\n\
j config 0 0x0000000000000001\n\
j start 0 1 1\n\
j fetch 1\n\
j look 0\n\
j refuse 0 0x0050\n\
j ask 4 13\n\
j turn 2 1\n\
j clear 1\n\
j report 2\n\
end 0 done\n\
end 1 budget\n\
end 2 spun\n\
end 3 held\n\
end 4 fault align\n\
end 5 unstarted\n\
end 6 cut\n\
mask 0 13\n\
word 0:2 0x0123456789abcdef\n\
word 1:3 0x0000000000000000\n\
close\n";

const EIGHT: &[u8] = b"vsm-report 1 trace\n\
4.0 0 spin again page 0 mask 15 gen 0 value 0x0000000000000000\n\
7.0 0 spin ok page 0 mask 15 gen 0 value 0x0000000000000001\n\
0.0 0 store denied page 1 mask 1 gen 0 access write held\n\
1.0 0 load fault align\n\
2.0 0 jump ok\n\
3.0 0 exec ok page 0 mask 15 gen 0\n\
4.0 0 spin again page 0 mask 15 gen 0 value 0x0000000000000000\n\
5.0 0 exec fault page\n\
6.0 0 spin fault noncanonical\n\
end 0 held\n\
end 1 fault align\n\
end 2 done\n\
end 3 budget\n\
end 4 spun\n\
end 5 fault page\n\
end 6 fault noncanonical\n\
end 7 cut\n\
mask 1 1\n\
word 0:0 0x0000000000000001\n\
word 0:1 0x0000000000000000\n\
word 1:3 0x0000000000000000\n\
close\n";

// Two pages, the second of mask 3; the words 0:1 and 1:3 are given.
fn script(alloc: Global, vps: u8, programs: Items<Program>) -> Result<Script, AllocError> {
    let mut masks = Items::new(alloc);
    masks.push((Page(1), Mask::of(3).unwrap()))?;
    let mut words = Items::new(alloc);
    words.push((Page(0), 1, 7))?;
    words.push((Page(1), 3, 9))?;
    Ok(Script {
        limits: Limits {
            vps,
            pages: 2,
            budget: 10,
        },
        started: vps,
        masks,
        words,
        programs,
        schedule: Items::new(alloc),
    })
}

fn program(alloc: Global) -> Result<Program, AllocError> {
    let zero = vec![in alloc;
        Op::Load(Name::Rax, Gva(4096)),
        Op::Store(Gva(4104), Operand::Number(5)),
        Op::Exec(Gva(4096)),
        Op::Spin(Gva(4096), 1),
        Op::Set(Name::Cr8, 16),
        Op::Get(Name::Cs),
        Op::Get(Name::Rax),
        Op::Jump(3),
        Op::Hypercall,
        Op::VtlCall,
        Op::Poll,
        Op::Eoi,
        Op::Ack(Name::Rbx),
        Op::Eom,
    ]?;
    let one = vec![in alloc; Op::Store(Gva(4096), Operand::Number(5)), Op::VtlReturn]?;
    Ok(Program {
        zero: Items::from_vec(zero),
        one: Items::from_vec(one),
    })
}

fn one_program(alloc: Global) -> Result<Items<Program>, AllocError> {
    let mut programs = Items::new(alloc);
    programs.push(program(alloc)?)?;
    Ok(programs)
}

// A program of level 0 alone, of this operation alone.
fn add_program(alloc: Global, programs: &mut Items<Program>, op: Op) -> Result<(), AllocError> {
    let zero = Items::from_vec(vec![in alloc; op]?);
    let one = Items::new(alloc);
    programs.push(Program { zero, one })
}

fn eight_programs(alloc: Global) -> Result<Items<Program>, AllocError> {
    let mut programs = Items::new(alloc);
    add_program(
        alloc,
        &mut programs,
        Op::Store(Gva(4096), Operand::Number(5)),
    )?;
    add_program(alloc, &mut programs, Op::Load(Name::Rax, Gva(1)))?;
    add_program(alloc, &mut programs, Op::Jump(1))?;
    add_program(alloc, &mut programs, Op::Exec(Gva(0)))?;
    add_program(alloc, &mut programs, Op::Spin(Gva(8), 1))?;
    add_program(alloc, &mut programs, Op::Exec(Gva(0)))?;
    add_program(alloc, &mut programs, Op::Spin(Gva(1 << 63), 1))?;
    add_program(alloc, &mut programs, Op::Spin(Gva(0), 1))?;
    Ok(programs)
}

fn report(
    alloc: Global,
    lines: Items<Line>,
    ends: Items<Ending>,
    masks: Items<Mask>,
    words: Vec<u64>,
) -> Report {
    Report {
        threads: false,
        lines,
        journal: Items::new(alloc),
        tracks: Items::new(alloc),
        ends,
        masks,
        words: Items::from_vec(words),
    }
}

fn text_of(alloc: Global, script: &Script, report: &Report) -> Result<Vec<u8>, AllocError> {
    let mut sink = MemSink::new(vec![in alloc; 0; 2048]?, Vec::new(alloc), 4096);
    let _ = write(report, script, &mut sink);
    sink.taken().to_vec(alloc)
}

fn text(alloc: Global, report: &Report) -> Result<Vec<u8>, AllocError> {
    let script = script(alloc, 1, one_program(alloc)?)?;
    text_of(alloc, &script, report)
}

fn put<T: Drop>(items: &mut Items<T>, item: T) -> Result<(), AllocError> {
    items.push(item)
}

// One line more. The last arguments name the types that a line holds, for the check.
fn push(
    lines: &mut Items<Line>,
    line: &Line,
    _step: &[StepWord],
    _entry: &[Entry],
    _mark: &[Mark],
) -> Result<(), AllocError> {
    put(lines, *line)
}

// One mark of a processor more.
fn add_of(
    lines: &mut Items<Line>,
    vp: u8,
    level: Vtl,
    rip: u64,
    what: &What,
) -> Result<(), AllocError> {
    let mark = Mark {
        level,
        rip,
        what: *what,
        first: 0,
        count: 0,
    };
    let line = Line::Mark(VpIndex(vp), mark);
    push(lines, &line, &[], &[], &[])
}

// One mark of the first processor more.
fn add(lines: &mut Items<Line>, level: Vtl, rip: u64, what: &What) -> Result<(), AllocError> {
    add_of(lines, 0, level, rip, what)
}

fn grant(mask: Option<Mask>) -> Grant {
    Grant {
        page: Page(1),
        mask,
        generation: 2,
        value: 0xab,
        hit: false,
    }
}

fn add_accesses(lines: &mut Items<Line>) -> Result<(), AllocError> {
    let allowed = What::Granted(grant(Some(Mask::all())));
    add(lines, Vtl::Zero, 0, &allowed)?;
    add(lines, Vtl::One, 0, &What::Granted(grant(None)))?;
    add(lines, Vtl::Zero, 2, &allowed)?;
    add(lines, Vtl::Zero, 3, &allowed)?;
    add(lines, Vtl::Zero, 3, &What::Again(grant(Some(Mask::all()))))
}

// The last stands where there is no operation.
fn add_failures(lines: &mut Items<Line>) -> Result<(), AllocError> {
    let denied = What::Denied(Denial {
        page: Page(1),
        mask: Mask::of(1).unwrap(),
        generation: 2,
        access: Access::Write,
        posted: Posted::Slot,
    });
    add(lines, Vtl::Zero, 1, &denied)?;
    add(lines, Vtl::Zero, 0, &What::Fault(GuestFault::Align))?;
    add(lines, Vtl::Zero, 4, &What::Fault(GuestFault::Gp))?;
    add(lines, Vtl::Zero, 9, &What::Started)?;
    add(lines, Vtl::One, 2, &What::Plain)
}

fn add_registers(lines: &mut Items<Line>) -> Result<(), AllocError> {
    add(lines, Vtl::Zero, 4, &What::Plain)?;
    add(lines, Vtl::Zero, 4, &What::Hit(Posted::Held))?;
    add(lines, Vtl::Zero, 5, &What::Value(0xabcd))?;
    add(lines, Vtl::Zero, 6, &What::Value(0xabcd))?;
    add(lines, Vtl::Zero, 6, &What::Hit(Posted::Waiting))?;
    add(lines, Vtl::Zero, 12, &What::Value(0xabcd))
}

// The last is a pair that has no text of its own.
fn add_others(lines: &mut Items<Line>) -> Result<(), AllocError> {
    add(lines, Vtl::Zero, 7, &What::Plain)?;
    add(lines, Vtl::Zero, 8, &What::Part(3))?;
    add(lines, Vtl::Zero, 8, &What::Reply(6))?;
    add(lines, Vtl::Zero, 9, &What::Plain)?;
    add(lines, Vtl::Zero, 9, &What::Fault(GuestFault::Undefined))?;
    add(lines, Vtl::One, 1, &What::Plain)?;
    add(lines, Vtl::One, 1, &What::Fault(GuestFault::Undefined))?;
    add(lines, Vtl::Zero, 10, &What::Plain)?;
    add(lines, Vtl::Zero, 10, &What::Entered)?;
    add(lines, Vtl::Zero, 11, &What::Plain)?;
    add(lines, Vtl::Zero, 13, &What::Eom(EomWord::Nothing))?;
    add(lines, Vtl::Zero, 13, &What::Eom(EomWord::Slot))?;
    add(lines, Vtl::Zero, 13, &What::Eom(EomWord::Waiting))?;
    add(lines, Vtl::Zero, 0, &What::Plain)
}

fn add_entry(lines: &mut Items<Line>, entry: &Entry) -> Result<(), AllocError> {
    let line = Line::Entry(*entry);
    push(lines, &line, &[], &[], &[])
}

fn add_entries(lines: &mut Items<Line>, by: VpIndex, vp: VpIndex) -> Result<(), AllocError> {
    add_entry(lines, &Entry::Enable { by })?;
    add_entry(lines, &Entry::Level { by, vp })?;
    add_entry(lines, &Entry::Config { by, value: 1 })?;
    let level = Vtl::One;
    add_entry(lines, &Entry::Start { by, vp, level })?;
    add_entry(lines, &Entry::Fetch { vp })?;
    add_entry(lines, &Entry::Look { by })
}

fn add_round(lines: &mut Items<Line>, by: VpIndex, vp: VpIndex) -> Result<(), AllocError> {
    let status = HvStatus::INVALID_REGISTER_VALUE;
    add_entry(lines, &Entry::Refuse { by, status })?;
    let mask = Mask::of(13).unwrap();
    let page = Page(4);
    add_entry(lines, &Entry::Ask { page, mask })?;
    add_entry(lines, &Entry::Turn { round: 2, by: vp })?;
    add_entry(lines, &Entry::Clear { vp })?;
    add_entry(lines, &Entry::Report { round: 2 })
}

fn each_ending(alloc: Global) -> Result<Items<Ending>, AllocError> {
    let mut ends = Items::new(alloc);
    ends.push(Ending::Done)?;
    ends.push(Ending::Budget)?;
    ends.push(Ending::Spun)?;
    ends.push(Ending::Held)?;
    ends.push(Ending::Fault(GuestFault::Align))?;
    ends.push(Ending::Unstarted)?;
    ends.push(Ending::Cut)?;
    Ok(ends)
}

// The mark of a processor's first operation.
fn add_first(lines: &mut Items<Line>, vp: u8, what: &What) -> Result<(), AllocError> {
    add_of(lines, vp, Vtl::Zero, 0, what)
}

fn found(value: u64) -> Grant {
    Grant {
        page: Page(0),
        mask: Some(Mask::all()),
        generation: 0,
        value,
        hit: false,
    }
}

fn add_eight(lines: &mut Items<Line>) -> Result<(), AllocError> {
    let denied = What::Denied(Denial {
        page: Page(1),
        mask: Mask::of(1).unwrap(),
        generation: 0,
        access: Access::Write,
        posted: Posted::Held,
    });
    add_first(lines, 4, &What::Again(found(0)))?;
    add_first(lines, 7, &What::Granted(found(1)))?;
    add_first(lines, 0, &denied)?;
    add_first(lines, 1, &What::Fault(GuestFault::Align))?;
    add_first(lines, 2, &What::Plain)?;
    add_first(lines, 3, &What::Granted(found(7)))?;
    add_first(lines, 4, &What::Again(found(0)))?;
    add_first(lines, 5, &What::Fault(GuestFault::Page))?;
    add_first(lines, 6, &What::Fault(GuestFault::Noncanonical))
}

fn eight_endings(alloc: Global) -> Result<Items<Ending>, AllocError> {
    let mut ends = Items::new(alloc);
    ends.push(Ending::Held)?;
    ends.push(Ending::Fault(GuestFault::Align))?;
    ends.push(Ending::Done)?;
    ends.push(Ending::Budget)?;
    ends.push(Ending::Spun)?;
    ends.push(Ending::Fault(GuestFault::Page))?;
    ends.push(Ending::Fault(GuestFault::Noncanonical))?;
    ends.push(Ending::Cut)?;
    Ok(ends)
}

fn only_lines(alloc: Global, lines: Items<Line>) -> Report {
    report(
        alloc,
        lines,
        Items::new(alloc),
        Items::new(alloc),
        Vec::new(alloc),
    )
}

#[test]
fn writes_each_access(rt: HostRuntime) -> Result<(), Fail> {
    let alloc = rt.alloc();
    let mut lines = Items::new(alloc);
    add_accesses(&mut lines)?;
    add_failures(&mut lines)?;
    let text = text(alloc, &only_lines(alloc, lines))?;
    assert_eq!(rt; text.as_slice(), ACCESSES);
    Ok(())
}

#[test]
fn writes_each_other_outcome(rt: HostRuntime) -> Result<(), Fail> {
    let alloc = rt.alloc();
    let mut lines = Items::new(alloc);
    add_registers(&mut lines)?;
    add_others(&mut lines)?;
    let text = text(alloc, &only_lines(alloc, lines))?;
    assert_eq!(rt; text.as_slice(), REGISTERS);
    Ok(())
}

#[test]
fn writes_the_journal_and_what_stands_at_the_end(rt: HostRuntime) -> Result<(), Fail> {
    let alloc = rt.alloc();
    let mut lines = Items::new(alloc);
    let step = Line::Step(VpIndex(0), StepWord::Enter);
    push(&mut lines, &step, &[], &[], &[])?;
    add_entries(&mut lines, VpIndex(0), VpIndex(1))?;
    add_round(&mut lines, VpIndex(0), VpIndex(1))?;
    let mut masks = Items::new(alloc);
    masks.push(Mask::of(13).unwrap())?;
    masks.push(Mask::of(3).unwrap())?;
    let mut words = vec![in alloc; 0; 1024]?;
    words[1] = 7;
    words[2] = 0x0123_4567_89ab_cdef;
    let report = report(alloc, lines, each_ending(alloc)?, masks, words);
    let text = text(alloc, &report)?;
    assert_eq!(rt; text.as_slice(), REST);
    Ok(())
}

#[test]
fn writes_what_eight_processors_leave(rt: HostRuntime) -> Result<(), Fail> {
    let alloc = rt.alloc();
    let script = script(alloc, 8, eight_programs(alloc)?)?;
    let mut lines = Items::new(alloc);
    add_eight(&mut lines)?;
    let mut masks = Items::new(alloc);
    masks.push(Mask::all())?;
    masks.push(Mask::of(1).unwrap())?;
    let mut words = vec![in alloc; 0; 1024]?;
    words[0] = 1;
    let report = report(alloc, lines, eight_endings(alloc)?, masks, words);
    let text = text_of(alloc, &script, &report)?;
    assert_eq!(rt; text.as_slice(), EIGHT);
    Ok(())
}

// 600 lines of 28 to 30 bytes: two writes, of which the first takes 16,384 bytes.
#[test]
fn writes_when_the_buffer_is_full_and_at_the_end(rt: HostRuntime) -> Result<(), Fail> {
    let alloc = rt.alloc();
    let script = script(alloc, 1, one_program(alloc)?)?;
    let words = vec![in alloc; 1; 600]?;
    let report = report(
        alloc,
        Items::new(alloc),
        Items::new(alloc),
        Items::new(alloc),
        words,
    );
    let mut sink = MemSink::new(vec![in alloc; 0; 20000]?, vec![in alloc; 3]?, 16384);
    let put = write(&report, &script, &mut sink);
    assert!(rt; put.is_ok());
    assert_eq!(rt; sink.taken().len(), 19 + 20 * 28 + 168 * 29 + 412 * 30 + 6);
    Ok(())
}

#[test]
fn a_buffer_reaches_its_sink_in_two_calls(rt: HostRuntime) -> Result<(), Fail> {
    let alloc = rt.alloc();
    let mut text = vec![in alloc; b'a'; 17000]?;
    text.resize(18000, b'b')?;
    let mut sink = MemSink::new(vec![in alloc; 0; 20000]?, vec![in alloc; 3]?, 16384);
    let mut buffer = TextBuffer::new();
    assert!(rt; buffer.put(&mut sink, &text).is_ok());
    assert_eq!(rt; sink.taken().len(), 16384);
    assert!(rt; buffer.flush(&mut sink).is_ok());
    assert_eq!(rt; sink.taken(), text.as_slice());
    assert!(rt; buffer.put(&mut sink, b"c").is_ok());
    assert!(rt; buffer.flush(&mut sink).is_err());
    assert!(rt; buffer.flush(&mut sink).is_ok());
    assert_eq!(rt; sink.taken().len(), 18001);
    Ok(())
}

// Runs of scripts that are given as text.
use super::trace;
use guest_script::read;
use std::alloc::Global;
use std::test::Fail;
use vsm_base::{Access, HvStatus, Mask, Page, VpIndex, Vtl};
use vsm_core::{Denial, Ending, Entry, Event, Grant, Mark, Posted, What};
use vsm_report::{Line, Report};

// Processor 1 waits for the word that processor 0 writes, and reads the one behind it.
const HANDED_OVER: &[u8] = b"vsm 1\nvps 2\npages 2\nbudget 10\nstarted 2\nword 1 1 7\n\
program 0 0\nstore 0x1000 5\nprogram 1 0\nspin 0x1000 5\nload Rax 0x1008\n\
schedule 1 0*3\nschedule 1*4 0\nend\n";

// Processor 1 waits in vain, and processor 0 may not write.
const IN_VAIN: &[u8] = b"vsm 1\nvps 2\npages 2\nbudget 10\nstarted 2\nmask 1 1\n\
program 1 0\nspin 0x1000 5\nprogram 0 0\nstore 0x1000 5\n\
schedule 1*2 0*2 1\nend\n";

// Processor 0 enables level 1 for its partition by a fast call, and then once more.
const ENABLES_TWICE: &[u8] = b"vsm 1\nvps 1\npages 1\nbudget 10\nstarted 1\n\
program 0 0\nset Rcx 0x1000d\nset Rdx 0xffffffffffffffff\nset R8 1\nhypercall\nhypercall\n\
schedule 0*5\nend\n";

// Processor 0 flushes what all processors have cached, and processor 1 reads a word after it.
const FLUSHES: &[u8] = b"vsm 1\nvps 2\npages 2\nbudget 10\nstarted 2\n\
program 0 0\nset Rcx 2\nset Rdx 0x1000\nhypercall\nprogram 1 0\nload Rax 0x1000\n\
schedule 0*3 1\nend\n";

// Level 1 turns protection on for all pages, and then protects page 2.
const PROTECTS: &[u8] = b"vsm 1\nvps 1\npages 4\nbudget 20\nstarted 1\n\
word 1 0 0xffffffffffffffff\nword 1 1 0x1fffffffe\n\
word 2 0 0xffffffffffffffff\nword 2 1 0xfffffffe\nword 2 2 0xd0007\nword 2 4 0x1f\n\
word 3 0 0xffffffffffffffff\nword 3 1 0x1000000001\nword 3 2 2\n\
program 0 0\nset Rcx 0x1000d\nset Rdx 0xffffffffffffffff\nset R8 1\nhypercall\n\
set Rcx 0xf\nset Rdx 0x1000\nhypercall\nset Rcx 0\nvtlcall\n\
program 0 1\nset Rcx 0x100000051\nset Rdx 0x2000\nhypercall\n\
set Rcx 0x10000000c\nset Rdx 0x3000\nhypercall\n\
schedule 0*15\nend\n";

// Processor 0 starts processor 1, which is entered before and after that.
const STARTS: &[u8] = b"vsm 1\nvps 2\npages 2\nbudget 10\nstarted 1\n\
word 1 0 0xffffffffffffffff\nword 1 1 1\n\
program 0 0\nset Rcx 0x99\nset Rdx 0x1000\nhypercall\nprogram 1 0\nset Rax 5\n\
schedule 1 0*3 1*3\nend\n";

// Nobody starts processor 1.
const NEVER_STARTS: &[u8] = b"vsm 1\nvps 2\npages 1\nbudget 10\nstarted 1\n\
program 0 0\nset Rax 5\nprogram 1 0\nset Rax 5\n\
schedule 1 0 1\nend\n";

fn run(alloc: Global, script: &[u8]) -> Result<Report, Fail> {
    let script = read(alloc, script).or(Err("no script"))?;
    let report = trace(alloc, &script).or(Err("no memory"))?;
    Ok(report)
}

fn mark(rip: u64, what: What, first: u32, count: u32) -> Mark {
    Mark {
        level: Vtl::Zero,
        rip,
        what,
        first,
        count,
    }
}

fn grant(mask: Mask, value: u64) -> Grant {
    Grant {
        page: Page(1),
        mask: Some(mask),
        generation: 0,
        value,
        hit: false,
    }
}

// The mark of an access to the first word, of a spin that read 0 there, and of an access to the second word.
fn five() -> Mark {
    mark(0, What::Granted(grant(Mask::all(), 5)), 0, 5)
}

fn again(mask: Mask) -> Mark {
    mark(0, What::Again(grant(mask, 0)), 0, 5)
}

fn seven() -> Mark {
    mark(1, What::Granted(grant(Mask::all(), 7)), 5, 5)
}

fn denied(mask: Mask) -> Mark {
    let denial = Denial {
        page: Page(1),
        mask,
        generation: 0,
        access: Access::Write,
        posted: Posted::Held,
    };
    mark(0, What::Denied(denial), 0, 4)
}

#[test]
fn a_spin_ends_once_another_processor_has_written(rt: HostRuntime) -> Result<(), Fail> {
    let report = run(rt.alloc(), HANDED_OVER)?;
    let lines = [
        Line::Mark(VpIndex(1), again(Mask::all())),
        Line::Mark(VpIndex(0), five()),
        Line::Mark(VpIndex(1), five()),
        Line::Mark(VpIndex(1), seven()),
    ];
    assert_eq!(rt; report.lines.as_slice(), lines.as_slice());
    let ends = [Ending::Done, Ending::Done];
    assert_eq!(rt; report.ends.as_slice(), ends.as_slice());
    let masks = [Mask::all(), Mask::all()];
    assert_eq!(rt; report.masks.as_slice(), masks.as_slice());
    assert_eq!(rt; report.words.len(), 1024);
    let words = [0, 5, 7, 0];
    assert_eq!(rt; &report.words.as_slice()[511..515], words.as_slice());
    Ok(())
}

#[test]
fn nothing_of_a_spin_stays_that_was_tried_anew(rt: HostRuntime) -> Result<(), Fail> {
    let report = run(rt.alloc(), HANDED_OVER)?;
    assert_eq!(rt; report.tracks.len(), 2);
    let track = &report.tracks.as_slice()[1];
    let marks = [five(), seven()];
    assert_eq!(rt; track.marks.as_slice(), marks.as_slice());
    assert_eq!(rt; track.seen.len(), 10);
    let read = Event::Read {
        page: Page(1),
        index: 0,
        value: 5,
    };
    assert_eq!(rt; track.seen.as_slice()[3], read);
    Ok(())
}

#[test]
fn a_spin_in_vain_is_cut_and_each_of_its_lines_stays(rt: HostRuntime) -> Result<(), Fail> {
    let report = run(rt.alloc(), IN_VAIN)?;
    let mask = Mask::of(1).ok_or("mask")?;
    let lines = [
        Line::Mark(VpIndex(1), again(mask)),
        Line::Mark(VpIndex(1), again(mask)),
        Line::Mark(VpIndex(0), denied(mask)),
        Line::Mark(VpIndex(1), again(mask)),
    ];
    assert_eq!(rt; report.lines.as_slice(), lines.as_slice());
    let ends = [Ending::Held, Ending::Cut];
    assert_eq!(rt; report.ends.as_slice(), ends.as_slice());
    let masks = [Mask::all(), mask];
    assert_eq!(rt; report.masks.as_slice(), masks.as_slice());
    assert_eq!(rt; report.words.as_slice().get(512), Some(&0));
    Ok(())
}

#[test]
fn the_line_of_an_entry_comes_before_that_of_the_mark(rt: HostRuntime) -> Result<(), Fail> {
    let report = run(rt.alloc(), ENABLES_TWICE)?;
    let by = VpIndex(0);
    let status = HvStatus::VTL_ALREADY_ENABLED;
    let entries = [Entry::Enable { by }, Entry::Refuse { by, status }];
    assert_eq!(rt; report.journal.as_slice(), entries.as_slice());
    let lines = [
        Line::Entry(Entry::Enable { by }),
        Line::Mark(by, mark(3, What::Reply(0), 0, 0)),
        Line::Entry(Entry::Refuse { by, status }),
        Line::Mark(by, mark(4, What::Reply(0x86), 0, 0)),
    ];
    assert_eq!(rt; report.lines.len(), 7);
    assert_eq!(rt; &report.lines.as_slice()[3..], lines.as_slice());
    Ok(())
}

#[test]
fn a_round_clears_each_processor_before_its_report(rt: HostRuntime) -> Result<(), Fail> {
    let report = run(rt.alloc(), FLUSHES)?;
    let by = VpIndex(0);
    let seen = Grant {
        page: Page(1),
        mask: Some(Mask::all()),
        generation: 1,
        value: 0,
        hit: false,
    };
    let lines = [
        Line::Entry(Entry::Turn { round: 1, by }),
        Line::Entry(Entry::Clear { vp: VpIndex(0) }),
        Line::Entry(Entry::Clear { vp: VpIndex(1) }),
        Line::Entry(Entry::Report { round: 1 }),
        Line::Mark(by, mark(2, What::Reply(0), 0, 7)),
        Line::Mark(VpIndex(1), mark(0, What::Granted(seen), 0, 5)),
    ];
    assert_eq!(rt; report.lines.len(), 8);
    assert_eq!(rt; &report.lines.as_slice()[2..], lines.as_slice());
    Ok(())
}

fn ask(page: u32, mask: Mask) -> Entry {
    Entry::Ask {
        page: Page(page),
        mask,
    }
}

#[test]
fn protection_asks_for_each_page_and_then_for_one(rt: HostRuntime) -> Result<(), Fail> {
    let report = run(rt.alloc(), PROTECTS)?;
    let by = VpIndex(0);
    let all = Mask::all();
    let read = Mask::of(1).ok_or("mask")?;
    let entries = [
        Entry::Enable { by },
        Entry::Level { by, vp: by },
        Entry::Config { by, value: 0x1f },
        ask(0, all),
        ask(1, all),
        ask(2, all),
        ask(3, all),
        Entry::Turn { round: 1, by },
        Entry::Clear { vp: by },
        Entry::Report { round: 1 },
        ask(2, read),
        Entry::Turn { round: 2, by },
        Entry::Clear { vp: by },
        Entry::Report { round: 2 },
    ];
    assert_eq!(rt; report.journal.as_slice(), entries.as_slice());
    let masks = [all, all, read, all];
    assert_eq!(rt; report.masks.as_slice(), masks.as_slice());
    Ok(())
}

#[test]
fn a_processor_starts_once_it_is_entered_after_the_call(rt: HostRuntime) -> Result<(), Fail> {
    let report = run(rt.alloc(), STARTS)?;
    let by = VpIndex(0);
    let vp = VpIndex(1);
    let level = Vtl::Zero;
    let entries = [Entry::Start { by, vp, level }, Entry::Fetch { vp }];
    assert_eq!(rt; report.journal.as_slice(), entries.as_slice());
    let lines = [
        Line::Mark(by, mark(0, What::Plain, 0, 0)),
        Line::Mark(by, mark(1, What::Plain, 0, 0)),
        Line::Entry(Entry::Start { by, vp, level }),
        Line::Mark(by, mark(2, What::Reply(0), 0, 34)),
        Line::Entry(Entry::Fetch { vp }),
        Line::Mark(vp, mark(0, What::Started, 0, 1)),
        Line::Mark(vp, mark(0, What::Plain, 1, 0)),
    ];
    assert_eq!(rt; report.lines.as_slice(), lines.as_slice());
    let ends = [Ending::Done, Ending::Done];
    assert_eq!(rt; report.ends.as_slice(), ends.as_slice());
    Ok(())
}

#[test]
fn a_processor_that_nobody_starts_does_nothing(rt: HostRuntime) -> Result<(), Fail> {
    let report = run(rt.alloc(), NEVER_STARTS)?;
    let lines = [Line::Mark(VpIndex(0), mark(0, What::Plain, 0, 0))];
    assert_eq!(rt; report.lines.as_slice(), lines.as_slice());
    assert_eq!(rt; report.tracks.len(), 2);
    let track = &report.tracks.as_slice()[1];
    assert_eq!(rt; track.seen.len(), 0);
    let ends = [Ending::Done, Ending::Unstarted];
    assert_eq!(rt; report.ends.as_slice(), ends.as_slice());
    Ok(())
}

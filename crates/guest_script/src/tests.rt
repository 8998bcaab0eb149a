// What the reader takes and what it refuses.
ghost use Rattle.std.specs.Prelude.{IfOk};
ghost use Rattle.guest_script.specs.Sound.{IsSound};

use super::*;
use crate::reading::{LineError, Reading};
use std::alloc::{AllocError, Global};
use std::test::Fail;
use vsm_base::{Gva, Limits, Mask, Name, Page, VpIndex};
use vsm_core::{Op, Operand};

// The lines before the pages' masks.
const HEAD: &[u8] = b"vsm 1\nvps 1\npages 2\nbudget 10\nstarted 1\n";

fn with_head(alloc: Global, body: &[u8]) -> Result<Vec<u8>, AllocError> {
    let mut text = Vec::new(alloc);
    text.extend_from_slice(HEAD)?;
    text.extend_from_slice(body)?;
    Ok(text)
}

fn add_times(text: &mut Vec<u8>, line: &[u8], count: u32) -> Result<(), AllocError> {
    for _ in 0..count {
        text.extend_from_slice(line)?;
    }
    Ok(())
}

// So many stores in level 0 and so many returns in level 1.
fn with_two_programs(alloc: Global, stores: u32, returns: u32) -> Result<Vec<u8>, AllocError> {
    let mut text = with_head(alloc, b"program 0 0\n")?;
    add_times(&mut text, b"store 0 1\n", stores)?;
    text.extend_from_slice(b"program 0 1\n")?;
    add_times(&mut text, b"vtlreturn\n", returns)?;
    text.extend_from_slice(b"end\n")?;
    Ok(text)
}

fn with_operation(alloc: Global, operation: &[u8]) -> Result<Vec<u8>, AllocError> {
    let mut text = with_head(alloc, b"program 0 0\n")?;
    text.extend_from_slice(operation)?;
    text.extend_from_slice(b"\nend\n")?;
    Ok(text)
}

// Two processors, the second of which has its program begun.
fn in_program(alloc: Global) -> Result<Reading, LineError>
    ensures { IfOk result IsSound }
{
    let mut reading = Reading::new(alloc)?;
    reading.line(alloc, b"vsm 1")?;
    reading.line(alloc, b"vps 2")?;
    reading.line(alloc, b"pages 2")?;
    reading.line(alloc, b"budget 10")?;
    reading.line(alloc, b"started 2")?;
    reading.line(alloc, b"program 1 0")?;
    Ok(reading)
}

fn next_in_program(alloc: Global, line: &[u8]) -> Result<(), LineError> {
    let mut reading = in_program(alloc)?;
    reading.line(alloc, line)
}

fn is_refused(alloc: Global, bytes: &[u8]) -> bool {
    matches!(read(alloc, bytes), Err(ReadError::Refused(_)))
}

#[test]
fn a_script_is_read_into_its_fields(rt: HostRuntime) -> Result<(), Fail> {
    let body: &[u8] =
        b"mask 1 0x0d\nword  0 3 0x2A \nword 1 3 18446744073709551615\nprogram 0 0\nload Rsp 0x18\nstore 0x20 7\nschedule 0 0*5\nschedule 0*0002\nend\n";
    let text = with_head(rt.alloc(), body)?;
    let script = read(rt.alloc(), &text)?;
    let limits = Limits {
        vps: 1,
        pages: 2,
        budget: 10,
    };
    assert_eq!(rt; script.limits, limits);
    assert_eq!(rt; script.started, 1);
    assert_eq!(rt; script.masks.len(), 1);
    assert_eq!(rt; Some(script.masks.as_slice()[0].1), Mask::of(13));
    assert_eq!(rt;
        script.words.as_slice(),
        [(Page(0), 3, 42), (Page(1), 3, u64::MAX)].as_slice()
    );
    assert_eq!(rt; script.programs.len(), 1);
    let program = &script.programs.as_slice()[0];
    let ops = [
        Op::Load(Name::Rsp, Gva(24)),
        Op::Store(Gva(32), Operand::Number(7)),
    ];
    assert_eq!(rt; program.zero.as_slice(), ops.as_slice());
    assert_eq!(rt; program.one.len(), 0);
    assert_eq!(rt; script.schedule.len(), 2);
    let turns = [1, 5].map(|count| Turns {
        vp: VpIndex(0),
        single: false,
        count,
    });
    assert_eq!(rt; script.schedule.as_slice()[0].as_slice(), turns.as_slice());
    Ok(())
}

#[test]
fn operations_on_registers_are_read_into_a_program(rt: HostRuntime) -> Result<(), Fail> {
    let body: &[u8] =
        b"program 0 0\nset Cs 0x3000000000000000000000000\nget Rflags\nstore 8 Rbx\nset Rbx 340282366920938463463374607431768211455\nstore 0x10 R15\nset Rsp 0\nget Simp\n set  Cr2  18446744073709551616 \nend\n";
    let script = read(rt.alloc(), &with_head(rt.alloc(), body)?)?;
    let program = &script.programs.as_slice()[0];
    let ops = [
        Op::Set(Name::Cs, 3 << 96),
        Op::Get(Name::Rflags),
        Op::Store(Gva(8), Operand::Register(Name::Rbx)),
        Op::Set(Name::Rbx, u128::MAX),
        Op::Store(Gva(16), Operand::Register(Name::R15)),
        Op::Set(Name::Rsp, 0),
        Op::Get(Name::Simp),
        Op::Set(Name::Cr2, 1 << 64),
    ];
    assert_eq!(rt; program.zero.as_slice(), ops.as_slice());
    assert_eq!(rt; program.one.len(), 0);
    Ok(())
}

#[test]
fn jumps_spins_and_executions_are_read_into_a_program(rt: HostRuntime) -> Result<(), Fail> {
    let body: &[u8] =
        b"program 0 0\nexec 0x1003\nspin 0x1000 18446744073709551615\nspin 7 0\njump 0\njump 0xffffffffffffffff\njumpne Rsp 1 2\njumpne R15 0x0A 0\nset Cr0 0x80000001\nget Cr0\nend\n";
    let script = read(rt.alloc(), &with_head(rt.alloc(), body)?)?;
    let program = &script.programs.as_slice()[0];
    let ops = [
        Op::Exec(Gva(0x1003)),
        Op::Spin(Gva(0x1000), u64::MAX),
        Op::Spin(Gva(7), 0),
        Op::Jump(0),
        Op::Jump(u64::MAX),
        Op::JumpNe(Name::Rsp, 1, 2),
        Op::JumpNe(Name::R15, 10, 0),
        Op::Set(Name::Cr0, 0x8000_0001),
        Op::Get(Name::Cr0),
    ];
    assert_eq!(rt; program.zero.as_slice(), ops.as_slice());
    Ok(())
}

#[test]
fn each_level_has_its_program(rt: HostRuntime) -> Result<(), Fail> {
    let text: &[u8] = b"vsm 1\nvps 2\npages 1\nbudget 1\nstarted 2\n\
program 1 1\nget Rax\n vtlreturn \njump 0\nprogram 0 0\n hypercall  \nvtlcall\nvtlreturn\n\
program 0 1\nhypercall\nprogram 1 0\nvtlcall\nvtlcall\nend\n";
    let script = read(rt.alloc(), text)?;
    assert_eq!(rt; script.programs.len(), 2);
    let first = &script.programs.as_slice()[0];
    let ops = [Op::Hypercall, Op::VtlCall, Op::VtlReturn];
    assert_eq!(rt; first.zero.as_slice(), ops.as_slice());
    assert_eq!(rt; first.one.as_slice(), [Op::Hypercall].as_slice());
    let second = &script.programs.as_slice()[1];
    let ops = [Op::VtlCall, Op::VtlCall];
    assert_eq!(rt; second.zero.as_slice(), ops.as_slice());
    let ops = [Op::Get(Name::Rax), Op::VtlReturn, Op::Jump(0)];
    assert_eq!(rt; second.one.as_slice(), ops.as_slice());
    Ok(())
}

#[test]
fn operations_on_vectors_and_messages_are_read_into_a_program(rt: HostRuntime) -> Result<(), Fail> {
    let body: &[u8] =
        b"program 0 1\neoi\n ack  Rsp \neom\nprogram 0 0\npoll\nack Rax\neoi\neom\nack R15\npoll \nend\n";
    let script = read(rt.alloc(), &with_head(rt.alloc(), body)?)?;
    let program = &script.programs.as_slice()[0];
    let zero = [
        Op::Poll,
        Op::Ack(Name::Rax),
        Op::Eoi,
        Op::Eom,
        Op::Ack(Name::R15),
        Op::Poll,
    ];
    assert_eq!(rt; program.zero.as_slice(), zero.as_slice());
    let one = [Op::Eoi, Op::Ack(Name::Rsp), Op::Eom];
    assert_eq!(rt; program.one.as_slice(), one.as_slice());
    Ok(())
}

// Three processors, of which so many run from the beginning.
fn with_started(alloc: Global, started: &[u8]) -> Result<Vec<u8>, AllocError> {
    let mut text = Vec::new(alloc);
    text.extend_from_slice(b"vsm 1\nvps 3\npages 1\nbudget 1\nstarted ")?;
    text.extend_from_slice(started)?;
    text.extend_from_slice(b"\nschedule 0 1 2\nend\n")?;
    Ok(text)
}

#[test]
fn one_to_all_processors_run_from_the_beginning(rt: HostRuntime) -> Result<(), Fail> {
    let numbers: [(&[u8], u8); 3] = [(b"1", 1), (b"0x02", 2), (b"3", 3)];
    for (number, started) in numbers {
        let script = read(rt.alloc(), &with_started(rt.alloc(), number)?)?;
        assert_eq!(rt; script.started, started);
        assert_eq!(rt; script.limits.vps, 3);
        assert_eq!(rt; script.programs.len(), 3);
    }
    let refused: [&[u8]; 4] = [b"0", b"4", b"257", b"1 1"];
    for number in refused {
        assert!(rt; is_refused(rt.alloc(), &with_started(rt.alloc(), number)?));
    }
    Ok(())
}

#[test]
fn eight_processors_have_each_its_program(rt: HostRuntime) -> Result<(), Fail> {
    let text: &[u8] = b"vsm 1\nvps 8\npages 1\nbudget 1\nstarted 8\n\
program 7 0\njump 17\nprogram 0 0\njump 10\nprogram 1 0\njump 11\nprogram 2 0\njump 12\n\
program 3 0\njump 13\nprogram 4 0\njump 14\nprogram 5 0\njump 15\nprogram 6 0\njump 16\n\
schedule 7 0*3\nschedule 6*100\nend\n";
    let script = read(rt.alloc(), text)?;
    assert_eq!(rt; script.limits.vps, 8);
    assert_eq!(rt; script.started, 8);
    assert_eq!(rt; script.programs.len(), 8);
    for (vp, program) in script.programs.as_slice().iter().enumerate() {
        let ops = [Op::Jump(10 + vp as u64)];
        assert_eq!(rt; program.zero.as_slice(), ops.as_slice(), "at {vp}");
        assert_eq!(rt; program.one.len(), 0);
    }
    let turns = [(7, 1), (0, 3), (6, 100)].map(|(vp, count)| Turns {
        vp: VpIndex(vp),
        single: false,
        count,
    });
    assert_eq!(rt; script.schedule.len(), 2);
    assert_eq!(rt; script.schedule.as_slice()[0].as_slice(), &turns[..2]);
    assert_eq!(rt; script.schedule.as_slice()[1].as_slice(), &turns[2..]);
    Ok(())
}

#[test]
fn a_program_may_be_followed_by_operations_programs_and_turns(rt: HostRuntime) -> Result<(), Fail> {
    let good: [&[u8]; 14] = [
        b"jumpne Rsp 0 0",
        b"hypercall",
        b"vtlcall",
        b"vtlreturn",
        b"poll",
        b"ack Rsp",
        b"eoi",
        b"eom",
        b"program 0 0",
        b"program 0 1",
        b"program 1 1",
        b"schedule 0 1*2 1",
        b"",
        b" # what comes next",
    ];
    for line in good {
        assert_eq!(rt; next_in_program(rt.alloc(), line), Ok(()));
    }
    Ok(())
}

#[test]
fn turns_and_pages_may_reach_their_limits(rt: HostRuntime) -> Result<(), Fail> {
    let full: &[u8] =
        b"vsm 1\nvps 1\npages 256\nbudget 10000\nstarted 1\nmask 255 15\nword 255 511 0\nschedule 0*99999\nschedule 0\nend";
    let script = read(rt.alloc(), full)?;
    assert_eq!(rt; script.limits.pages, 256);
    let whole = with_head(rt.alloc(), b"schedule 0*100000\nend\n")?;
    assert!(rt; read(rt.alloc(), &whole).is_ok());
    let over = with_head(rt.alloc(), b"schedule 0*99999\nschedule 0 0\nend\n")?;
    assert!(rt; is_refused(rt.alloc(), &over));
    Ok(())
}

#[test]
fn the_program_of_each_level_may_reach_its_limit(rt: HostRuntime) -> Result<(), Fail> {
    let script = read(rt.alloc(), &with_two_programs(rt.alloc(), 4096, 4096)?)?;
    let program = script.programs.as_slice().first();
    assert_eq!(rt; program.map(|p| p.zero.len()), Some(4096));
    assert_eq!(rt; program.map(|p| p.one.len()), Some(4096));
    assert!(rt; is_refused(rt.alloc(), &with_two_programs(rt.alloc(), 4097, 0)?));
    assert!(rt; is_refused(rt.alloc(), &with_two_programs(rt.alloc(), 0, 4097)?));
    Ok(())
}

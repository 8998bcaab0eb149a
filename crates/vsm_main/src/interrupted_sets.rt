// Calls that interrupt a set of eight processors, and what each processor then finds.
ghost use Rattle.std.specs.Prelude.{◌<◌};

use std::alloc::{AllocError, Global};

/// What a processor finds, as lines of a report. P stands for its number.
#[derive(Clone, Copy)]
pub struct Found {
    /// Where the call names it.
    pub named: &'static [u8],
    /// Where it doesn't.
    pub passed_over: &'static [u8],
}

/// A call for the vector 0x40 by processor 0, with the script around the number of its set, and the report as it was
/// worked out apart from the program.
#[derive(Clone, Copy)]
pub struct CallToSet {
    pub name: &'static str,
    /// The lines up to the number.
    pub head: &'static [u8],
    /// The lines from the call to the programs of the seven others.
    pub call: &'static [u8],
    /// The programs of one of the others. P stands for its number.
    pub program: &'static [u8],
    pub schedule: &'static [u8],
    /// The lines of the report up to the call's.
    pub marks: &'static [u8],
    /// What the caller finds.
    pub caller: Found,
    /// What each of the others finds.
    pub other: Found,
}

const OTHER_AT_LEVEL_0: Found = Found {
    named: b"P.0 0 poll ok\nP.0 1 ack Rbx 0x0000000000000040\n",
    passed_over: b"P.0 0 poll ok\nP.0 1 ack Rbx 0x0000000000000000\n",
};

pub const AT_LEVEL_0: CallToSet = CallToSet {
    name: "level 0 of processors by level 0",
    head: b"\
vsm 1\nvps 8\npages 1\nbudget 90\nstarted 8\nprogram 0 0\nset Rcx 0x1000b\nset Rdx 0x40\nset R8 ",
    call: b"\nhypercall\npoll\nack Rbx\n",
    program: b"program P 0\npoll\nack Rbx\n",
    schedule: b"schedule 0*6 1*2 2*2 3*2 4*2 5*2 6*2 7*2\nend\n",
    marks: b"\
vsm-report 1 trace\n0.0 0 set Rcx ok\n0.0 1 set Rdx ok\n0.0 2 set R8 ok\n0.0 3 hypercall done 0x0000000000000000\n",
    caller: Found {
        named: b"0.0 4 poll ok\n0.0 5 ack Rbx 0x0000000000000040\n",
        passed_over: b"0.0 4 poll ok\n0.0 5 ack Rbx 0x0000000000000000\n",
    },
    other: OTHER_AT_LEVEL_0,
};

pub const FROM_LEVEL_1: CallToSet = CallToSet {
    name: "level 0 of processors by level 1",
    head: b"\
vsm 1\nvps 8\npages 2\nbudget 90\nstarted 8\nword 1 0 0xffffffffffffffff\nword 1 1 0x1fffffffe\nprogram 0 0\n\
set Rcx 0x1000d\nset Rdx 0xffffffffffffffff\nset R8 1\nhypercall\nset Rcx 0xf\nset Rdx 0x1000\nhypercall\n\
set Rcx 0\nvtlcall\npoll\nack Rbx\nprogram 0 1\nset Rcx 0x1000b\nset Rdx 0x1000000040\nset R8 ",
    call: b"\nhypercall\nset Rcx 0\nvtlreturn\n",
    program: b"program P 0\npoll\nack Rbx\n",
    schedule: b"schedule 0*17 1*2 2*2 3*2 4*2 5*2 6*2 7*2\nend\n",
    marks: b"\
vsm-report 1 trace\n0.0 0 set Rcx ok\n0.0 1 set Rdx ok\n0.0 2 set R8 ok\nj enable 0\n\
0.0 3 hypercall done 0x0000000000000000\n0.0 4 set Rcx ok\n0.0 5 set Rdx ok\nj level 0 0\n\
0.0 6 hypercall done 0x0000000000000000\n0.0 7 set Rcx ok\n0.0 8 vtlcall ok\n0.1 0 set Rcx ok\n0.1 1 set Rdx ok\n\
0.1 2 set R8 ok\n0.1 3 hypercall done 0x0000000000000000\n0.1 4 set Rcx ok\n0.1 5 vtlreturn ok\n",
    caller: Found {
        named: b"0.0 9 poll ok\n0.0 10 ack Rbx 0x0000000000000040\n",
        passed_over: b"0.0 9 poll ok\n0.0 10 ack Rbx 0x0000000000000000\n",
    },
    other: OTHER_AT_LEVEL_0,
};

pub const AT_LEVEL_1: CallToSet = CallToSet {
    name: "level 1 of processors by level 1",
    head: b"\
vsm 1\nvps 8\npages 4\nbudget 90\nstarted 1\nword 1 0 0xffffffffffffffff\nword 1 1 0x1fffffffe\n\
word 2 0 0xffffffffffffffff\nword 2 1 0x100000001\nword 2 30 0xffffffffffffffff\nword 2 31 0x100000002\n\
word 2 60 0xffffffffffffffff\nword 2 61 0x100000003\nword 2 90 0xffffffffffffffff\nword 2 91 0x100000004\n\
word 2 120 0xffffffffffffffff\nword 2 121 0x100000005\nword 2 150 0xffffffffffffffff\nword 2 151 0x100000006\n\
word 2 180 0xffffffffffffffff\nword 2 181 0x100000007\nword 3 0 0xffffffffffffffff\nword 3 1 1\n\
word 3 30 0xffffffffffffffff\nword 3 31 2\nword 3 60 0xffffffffffffffff\nword 3 61 3\nword 3 90 0xffffffffffffffff\n\
word 3 91 4\nword 3 120 0xffffffffffffffff\nword 3 121 5\nword 3 150 0xffffffffffffffff\nword 3 151 6\n\
word 3 180 0xffffffffffffffff\nword 3 181 7\nprogram 0 0\nset Rcx 0x1000d\nset Rdx 0xffffffffffffffff\nset R8 1\n\
hypercall\nset Rcx 0xf\nset Rdx 0x1000\nhypercall\nset Rcx 0\nvtlcall\npoll\nack Rbx\nprogram 0 1\nset Rcx 0xf\n\
set Rdx 0x2000\nhypercall\nset Rdx 0x20f0\nhypercall\nset Rdx 0x21e0\nhypercall\nset Rdx 0x22d0\nhypercall\n\
set Rdx 0x23c0\nhypercall\nset Rdx 0x24b0\nhypercall\nset Rdx 0x25a0\nhypercall\nset Rcx 0x99\nset Rdx 0x3000\n\
hypercall\nset Rdx 0x30f0\nhypercall\nset Rdx 0x31e0\nhypercall\nset Rdx 0x32d0\nhypercall\nset Rdx 0x33c0\n\
hypercall\nset Rdx 0x34b0\nhypercall\nset Rdx 0x35a0\nhypercall\nset Rcx 0x1000b\nset Rdx 0x40\nset R8 ",
    call: b"\nhypercall\nset Rcx 0\nvtlreturn\nack Rbx\n",
    program: b"program P 0\npoll\nack Rbx\nprogram P 1\nack Rbx\n",
    schedule: b"schedule 0*39 1 2 3 4 5 6 7 0*8 1*2 2*2 3*2 4*2 5*2 6*2 7*2\nend\n",
    marks: b"\
vsm-report 1 trace\n0.0 0 set Rcx ok\n0.0 1 set Rdx ok\n0.0 2 set R8 ok\nj enable 0\n\
0.0 3 hypercall done 0x0000000000000000\n0.0 4 set Rcx ok\n0.0 5 set Rdx ok\nj level 0 0\n\
0.0 6 hypercall done 0x0000000000000000\n0.0 7 set Rcx ok\n0.0 8 vtlcall ok\n0.1 0 set Rcx ok\n0.1 1 set Rdx ok\n\
j level 0 1\n0.1 2 hypercall done 0x0000000000000000\n0.1 3 set Rdx ok\nj level 0 2\n\
0.1 4 hypercall done 0x0000000000000000\n0.1 5 set Rdx ok\nj level 0 3\n0.1 6 hypercall done 0x0000000000000000\n\
0.1 7 set Rdx ok\nj level 0 4\n0.1 8 hypercall done 0x0000000000000000\n0.1 9 set Rdx ok\nj level 0 5\n\
0.1 10 hypercall done 0x0000000000000000\n0.1 11 set Rdx ok\nj level 0 6\n0.1 12 hypercall done 0x0000000000000000\n\
0.1 13 set Rdx ok\nj level 0 7\n0.1 14 hypercall done 0x0000000000000000\n0.1 15 set Rcx ok\n0.1 16 set Rdx ok\n\
j start 0 1 0\n0.1 17 hypercall done 0x0000000000000000\n0.1 18 set Rdx ok\nj start 0 2 0\n\
0.1 19 hypercall done 0x0000000000000000\n0.1 20 set Rdx ok\nj start 0 3 0\n\
0.1 21 hypercall done 0x0000000000000000\n0.1 22 set Rdx ok\nj start 0 4 0\n\
0.1 23 hypercall done 0x0000000000000000\n0.1 24 set Rdx ok\nj start 0 5 0\n\
0.1 25 hypercall done 0x0000000000000000\n0.1 26 set Rdx ok\nj start 0 6 0\n\
0.1 27 hypercall done 0x0000000000000000\n0.1 28 set Rdx ok\nj start 0 7 0\n\
0.1 29 hypercall done 0x0000000000000000\nj fetch 1\n1.0 0 start ok\nj fetch 2\n2.0 0 start ok\nj fetch 3\n\
3.0 0 start ok\nj fetch 4\n4.0 0 start ok\nj fetch 5\n5.0 0 start ok\nj fetch 6\n6.0 0 start ok\nj fetch 7\n\
7.0 0 start ok\n0.1 30 set Rcx ok\n0.1 31 set Rdx ok\n0.1 32 set R8 ok\n0.1 33 hypercall done 0x0000000000000000\n\
0.1 34 set Rcx ok\n0.1 35 vtlreturn ok\n",
    caller: Found {
        named: b"0.0 9 poll enter\n0.1 36 ack Rbx 0x0000000000000040\n",
        passed_over: b"0.0 9 poll ok\n0.0 10 ack Rbx 0x0000000000000000\n",
    },
    other: Found {
        named: b"P.0 0 poll enter\nP.1 0 ack Rbx 0x0000000000000040\n",
        passed_over: b"P.0 0 poll ok\nP.0 1 ack Rbx 0x0000000000000000\n",
    },
};

// Appends the lines of one processor.
fn put(text: &mut Vec<u8>, lines: &[u8], processor: u8) -> Result<(), AllocError>
    requires { processor < 10 }
{
    for byte in lines {
        text.push(if *byte == b'P' {
            b'0' + processor
        } else {
            *byte
        })?;
    }
    Ok(())
}

/// The script whose call names the set: bit P is set where processor P is in it.
pub fn script(alloc: Global, call: &CallToSet, set: u8) -> Result<Vec<u8>, AllocError> {
    let mut text = call.head.to_vec(alloc)?;
    for place in [100, 10, 1] {
        text.push(b'0' + set / place % 10)?;
    }
    text.extend_from_slice(call.call)?;
    for processor in 1..8u8 {
        put(&mut text, call.program, processor)?;
    }
    text.extend_from_slice(call.schedule)?;
    Ok(text)
}

/// The report of that script.
pub fn report(alloc: Global, call: &CallToSet, set: u8) -> Result<Vec<u8>, AllocError> {
    let mut text = call.marks.to_vec(alloc)?;
    for processor in 0..8u8 {
        let found = if processor == 0 {
            call.caller
        } else {
            call.other
        };
        let lines = if (set >> processor) % 2 == 1 {
            found.named
        } else {
            found.passed_over
        };
        put(&mut text, lines, processor)?;
    }
    for processor in 0..8u8 {
        put(&mut text, b"end P done\n", processor)?;
    }
    text.extend_from_slice(b"close\n")?;
    Ok(text)
}

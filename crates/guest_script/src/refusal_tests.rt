// Which line is refused, and why.
use super::*;
use std::alloc::{AllocError, Global};
use std::test::Fail;

// Five lines: two processors, 256 pages.
const HEAD: &[u8] = b"vsm 1\nvps 2\npages 256\nbudget 10\nstarted 1\n";

fn joined(alloc: Global, pieces: &[&[u8]]) -> Result<Vec<u8>, AllocError> {
    let mut text = Vec::new(alloc);
    for piece in pieces {
        text.extend_from_slice(piece)?;
    }
    Ok(text)
}

// The line and the cause of a refusal.
fn refusal(alloc: Global, bytes: &[u8]) -> Option<Refusal> {
    match read(alloc, bytes) {
        Err(ReadError::Refused(refusal)) => Some(refusal),
        _ => None,
    }
}

fn is_refused(alloc: Global, bytes: &[u8], line: u32, why: Why) -> bool {
    refusal(alloc, bytes) == Some(Refusal { line, why })
}

#[test]
fn an_opening_line_is_refused_for_each_cause(rt: HostRuntime) -> Result<(), Fail> {
    let cases: [(&[u8], u32, Why); 40] = [
        (b"", 1, Why::Cut),
        (b"\n", 2, Why::Cut),
        (b"vsm 1", 2, Why::Cut),
        (b"vsm 1\n", 2, Why::Cut),
        (b"vsm\xff1\n", 1, Why::NotText),
        (b"vsm 1\tvps 1\n", 1, Why::NotText),
        (b"vsm 1\r\n", 1, Why::NotText),
        (b"vsm1\n", 1, Why::UnknownWord),
        (b"VSM 1\n", 1, Why::UnknownWord),
        (b"vps 1\n", 1, Why::OutOfOrder),
        (b"end\n", 1, Why::OutOfOrder),
        (b"vsm\n", 1, Why::MissingWord),
        (b"vsm one\n", 1, Why::BadNumber),
        (b"vsm 0\n", 1, Why::OutOfRange),
        (b"vsm 2\n", 1, Why::OutOfRange),
        (b"vsm 1 1\n", 1, Why::ExtraWord),
        (b"vsm 1\nvsm 1\n", 2, Why::OutOfOrder),
        (b"vsm 1\npages 1\n", 2, Why::OutOfOrder),
        (b"vsm 1\nvps\n", 2, Why::MissingWord),
        (b"vsm 1\nvps -1\n", 2, Why::BadNumber),
        (b"vsm 1\nvps 0\n", 2, Why::OutOfRange),
        (b"vsm 1\nvps 9\n", 2, Why::OutOfRange),
        (b"vsm 1\nvps 8 8\n", 2, Why::ExtraWord),
        (b"vsm 1\nvps 1\nbudget 1\n", 3, Why::OutOfOrder),
        (b"vsm 1\nvps 1\npages\n", 3, Why::MissingWord),
        (b"vsm 1\nvps 1\npages 1k\n", 3, Why::BadNumber),
        (b"vsm 1\nvps 1\npages 0\n", 3, Why::OutOfRange),
        (b"vsm 1\nvps 1\npages 257\n", 3, Why::OutOfRange),
        (b"vsm 1\nvps 1\npages 1 1\n", 3, Why::ExtraWord),
        (b"vsm 1\nvps 1\npages 1\nbudget\n", 4, Why::MissingWord),
        (b"vsm 1\nvps 1\npages 1\nbudget Rax\n", 4, Why::BadNumber),
        (b"vsm 1\nvps 1\npages 1\nbudget 0\n", 4, Why::OutOfRange),
        (b"vsm 1\nvps 1\npages 1\nbudget 10001\n", 4, Why::OutOfRange),
        (b"vsm 1\nvps 1\npages 1\nbudget 1 x\n", 4, Why::ExtraWord),
        (
            b"vsm 1\nvps 1\npages 1\nbudget 1\nmask 0 1\n",
            5,
            Why::OutOfOrder,
        ),
        (
            b"vsm 1\nvps 1\npages 1\nbudget 1\nstarted\n",
            5,
            Why::MissingWord,
        ),
        (
            b"vsm 1\nvps 1\npages 1\nbudget 1\nstarted 1.\n",
            5,
            Why::BadNumber,
        ),
        (
            b"vsm 1\nvps 2\npages 1\nbudget 1\nstarted 0\n",
            5,
            Why::OutOfRange,
        ),
        (
            b"vsm 1\nvps 2\npages 1\nbudget 1\nstarted 3\n",
            5,
            Why::OutOfRange,
        ),
        (
            b"vsm 1\nvps 1\npages 1\nbudget 1\nstar",
            5,
            Why::UnknownWord,
        ),
    ];
    for (bytes, line, why) in cases {
        assert!(rt; is_refused(rt.alloc(), bytes, line, why));
    }
    Ok(())
}

#[test]
fn a_line_of_memory_or_schedule_is_refused_for_each_cause(rt: HostRuntime) -> Result<(), Fail> {
    let lines: [(&[u8], Why); 61] = [
        (b"mask 0 1\x80", Why::NotText),
        (b"masks 0 1", Why::UnknownWord),
        (b"print", Why::UnknownWord),
        (b"invlpg 0", Why::UnknownWord),
        (b"started 1", Why::OutOfOrder),
        (b"vsm 1", Why::OutOfOrder),
        (b"mask", Why::MissingWord),
        (b"mask 0", Why::MissingWord),
        (b"mask x 1", Why::BadNumber),
        (b"mask 0 0x", Why::BadNumber),
        (b"mask 0 -1", Why::BadNumber),
        (b"mask 256 1", Why::OutOfRange),
        (b"mask 0 2", Why::OutOfRange),
        (b"mask 0 16", Why::OutOfRange),
        (b"mask 0 1 1", Why::ExtraWord),
        (b"word", Why::MissingWord),
        (b"word 0", Why::MissingWord),
        (b"word 0 0", Why::MissingWord),
        (b"word p 0 0", Why::BadNumber),
        (b"word 0 i 0", Why::BadNumber),
        (b"word 0 0 v", Why::BadNumber),
        (b"word 256 0 0", Why::OutOfRange),
        (b"word 0 512 0", Why::OutOfRange),
        (b"word 0 0 18446744073709551616", Why::OutOfRange),
        (b"word 0 0 0 0", Why::ExtraWord),
        (b"program", Why::MissingWord),
        (b"program 0", Why::MissingWord),
        (b"program x 0", Why::BadNumber),
        (b"program 0 x", Why::BadNumber),
        (b"program 2 0", Why::OutOfRange),
        (b"program 0 2", Why::OutOfRange),
        (b"program 0 0 0", Why::ExtraWord),
        (b"set Rax 0", Why::OutOfOrder),
        (b"get Rax", Why::OutOfOrder),
        (b"load Rax 0", Why::OutOfOrder),
        (b"store 0 0", Why::OutOfOrder),
        (b"exec 0", Why::OutOfOrder),
        (b"spin 0 0", Why::OutOfOrder),
        (b"jump 0", Why::OutOfOrder),
        (b"jumpne Rax 0 0", Why::OutOfOrder),
        (b"hypercall", Why::OutOfOrder),
        (b"vtlcall", Why::OutOfOrder),
        (b"vtlreturn", Why::OutOfOrder),
        (b"poll", Why::OutOfOrder),
        (b"ack Rax", Why::OutOfOrder),
        (b"eoi", Why::OutOfOrder),
        (b"eom", Why::OutOfOrder),
        (b"schedule", Why::MissingWord),
        (b"schedule 0!", Why::BadEntry),
        (b"schedule 0x0", Why::BadEntry),
        (b"schedule *1", Why::BadEntry),
        (b"schedule 0*", Why::BadEntry),
        (b"schedule 0*1*1", Why::BadEntry),
        (b"schedule 0 Rax", Why::BadEntry),
        (
            b"schedule 0*340282366920938463463374607431768211456",
            Why::BadEntry,
        ),
        (b"schedule 2", Why::OutOfRange),
        (b"schedule 0*0", Why::OutOfRange),
        (b"schedule 0*100001", Why::OutOfRange),
        (
            b"schedule 0*340282366920938463463374607431768211455",
            Why::OutOfRange,
        ),
        (b"schedule 0*50000 1*50000 0", Why::TooMany),
        (b"end 1", Why::ExtraWord),
    ];
    for (line, why) in lines {
        let text = joined(rt.alloc(), &[HEAD, line, b"\nend\n"])?;
        assert!(rt; is_refused(rt.alloc(), &text, 6, why));
    }
    Ok(())
}

#[test]
fn an_operation_is_refused_for_each_cause(rt: HostRuntime) -> Result<(), Fail> {
    let lines: [(&[u8], Why); 52] = [
        (b"set", Why::MissingWord),
        (b"set Rax", Why::MissingWord),
        (b"set Rip 1", Why::BadName),
        (b"set CrInterceptControl 1", Why::BadName),
        (b"set Nope 1", Why::BadName),
        (b"set 1 1", Why::BadName),
        (b"set Rax Rbx", Why::BadNumber),
        (
            b"set Rax 340282366920938463463374607431768211456",
            Why::BadNumber,
        ),
        (b"set Rax 1 2", Why::ExtraWord),
        (b"get", Why::MissingWord),
        (b"get Rip", Why::BadName),
        (b"get CrInterceptCr4Mask", Why::BadName),
        (b"get Rax 1", Why::ExtraWord),
        (b"load", Why::MissingWord),
        (b"load Rax", Why::MissingWord),
        (b"load Cr2 0", Why::BadName),
        (b"load rax 0", Why::BadName),
        (b"load Rax Rbx", Why::BadNumber),
        (b"load Rax 18446744073709551616", Why::OutOfRange),
        (b"load Rax 0 0", Why::ExtraWord),
        (b"store", Why::MissingWord),
        (b"store 8", Why::MissingWord),
        (b"store Rax 8", Why::BadNumber),
        (b"store 8 -1", Why::BadNumber),
        (b"store 8 _", Why::BadNumber),
        (b"store 8 Rsp", Why::BadName),
        (b"store 8 Cr2", Why::BadName),
        (b"store 8 x1", Why::BadName),
        (b"store 18446744073709551616 0", Why::OutOfRange),
        (b"store 0 18446744073709551616", Why::OutOfRange),
        (b"store 8 Rax 1", Why::ExtraWord),
        (b"exec", Why::MissingWord),
        (b"exec Rax", Why::BadNumber),
        (b"exec 18446744073709551616", Why::OutOfRange),
        (b"exec 8 8", Why::ExtraWord),
        (b"spin 8", Why::MissingWord),
        (b"spin 8 x", Why::BadNumber),
        (b"spin 8 18446744073709551616", Why::OutOfRange),
        (b"spin 8 8 8", Why::ExtraWord),
        (b"jump", Why::MissingWord),
        (b"jump x", Why::BadNumber),
        (b"jump 18446744073709551616", Why::OutOfRange),
        (b"jump 0 0", Why::ExtraWord),
        (b"jumpne Rax 0", Why::MissingWord),
        (b"jumpne Cr0 0 0", Why::BadName),
        (b"jumpne Rax 0 x", Why::BadNumber),
        (b"jumpne Rax 0 18446744073709551616", Why::OutOfRange),
        (b"jumpne Rax 0 0 0", Why::ExtraWord),
        (b"hypercall 1", Why::ExtraWord),
        (b"ack Cr8", Why::BadName),
        (b"program 1 1", Why::Twice),
        (b"mask 0 1", Why::OutOfOrder),
    ];
    for (line, why) in lines {
        let text = joined(rt.alloc(), &[HEAD, b"program 1 1\n", line, b"\nend\n"])?;
        assert!(rt; is_refused(rt.alloc(), &text, 7, why));
    }
    Ok(())
}

#[test]
fn the_first_cause_of_a_line_is_told(rt: HostRuntime) -> Result<(), Fail> {
    // Behind a mask of page 0, a word of page 0, and 99,999 turns where the schedule comes.
    let lines: [(&[u8], Why); 40] = [
        (b"nothing\x7f", Why::NotText),
        (b"vps 1\x1f", Why::NotText),
        (b"mask 1\x00", Why::NotText),
        (b"mask 1 x\x00", Why::NotText),
        (b"load Rip\x00", Why::NotText),
        (b"schedule ?\x00", Why::NotText),
        (b"mask 256 1 \x00", Why::NotText),
        (b"mask 1 1 1 \x00", Why::NotText),
        (b"mask 0 1 \x00", Why::NotText),
        (b"# \x00", Why::NotText),
        (b"nothing x 1 1", Why::UnknownWord),
        (b"vps", Why::OutOfOrder),
        (b"vps x", Why::OutOfOrder),
        (b"set rip 0", Why::OutOfOrder),
        (b"vps 9", Why::OutOfOrder),
        (b"vps 1 1", Why::OutOfOrder),
        (b"mask 256", Why::OutOfRange),
        (b"mask x", Why::BadNumber),
        (b"mask x 2", Why::BadNumber),
        (b"mask 256 x", Why::OutOfRange),
        (b"mask 256 1 1", Why::OutOfRange),
        (b"mask x 1 1", Why::BadNumber),
        (b"mask 0 2", Why::OutOfRange),
        (b"mask 0 1 1", Why::ExtraWord),
        (b"mask 0 1", Why::Twice),
        (b"mask 0", Why::MissingWord),
        (b"word 0 512", Why::OutOfRange),
        (b"word 256 512 0", Why::OutOfRange),
        (b"word 0 x 18446744073709551616", Why::BadNumber),
        (b"word 0 512 x", Why::OutOfRange),
        (b"word 0 0 0 0", Why::ExtraWord),
        (b"word 0 0 1", Why::Twice),
        (b"program 2", Why::OutOfRange),
        (b"program 2 x", Why::OutOfRange),
        (b"program x 2", Why::BadNumber),
        (b"schedule 0x 9", Why::BadEntry),
        (b"schedule 9 0x", Why::OutOfRange),
        (b"schedule 0*100000 1 x", Why::BadEntry),
        (b"schedule 0*100000 1*0", Why::OutOfRange),
        (b"schedule 0*100000 1", Why::TooMany),
    ];
    for (line, why) in lines {
        let text = joined(
            rt.alloc(),
            &[HEAD, b"mask 0 1\nword 0 0 0\n", line, b"\nend\n"],
        )?;
        assert!(rt; is_refused(rt.alloc(), &text, 8, why));
    }
    Ok(())
}

#[test]
fn the_first_cause_of_an_operation_is_told(rt: HostRuntime) -> Result<(), Fail> {
    let lines: [(&[u8], Why); 14] = [
        (b"load Rip", Why::BadName),
        (b"load Rip x", Why::BadName),
        (b"load Rip 0 0", Why::BadName),
        (b"load Rax x 0", Why::BadNumber),
        (b"store x", Why::BadNumber),
        (b"store x Rsp", Why::BadNumber),
        (b"store 18446744073709551616 Rsp", Why::OutOfRange),
        (b"store 8 Rsp 1", Why::BadName),
        (b"set Rip", Why::BadName),
        (b"set Rip x", Why::BadName),
        (b"jumpne Cr0 x", Why::BadName),
        (b"jumpne Rax x 18446744073709551616", Why::BadNumber),
        (b"jumpne Rax 18446744073709551616 x", Why::OutOfRange),
        (b"jumpne Rax 0 x 0", Why::BadNumber),
    ];
    for (line, why) in lines {
        let text = joined(rt.alloc(), &[HEAD, b"program 0 0\n", line, b"\nend\n"])?;
        assert!(rt; is_refused(rt.alloc(), &text, 7, why));
    }
    Ok(())
}

#[test]
fn the_first_line_that_is_refused_is_told(rt: HostRuntime) -> Result<(), Fail> {
    let lines: [(&[u8], Why); 11] = [
        (b"\x01", Why::NotText),
        (b"nothing", Why::UnknownWord),
        (b"vps 1", Why::OutOfOrder),
        (b"mask", Why::MissingWord),
        (b"mask x 1", Why::BadNumber),
        (b"schedule x", Why::BadEntry),
        (b"mask 256 1", Why::OutOfRange),
        (b"mask 1 1 1", Why::ExtraWord),
        (b"mask 0 1", Why::Twice),
        (b"schedule 0*100000 0", Why::TooMany),
        (b"word 0 0 1", Why::Twice),
    ];
    for (first, why) in lines {
        for (second, _) in lines {
            let pieces: [&[u8]; 6] = [HEAD, b"mask 0 1\nword 0 0 0\n", first, b"\n", second, b"\n"];
            let text = joined(rt.alloc(), &pieces)?;
            assert!(rt; is_refused(rt.alloc(), &text, 8, why));
        }
    }
    Ok(())
}

#[test]
fn skipped_lines_are_counted(rt: HostRuntime) -> Result<(), Fail> {
    let text: &[u8] =
        b"# a script\n\nvsm 1\n   \nvps 1\n  # pages\npages 1\nbudget 1\n#\nstarted 1\n\
schedule 0 # one\n";
    assert!(rt; is_refused(rt.alloc(), text, 11, Why::BadEntry));
    let cut = joined(rt.alloc(), &[b"\n#\n", HEAD, b"\n#end"])?;
    assert!(rt; is_refused(rt.alloc(), &cut, 10, Why::Cut));
    let ended = joined(rt.alloc(), &[b"#\n", HEAD, b"end\n\n # the end\n"])?;
    assert!(rt; read(rt.alloc(), &ended).is_ok());
    let ends: [(&[u8], Why); 4] = [
        (b"end", Why::OutOfOrder),
        (b"vsm 1", Why::OutOfOrder),
        (b"nothing", Why::UnknownWord),
        (b"\x7f", Why::NotText),
    ];
    for (line, why) in ends {
        let after = joined(rt.alloc(), &[HEAD, b"end\n\n", line])?;
        assert!(rt; is_refused(rt.alloc(), &after, 8, why));
    }
    Ok(())
}

// The number that a word spells in a script, or why the line is refused.
fn spelled(alloc: Global, word: &[u8]) -> Result<Option<Result<u128, Why>>, AllocError> {
    let text = joined(alloc, &[HEAD, b"program 0 0\nset Rax ", word, b"\nend\n"])?;
    match read(alloc, &text) {
        Ok(script) => match script.programs.as_slice()[0].zero.as_slice() {
            [vsm_core::Op::Set(_, value)] => Ok(Some(Ok(*value))),
            _ => Ok(None),
        },
        Err(ReadError::Refused(refusal)) => Ok(Some(Err(refusal.why))),
        Err(ReadError::Memory) => Ok(None),
    }
}

#[test]
fn numbers_are_read_up_to_their_limits(rt: HostRuntime) -> Result<(), Fail> {
    let words: [(&[u8], Result<u128, Why>); 20] = [
        (b"0", Ok(0)),
        (b"00", Ok(0)),
        (b"0x0", Ok(0)),
        (b"007", Ok(7)),
        (b"0x00Ff", Ok(255)),
        (b"0xabcdefABCDEF", Ok(0xabcd_efab_cdef)),
        (b"000000000000000000000000000000000000001", Ok(1)),
        (
            b"0000000000000000000000000000000000000001",
            Err(Why::BadNumber),
        ),
        (b"340282366920938463463374607431768211455", Ok(u128::MAX)),
        (
            b"340282366920938463463374607431768211456",
            Err(Why::BadNumber),
        ),
        (
            b"999999999999999999999999999999999999999",
            Err(Why::BadNumber),
        ),
        (b"0xffffffffffffffffffffffffffffffff", Ok(u128::MAX)),
        (b"0x00000000000000000000000000000001", Ok(1)),
        (b"0x000000000000000000000000000000001", Err(Why::BadNumber)),
        (b"0x", Err(Why::BadNumber)),
        (b"0X1", Err(Why::BadNumber)),
        (b"0xg", Err(Why::BadNumber)),
        (b"1a", Err(Why::BadNumber)),
        (b"+1", Err(Why::BadNumber)),
        (b"1_000", Err(Why::BadNumber)),
    ];
    for (word, expected) in words {
        assert_eq!(rt; spelled(rt.alloc(), word)?, Some(expected));
    }
    Ok(())
}

#[test]
fn an_operation_too_many_is_told(rt: HostRuntime) -> Result<(), Fail> {
    let mut text = joined(rt.alloc(), &[HEAD, b"program 0 1\n"])?;
    for _ in 0..4096 {
        text.extend_from_slice(b"poll\n")?;
    }
    text.extend_from_slice(b"poll 1\n")?;
    assert!(rt; is_refused(rt.alloc(), &text, 4103, Why::ExtraWord));
    text.truncate(text.len() - 3);
    assert!(rt; is_refused(rt.alloc(), &text, 4103, Why::TooMany));
    Ok(())
}

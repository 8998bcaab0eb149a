// What is printed, and that it is read again.
use super::*;
use std::alloc::{AllocError, Global};
use std::test::Fail;
use vsm_base::{Gva, Name};
use vsm_core::{Op, Operand};

// Each line that a script can have, in a layout of its own.
const SCRIPT: &[u8] = b"# all\nvsm 0x1\n vps  03\npages 16\nbudget 0x64\nstarted 2\n\
word 0x1 511 255\nmask 3 0xd\nmask 1 00\nword 0 0 0xABCDEF\n\
program 2 1\nset Cs 340282366920938463463374607431768211455\nget Rflags\nload Rsp 4096\n\
store 8 7\nstore 16 R15\nexec 0x0018\nspin 0 0\njump 0xffffffffffffffff\njumpne Rax 10 3\n\
program 0 0\nhypercall\nvtlcall\nvtlreturn\npoll\nack Rbx\neoi\neom\nprogram 1 0\n\
schedule 0 1*1 2*099998\n\nend\n#";

const TEXT: &[u8] = b"vsm 1\nvps 3\npages 16\nbudget 100\nstarted 2\n\
mask 3 13\nmask 1 0\nword 1 511 0xff\nword 0 0 0xabcdef\n\
program 0 0\nhypercall\nvtlcall\nvtlreturn\npoll\nack Rbx\neoi\neom\n\
program 2 1\nset Cs 0xffffffffffffffffffffffffffffffff\nget Rflags\nload Rsp 0x1000\n\
store 0x8 0x7\nstore 0x10 R15\nexec 0x18\nspin 0x0 0x0\njump 18446744073709551615\njumpne Rax 0xa 3\n\
schedule 0 1 2*99998\nend\n";

fn is_same(one: &Script, other: &Script) -> bool {
    let mut programs = one
        .programs
        .as_slice()
        .iter()
        .zip(other.programs.as_slice());
    let mut lines = one
        .schedule
        .as_slice()
        .iter()
        .zip(other.schedule.as_slice());
    one.limits == other.limits
        && one.started == other.started
        && one.masks.as_slice() == other.masks.as_slice()
        && one.words.as_slice() == other.words.as_slice()
        && one.programs.len() == other.programs.len()
        && programs.all(|(p, q)| {
            p.zero.as_slice() == q.zero.as_slice() && p.one.as_slice() == q.one.as_slice()
        })
        && one.schedule.len() == other.schedule.len()
        && lines.all(|(p, q)| p.as_slice() == q.as_slice())
}

#[test]
fn a_script_is_printed_in_one_form_and_read_again(rt: HostRuntime) -> Result<(), Fail> {
    let script = read(rt.alloc(), SCRIPT)?;
    let text = print(rt.alloc(), &script)?;
    assert_eq!(rt; text.as_slice(), TEXT);
    assert!(rt; is_same(&read(rt.alloc(), &text)?, &script));
    Ok(())
}

#[test]
fn made_scripts_are_printed_and_read_again(rt: HostRuntime) -> Result<(), Fail> {
    for n in [1, 2, 1000] {
        let made = make(rt.alloc(), n)?;
        let text = print(rt.alloc(), &made)?;
        assert!(rt; text.starts_with(b"vsm 1\n"));
        assert!(rt; is_same(&read(rt.alloc(), &text)?, &made));
    }
    Ok(())
}

#[test]
fn a_script_once_more_is_the_same(rt: HostRuntime) -> Result<(), Fail> {
    let script = read(rt.alloc(), SCRIPT)?;
    let again = script.again(rt.alloc())?;
    assert!(rt; is_same(&again, &script));
    let text = print(rt.alloc(), &again)?;
    assert_eq!(rt; text.as_slice(), TEXT);
    Ok(())
}

// The operations of a processor's level 0.
fn level_0(script: &Script, vp: usize) -> &[Op] {
    match script.programs.as_slice().get(vp) {
        Some(program) => program.zero.as_slice(),
        None => &[],
    }
}

// The two operations that stand before the last two.
fn before_last(ops: &[Op]) -> Option<&[Op]> {
    ops.get(ops.len().saturating_sub(4)..ops.len().saturating_sub(2))
}

#[test]
fn a_made_script_has_the_accesses_of_its_number(rt: HostRuntime) -> Result<(), Fail> {
    let load = |at| Op::Load(Name::Rax, Gva(at));
    let store = |at, n| Op::Store(Gva(at), Operand::Number(n));
    let made = make(rt.alloc(), 2)?;
    let accesses = [
        [store(25168, 1), store(30048, 2)],
        [store(55416, 1), load(44712)],
        [store(72320, 1), store(79952, 2)],
        [store(99240, 1), store(123_688, 2)],
    ];
    assert_eq!(rt; made.programs.len(), 4);
    for (vp, expected) in accesses.iter().enumerate() {
        let ops = level_0(&made, vp);
        assert_eq!(rt; before_last(ops), Some(expected.as_slice()), "at {vp}");
        assert_eq!(rt; ops.last(), Some(&store(0x20000, 1)));
    }
    let last = make(rt.alloc(), 1000)?;
    let ops = level_0(&last, 3);
    assert_eq!(rt; ops.len(), 1002);
    assert_eq!(rt; ops.get(999), Some(&load(104_576)));
    Ok(())
}

#[test]
fn tokens_are_pieces_of_the_text_in_order(rt: HostRuntime) -> Result<(), Fail> {
    let text: &[u8] = b"  mask 1\t2  \n\nend";
    let spans = [
        (0, Some((2, 6))),
        (3, Some((3, 6))),
        (6, Some((7, 10))),
        (10, None),
        (12, None),
        (13, None),
        (14, Some((14, 17))),
        (17, None),
    ];
    for (from, span) in spans {
        let token = next_token(text, from);
        assert_eq!(rt; token.map(|t| (t.start, t.end)), span);
        assert_eq!(rt;
            token.map(|t| t.text),
            span.map(|(start, end)| &text[start..end])
        );
    }
    Ok(())
}

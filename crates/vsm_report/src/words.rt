// The words that lines are made of.
ghost use Rattle.std.specs.Prelude.{◌≡◌, ◌≤◌, ◌/◌, ◌%◌, ◌^◌, length};
ghost use Rattle.vsm_base.specs.Levels.{level_number};
ghost use Rattle.vsm_report.specs.Pieces.{spelled};
ghost use Rattle.vsm_report.specs.Words.{op_word, access_word, posted_word, eom_word, fault_word, mask_word, is_wide, value_word};

use crate::pieces::Piece;
use vsm_base::{Access, Mask, Name, Vtl};
use vsm_core::{EomWord, GuestFault, Op, Posted};

pub fn op_word(op: &Op) -> &'static [u8]
    ensures word { result.now ≡ op_word op.now }
    ensures short { length result.now ≤ 9 }
{
    match op {
        Op::Set(_, _) => b"set",
        Op::Get(_) => b"get",
        Op::Load(_, _) => b"load",
        Op::Store(_, _) => b"store",
        Op::Exec(_) => b"exec",
        Op::Spin(_, _) => b"spin",
        Op::Jump(_) => b"jump",
        Op::JumpNe(_, _, _) => b"jumpne",
        Op::Invlpg(_) => b"invlpg",
        Op::Hypercall => b"hypercall",
        Op::VtlCall => b"vtlcall",
        Op::VtlReturn => b"vtlreturn",
        Op::Poll => b"poll",
        Op::Ack(_) => b"ack",
        Op::Eoi => b"eoi",
        Op::Eom => b"eom",
    }
}

pub fn access_word(access: Access) -> &'static [u8]
    ensures { result.now ≡ access_word access }
{
    match access {
        Access::Read => b"read",
        Access::Write => b"write",
        Access::Execute => b"execute",
    }
}

pub fn posted_word(posted: Posted) -> &'static [u8]
    ensures { result.now ≡ posted_word posted }
{
    match posted {
        Posted::Slot => b"slot",
        Posted::Waiting => b"waiting",
        Posted::Held => b"held",
    }
}

pub fn eom_word(word: EomWord) -> &'static [u8]
    ensures { result.now ≡ eom_word word }
{
    match word {
        EomWord::Nothing => b"none",
        EomWord::Slot => b"slot",
        EomWord::Waiting => b"waiting",
    }
}

pub fn fault_word(kind: GuestFault) -> &'static [u8]
    ensures { result.now ≡ fault_word kind }
{
    match kind {
        GuestFault::Align => b"align",
        GuestFault::Noncanonical => b"noncanonical",
        GuestFault::Unmapped => b"unmapped",
        GuestFault::Page => b"page",
        GuestFault::Undefined => b"undefined",
        GuestFault::Gp => b"gp",
    }
}

pub fn mask_piece(mask: Option<Mask>) -> Piece<'static>
    ensures { spelled result ≡ mask_word mask }
{
    match mask {
        None => Piece::Text(b"-"),
        Some(mask) => Piece::Decimal(mask.bits() as u64),
    }
}

pub fn level_number(level: Vtl) -> u64
    ensures { result ≡ level_number level }
{
    match level {
        Vtl::Zero => 0,
        Vtl::One => 1,
    }
}

fn is_wide(name: Name) -> bool
    ensures { result ≡ is_wide name }
{
    match name {
        Name::Es
        | Name::Cs
        | Name::Ss
        | Name::Ds
        | Name::Fs
        | Name::Gs
        | Name::Ldtr
        | Name::Tr
        | Name::Idtr
        | Name::Gdtr => true,
        _ => false,
    }
}

fn upper_half(value: u128) -> u64
    ensures { result ≡ value / 2 ^ 64 }
{
    (value / 0x1_0000_0000_0000_0000) as u64
}

fn lower_half(value: u128) -> u64
    ensures { result ≡ value % 2 ^ 64 }
{
    (value % 0x1_0000_0000_0000_0000) as u64
}

/// The digits of a register's value: 32 where the register has 128 bits, and else the last 16.
pub fn value_piece(name: Name, value: u128) -> Piece<'static>
    ensures { spelled result ≡ value_word name value }
{
    if is_wide(name) {
        Piece::Hex32(upper_half(value), lower_half(value))
    } else {
        Piece::Hex(lower_half(value))
    }
}

// Printing a script.
ghost use Rattle.std.specs.Prelude.{◌≡◌, ◌≤◌, ℕ, List, ◌∷◌, [], ◌++◌, map, IfOk, OnOk, Ok, false};
ghost use Rattle.std.specs.List.{flat_map};
ghost use Rattle.std.specs.Fmt.{decimal, digit_glyph, digits};
ghost use Rattle.guest_script.specs.Grammar.{script as script_of_bytes};
ghost use Rattle.guest_script.specs.Keywords.{spelling};
ghost use Rattle.guest_script.specs.Print.{entry_word, head_lines, hex, level_lines, line_text, mask_words, op_words, operand_word, printed, program_lines, programs_lines, schedule_words, word_words};
ghost use Rattle.guest_script.specs.Printing.{spelled};

use crate::keyword::Keyword;
use crate::{Script, Turns};
use std::alloc::{AllocError, Global};
use vsm_base::{Gva, Items, Limits, Mask, Memory, Page};
use vsm_core::{Op, Operand, Program};

/// A word of a line.
#[derive(Clone, Copy, Debug, PartialEq, Eq)]
pub enum Word<'a> {
    Text(&'a [u8]),
    Decimal(u64),
    /// A value or an address.
    Hex(u128),
}

fn hex_digit(digit: u8) -> u8
    requires { digit ≤ 15 }
    ensures { result ≡ digit_glyph false digit }
{
    if digit < 10 {
        b'0' + digit
    } else {
        b'a' + (digit - 10)
    }
}

// The hexadecimal digits of a number, at the end of the buffer.
fn hex_digits(n: u128, buffer: &mut [u8; 32]) -> &[u8]
    ensures { result.now ≡ digits 16 false n }
{
    let mut at = 31;
    let mut rest = n;
    while rest >= 16 {
        buffer[at] = hex_digit((rest % 16) as u8);
        rest /= 16;
        at -= 1;
    }
    buffer[at] = hex_digit(rest as u8);
    &buffer[at..]
}

fn push_word(text: &mut Vec<u8>, word: &Word<'_>) -> Result<(), AllocError>
    ensures { OnOk result (text.new.items ≡ text.old.items ++ spelled word.now) }
{
    match word {
        Word::Text(bytes) => text.extend_from_slice(bytes),
        Word::Decimal(n) => {
            let mut buffer = itoa::Buffer::new();
            text.extend_from_slice(buffer.format(*n).as_bytes())
        }
        Word::Hex(n) => {
            let mut buffer = [0u8; 32];
            text.extend_from_slice(b"0x")?;
            text.extend_from_slice(hex_digits(*n, &mut buffer))
        }
    }
}

// A line of a first word and the words after it.
fn push_line(text: &mut Vec<u8>, first: &[u8], others: &[Word<'_>]) -> Result<(), AllocError>
    ensures { OnOk result (text.new.items ≡ text.old.items ++ line_text (first.now ∷ map spelled others.now)) }
{
    text.extend_from_slice(first)?;
    for word in others {
        text.push(b' ')?;
        push_word(text, word)?;
    }
    text.push(b'\n')?;
    Ok(())
}

fn address_word(address: &Gva) -> Word<'static>
    ensures { spelled result ≡ hex address.now.0 }
{
    Word::Hex(u128::from(address.0))
}

fn operand_word(operand: &Operand) -> Word<'static>
    ensures { spelled result ≡ operand_word operand.now }
{
    match operand {
        Operand::Number(n) => Word::Hex(u128::from(*n)),
        Operand::Register(name) => Word::Text(name.text()),
    }
}

fn push_op(text: &mut Vec<u8>, op: &Op) -> Result<(), AllocError>
    ensures { OnOk result (text.new.items ≡ text.old.items ++ line_text (op_words op.now)) }
{
    match op {
        Op::Set(name, value) => {
            let words = [Word::Text(name.text()), Word::Hex(*value)];
            push_line(text, Keyword::Set.text(), &words)
        }
        Op::Get(name) => push_line(text, Keyword::Get.text(), &[Word::Text(name.text())]),
        Op::Load(name, address) => {
            let words = [Word::Text(name.text()), address_word(address)];
            push_line(text, Keyword::Load.text(), &words)
        }
        Op::Store(address, value) => {
            let words = [address_word(address), operand_word(value)];
            push_line(text, Keyword::Store.text(), &words)
        }
        Op::Exec(address) => push_line(text, Keyword::Exec.text(), &[address_word(address)]),
        Op::Spin(address, value) => {
            let words = [address_word(address), Word::Hex(u128::from(*value))];
            push_line(text, Keyword::Spin.text(), &words)
        }
        Op::Jump(target) => push_line(text, Keyword::Jump.text(), &[Word::Decimal(*target)]),
        Op::JumpNe(name, value, target) => {
            let words = [
                Word::Text(name.text()),
                Word::Hex(u128::from(*value)),
                Word::Decimal(*target),
            ];
            push_line(text, Keyword::JumpNe.text(), &words)
        }
        Op::Invlpg(address) => push_line(text, b"invlpg", &[address_word(address)]),
        Op::Hypercall => push_line(text, Keyword::Hypercall.text(), &[]),
        Op::VtlCall => push_line(text, Keyword::VtlCall.text(), &[]),
        Op::VtlReturn => push_line(text, Keyword::VtlReturn.text(), &[]),
        Op::Poll => push_line(text, Keyword::Poll.text(), &[]),
        Op::Ack(name) => push_line(text, Keyword::Ack.text(), &[Word::Text(name.text())]),
        Op::Eoi => push_line(text, Keyword::Eoi.text(), &[]),
        Op::Eom => push_line(text, Keyword::Eom.text(), &[]),
    }
}

// A line of a word of the language and a number.
fn push_number(text: &mut Vec<u8>, first: Keyword, n: u64) -> Result<(), AllocError>
    ensures { OnOk result (text.new.items ≡ text.old.items ++ line_text (spelling first ∷ decimal n ∷ [])) }
{
    push_line(text, first.text(), &[Word::Decimal(n)])
}

fn push_head(text: &mut Vec<u8>, limits: &Limits, started: u8) -> Result<(), AllocError>
    ensures { OnOk result (text.new.items ≡ text.old.items ++ flat_map line_text (head_lines limits.now started)) }
{
    push_number(text, Keyword::Vsm, 1)?;
    push_number(text, Keyword::Vps, u64::from(limits.vps))?;
    push_number(text, Keyword::Pages, u64::from(limits.pages))?;
    push_number(text, Keyword::Budget, u64::from(limits.budget))?;
    push_number(text, Keyword::Started, u64::from(started))
}

fn push_masks(text: &mut Vec<u8>, masks: &[(Page, Mask)]) -> Result<(), AllocError>
    ensures { OnOk result (text.new.items ≡ text.old.items ++ flat_map line_text (map mask_words masks.now)) }
{
    for mask in masks {
        let words = [
            Word::Decimal(u64::from(mask.0.0)),
            Word::Decimal(u64::from(mask.1.bits())),
        ];
        push_line(text, Keyword::Mask.text(), &words)?;
    }
    Ok(())
}

fn push_words(text: &mut Vec<u8>, words: &[(Page, u16, u64)]) -> Result<(), AllocError>
    ensures { OnOk result (text.new.items ≡ text.old.items ++ flat_map line_text (map word_words words.now)) }
{
    for word in words {
        let fields = [
            Word::Decimal(u64::from(word.0.0)),
            Word::Decimal(u64::from(word.1)),
            Word::Hex(u128::from(word.2)),
        ];
        push_line(text, Keyword::Word.text(), &fields)?;
    }
    Ok(())
}

fn push_ops(text: &mut Vec<u8>, ops: &[Op]) -> Result<(), AllocError>
    ensures { OnOk result (text.new.items ≡ text.old.items ++ flat_map line_text (map op_words ops.now)) }
{
    for op in ops {
        push_op(text, op)?;
    }
    Ok(())
}

// The program of a processor's level, where it has operations.
fn push_level(text: &mut Vec<u8>, vp: u64, level: u64, ops: &[Op]) -> Result<(), AllocError>
    ensures { OnOk result (text.new.items ≡ text.old.items ++ flat_map line_text (level_lines vp level ops.now)) }
{
    if ops.is_empty() {
        return Ok(());
    }
    let words = [Word::Decimal(vp), Word::Decimal(level)];
    push_line(text, Keyword::Program.text(), &words)?;
    push_ops(text, ops)
}

fn push_program(text: &mut Vec<u8>, vp: u64, program: &Program) -> Result<(), AllocError>
    ensures { OnOk result (text.new.items ≡ text.old.items ++ flat_map line_text (program_lines vp program.now)) }
{
    push_level(text, vp, 0, program.zero.as_slice())?;
    push_level(text, vp, 1, program.one.as_slice())
}

fn push_programs(text: &mut Vec<u8>, programs: &[Program]) -> Result<(), AllocError>
    ensures { OnOk result (text.new.items ≡ text.old.items ++ flat_map line_text (programs_lines 0 programs.now)) }
{
    for (vp, program) in programs.iter().enumerate() {
        push_program(text, vp as u64, program)?;
    }
    Ok(())
}

fn push_entry(text: &mut Vec<u8>, turns: &Turns) -> Result<(), AllocError>
    ensures { OnOk result (text.new.items ≡ text.old.items ++ entry_word turns.now) }
{
    push_word(text, &Word::Decimal(u64::from(turns.vp.0)))?;
    if turns.single {
        text.push(b'!')?;
    }
    if turns.count == 1 {
        return Ok(());
    }
    text.push(b'*')?;
    push_word(text, &Word::Decimal(u64::from(turns.count)))
}

fn push_entries(text: &mut Vec<u8>, turns: &[Turns]) -> Result<(), AllocError>
    ensures { OnOk result (text.new.items ≡ text.old.items ++ line_text (schedule_words turns.now)) }
{
    text.extend_from_slice(Keyword::Schedule.text())?;
    for entry in turns {
        text.push(b' ')?;
        push_entry(text, entry)?;
    }
    text.push(b'\n')?;
    Ok(())
}

fn push_schedule(text: &mut Vec<u8>, schedule: &[Items<Turns>]) -> Result<(), AllocError>
    ensures { OnOk result (text.new.items ≡ text.old.items ++ flat_map line_text (map schedule_words schedule.now)) }
{
    for turns in schedule {
        push_entries(text, turns.as_slice())?;
    }
    Ok(())
}

fn push_script(text: &mut Vec<u8>, script: &Script) -> Result<(), AllocError>
    ensures { OnOk result (text.new.items ≡ text.old.items ++ printed script.now) }
{
    push_head(text, &script.limits, script.started)?;
    push_masks(text, script.masks.as_slice())?;
    push_words(text, script.words.as_slice())?;
    push_programs(text, script.programs.as_slice())?;
    push_schedule(text, script.schedule.as_slice())?;
    push_line(text, Keyword::End.text(), &[])
}

/// The text of a script: its opening lines, masks, words, programs by processor and level, schedule and end, a line
/// each. Words are parted by one space; values and addresses are in hexadecimal digits, all other numbers in decimal
/// ones. The form is this project's own. A script that was read is read again from its text.
///
/// # Errors
///
/// `Memory` where there was no memory.
pub fn print(alloc: Global, script: &Script) -> Result<Vec<u8>, Memory>
    ensures text { IfOk result (λ text. text.items ≡ printed script.now) }
    ensures reads_back { (bytes : List ℕ) → script_of_bytes bytes ≡ Ok script.now → script_of_bytes (printed script.now) ≡ Ok script.now }
{
    let mut text = Vec::new(alloc);
    push_script(&mut text, script)?;
    Ok(text)
}

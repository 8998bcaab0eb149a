// The fields of a line.
ghost use Rattle.std.specs.Prelude.{◌≡◌, ◌<◌, ◌≤◌, IfOk, position, ◌==◌};
ghost use Rattle.guest_script.specs.Lines.{words_of};
ghost use Rattle.guest_script.specs.Fields.{Gives, any_number, number, is_target, is_named, any_register, register, named_register, begins_with_letter, register_operand, number_operand, operand, no_more, entry};

use crate::numbers::{number_of, numeral};
use crate::words::next_word;
use crate::{Turns, Why};
use vsm_base::{Name, VpIndex};
use vsm_core::Operand;

/// Any number, and what follows it.
#[tactic(auto, unfolding(crate::specs::Fields::any_number))]
pub fn any_number(line: &[u8]) -> Result<(u128, &[u8]), Why>
    ensures { Gives (λ x. (x.0, words_of x.1.now)) result (any_number (words_of line.now)) }
{
    let Some((word, rest)) = next_word(line) else {
        return Err(Why::MissingWord);
    };
    let Some(n) = number_of(word) else {
        return Err(Why::BadNumber);
    };
    Ok((n, rest))
}

/// A number from `low` on and below `high`, and what follows it.
#[tactic(auto, unfolding(crate::specs::Fields::number))]
pub fn number(line: &[u8], low: u128, high: u128) -> Result<(u128, &[u8]), Why>
    ensures said { Gives (λ x. (x.0, words_of x.1.now)) result (number low high (words_of line.now)) }
    ensures in_range { IfOk result (λ x. (low ≤ x.0) × (x.0 < high)) }
{
    let (n, rest) = any_number(line)?;
    if low <= n && n < high {
        Ok((n, rest))
    } else {
        Err(Why::OutOfRange)
    }
}

// Whether it is a general register or Rsp, into which a load or an acknowledgement writes.
fn is_target(name: Name) -> bool
    ensures { result ≡ is_target name }
{
    match name {
        Name::Rsp => true,
        _ => name.general(),
    }
}

// Whether `set` and `get` may name it.
fn is_named(name: Name) -> bool
    ensures { result ≡ is_named name }
{
    match name {
        Name::Rip
        | Name::CrInterceptControl
        | Name::CrInterceptCr0Mask
        | Name::CrInterceptCr4Mask => false,
        _ => true,
    }
}

// The name of any register, and what follows it.
#[tactic(auto, unfolding(crate::specs::Fields::any_register))]
fn any_register(line: &[u8]) -> Result<(Name, &[u8]), Why>
    ensures { Gives (λ x. (x.0, words_of x.1.now)) result (any_register (words_of line.now)) }
{
    let Some((word, rest)) = next_word(line) else {
        return Err(Why::MissingWord);
    };
    let Some(name) = Name::spelled(word) else {
        return Err(Why::BadName);
    };
    Ok((name, rest))
}

/// The name of a general register or Rsp, and what follows it.
#[tactic(auto, unfolding(crate::specs::Fields::register))]
pub fn register(line: &[u8]) -> Result<(Name, &[u8]), Why>
    ensures { Gives (λ x. (x.0, words_of x.1.now)) result (register (words_of line.now)) }
{
    let (name, rest) = any_register(line)?;
    if is_target(name) {
        Ok((name, rest))
    } else {
        Err(Why::BadName)
    }
}

/// The name of a register that `set` and `get` may name, and what follows it.
#[tactic(auto, unfolding(crate::specs::Fields::named_register))]
pub fn named_register(line: &[u8]) -> Result<(Name, &[u8]), Why>
    ensures { Gives (λ x. (x.0, words_of x.1.now)) result (named_register (words_of line.now)) }
{
    let (name, rest) = any_register(line)?;
    if is_named(name) {
        Ok((name, rest))
    } else {
        Err(Why::BadName)
    }
}

// Whether a word is a name where it can be a name or a number.
fn begins_with_letter(word: &[u8]) -> bool
    ensures { result ≡ begins_with_letter word.now }
{
    match word.first() {
        None => false,
        Some(byte) => byte.is_ascii_alphabetic(),
    }
}

// The name of a general register as what a store writes, and what follows it.
#[tactic(auto, unfolding(crate::specs::Fields::register_operand))]
fn register_operand(line: &[u8]) -> Result<(Operand, &[u8]), Why>
    ensures { Gives (λ x. (x.0, words_of x.1.now)) result (register_operand (words_of line.now)) }
{
    let (name, rest) = any_register(line)?;
    if name.general() {
        Ok((Operand::Register(name), rest))
    } else {
        Err(Why::BadName)
    }
}

// A number below 2^64 as what a store writes, and what follows it.
#[tactic(auto, unfolding(crate::specs::Fields::number_operand))]
fn number_operand(line: &[u8]) -> Result<(Operand, &[u8]), Why>
    ensures { Gives (λ x. (x.0, words_of x.1.now)) result (number_operand (words_of line.now)) }
{
    let (n, rest) = number(line, 0, 1 << 64)?;
    Ok((Operand::Number(n as u64), rest))
}

/// What a store writes, and what follows it. A word that begins with a letter is a register's name.
#[tactic(auto, unfolding(crate::specs::Fields::operand))]
pub fn operand(line: &[u8]) -> Result<(Operand, &[u8]), Why>
    ensures { Gives (λ x. (x.0, words_of x.1.now)) result (operand (words_of line.now)) }
{
    let Some((word, _)) = next_word(line) else {
        return Err(Why::MissingWord);
    };
    if begins_with_letter(word) {
        register_operand(line)
    } else {
        number_operand(line)
    }
}

/// That no word follows.
#[tactic(auto, unfolding(crate::specs::Fields::no_more))]
pub fn no_more(line: &[u8]) -> Result<(), Why>
    ensures { Gives (λ x. x) result (no_more (words_of line.now)) }
{
    match next_word(line) {
        None => Ok(()),
        Some(_) => Err(Why::ExtraWord),
    }
}

fn star(word: &[u8]) -> Option<usize>
    ensures { result ≡ position (λ b. b == 42) word.now }
{
    word.iter().position(|b| *b == b'*')
}

/// An entry of a schedule of so many processors.
#[tactic(auto, unfolding(crate::specs::Fields::entry))]
pub fn entry(vps: u8, word: &[u8]) -> Result<Turns, Why>
    ensures said { Gives (λ x. x) result (entry vps word.now) }
    ensures known { IfOk result (λ t. t.vp.0 < vps) }
{
    let (vp, count) = match star(word) {
        None => (numeral(word, 10, 39), Some(1)),
        Some(at) => (
            numeral(&word[..at], 10, 39),
            numeral(&word[at + 1..], 10, 39),
        ),
    };
    let (Some(vp), Some(count)) = (vp, count) else {
        return Err(Why::BadEntry);
    };
    if vp < u128::from(vps) && 1 <= count && count <= 100_000 {
        Ok(Turns {
            vp: VpIndex(vp as u8),
            single: false,
            count: count as u32,
        })
    } else {
        Err(Why::OutOfRange)
    }
}

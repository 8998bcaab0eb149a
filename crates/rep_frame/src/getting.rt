// The slices of a call that gets registers.
ghost use Rattle.std.specs.Prelude.{◌≡◌, ◌+◌, ◌*◌, ◌-◌, ◌/◌, ◌%◌, ◌^◌, ◌<◌, ◌≤◌, None, Some, take, drop, slice_set, MatchResult, IfOk};
ghost use Rattle.vsm_core.specs.RegisterCalls.{get_refusal as get_refusal_lem, value_in_call, value_named, register_of as register_of_lem, look_in as look_in_lem};
ghost use Rattle.vsm_core.specs.Reps.{acting, refusing};
ghost use Rattle.rep_frame.specs.Frames.{past_of, advanced};
ghost use Rattle.rep_frame.specs.Asks.{look_calls};
ghost use Rattle.rep_frame.specs.Ends.{end_from};
ghost use Rattle.rep_frame.specs.Slices.{state_with, half_at as half_at_lem, slice_numbers, number_refusals, end_of, slice_got};

use crate::frame::RepFrame;
use crate::slice_end::{Acted, SliceEnd, settle};
use hyper_abi::{get_refusal, register_of};
use register_file::Bank;
use vsm_base::{HvStatus, Vtl};
use vsm_core::CallRegister;
use vsm_status::{Capabilities, CodePageOffsets, VpStatus};

/// Where the code of the two switches begins. This project's own places.
const OFFSETS: CodePageOffsets = CodePageOffsets {
    call: 0x10,
    back: 0x20,
};

/// What the hypervisor offers. This project's own choice.
const OFFERED: Capabilities = Capabilities {
    dr6_shared: true,
    deny_startup: true,
};

/// The half of a word at this place, the low half of each word first.
fn half_at(words: &[u64; 32], place: u16) -> u32
    requires { place < 64 }
    ensures { result ≡ half_at_lem words.now place }
{
    let word = words[(place / 2) as usize];
    if place % 2 == 0 {
        (word % (1 << 32)) as u32
    } else {
        (word / (1 << 32)) as u32
    }
}

/// What a register of a level has. The end of a message has no value, and the partition's registers are known there alone.
fn value_of(bank: &Bank, status: VpStatus, target: Vtl, register: CallRegister) -> u128
    ensures { result ≡ value_in_call (state_with bank.now status.active status.one_enabled) target register }
{
    match register {
        CallRegister::Kept(name) => bank.get(target, name),
        CallRegister::CodePageOffsets => u128::from(OFFSETS.bits()),
        CallRegister::VpStatus => u128::from(status.bits()),
        CallRegister::Capabilities => u128::from(OFFERED.bits()),
        CallRegister::EndOfMessage
        | CallRegister::PartitionStatus
        | CallRegister::PartitionConfig => 0,
    }
}

/// The value of the register of an element, or what refuses it.
fn get_element(
    bank: &Bank,
    status: VpStatus,
    target: Vtl,
    count: u16,
    number: u32,
) -> Result<u128, HvStatus>
    ensures refusal { MatchResult result (λ value. get_refusal_lem status.active target count number ≡ None) (λ refusal. get_refusal_lem status.active target count number ≡ Some refusal) }
    ensures value { IfOk result (λ value. value ≡ value_named (state_with bank.now status.active status.one_enabled) target (register_of_lem number)) }
{
    if let Some(refusal) = get_refusal(status.active, target, count, number) {
        return Err(refusal);
    }
    match register_of(number) {
        Some(register) => Ok(value_of(bank, status, target, register)),
        None => Ok(0),
    }
}

/// Puts out the value of the element of this index, the low word first.
fn put_value(output: &mut [u64; 16], index: u16, value: u128)
    requires { index < 8 }
    ensures { output.new ≡ slice_set (slice_set output.old (2 * index) (value % 2 ^ 64)) (2 * index + 1) (value / 2 ^ 64) }
{
    let at = 2 * index as usize;
    output[at] = (value % (1 << 64)) as u64;
    output[at + 1] = (value >> 64) as u64;
}

/// Puts out the values of the registers of a slice's elements, up to the first that is refused.
fn get_elements(
    bank: &Bank,
    status: VpStatus,
    target: Vtl,
    frame: &RepFrame,
    words: &[u64; 32],
    output: &mut [u64; 16],
) -> Acted
    ensures done { result.done ≡ acting (number_refusals status.active target frame.now words.now) }
    ensures within { result.done ≤ past_of frame.now - frame.now.next }
    ensures refusal { result.refusal ≡ refusing (number_refusals status.active target frame.now words.now) }
    ensures output { take (2 * result.done) output.new ≡ slice_got status.active target frame.now words.now (state_with bank.now status.active status.one_enabled) }
    ensures rest { drop (2 * result.done) output.new ≡ drop (2 * result.done) output.old }
{
    let (first, past) = frame.slice();
    let count = frame.count();
    for index in 0..past - first {
        let number = half_at(words, first % 2 + index);
        match get_element(bank, status, target, count, number) {
            Ok(value) => put_value(output, index, value),
            Err(refusal) => {
                return Acted {
                    done: index,
                    refusal: Some(refusal),
                };
            }
        }
    }
    Acted {
        done: past - first,
        refusal: None,
    }
}

/// Puts out the values of the registers of the elements of a call's next slice, up to the first that is refused, for a
/// caller of the active level that means one of the levels (TLFS, HvCallGetVpRegisters). The words begin with those that
/// hold the slice, each of two elements, the low half first; where the slice begins at an odd element the first half is
/// the element before it. Those behind them aren't looked at. Answers how many words were put out, two for each element,
/// the low one first; all others of the output stay. The frame then counts the elements. Which elements are refused is told at
/// `hyper_abi::get_refusal`.
pub fn get_slice(
    bank: &Bank,
    status: VpStatus,
    target: Vtl,
    frame: &mut RepFrame,
    words: &[u64; 32],
    output: &mut [u64; 16],
) -> (u8, SliceEnd)
    ensures words { result.0 ≡ 2 * acting (number_refusals status.active target frame.old words.now) }
    ensures few { result.0 ≤ 16 }
    ensures output { take result.0 output.new ≡ slice_got status.active target frame.old words.now (state_with bank.now status.active status.one_enabled) }
    ensures rest { drop result.0 output.new ≡ drop result.0 output.old }
    ensures frame { frame.new ≡ advanced frame.old (acting (number_refusals status.active target frame.old words.now)) }
    ensures end { end_from result.1 ≡ end_of frame.old (number_refusals status.active target frame.old words.now) }
{
    let acted = get_elements(bank, status, target, frame, words, output);
    let put_out = 2 * acted.done as u8;
    (put_out, settle(frame, acted))
}

/// A register that the partition alone knows.
#[derive(Clone, Copy, Debug, PartialEq, Eq)]
pub enum Look {
    /// Its status (TLFS, HvRegisterVsmPartitionStatus).
    Status,
    /// Its configuration (TLFS, HvRegisterVsmPartitionConfig).
    Config,
}

/// The register that a call which gets registers asks of the partition, if it does: the one that the slice's first element
/// names, where that isn't refused; such a call has no other element. The words begin with those that hold the call's next
/// slice. Which elements are refused is told at `hyper_abi::get_refusal`.
pub fn look_in(frame: &RepFrame, caller: Vtl, target: Vtl, words: &[u64; 32]) -> Option<Look>
    ensures { look_calls result ≡ look_in_lem caller target frame.now.count (slice_numbers frame.now words.now) }
{
    let (first, past) = frame.slice();
    if first >= past {
        return None;
    }
    let number = half_at(words, first % 2);
    if get_refusal(caller, target, frame.count(), number).is_some() {
        return None;
    }
    match register_of(number)? {
        CallRegister::PartitionStatus => Some(Look::Status),
        CallRegister::PartitionConfig => Some(Look::Config),
        _ => None,
    }
}

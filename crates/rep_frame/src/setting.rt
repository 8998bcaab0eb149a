// The slices of a call that sets registers.
ghost use Rattle.std.specs.Prelude.{◌≡◌, ◌-◌, ◌<◌, ◌≤◌, Bool, None, IfSome};
ghost use Rattle.vsm_base.specs.declared.places.Vtl.{Vtl};
ghost use Rattle.vsm_core.specs.RegisterCalls.{set_one, set_refusal as set_refusal_lem, write_in as write_in_lem};
ghost use Rattle.vsm_core.specs.Reps.{acting, refusing};
ghost use Rattle.hyper_abi.specs.Told.{setting_from};
ghost use Rattle.rep_frame.specs.Frames.{past_of, advanced};
ghost use Rattle.rep_frame.specs.Asks.{write_calls};
ghost use Rattle.rep_frame.specs.Ends.{end_from};
ghost use Rattle.rep_frame.specs.Slices.{state_with, setting_at as setting_at_lem, setting_refusals, slice_settings, end_of, slice_set};

use crate::frame::RepFrame;
use crate::slice_end::{Acted, SliceEnd, settle};
use hyper_abi::{Setting, register_of, set_refusal};
use register_file::Bank;
use vsm_base::{HvStatus, Vtl};
use vsm_core::CallRegister;

/// The element of this index among those that the words hold.
fn setting_at(words: &[u64; 32], index: u16) -> Setting
    requires { index < 8 }
    ensures { setting_from result ≡ setting_at_lem words.now index }
{
    let at = 4 * index as usize;
    Setting::of(words[at], words[at + 1], words[at + 2], words[at + 3])
}

/// Sets the register of an element, if nothing refuses it.
fn set_element(
    bank: &mut Bank,
    caller: Vtl,
    target: Vtl,
    count: u16,
    setting: &Setting,
) -> Option<HvStatus>
    ensures refusal { result ≡ set_refusal_lem caller target count (setting_from setting.now) }
    ensures acts { result ≡ None → (active : Vtl) (enabled : Bool) → state_with bank.new active enabled ≡ set_one target (state_with bank.old active enabled) (setting_from setting.now) }
    ensures keeps { IfSome result (λ status. bank.new ≡ bank.old) }
{
    let refusal = set_refusal(caller, target, count, setting);
    if refusal.is_some() {
        return refusal;
    }
    if let Some(CallRegister::Kept(name)) = register_of(setting.number) {
        let _ = bank.put(target, name, setting.value);
    }
    None
}

/// Sets the registers of a slice's elements, up to the first that is refused.
fn set_elements(
    bank: &mut Bank,
    caller: Vtl,
    target: Vtl,
    frame: &RepFrame,
    words: &[u64; 32],
) -> Acted
    ensures done { result.done ≡ acting (setting_refusals caller target frame.now words.now) }
    ensures within { result.done ≤ past_of frame.now - frame.now.next }
    ensures refusal { result.refusal ≡ refusing (setting_refusals caller target frame.now words.now) }
    ensures registers { (active : Vtl) (enabled : Bool) → state_with bank.new active enabled ≡ slice_set caller target frame.now words.now (state_with bank.old active enabled) }
{
    let (first, past) = frame.slice();
    let count = frame.count();
    for index in 0..past - first {
        let setting = setting_at(words, index);
        if let Some(status) = set_element(bank, caller, target, count, &setting) {
            return Acted {
                done: index,
                refusal: Some(status),
            };
        }
    }
    Acted {
        done: past - first,
        refusal: None,
    }
}

/// Sets the registers of the elements of a call's next slice, up to the first that is refused, for a caller of one level
/// that means one of the levels (TLFS, HvCallSetVpRegisters). The words begin with those of the slice, four for each
/// element; those behind them aren't looked at. The frame then counts the elements that acted. Which elements are refused is
/// told at `hyper_abi::set_refusal`.
pub fn set_slice(
    bank: &mut Bank,
    caller: Vtl,
    target: Vtl,
    frame: &mut RepFrame,
    words: &[u64; 32],
) -> SliceEnd
    ensures registers { (active : Vtl) (enabled : Bool) → state_with bank.new active enabled ≡ slice_set caller target frame.old words.now (state_with bank.old active enabled) }
    ensures frame { frame.new ≡ advanced frame.old (acting (setting_refusals caller target frame.old words.now)) }
    ensures end { end_from result ≡ end_of frame.old (setting_refusals caller target frame.old words.now) }
{
    let acted = set_elements(bank, caller, target, frame, words);
    settle(frame, acted)
}

/// The value that a call which sets registers gives the partition's configuration, if it does (TLFS,
/// HvRegisterVsmPartitionConfig): that of the slice's first element, where it names this register and isn't refused; such a
/// call has no other element. The words begin with those of the call's next slice. Which elements are refused is told at
/// `hyper_abi::set_refusal`.
pub fn write_in(frame: &RepFrame, caller: Vtl, target: Vtl, words: &[u64; 32]) -> Option<u128>
    ensures { write_calls result ≡ write_in_lem caller target frame.now.count (slice_settings frame.now words.now) }
{
    let (first, past) = frame.slice();
    if first >= past {
        return None;
    }
    let setting = setting_at(words, 0);
    if set_refusal(caller, target, frame.count(), &setting).is_some() {
        return None;
    }
    match register_of(setting.number)? {
        CallRegister::PartitionConfig => Some(setting.value),
        _ => None,
    }
}

// The registers that the calls get and set, and what refuses an element.
ghost use Rattle.std.specs.Prelude.{◌≡◌, None, Some, true};
ghost use Rattle.vsm_core.specs.Calls.{first_failed};
ghost use Rattle.vsm_core.specs.RegisterCalls.{register_of, is_level_one, is_partitions, is_end_of_message, is_read_alone, is_own_rip, takes_value, names_one, name_checks, setting_of, set_refusal, get_refusal};
ghost use Rattle.hyper_abi.specs.Told.{setting_from, value_checks};

use register_file::is_legal;
use vsm_base::{HvStatus, Name, Vtl};
use vsm_core::CallRegister;

/// An element of a call that sets registers (TLFS, HV_REGISTER_ASSOC).
#[derive(Clone, Copy, Debug, PartialEq, Eq)]
pub struct Setting {
    /// The number of the register.
    pub number: u32,
    /// Whether the bits between the number and the value are zero, as they must be.
    pub padded: bool,
    /// The value that the register is to have.
    pub value: u128,
}

impl Setting {
    /// The element of these four words: the number in bits 31:0 of the first, and the value in the last two, the low one
    /// first.
    pub fn of(first: u64, second: u64, third: u64, fourth: u64) -> Setting
        ensures { setting_from result ≡ setting_of first second third fourth }
    {
        Setting {
            number: (first % (1 << 32)) as u32,
            padded: first / (1 << 32) == 0 && second == 0,
            value: (u128::from(fourth) << 64) + u128::from(third),
        }
    }
}

/// The register of this number, as the calls that get and set registers name it (TLFS, HV_REGISTER_NAME). The numbers are
/// this project's own table after it.
///
/// `None` exactly where no register has the number.
#[tactic(auto, unfolding(vsm_core::specs::RegisterCalls::register_of, vsm_core::specs::RegisterCalls::own_registers))]
pub fn register_of(number: u32) -> Option<CallRegister>
    ensures { result ≡ register_of number }
{
    if let Some(name) = Name::of(number) {
        return Some(CallRegister::Kept(name));
    }
    match number {
        0x000A_0014 => Some(CallRegister::EndOfMessage),
        0x000D_0002 => Some(CallRegister::CodePageOffsets),
        0x000D_0003 => Some(CallRegister::VpStatus),
        0x000D_0004 => Some(CallRegister::PartitionStatus),
        0x000D_0006 => Some(CallRegister::Capabilities),
        0x000D_0007 => Some(CallRegister::PartitionConfig),
        _ => None,
    }
}

/// Whether it is a register of level 1 alone.
fn is_level_one(register: CallRegister) -> bool
    ensures { result ≡ is_level_one register }
{
    matches!(
        register,
        CallRegister::Kept(
            Name::CrInterceptControl | Name::CrInterceptCr0Mask | Name::CrInterceptCr4Mask
        ) | CallRegister::PartitionConfig
    )
}

/// Whether it is a register of the partition.
fn is_partitions(register: CallRegister) -> bool
    ensures { result ≡ is_partitions register }
{
    matches!(
        register,
        CallRegister::PartitionStatus | CallRegister::PartitionConfig
    )
}

fn is_end_of_message(register: CallRegister) -> bool
    ensures { result ≡ is_end_of_message register }
{
    matches!(register, CallRegister::EndOfMessage)
}

/// Whether it is a register that isn't written.
fn is_read_alone(register: CallRegister) -> bool
    ensures { result ≡ is_read_alone register }
{
    matches!(
        register,
        CallRegister::CodePageOffsets
            | CallRegister::VpStatus
            | CallRegister::PartitionStatus
            | CallRegister::Capabilities
    )
}

/// Whether it is Rip of the caller's own level.
fn is_own_rip(caller: Vtl, target: Vtl, register: CallRegister) -> bool
    ensures { result ≡ is_own_rip caller target register }
{
    caller == target && matches!(register, CallRegister::Kept(Name::Rip))
}

/// Whether the register takes this value.
fn takes_value(value: u128, register: CallRegister) -> bool
    ensures { result ≡ takes_value value register }
{
    match register {
        CallRegister::Kept(name) => is_legal(name, value),
        _ => true,
    }
}

/// What refuses a call of so many elements that names this register, if something does.
fn name_refusal(caller: Vtl, target: Vtl, count: u16, register: CallRegister) -> Option<HvStatus>
    ensures { result ≡ first_failed (name_checks caller target count (Some register)) }
{
    if is_partitions(register) && count != 1 {
        return Some(HvStatus::INVALID_PARAMETER);
    }
    if is_level_one(register) && caller == Vtl::Zero {
        return Some(HvStatus::ACCESS_DENIED);
    }
    if (is_level_one(register) && target == Vtl::Zero) || is_end_of_message(register) {
        return Some(HvStatus::INVALID_PARAMETER);
    }
    None
}

/// What refuses to set this register, which may be named, if something does.
fn value_refusal(
    caller: Vtl,
    target: Vtl,
    setting: &Setting,
    register: CallRegister,
) -> Option<HvStatus>
    ensures refusal { result ≡ first_failed (value_checks caller target (setting_from setting.now) register) }
    ensures takes { result ≡ None → takes_value setting.now.value register ≡ true }
{
    if !setting.padded || is_read_alone(register) || is_own_rip(caller, target, register) {
        return Some(HvStatus::INVALID_PARAMETER);
    }
    if !takes_value(setting.value, register) {
        return Some(HvStatus::INVALID_REGISTER_VALUE);
    }
    None
}

/// Why an element of a call that gets registers is refused, if it is, where a caller of this level means that level and the
/// call has so many elements, below 4096.
///
/// The first of these that holds, in this project's own order: `HvStatus::INVALID_PARAMETER` where no register has the
/// number, or where it is a register of the partition, its status or its configuration, and the call has other elements;
/// `HvStatus::ACCESS_DENIED` where it is a register of level 1 alone, the partition's configuration among them, and the
/// caller is level 0; and `HvStatus::INVALID_PARAMETER` where it is one and level 0 is meant, or where it is the end of a
/// message. `None` exactly where none does.
pub fn get_refusal(caller: Vtl, target: Vtl, count: u16, number: u32) -> Option<HvStatus>
    ensures { result ≡ get_refusal caller target count number }
{
    match register_of(number) {
        Some(register) => name_refusal(caller, target, count, register),
        None => Some(HvStatus::INVALID_PARAMETER),
    }
}

/// Why an element of a call that sets registers is refused, if it is, where a caller of this level means that level and the
/// call has so many elements, below 4096.
///
/// The first of these that holds, in this project's own order: the causes of `get_refusal` in theirs; then
/// `HvStatus::INVALID_PARAMETER` where the bits between the number and the value aren't zero, where the register isn't
/// written, or where it is Rip of the caller's own level; and `HvStatus::INVALID_REGISTER_VALUE` where the value has a bit
/// that must be zero. `None` exactly where none does.
pub fn set_refusal(caller: Vtl, target: Vtl, count: u16, setting: &Setting) -> Option<HvStatus>
    ensures refusal { result ≡ set_refusal caller target count (setting_from setting.now) }
    ensures takes { result ≡ None → names_one (takes_value setting.now.value) (register_of setting.now.number) ≡ true }
{
    let Some(register) = register_of(setting.number) else {
        return Some(HvStatus::INVALID_PARAMETER);
    };
    match name_refusal(caller, target, count, register) {
        Some(status) => Some(status),
        None => value_refusal(caller, target, setting, register),
    }
}

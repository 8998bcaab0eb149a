// What an input value asks for.
ghost use Rattle.std.specs.Prelude.{◌≡◌, ◌↔◌, ◌<◌, IsErrOf, IsNone, IsSome, IsSomeAnd, IsTrue, IfOk, MatchResult};
ghost use Rattle.vsm_core.specs.Calls.{row_of, code_in, control_in, read, is_malformed as is_malformed_lem};
ghost use Rattle.hyper_abi.specs.Told.{row_from, control_from, stray_bits};

use crate::form::{CallForm, form_of};
use vsm_base::HvStatus;

/// What a caller asks for by a hypercall's input value (TLFS, Hypercall Inputs).
#[derive(Clone, Copy, Debug, PartialEq, Eq)]
pub struct Control {
    /// The call's code, bits 15:0.
    pub code: u16,
    /// Whether the input stands in registers, bit 16.
    pub fast: bool,
    /// How many elements a rep call has, bits 43:32, below 4096. 0 of another call.
    pub count: u16,
    /// The first element that isn't done, bits 59:48, below the count. 0 of another call.
    pub start: u16,
}

/// Whether a bit is set that must be zero whatever the call: the variable header size, bits 26:17, or one of the bits
/// 31:27, 47:44 and 63:60.
fn has_stray_bits(value: u64) -> bool
    ensures { result ≡ stray_bits value }
{
    let header_size = value / (1 << 17) % (1 << 10);
    let low = value / (1 << 27) % (1 << 5);
    let middle = value / (1 << 44) % (1 << 4);
    let high = value / (1 << 60);
    header_size != 0 || low != 0 || middle != 0 || high != 0
}

/// Whether this call refuses an input value.
#[tactic(auto, unfolding(vsm_core::specs::Calls::form_checks))]
pub fn is_malformed(form: CallForm, value: u64) -> bool
    ensures { result ≡ is_malformed_lem (row_from form) value }
{
    let Control {
        code: _,
        fast,
        count,
        start,
    } = Control::of(value);
    let stray_count = if form.rep {
        count == 0 || start >= count
    } else {
        count != 0 || start != 0
    };
    has_stray_bits(value) || (fast && !form.fast) || stray_count
}

impl Control {
    /// The fields of an input value.
    pub(crate) fn of(value: u64) -> Control
        ensures { control_from result ≡ control_in value }
    {
        Control {
            code: (value % (1 << 16)) as u16,
            fast: value / (1 << 16) % 2 == 1,
            count: (value / (1 << 32) % (1 << 12)) as u16,
            start: (value / (1 << 48) % (1 << 12)) as u16,
        }
    }

    /// Reads an input value. That the nested bit, bit 31, and the variable header size, bits 26:17, must be zero, and
    /// the order of the refusals, are this project's own.
    ///
    /// # Errors
    /// `HvStatus::INVALID_HYPERCALL_CODE` exactly where no call has the code. Else
    /// `HvStatus::INVALID_HYPERCALL_INPUT` exactly where a bit is set that must be zero, the variable header size or one
    /// of the bits 31:27, 47:44 and 63:60; where it is fast and the call may not be; where the call is no rep call and
    /// the count or the start isn't 0; or where it is a rep call and the count is 0 or the start isn't below the count.
    pub fn read(value: u64) -> Result<Control, HvStatus>
        ensures read { MatchResult result (λ control. read value ≡ Ok (control_from control)) (λ status. read value ≡ Err status) }
        ensures code { IsErrOf result HvStatus.INVALID_HYPERCALL_CODE ↔ IsNone (row_of (code_in value)) }
        ensures input { IsErrOf result HvStatus.INVALID_HYPERCALL_INPUT ↔ IsSomeAnd (row_of (code_in value)) (λ row. IsTrue (is_malformed_lem row value)) }
        ensures known { IfOk result (λ control. IsSome (row_of control.code)) }
        ensures count { IfOk result (λ control. control.count < 4096) }
        ensures start { IfOk result (λ control. control.start < 4096) }
    {
        let control = Control::of(value);
        let Some(form) = form_of(control.code) else {
            return Err(HvStatus::INVALID_HYPERCALL_CODE);
        };
        if is_malformed(form, value) {
            Err(HvStatus::INVALID_HYPERCALL_INPUT)
        } else {
            Ok(control)
        }
    }
}

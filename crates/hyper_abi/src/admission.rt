// What refuses a call before its first step.
ghost use Rattle.std.specs.Prelude.{◌≡◌, ◌+◌, ◌*◌, ◌/◌, ◌%◌, ◌<◌, ◌≤◌, None, Some, IfOk, MatchResult, true, false};
ghost use Rattle.vsm_core.specs.Calls.{row_of, code_in, is_fast, count_in, start_in, first_failed};
ghost use Rattle.vsm_core.specs.Hypercalls.{input_refusal, input_size, output_size, has_output, place_checks};
ghost use Rattle.vsm_core.specs.Reps.{slice_past, first_word, words_between};
ghost use Rattle.hyper_abi.specs.Told.{row_from, row_for};

use crate::control::Control;
use crate::form::{Call, CallForm};
use vsm_base::HvStatus;

/// A call that isn't refused before its first step.
#[derive(Clone, Copy, Debug, PartialEq, Eq)]
pub struct Admission {
    pub call: Call,
    /// Whether its input stands in registers.
    pub fast: bool,
    /// How many elements a rep call has, below 4096. 0 of another call.
    pub count: u16,
    /// The first element that isn't done, below the count. 0 of another call.
    pub start: u16,
}

/// What refuses the places of an input and of an output in memory, if something does: each must begin at a multiple of 8
/// and end in its page, and that page must be one of so many.
fn place_refusal(
    pages: u32,
    form: CallForm,
    value: u64,
    address: u64,
    output: u64,
) -> Option<HvStatus>
    ensures result { result ≡ first_failed (place_checks pages (row_from form) value address output) }
    ensures page { result ≡ None → address / 4096 < pages }
    ensures extent { result ≡ None → address % 4096 + input_size (row_from form) value ≤ 4096 }
    ensures output_page { result ≡ None → has_output (row_from form) ≡ true → output / 4096 < pages }
    ensures output_extent { result ≡ None → has_output (row_from form) ≡ true → output % 4096 + output_size (row_from form) value ≤ 4096 }
{
    let count = value / (1 << 32) % (1 << 12);
    let end = address % 4096 + u64::from(form.header) + u64::from(form.element) * count;
    let output_end = output % 4096 + u64::from(form.output) * count;
    let puts_out = form.output != 0;
    if address % 4096 % 8 != 0 || (puts_out && output % 4096 % 8 != 0) {
        return Some(HvStatus::INVALID_ALIGNMENT);
    }
    if end > 4096 || (puts_out && output_end > 4096) {
        return Some(HvStatus::INVALID_HYPERCALL_INPUT);
    }
    if address / 4096 >= u64::from(pages) || (puts_out && output / 4096 >= u64::from(pages)) {
        return Some(HvStatus::INVALID_PARAMETER);
    }
    None
}

/// Judges a call before its first step, by its input value, the addresses of its input and of its output, and the number
/// of pages there are. The input of a fast call stands in registers, and the addresses aren't looked at; nor is that of the
/// output where the call puts out nothing. Of any other call that isn't refused the header and the slice of its elements
/// that begins at its start stand in a page that there is, and so does its output.
///
/// # Errors
/// In this order, which is this project's own: those of `Control::read`. Then, of a call that isn't fast,
/// `HvStatus::INVALID_ALIGNMENT` where the address of the input or of the output isn't a multiple of 8 (TLFS, Hypercall
/// Inputs), `HvStatus::INVALID_HYPERCALL_INPUT` where the header and all elements, or the output of all elements, pass the
/// end of the page, and `HvStatus::INVALID_PARAMETER` where the page isn't one of those that there are.
pub fn admit(pages: u32, value: u64, address: u64, output: u64) -> Result<Admission, HvStatus>
    ensures admits { MatchResult result (λ a. input_refusal pages (row_of (code_in value)) value address output ≡ None) (λ status. input_refusal pages (row_of (code_in value)) value address output ≡ Some status) }
    ensures call { IfOk result (λ a. row_of (code_in value) ≡ Some (row_for a.call)) }
    ensures fast { IfOk result (λ a. a.fast ≡ is_fast value) }
    ensures count { IfOk result (λ a. a.count ≡ count_in value) }
    ensures start { IfOk result (λ a. a.start ≡ start_in value) }
    ensures few { IfOk result (λ a. a.count < 4096) }
    ensures below { IfOk result (λ a. (row_for a.call).is_rep ≡ true → a.start < a.count) }
    ensures page { IfOk result (λ a. a.fast ≡ false → address / 4096 < pages) }
    ensures header { IfOk result (λ a. a.fast ≡ false → address % 4096 / 8 + (row_for a.call).header / 8 ≤ 512) }
    ensures slice { IfOk result (λ a. a.fast ≡ false → address % 4096 / 8 + (row_for a.call).header / 8 + first_word (row_for a.call).read a.start + words_between (row_for a.call).read a.start (slice_past a.start a.count) ≤ 512) }
    ensures output_page { IfOk result (λ a. a.fast ≡ false → has_output (row_for a.call) ≡ true → output / 4096 < pages) }
    ensures output { IfOk result (λ a. a.fast ≡ false → has_output (row_for a.call) ≡ true → output % 4096 / 8 + 2 * a.count ≤ 512) }
    ensures may_be_fast { IfOk result (λ a. a.fast ≡ true → (row_for a.call).may_be_fast ≡ true) }
{
    let control = Control::read(value)?;
    let Some(call) = Call::of(control.code) else {
        return Err(HvStatus::INVALID_HYPERCALL_CODE);
    };
    let admission = Admission {
        call,
        fast: control.fast,
        count: control.count,
        start: control.start,
    };
    if control.fast {
        return Ok(admission);
    }
    match place_refusal(pages, call.form(), value, address, output) {
        Some(status) => Err(status),
        None => Ok(admission),
    }
}

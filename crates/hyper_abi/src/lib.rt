//! The form of hypercalls: the calls there are, the input value, the result value, and the input page; and what refuses the
//! calls that get and set registers or request an interrupt.
#![tactic(auto)]

mod admission;
mod control;
mod form;
mod header;
mod interrupt;
mod page;
mod registers;
mod result_value;

pub use admission::{Admission, admit};
pub use control::Control;
pub use form::{Call, CallForm, form_of};
pub use header::{
    index_of, is_byte_form, is_byte_word, is_other_partition, level_meant, named, padding_of,
    register_refusal, target_level, target_of,
};
pub use interrupt::{Interrupt, interrupt_of, interrupt_refusal};
pub use page::InputPage;
pub use registers::{Setting, get_refusal, register_of, set_refusal};
pub use result_value::ResultValue;

#[cfg(test)]
mod interrupt_tests;
#[cfg(test)]
mod tests;

//! Rep calls: which elements one attempt takes, how far a call has come, and the slices of the calls that get and set
//! registers.
#![tactic(auto)]

mod frame;
mod getting;
mod setting;
mod slice_end;

pub use frame::RepFrame;
pub use getting::{Look, get_slice, look_in};
pub use setting::{set_slice, write_in};
pub use slice_end::SliceEnd;

#[cfg(test)]
mod tests;

//! The synthetic interrupt controller of level 1 of a processor, as far as messages go.
#![tactic(auto)]

mod controller;
mod slot;

pub use controller::{EomStep, Synic};
pub use slot::{is_open, with_pending};

#[cfg(test)]
mod tests;

//! A round of protection changes: its asks, a turn of the generation, a clear of each processor, and its report.
#![tactic(auto)]

mod asks;
mod round;
mod step;

pub use round::Round;
pub use step::RoundStep;

#[cfg(test)]
mod tests;

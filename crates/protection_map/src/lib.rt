//! The journal of a partition, and the protection masks that it leaves.
#![tactic(auto)]

mod journal;
mod tables;

pub use journal::Journal;

#[cfg(test)]
mod tests;

//! Which interrupt vectors wait at one level of a processor, and which of them is delivered next.
#![tactic(auto)]

mod pending;
mod priority;
mod sets;

pub use pending::Pending;

#[cfg(test)]
mod tests;

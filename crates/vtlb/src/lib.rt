//! The translations that a processor keeps of address pages that it has walked.
#![tactic(auto)]

mod cache;
mod past;
mod slot;
mod slots;

pub use cache::Cache;
pub use slot::Cached;

#[cfg(test)]
mod tests;

//! Runs of scripts: the processors of a script act on shared words in plain memory, in the order of its schedule.
#![tactic(auto)]

mod acting;
mod leaving;
mod opening;
mod run;

pub use run::trace;

#[cfg(test)]
mod tests;

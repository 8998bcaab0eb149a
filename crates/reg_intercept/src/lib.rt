//! Which accesses to a processor's registers level 1 intercepts.
#![tactic(auto)]

mod bits;
mod watch;

pub use watch::Watch;

#[cfg(test)]
mod tests;

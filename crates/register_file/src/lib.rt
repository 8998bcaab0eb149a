//! The registers of a virtual processor at its two levels.
#![tactic(auto)]

mod bank;
mod context;
mod legal;
mod parts;
mod private_set;
mod shared_set;

pub use bank::{BadValue, Bank};
pub use context::Context;
pub use legal::is_legal;
pub use parts::{Segment, Table};
pub use private_set::PrivateSet;

#[cfg(test)]
mod tests;

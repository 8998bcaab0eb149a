//! The partition, which serves requests one at a time and adds one entry to its journal a turn.
#![tactic(auto)]

mod block;
mod checks;
mod plans;
mod running;
mod serving;
mod turn;

pub use serving::Partition;
pub use turn::PartTurn;

#[cfg(test)]
mod tests;

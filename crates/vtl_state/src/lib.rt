//! Which levels a processor has, which of them is active, and what its registers are there.
#![tactic(auto)]

mod levels;
mod registers;

pub use levels::Levels;
pub use registers::{go_on, privilege_of, put_legal, word_of};

#[cfg(test)]
mod tests;

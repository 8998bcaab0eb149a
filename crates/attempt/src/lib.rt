//! The attempts of one processor, apart from the shared words: what an operation asks next, and what the answer does.
#![tactic(auto)]

mod course;
mod finish;
mod hypercall;
mod path;
mod plans;
mod stage;
mod state;
mod under;

pub use stage::{Asked, Decided, Next, Stage, Step};
pub use state::{Controllers, VpState};
pub use under::Under;

#[cfg(test)]
mod tests;

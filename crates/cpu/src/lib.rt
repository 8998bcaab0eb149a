//! One virtual processor, a turn at a time.
#![tactic(auto)]

mod ask;
mod begun;
mod cpu_turn;
mod endings;
mod lengths;
mod log;
mod marks;
mod processor;

pub use cpu_turn::{CpuTurn, Pace};
pub use processor::Cpu;

#[cfg(test)]
mod eom_tests;
#[cfg(test)]
mod fed;
#[cfg(test)]
mod hypercall_tests;
#[cfg(test)]
mod interrupt_tests;
#[cfg(test)]
mod left;
#[cfg(test)]
mod message_tests;
#[cfg(test)]
mod poll_tests;
#[cfg(test)]
mod runs;
#[cfg(test)]
mod start_tests;
#[cfg(test)]
mod switch_tests;
#[cfg(test)]
mod tests;

//! The switches of a processor between its levels.
#![tactic(auto)]

mod assist;
mod lawful;
mod switches;

pub use assist::{assist_page, entry_word, reason_of, vina_of};
pub use lawful::may_enter;
pub use switches::{Back, Refused, call, call_kind, give_back, interrupt_entry, return_kind};

#[cfg(test)]
mod tests;

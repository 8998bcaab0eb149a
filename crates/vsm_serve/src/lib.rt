//! The top call: words, a source and a sink in, a status out.
#![tactic(auto)]

mod command;
mod serve;
mod status;

pub use serve::{serve_plain, vsm};
pub use status::Status;

//! The data of the model and its definitions, which every crate above cites.
#![tactic(auto)]

mod event;
mod journal;
mod laws;
mod mark;
mod note;
mod operation;
mod partition_state;
mod register;
mod request;
mod view;

pub use event::{Event, PendingWord, Phase};
pub use journal::Entry;
pub use laws::{
    attempts_are_short, attempts_are_sound, attempts_are_whole, parts_go_on,
    refused_calls_keep_the_rest, refused_elements_keep_the_rest, refused_requests_keep_the_rest,
    requests_add_few_entries, served_journals_are_whole,
};
pub use mark::{Denial, Ending, EomWord, Grant, GuestFault, Mark, Posted, What};
pub use note::{MemNote, Note, RegNote};
pub use operation::{Op, Operand, Program};
pub use partition_state::{Accepted, PartitionState, Standing};
pub use register::CallRegister;
pub use request::{Heard, PartCall, Reply, Request, Served};
pub use view::{PartitionView, ProcessorView, Told, Turning, View};

//! The report of a script's run, its text, and the runs that contracts compare it with.
#![tactic(auto)]

mod counts;
mod digits;
mod journal;
mod laws;
mod marks;
mod opening;
mod pieces;
mod report;
mod text_buffer;
mod words;
mod writer;

pub use counts::Counts;
pub use laws::{
    lines_tell_the_journal, lines_tell_the_marks, runs_serve_in_order, steps_come_to_attempts,
};
pub use pieces::{Piece, write_pieces};
pub use report::{Line, Report, StepWord, Track, add_entry, add_mark};
pub use writer::write;

#[cfg(test)]
mod writer_tests;

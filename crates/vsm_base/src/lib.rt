//! Numbers, masks, registers and statuses of the machine, and the outside as two traits.
#![tactic(auto)]

mod items;
mod mask;
mod mem_sink;
mod mem_source;
mod memory;
mod name;
mod outside;
mod places;
mod reserved;
mod status;
mod std_streams;
mod sure;
mod whole;

pub use items::Items;
pub use mask::Mask;
pub use mem_sink::MemSink;
pub use mem_source::MemSource;
pub use memory::Memory;
pub use name::Name;
pub use outside::{Got, Put, Sink, Source};
pub use places::{Access, Gva, Limits, Page, VpIndex, Vtl};
pub use reserved::Reserved;
pub use status::HvStatus;
pub use std_streams::{StdSink, StdSource};
pub use sure::{SureSink, SureSource};
pub use whole::{InputError, LIMIT, WriteFailed, put_whole, read_whole};

#[cfg(test)]
mod tests;

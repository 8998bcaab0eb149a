//! Messages of intercepts as bytes, both ways.
#![tactic(auto)]

mod decoder;
mod encoder;
mod head;
mod slot;

pub use decoder::decode;
pub use encoder::encode;
pub use slot::words;

#[cfg(test)]
mod tests;

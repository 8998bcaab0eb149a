//! The language of scripts: what a script says, its reader and its printer, and large scripts from a number.
#![tactic(auto)]

mod again;
mod fields;
mod keyword;
mod maker;
mod numbers;
mod printer;
mod programs;
mod reader;
mod reading;
mod schedule;
mod script;
mod tokens;
mod word_list;
mod words;

pub use maker::make;
pub use numbers::numeral;
pub use printer::print;
pub use reader::{ReadError, read};
pub use script::{Refusal, Script, Turns, Why};
pub use tokens::{Token, next_token};

#[cfg(test)]
mod print_tests;
#[cfg(test)]
mod refusal_tests;
#[cfg(test)]
mod tests;

//! Runs worked cases, which are given as text: scripts and the reports that were worked out apart from the program.
#![tactic(auto)]

mod case;
mod case_line;
mod comparison;
mod malformed;
mod marks;
mod reading;
mod runner;
#[cfg(test)]
mod tests;
mod verdict_line;
mod whole_run;

use std::io;
use std::process::ExitCode;
use vsm_base::{StdSink, StdSource};
use whole_run::run_file;

fn main(rt: HostRuntime) -> io::Result<ExitCode> {
    let mut source = StdSource::new(rt.stdin());
    let mut sink = StdSink::new(rt.stdout());
    let ending = run_file(rt.alloc(), &mut source, &mut sink);
    Ok(ExitCode::from(ending as u8))
}

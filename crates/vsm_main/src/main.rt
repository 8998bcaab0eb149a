//! The program: a script in, a report out; and large scripts from a number.
#![tactic(auto)]

ghost use Rattle.std.specs.Prelude.{map, string_bytes};
ghost use Rattle.std.specs.Process.{exit_status};
ghost use Rattle.vsm_serve.specs.Serve.{Exits};
ghost use Rattle.vsm_serve.specs.Streams.{reading, writing};

use std::alloc::Global;
use std::env;
use std::io::ErrorKind;
use std::process::ExitCode;
use std::sync::Wait;
use std::thread::Threads;
use vsm_base::{Memory, Sink, Source, StdSink, StdSource};
pub use vsm_run::trace;
pub use vsm_serve::{Status, serve_plain, vsm};

#[cfg(test)]
mod cases;
#[cfg(test)]
mod interrupted_sets;
#[cfg(test)]
mod tests;

// The words of the command line behind the program's name. They are none where one isn't UTF-8, which no command has.
fn words(rt: &HostRuntime) -> Result<Vec<String>, Memory> {
    let mut words = Vec::new(rt.alloc());
    match env::args(rt) {
        Ok(args) => {
            for word in args.skip(1) {
                words.push(word)?;
            }
            Ok(words)
        }
        Err(error) if error.kind() == ErrorKind::InvalidData => Ok(words),
        Err(_) => Err(Memory),
    }
}

// Does what the words say, and answers the number of the status as what the process ends with.
fn answer<R: Threads + Wait + Sync + Alloc<A = Global>, S: Source, K: Sink>(
    rt: &R,
    words: &[String],
    source: &mut S,
    sink: &mut K,
) -> ExitCode
    ensures { Exits (exit_status result) (map string_bytes words.now)
        (reading S.Source source.old source.new) (writing K.Sink sink.old sink.new) }
{
    let status = vsm(rt, rt.alloc(), words, source, sink);
    ExitCode::from(status.number())
}

fn main(rt: HostRuntime) -> ExitCode {
    let mut source = StdSource::new(rt.stdin());
    let mut sink = StdSink::new(rt.stdout());
    match words(&rt) {
        Ok(words) => answer(&rt, words.as_slice(), &mut source, &mut sink),
        Err(Memory) => ExitCode::from(Status::Memory.number()),
    }
}

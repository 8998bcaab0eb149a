// The words of a command line.
ghost use Rattle.std.specs.Prelude.{◌≡◌, ◌≤◌, IfSome, map, string_bytes};
ghost use Rattle.vsm_serve.specs.Commands.{begins_with_zero, command_of, size_of, sized, IsSized};

use guest_script::numeral;

/// What the program is told to do.
#[derive(Clone, Copy, Debug, PartialEq, Eq)]
pub enum Command {
    /// To read a script and write the report of its run.
    Trace,
    /// To write the script of a number, 1 to 1,000.
    Make(u32),
    /// To run the script of a number, 1 to 1,000, and write the run in numbers.
    Sample(u32),
}

fn begins_with_zero(word: &[u8]) -> bool
    ensures { result ≡ begins_with_zero word.now }
{
    word.first() == Some(&b'0')
}

// The number from 1 to 1,000 that a word spells without a leading zero.
fn size_of(word: &[u8]) -> Option<u32>
    ensures size { result ≡ size_of word.now }
    ensures range { IfSome result (λ n. (1 ≤ n) × (n ≤ 1000)) }
{
    if begins_with_zero(word) {
        return None;
    }
    let n = numeral(word, 10, 39)?;
    if 1 <= n && n <= 1000 {
        Some(n as u32)
    } else {
        None
    }
}

// A command with a number.
fn sized(word: &[u8], size: Option<u32>) -> Option<Command>
    requires { IfSome size (λ n. (1 ≤ n) × (n ≤ 1000)) }
    ensures command { result ≡ sized word.now size }
    ensures size { IfSome result IsSized }
{
    let n = size?;
    if word == b"make".as_slice() {
        return Some(Command::Make(n));
    }
    if word == b"sample".as_slice() {
        return Some(Command::Sample(n));
    }
    None
}

/// The command that the words are: `trace`, or `make` or `sample` and a number. The words are this project's own.
pub fn command_of(words: &[String]) -> Option<Command>
    ensures command { result ≡ command_of (map string_bytes words.now) }
    ensures size { IfSome result IsSized }
{
    match words {
        [word] if word.as_bytes() == b"trace".as_slice() => Some(Command::Trace),
        [word, size] => sized(word.as_bytes(), size_of(size.as_bytes())),
        _ => None,
    }
}

// The reader of a file of cases, line by line.
ghost use Rattle.std.specs.Prelude.{◌≡◌, length};

use crate::case::{Case, LineError, Pad};
use crate::case_line::{CaseLine, read_line, split_at_byte};
use crate::malformed::Cause;
use std::alloc::Global;
use std::mem;

/// Lines with a name.
#[derive(Debug, Drop)]
struct Part {
    name: Vec<u8>,
    text: Vec<u8>,
}

/// Which lines may come next.
#[derive(Clone, Copy, Debug, PartialEq, Eq)]
enum Place {
    Outside,
    /// The lines of the last part.
    Part,
    /// The settings and the script of a case.
    Script,
    /// The text that a case gives.
    Text,
}

/// What has been read so far.
#[derive(Debug, Drop)]
pub struct Reading {
    place: Place,
    parts: Vec<Part>,
    case: Case,
}

fn find<'a>(parts: &'a [Part], name: &[u8]) -> Option<&'a Part> {
    for part in parts {
        if part.name.as_slice() == name {
            return Some(part);
        }
    }
    None
}

fn drop_line_feed(text: &mut Vec<u8>) -> Result<(), LineError> {
    match text.pop() {
        Some(b'\n') => Ok(()),
        _ => Err(LineError::Malformed(Cause::NoLine)),
    }
}

fn word_bytes(word: &[u8]) -> &[u8] {
    if word == b"\"\"".as_slice() {
        return &word[..0];
    }
    word
}

// The words, each as a string.
fn words_of(alloc: Global, line: &[u8]) -> Result<Vec<String>, LineError> {
    let mut words = Vec::new(alloc);
    let mut rest = line;
    while !rest.is_empty() {
        let (word, others) = split_at_byte(rest, b' ');
        match str::from_utf8(word_bytes(word)) {
            Ok(word) => words.push(String::from_str(alloc, word)?)?,
            Err(_) => return Err(LineError::Malformed(Cause::Words)),
        }
        rest = others;
    }
    Ok(words)
}

fn fill(script: &mut Vec<u8>, byte: u8, size: usize) -> Result<(), LineError> {
    if size < script.len() {
        return Err(LineError::Malformed(Cause::TooLong));
    }
    for _ in script.len()..size {
        script.push(byte)?;
    }
    Ok(())
}

fn padded(script: &mut Vec<u8>, pad: Pad) -> Result<(), LineError> {
    match pad {
        Pad::Nothing => Ok(()),
        Pad::Lines(size) => fill(script, b'\n', size),
        Pad::Comment(size) => {
            fill(script, b'#', size.saturating_sub(1))?;
            script.push(b'\n')?;
            Ok(())
        }
    }
}

impl Reading {
    /// Nothing read yet.
    pub fn new(alloc: Global) -> Reading {
        Reading {
            place: Place::Outside,
            parts: Vec::new(alloc),
            case: Case::empty(alloc),
        }
    }

    // The case that ends here, if one does.
    fn ended(&mut self, alloc: Global) -> Result<Option<Case>, LineError> {
        match self.place {
            Place::Outside | Place::Part => Ok(None),
            Place::Script => Err(LineError::Malformed(Cause::NothingGiven)),
            Place::Text => {
                self.place = Place::Outside;
                let mut case = Case::empty(alloc);
                mem::swap(&mut self.case, &mut case);
                Ok(Some(case))
            }
        }
    }

    // Adds bytes to the text that is being read.
    fn add(&mut self, text: &[u8]) -> Result<(), LineError> {
        match self.place {
            Place::Outside => return Err(LineError::Malformed(Cause::Outside)),
            Place::Part => match self.parts.last_mut() {
                Some(part) => part.text.extend_from_slice(text)?,
                None => return Err(LineError::Malformed(Cause::Outside)),
            },
            Place::Script => self.case.script.extend_from_slice(text)?,
            Place::Text => self.case.expected.text.extend_from_slice(text)?,
        }
        Ok(())
    }

    // Takes the line feed off the text that is being read.
    fn unend(&mut self) -> Result<(), LineError> {
        match self.place {
            Place::Script => drop_line_feed(&mut self.case.script),
            Place::Text => drop_line_feed(&mut self.case.expected.text),
            _ => Err(LineError::Malformed(Cause::Place)),
        }
    }

    fn begin_case(&mut self, alloc: Global, name: &[u8]) -> Result<(), LineError> {
        self.case = Case::empty(alloc);
        self.case.name.extend_from_slice(name)?;
        self.case.words = words_of(alloc, b"trace")?;
        self.place = Place::Script;
        Ok(())
    }

    fn begin_part(&mut self, alloc: Global, name: &[u8]) -> Result<(), LineError> {
        if find(self.parts.as_slice(), name).is_some() {
            return Err(LineError::Malformed(Cause::Name));
        }
        let name = name.to_vec(alloc)?;
        let text = Vec::new(alloc);
        self.parts.push(Part { name, text })?;
        self.place = Place::Part;
        Ok(())
    }

    fn use_part(&mut self, alloc: Global, name: &[u8]) -> Result<(), LineError> {
        if self.place == Place::Part {
            return Err(LineError::Malformed(Cause::Place));
        }
        let text = match find(self.parts.as_slice(), name) {
            Some(part) => part.text.as_slice().to_vec(alloc)?,
            None => return Err(LineError::Malformed(Cause::UnknownPart)),
        };
        self.add(text.as_slice())
    }

    // A line about the script's run: it stands before the text.
    fn set(&mut self, alloc: Global, line: CaseLine<'_>) -> Result<(), LineError> {
        if self.place != Place::Script {
            return Err(LineError::Malformed(Cause::Place));
        }
        match line {
            CaseLine::Words(words) => self.case.words = words_of(alloc, words)?,
            CaseLine::Pad(pad) => padded(&mut self.case.script, pad)?,
            CaseLine::Pieces(read, write) => {
                self.case.streams.read = read;
                self.case.streams.write = write;
            }
            CaseLine::FailingRead(number) => self.case.streams.failing_read = number,
            CaseLine::FailingWrite(number) => self.case.streams.failing_write = number,
            CaseLine::Cuts => self.case.cuts = true,
            CaseLine::Gives(status, rule) => {
                self.case.expected.status = status;
                self.case.expected.rule = rule;
                self.place = Place::Text;
            }
            _ => {}
        }
        Ok(())
    }

    /// Takes a line. It answers the case that ends before this line, if one does.
    pub fn line(&mut self, alloc: Global, line: &[u8]) -> Result<Option<Case>, LineError> {
        match read_line(line)? {
            CaseLine::Nothing => {}
            CaseLine::Text(text) => {
                self.add(text)?;
                self.add(b"\n")?;
            }
            CaseLine::Use(name) => self.use_part(alloc, name)?,
            CaseLine::Unended => self.unend()?,
            CaseLine::Case(name) => {
                let case = self.ended(alloc)?;
                self.begin_case(alloc, name)?;
                return Ok(case);
            }
            CaseLine::Part(name) => {
                let case = self.ended(alloc)?;
                self.begin_part(alloc, name)?;
                return Ok(case);
            }
            other => self.set(alloc, other)?,
        }
        Ok(None)
    }

    /// The last case, at the end of the lines.
    pub fn end(&mut self, alloc: Global) -> Result<Option<Case>, LineError> {
        self.ended(alloc)
    }
}

// What a run of a processor must leave, a fact at a time.
use super::*;
use crate::runs::{Answer, LIMITS};
use fabric::Layout;
use vsm_base::{Name, Vtl};
use vsm_core::{Ending, Event, Mark, What};

/// What a run left: the processor, the shared words, and what the last attempt answered.
#[derive(Clone, Copy)]
pub struct Rest<'a> {
    pub cpu: &'a Cpu,
    pub words: &'a [u64],
    pub last: Option<Answer>,
}

/// A fact of what a run left. A mark goes by its place, and an event by its place in its mark.
#[derive(Clone, Copy, Debug)]
pub enum Left<'m, 'e> {
    /// What the last attempt answered.
    Last(Answer),
    /// These are the marks.
    Marks(&'m [Mark]),
    /// These are what the marks came to.
    Whats(&'m [What]),
    /// So many marks there are.
    Count(usize),
    /// So many of them stay.
    Standing(usize),
    Mark(usize, Mark),
    What(usize, What),
    /// The place of a mark's first event, and how many it has.
    Span(usize, u32, u32),
    /// These are the events.
    Seen(&'e [Event]),
    /// So many events there are.
    Steps(usize),
    /// These are a mark's events.
    Events(usize, &'e [Event]),
    /// So many events a mark has.
    Many(usize, usize),
    Event(usize, usize, Event),
    Ended(Option<Ending>),
    Active(Vtl),
    /// Whether level 1 is enabled.
    Enabled(bool),
    Register(Vtl, Name, u128),
    /// A word of memory, by its place in it.
    Word(usize, u64),
    /// The start word.
    Start(u64),
}

/// Whether the fact holds of what is left.
pub fn holds(rest: &Rest, left: &Left) -> bool {
    let cpu = rest.cpu;
    match left {
        Left::Last(turn) => rest.last == Some(*turn),
        Left::Marks(marks) => cpu.marks() == *marks,
        Left::Whats(whats) => same_whats(cpu.marks(), whats),
        Left::Count(count) => cpu.marks().len() == *count,
        Left::Standing(count) => cpu.standing() == *count,
        Left::Mark(place, mark) => has_mark(cpu, *place, mark),
        Left::What(place, what) => has_what(cpu, *place, what),
        Left::Span(place, first, count) => span(cpu, *place) == Some((*first, *count)),
        Left::Seen(events) => cpu.seen() == *events,
        Left::Steps(count) => cpu.seen().len() == *count,
        Left::Events(place, events) => has_events(cpu, *place, events),
        Left::Many(place, count) => has_many(cpu, *place, *count),
        Left::Event(place, index, event) => has_event(cpu, *place, *index, event),
        Left::Ended(ended) => cpu.ended() == *ended,
        Left::Active(level) => cpu.levels().active() == *level,
        Left::Enabled(enabled) => cpu.levels().enabled(Vtl::One) == *enabled,
        Left::Register(level, name, value) => cpu.bank().get(*level, *name) == *value,
        Left::Word(place, value) => has_word(
            rest.words,
            Layout::of(&LIMITS).memory,
            *place,
            *value,
        ),
        Left::Start(value) => has_word(rest.words, Layout::of(&LIMITS).start, 0, *value),
    }
}

fn same_whats(marks: &[Mark], whats: &[What]) -> bool {
    if marks.len() != whats.len() {
        return false;
    }
    for (mark, what) in marks.iter().zip(whats) {
        if mark.what != *what {
            return false;
        }
    }
    true
}

fn span(cpu: &Cpu, place: usize) -> Option<(u32, u32)> {
    let mark = cpu.marks().get(place)?;
    Some((mark.first, mark.count))
}

/// A mark's events, if there is such a mark.
fn events(cpu: &Cpu, place: usize) -> Option<&[Event]> {
    let (first, count) = span(cpu, place)?;
    let first = first as usize;
    cpu.seen().get(first..first + count as usize)
}

fn has_events(cpu: &Cpu, place: usize, wanted: &[Event]) -> bool {
    match events(cpu, place) {
        Some(found) => found == wanted,
        None => false,
    }
}

fn has_many(cpu: &Cpu, place: usize, count: usize) -> bool {
    match events(cpu, place) {
        Some(found) => found.len() == count,
        None => false,
    }
}

fn has_event(cpu: &Cpu, place: usize, index: usize, wanted: &Event) -> bool {
    match events(cpu, place) {
        Some(found) => found.get(index) == Some(wanted),
        None => false,
    }
}

fn has_mark(cpu: &Cpu, place: usize, wanted: &Mark) -> bool {
    cpu.marks().get(place) == Some(wanted)
}

fn has_what(cpu: &Cpu, place: usize, wanted: &What) -> bool {
    match cpu.marks().get(place) {
        Some(found) => found.what == *wanted,
        None => false,
    }
}

fn has_word(words: &[u64], first: u32, place: usize, wanted: u64) -> bool {
    words.get((first as usize).saturating_add(place)) == Some(&wanted)
}

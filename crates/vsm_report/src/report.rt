// What a run leaves.
ghost use Rattle.std.specs.Prelude.{◌≡◌, [], ◌∷◌, ◌++◌, ◌<◌, length};

use vsm_base::{Items, Mask, Page, Reserved, VpIndex};
use vsm_core::{Ending, Entry, Event, Mark, PendingWord};

/// An atomic step, as a line tells it.
#[derive(Clone, Copy, Debug, PartialEq, Eq)]
pub enum StepWord {
    /// The processor's busy word became 1.
    Enter,
    /// This generation was loaded.
    Check(u64),
    /// A page's mask was loaded.
    Mask(Page, Mask),
    /// A memory word was loaded, by page and place in the page.
    Read(Page, u16, u64),
    /// A memory word was written.
    Write(Page, u16, u64),
    /// The processor's busy word became 0.
    Leave,
    /// Bits were posted to a processor.
    Post(VpIndex, PendingWord, u64),
    /// Bits were taken.
    Take(PendingWord, u64),
    /// The processor takes the partition for its request.
    Hold,
    /// The processor's request waits while this processor holds the partition.
    Waits(VpIndex),
    /// The processor's round waits for this processor, whose busy word isn't clear.
    Busy(VpIndex),
    /// A step on nothing that is shared.
    Local,
}

/// A line of a report, in the order in which a run makes them.
#[derive(Clone, Copy, Debug, PartialEq, Eq)]
pub enum Line {
    /// A processor has made a step.
    Step(VpIndex, StepWord),
    /// The partition's journal has one entry more.
    Entry(Entry),
    /// A processor has left a mark.
    Mark(VpIndex, Mark),
}

/// What a processor has left, in order.
#[derive(Debug, Drop)]
pub struct Track {
    pub marks: Items<Mark>,
    pub seen: Items<Event>,
}

/// The report of a script's run.
#[derive(Debug, Drop)]
pub struct Report {
    /// Whether each processor was run by a thread of its own.
    pub threads: bool,
    /// The lines, where one thread ran all processors, so that they have an order.
    pub lines: Items<Line>,
    /// The partition's journal.
    pub journal: Items<Entry>,
    /// What each processor has left.
    pub tracks: Items<Track>,
    /// How each processor ended.
    pub ends: Items<Ending>,
    /// The mask of each page at the end.
    pub masks: Items<Mask>,
    /// The memory words at the end, in order of page and place.
    pub words: Items<u64>,
}

fn add<T: Drop>(items: &mut Reserved<T>, item: T)
    requires { length items.old.0 < items.old.1 }
    ensures { items.new ≡ (items.old.0 ++ item ∷ [], items.old.1) }
{
    items.push(item);
}

/// Adds the line of a processor's mark, in room that was taken before. The last two arguments are there for their
/// types: the check finds the enums that a line holds only where the signature of what moves a line names them.
pub fn add_mark(
    lines: &mut Reserved<Line>,
    vp: VpIndex,
    mark: &Mark,
    _step: &[StepWord],
    _entry: &[Entry],
)
    requires { length lines.old.0 < lines.old.1 }
    ensures { lines.new ≡ (lines.old.0 ++ Line.Mark vp mark.now ∷ [], lines.old.1) }
{
    add(lines, Line::Mark(vp, *mark));
}

/// Adds the line of an entry of the partition's journal, in room that was taken before. The last two arguments are there
/// for their types, as those of `add_mark`.
pub fn add_entry(lines: &mut Reserved<Line>, entry: &Entry, _step: &[StepWord], _mark: &[Mark])
    requires { length lines.old.0 < lines.old.1 }
    ensures { lines.new ≡ (lines.old.0 ++ Line.Entry entry.now ∷ [], lines.old.1) }
{
    add(lines, Line::Entry(*entry));
}

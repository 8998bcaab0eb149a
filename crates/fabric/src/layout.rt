// Where the shared words are.
ghost use Rattle.std.specs.Prelude.{◌≡◌, ◌+◌, ◌<◌, ◌≤◌};
ghost use Rattle.vsm_base.specs.Levels.{level_number};
ghost use Rattle.vsm_core.specs.Steps.{IsPending};
ghost use Rattle.vsm_core.specs.Whole.{memory_place, posted_place};
ghost use Rattle.vsm_core.specs.Words.{generation_at, busy_at, posted_at, memory_at, word_count};

use vsm_base::{Limits, Page, VpIndex, Vtl};
use vsm_core::PendingWord;

/// Where each part of the shared words begins, as the number of its first word, in the order in which the parts lie.
/// This project's own.
#[derive(Clone, Copy, Debug, PartialEq, Eq)]
pub struct Layout {
    /// A mask for each page.
    pub masks: u32,
    /// The generation, one word.
    pub generation: u32,
    /// A busy word for each processor.
    pub busy: u32,
    /// A start word for each processor.
    pub start: u32,
    /// Eight words of pending vectors for each processor: four for level 0, and then four for level 1.
    pub pending: u32,
    /// The 512 words of each page.
    pub memory: u32,
    /// How many words there are.
    pub length: u32,
}

impl Layout {
    /// The layout of a fabric of these limits. It needs at most 256 pages and at most 8 processors.
    pub fn of(limits: &Limits) -> Layout
        requires pages { limits.now.pages ≤ 256 }
        requires vps { limits.now.vps ≤ 8 }
        ensures masks { result.masks ≡ 0 }
        ensures generation { result.generation ≡ generation_at limits.now }
        ensures busy { result.busy ≡ busy_at limits.now 0 }
        ensures start { result.start ≡ posted_at limits.now }
        ensures pending { result.pending ≡ posted_at limits.now + limits.now.vps }
        ensures memory { result.memory ≡ memory_at limits.now }
        ensures length { result.length ≡ word_count limits.now }
    {
        let vps = limits.vps as u32;
        let busy = limits.pages + 1;
        let start = busy + vps;
        let pending = start + vps;
        let memory = pending + 8 * vps;
        Layout {
            masks: 0,
            generation: limits.pages,
            busy,
            start,
            pending,
            memory,
            length: memory + 512 * limits.pages,
        }
    }
}

/// The place of a processor's busy word.
pub fn busy_place(limits: &Limits, vp: VpIndex) -> usize
    requires pages { limits.now.pages ≤ 256 }
    requires vps { limits.now.vps ≤ 8 }
    ensures { result ≡ busy_at limits.now vp.0 }
{
    Layout::of(limits).busy as usize + vp.0 as usize
}

/// The place of a processor's start word or of one of its words of pending vectors.
pub fn posted_word(limits: &Limits, vp: VpIndex, word: PendingWord) -> usize
    requires pages { limits.now.pages ≤ 256 }
    requires vps { limits.now.vps ≤ 8 }
    requires is { IsPending word }
    ensures { result ≡ posted_at limits.now + posted_place limits.now vp.0 word }
{
    let layout = Layout::of(limits);
    let vp = vp.0 as usize;
    match word {
        PendingWord::Start => layout.start as usize + vp,
        PendingWord::Vectors { level, part } => {
            layout.pending as usize + 8 * vp + 4 * level_index(level) + part as usize
        }
    }
}

fn level_index(level: Vtl) -> usize
    ensures { result ≡ level_number level }
{
    match level {
        Vtl::Zero => 0,
        Vtl::One => 1,
    }
}

/// The place of a memory word.
pub fn memory_word(limits: &Limits, page: Page, index: u16) -> usize
    requires pages { limits.now.pages ≤ 256 }
    requires vps { limits.now.vps ≤ 8 }
    requires page { page.0 < limits.now.pages }
    ensures { result ≡ memory_at limits.now + memory_place page.0 index }
{
    Layout::of(limits).memory as usize + 512 * page.0 as usize + index as usize
}

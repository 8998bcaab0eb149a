// How a run begins.
ghost use Rattle.std.specs.Prelude.{◌≡◌, ◌+◌, ◌*◌, ◌≤◌, IfOk, length, slice_set};
ghost use Rattle.guest_script.specs.Within.{IsWithin};
ghost use Rattle.guest_script.specs.Schedules.{all_turns, turns_of};
ghost use Rattle.vsm_report.specs.Acting.{opening_vps};
ghost use Rattle.vsm_report.specs.Opening.{opening_masks, opening_words};

use cpu::Cpu;
use guest_script::{Script, Turns};
use std::alloc::Global;
use vsm_base::{Items, Mask, Memory, VpIndex};

fn set_at<T: Copy>(items: &mut Vec<T>, place: usize, item: T)
    ensures { items.new.items ≡ slice_set items.old.items place item }
{
    if place < items.len() {
        items[place] = item;
    }
}

/// The memory words with which a run begins.
#[tactic(auto, unfolding(vsm_report::specs::Opening::opening_words))]
pub fn opening_words(alloc: Global, script: &Script) -> Result<Vec<u64>, Memory>
    ensures words { IfOk result (λ words. words.items ≡ opening_words script.now) }
    ensures all { IfOk result (λ words. length words.items ≡ 512 * script.now.limits.pages) }
{
    let mut words = vec![in alloc; 0u64; 512 * script.limits.pages as usize]?;
    for (page, index, value) in script.words.as_slice() {
        set_at(&mut words, 512 * page.0 as usize + *index as usize, *value);
    }
    Ok(words)
}

/// The masks with which a run begins.
#[tactic(auto, unfolding(vsm_report::specs::Opening::opening_masks))]
pub fn opening_masks(alloc: Global, script: &Script) -> Result<Vec<Mask>, Memory>
    ensures masks { IfOk result (λ masks. masks.items ≡ opening_masks script.now) }
    ensures all { IfOk result (λ masks. length masks.items ≡ script.now.limits.pages) }
{
    let mut masks = vec![in alloc; Mask::all(); script.limits.pages as usize]?;
    for (page, mask) in script.masks.as_slice() {
        set_at(&mut masks, page.0 as usize, *mask);
    }
    Ok(masks)
}

/// The processors before their first attempts, with room for all that they leave.
#[tactic(auto, unfolding(vsm_report::specs::Acting::opening_vps))]
pub fn opening_cpus(alloc: Global, script: &Script) -> Result<Vec<Cpu>, Memory>
    requires { IsWithin script.now }
    ensures { IfOk result (λ cpus. cpus.items ≡ opening_vps script.now) }
{
    let programs = script.programs.as_slice();
    let mut cpus = Vec::new(alloc);
    for vp in 0..script.limits.vps {
        let started = vp < script.started;
        let program = &programs[vp as usize];
        let cpu = Cpu::new(alloc, VpIndex(vp), &script.limits, started, program)?;
        cpus.push(cpu)?;
    }
    Ok(cpus)
}

// The turns of a schedule line.
fn turns_of(entries: &[Turns]) -> usize
    requires { turns_of entries.now ≤ 100000 }
    ensures { result ≡ turns_of entries.now }
{
    let mut total = 0;
    for turns in entries {
        total += turns.count as usize;
    }
    total
}

/// The turns of a whole schedule.
pub fn all_turns(lines: &[Items<Turns>]) -> usize
    requires { all_turns lines.now ≤ 100000 }
    ensures { result ≡ all_turns lines.now }
{
    let mut total = 0;
    for entries in lines {
        total += turns_of(entries.as_slice());
    }
    total
}

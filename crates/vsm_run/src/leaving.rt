// What a run leaves.
ghost use Rattle.std.specs.Prelude.{◌≡◌, ◌+◌, ◌*◌, ◌≤◌, ◌++◌, IfOk, IsTrue, length, map, take, drop};
ghost use Rattle.fabric.specs.Plain.{HasMasks};
ghost use Rattle.vsm_base.specs.Masks.{is_mask};
ghost use Rattle.vsm_core.specs.Words.{memory_at};
ghost use Rattle.vsm_report.specs.Acting.{ending_of, report_with, track_of};
ghost use Rattle.vsm_run.specs.Rooms.{HasRooms};

use cpu::Cpu;
use fabric::{Layout, PlainFabric};
use std::alloc::Global;
use vsm_base::{Items, Limits, Mask, Memory, Reserved};
use vsm_core::{Ending, Entry, GuestFault};
use vsm_report::{Line, Report, Track};

/// Room for what a run leaves.
#[derive(Drop)]
pub struct Rooms {
    pub tracks: Reserved<Track>,
    pub ends: Reserved<Ending>,
    pub masks: Reserved<Mask>,
    pub words: Vec<u64>,
}

impl Rooms {
    /// Room for what processors and words of these limits leave; that of the memory words is this `Vec`, whatever it has.
    pub fn new(alloc: Global, limits: &Limits, words: Vec<u64>) -> Result<Rooms, Memory>
        requires { length words.items ≡ 512 * limits.now.pages }
        ensures { IfOk result (λ rooms. HasRooms rooms limits.now.vps limits.now) }
    {
        Ok(Rooms {
            tracks: Reserved::new(alloc, limits.vps as usize)?,
            ends: Reserved::new(alloc, limits.vps as usize)?,
            masks: Reserved::new(alloc, limits.pages as usize)?,
            words,
        })
    }
}

fn mask_of(bits: u64) -> Mask
    requires { IsTrue (is_mask bits) }
    ensures { result ≡ bits }
{
    let Some(mask) = Mask::of(bits as u32) else {
        unreachable!()
    };
    mask
}

fn add_masks(words: &[u64], masks: &mut Reserved<Mask>)
    requires valid { HasMasks (length words.now) words.now }
    requires room { length masks.old.0 + length words.now ≤ masks.old.1 }
    ensures { masks.new ≡ (masks.old.0 ++ words.now, masks.old.1) }
{
    for word in words {
        masks.push(mask_of(*word));
    }
}

fn ending_of(cpu: &Cpu) -> Ending
    ensures { result ≡ ending_of cpu.now }
{
    if !cpu.started() {
        return Ending::Unstarted;
    }
    cpu.ended().unwrap_or(Ending::Cut)
}

// The last argument is there for its type: the check finds the enum that an ending holds only where the signature of
// what moves an ending names it.
fn add_ends(cpus: &[Cpu], ends: &mut Reserved<Ending>, _fault: &[GuestFault])
    requires room { length ends.old.0 + length cpus.now ≤ ends.old.1 }
    ensures { ends.new ≡ (ends.old.0 ++ map ending_of cpus.now, ends.old.1) }
{
    for cpu in cpus {
        ends.push(ending_of(cpu));
    }
}

fn add_tracks(cpus: Vec<Cpu>, tracks: &mut Reserved<Track>)
    requires { length tracks.old.0 + length cpus.items ≤ tracks.old.1 }
    ensures { tracks.new ≡ (tracks.old.0 ++ map track_of cpus.items, tracks.old.1) }
{
    for cpu in cpus {
        let (marks, seen) = cpu.into_lists();
        tracks.push(Track { marks, seen });
    }
}

/// The report of what these words, processors, lines and journal are at the end.
pub fn left(
    limits: &Limits,
    fabric: &PlainFabric,
    cpus: Vec<Cpu>,
    lines: Reserved<Line>,
    journal: Items<Entry>,
    mut rooms: Rooms,
) -> Report
    requires limits { limits.now ≡ fabric.now.limits }
    requires rooms { HasRooms rooms (length cpus.items) limits.now }
    ensures { result ≡ report_with (record { words = fabric.now.fabric.words; partition = journal; vps = cpus.items; lines = lines.0 }) journal (take limits.now.pages fabric.now.fabric.words) (drop (memory_at limits.now) fabric.now.fabric.words) }
{
    let words = fabric.words();
    add_masks(&words[..limits.pages as usize], &mut rooms.masks);
    rooms
        .words
        .copy_from_slice(&words[Layout::of(limits).memory as usize..]);
    add_ends(&cpus, &mut rooms.ends, &[]);
    add_tracks(cpus, &mut rooms.tracks);
    Report {
        threads: false,
        lines: lines.into_items(),
        journal,
        tracks: rooms.tracks.into_items(),
        ends: rooms.ends.into_items(),
        masks: rooms.masks.into_items(),
        words: Items::from_vec(rooms.words),
    }
}

ghost use Rattle.std.specs.Prelude.{◌≡◌, ◌<◌, ◌+◌, ◌∷◌, [], length, IfOk};

use super::*;
use std::alloc::Global;
use std::test::Fail;
use vsm_base::{HvStatus, Limits, Mask, Memory, Page, VpIndex};
use vsm_core::Entry;

const LOOK: Entry = Entry::Look { by: VpIndex(0) };

const TURN: Entry = Entry::Turn {
    round: 1,
    by: VpIndex(0),
};

const CLEAR: Entry = Entry::Clear { vp: VpIndex(0) };

const REPORT: Entry = Entry::Report { round: 1 };

/// A journal of two pages that may be used in every way.
fn two_pages(alloc: Global) -> Result<Journal, Memory>
    ensures { IfOk result (λ journal. journal ≡ record { opening = 15 ∷ 15 ∷ []; entries = []; room = 14 }) }
{
    let limits = Limits {
        vps: 1,
        pages: 2,
        budget: 1,
    };
    Journal::new(alloc, &limits, &[Mask::all(), Mask::all()])
}

/// The mask that lets a page be read alone.
fn read_alone() -> Mask {
    Mask::of(1).unwrap()
}

/// Adds four entries.
fn look_four_times(journal: &mut Journal)
    requires { length journal.old.entries + 3 < journal.old.room }
    ensures entries { length journal.new.entries ≡ length journal.old.entries + 4 }
    ensures room { journal.new.room ≡ journal.old.room }
{
    journal.add(LOOK);
    journal.add(LOOK);
    journal.add(LOOK);
    journal.add(LOOK);
}

#[test]
fn entries_come_back_in_their_order(rt: HostRuntime) -> Result<(), Fail> {
    let mut journal = two_pages(rt.alloc())?;
    assert!(rt; journal.entries().is_empty());
    journal.add(TURN);
    journal.add(LOOK);
    journal.add(LOOK);
    journal.add(CLEAR);
    assert_eq!(rt; journal.entries(), [TURN, LOOK, LOOK, CLEAR].as_slice());
    Ok(())
}

#[test]
fn masks_follow_the_asks_before_and_after_a_report(rt: HostRuntime) -> Result<(), Fail> {
    let mut journal = two_pages(rt.alloc())?;
    assert_eq!(rt; journal.masks(), [Mask::all(), Mask::all()].as_slice());
    assert!(rt; journal.ask(1, read_alone()).is_ok());
    assert_eq!(rt; journal.masks(), [Mask::all(), read_alone()].as_slice());
    journal.add(REPORT);
    assert!(rt; journal.ask(1, Mask::all()).is_ok());
    assert!(rt; journal.ask(0, read_alone()).is_ok());
    assert_eq!(rt; journal.masks(), [read_alone(), Mask::all()].as_slice());
    Ok(())
}

#[test]
fn a_mask_settles_with_the_report_alone(rt: HostRuntime) -> Result<(), Fail> {
    let mut journal = two_pages(rt.alloc())?;
    assert!(rt; journal.ask(1, read_alone()).is_ok());
    journal.add(TURN);
    journal.add(CLEAR);
    assert_eq!(rt; journal.settled(Page(1)), Mask::all());
    assert_eq!(rt; journal.rounds(), 0);
    journal.add(REPORT);
    assert_eq!(rt; journal.settled(Page(1)), read_alone());
    assert_eq!(rt; journal.settled(Page(0)), Mask::all());
    assert_eq!(rt; journal.rounds(), 1);
    Ok(())
}

#[test]
fn an_ask_of_a_page_past_the_last_is_refused(rt: HostRuntime) -> Result<(), Fail> {
    let mut journal = two_pages(rt.alloc())?;
    assert_eq!(rt; journal.ask(2, read_alone()), Err(HvStatus(5)));
    assert_eq!(rt; journal.ask(1 << 32, read_alone()), Err(HvStatus(5)));
    assert!(rt; journal.entries().is_empty());
    assert_eq!(rt; journal.masks(), [Mask::all(), Mask::all()].as_slice());
    Ok(())
}

#[test]
fn the_smallest_run_has_room_for_13_entries(rt: HostRuntime) -> Result<(), Fail> {
    let limits = Limits {
        vps: 1,
        pages: 1,
        budget: 1,
    };
    let mut journal = Journal::new(rt.alloc(), &limits, &[Mask::all()])?;
    look_four_times(&mut journal);
    look_four_times(&mut journal);
    look_four_times(&mut journal);
    journal.add(REPORT);
    assert_eq!(rt; journal.entries().len(), 13);
    Ok(())
}

use super::*;
use std::test::Fail;
use vsm_base::{Access, VpIndex};
use vsm_core::{MemNote, Note, Posted, RegNote};

/// A slot's first word with a message in it.
const TAKEN: Option<u64> = Some(0x8000_0001);

const FREE: Option<u64> = Some(0);

/// A note of a denied access, told apart by its guest physical address.
fn note(gpa: u64) -> Note {
    Note::Memory(MemNote {
        vp: VpIndex(0),
        access: Access::Write,
        cs: 0,
        rip: 4,
        rflags: 2,
        gva: None,
        gpa,
    })
}

/// A note of a register that was to be written.
fn register_note() -> Note {
    Note::Register(RegNote {
        vp: VpIndex(1),
        write: true,
        cs: 0,
        rip: 5,
        rflags: 2,
        name: 0x0004_0001,
        value: 7,
    })
}

#[test]
fn a_slot_is_free_where_its_low_half_is_zero(rt: HostRuntime) {
    assert!(rt; is_open(FREE));
    assert!(rt; is_open(Some(1 << 40)));
    assert!(rt; is_open(Some(1 << 32)));
    assert!(rt; !is_open(Some(1)));
    assert!(rt; !is_open(Some(1 << 31)));
    assert!(rt; !is_open(TAKEN));
    assert!(rt; !is_open(None));
}

#[test]
fn pending_is_bit_40(rt: HostRuntime) {
    assert_eq!(rt; with_pending(0), 0x0100_0000_0000);
    assert_eq!(rt; with_pending(0x8000_0001), 0x0100_8000_0001);
    assert_eq!(rt; with_pending(0x0100_8000_0001), 0x0100_8000_0001);
}

#[test]
fn a_message_goes_to_a_free_slot(rt: HostRuntime) -> Result<(), Fail> {
    let mut synic = Synic::new(rt.alloc(), 1)?;
    assert_eq!(rt; synic.post(FREE, note(1)), Posted::Slot);
    assert_eq!(rt; synic.post(Some(1 << 40), note(2)), Posted::Slot);
    assert!(rt; synic.waiting().is_empty());
    assert_eq!(rt; synic.eom(FREE), EomStep::Nothing);
    Ok(())
}

#[test]
fn a_note_waits_where_the_slot_is_taken_or_off_or_an_older_one_waits(
    rt: HostRuntime,
) -> Result<(), Fail> {
    let mut synic = Synic::new(rt.alloc(), 3)?;
    assert_eq!(rt; synic.post(None, note(1)), Posted::Waiting);
    assert_eq!(rt; synic.post(TAKEN, register_note()), Posted::Waiting);
    assert_eq!(rt; synic.post(FREE, note(3)), Posted::Waiting);
    assert_eq!(rt;
        synic.waiting(),
        [note(1), register_note(), note(3)].as_slice()
    );
    Ok(())
}

#[test]
fn notes_come_out_once_and_the_oldest_first(rt: HostRuntime) -> Result<(), Fail> {
    let mut synic = Synic::new(rt.alloc(), 3)?;
    assert_eq!(rt; synic.eom(TAKEN), EomStep::Nothing);
    assert_eq!(rt; synic.post(TAKEN, note(1)), Posted::Waiting);
    assert_eq!(rt; synic.post(TAKEN, note(2)), Posted::Waiting);
    assert_eq!(rt; synic.post(TAKEN, register_note()), Posted::Waiting);
    assert_eq!(rt; synic.eom(TAKEN), EomStep::Waiting);
    assert_eq!(rt; synic.eom(None), EomStep::Waiting);
    assert_eq!(rt; synic.eom(FREE), EomStep::Slot(note(1), true));
    assert_eq!(rt; synic.eom(TAKEN), EomStep::Waiting);
    assert_eq!(rt; synic.eom(FREE), EomStep::Slot(note(2), true));
    assert_eq!(rt;
        synic.eom(Some(1 << 40)),
        EomStep::Slot(register_note(), false)
    );
    assert_eq!(rt; synic.eom(FREE), EomStep::Nothing);
    assert!(rt; synic.waiting().is_empty());
    Ok(())
}

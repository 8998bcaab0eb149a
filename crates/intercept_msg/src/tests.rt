use super::*;
use vsm_base::{Access, VpIndex};
use vsm_core::{MemNote, Note, RegNote};

/// A register intercept of processor 1.
fn of_register(write: bool, value: u128) -> Note {
    Note::Register(RegNote {
        vp: VpIndex(1),
        write,
        cs: 0,
        rip: 10,
        rflags: 2,
        name: 0x0004_0000,
        value,
    })
}

/// A memory intercept of processor 255.
fn of_memory(access: Access, gva: Option<u64>) -> Note {
    Note::Memory(MemNote {
        vp: VpIndex(255),
        access,
        cs: 0x00A0_9B00_0008_0000_0000_0000_0000_0007,
        rip: 0xFFFF_8000_0000_1234,
        rflags: 0x0001_0202,
        gva,
        gpa: 0x9FF8,
    })
}

/// Whether the note's message, with this byte at a place, is no note's.
fn refuses(note: &Note, place: usize, byte: u8) -> bool {
    let mut bytes = encode(note);
    let Some(changed) = bytes.get_mut(place) else {
        return false;
    };
    *changed = byte;
    decode(&bytes).is_none()
}

/// What the first so many bytes of the note's message and one more are decoded to.
fn decoded(note: &Note, len: usize) -> Option<Note> {
    let mut bytes = [0; 97];
    bytes[..96].copy_from_slice(&encode(note));
    decode(bytes.get(..len)?)
}

/// Whether the note's message has these words, and is decoded to the note.
fn stands_for(note: &Note, wanted: [u64; 12]) -> bool {
    words(note) == wanted && decode(&encode(note)) == Some(*note)
}

#[test]
fn a_register_write_has_its_words(rt: HostRuntime) {
    let wanted = [
        0x0000_0050_8001_0006,
        0,
        0x0000_0100_0000_0001,
        0,
        0,
        0xA,
        2,
        0x40000,
        0x8000_0003,
        0,
        0,
        0,
    ];
    assert!(rt; stands_for(&of_register(true, 0x8000_0003), wanted));
}

#[test]
fn a_memory_write_with_an_address_has_its_words(rt: HostRuntime) {
    let wanted = [
        0x0000_0050_8000_0001,
        0,
        0x0000_0100_0000_00FF,
        7,
        0x00A0_9B00_0008_0000,
        0xFFFF_8000_0000_1234,
        0x0001_0202,
        0x0000_0100_0000_0000,
        0x80_BFE0_3FF8,
        0x9FF8,
        0,
        0,
    ];
    let note = of_memory(Access::Write, Some(0x80_BFE0_3FF8));
    assert!(rt; stands_for(&note, wanted));
}

#[test]
fn a_memory_access_without_an_address_has_its_words(rt: HostRuntime) {
    for (access, place) in [
        (Access::Read, 0x0000_0000_0000_00FF),
        (Access::Write, 0x0000_0100_0000_00FF),
        (Access::Execute, 0x0000_0200_0000_00FF),
    ] {
        let wanted = [
            0x0000_0050_8000_0001,
            0,
            place,
            7,
            0x00A0_9B00_0008_0000,
            0xFFFF_8000_0000_1234,
            0x0001_0202,
            0,
            0,
            0x9FF8,
            0,
            0,
        ];
        assert!(rt; stands_for(&of_memory(access, None), wanted));
    }
}

#[test]
fn an_address_of_zero_is_an_address(rt: HostRuntime) {
    let note = of_memory(Access::Read, Some(0));
    assert_eq!(rt; words(&note)[7], 0x0000_0100_0000_0000);
    assert_eq!(rt; decode(&encode(&note)), Some(note));
}

#[test]
fn a_read_comes_back_without_its_value(rt: HostRuntime) {
    let note = of_register(false, 0x8000_0003);
    assert_eq!(rt; words(&note)[2], 1);
    assert_eq!(rt; words(&note)[8], 0);
    assert_eq!(rt; decode(&encode(&note)), Some(of_register(false, 0)));
}

#[test]
fn message_pending_alone_is_set_aside(rt: HostRuntime) {
    for note in [of_register(true, 5), of_memory(Access::Execute, Some(1))] {
        let mut bytes = encode(&note);
        bytes[5] = 1;
        assert_eq!(rt; decode(&bytes), Some(note));
        for flags in [2, 3, 0x80] {
            bytes[5] = flags;
            assert_eq!(rt; decode(&bytes), None, "flags {flags}");
        }
    }
}

#[test]
fn other_bytes_are_refused(rt: HostRuntime) {
    let register = of_register(true, 0x8000_0003);
    let memory = of_memory(Access::Write, Some(0x80_BFE0_3FF8));
    for note in [register, memory] {
        // Types, payload sizes, processors from 256, accesses, and bytes that are always zero.
        for (place, byte) in [
            (0, 2),
            (3, 0),
            (4, 81),
            (4, 79),
            (6, 1),
            (7, 1),
            (8, 1),
            (15, 1),
            (17, 1),
            (19, 1),
            (20, 1),
            (21, 3),
            (22, 1),
            (23, 1),
            (60, 1),
            (62, 1),
            (63, 1),
            (80, 1),
            (95, 1),
        ] {
            assert!(rt; refuses(&note, place, byte), "byte {place}");
        }
    }
    assert!(rt; refuses(&register, 21, 2), "a register is not executed");
}

#[test]
fn an_address_and_its_flag_go_together(rt: HostRuntime) {
    let with = of_memory(Access::Write, Some(0x80_BFE0_3FF8));
    let without = of_memory(Access::Write, None);
    assert!(rt; refuses(&with, 61, 0), "an address without the flag");
    assert!(rt; refuses(&without, 64, 8), "an address without the flag");
    for note in [with, without] {
        for info in [2, 3, 0x80] {
            assert!(rt; refuses(&note, 61, info), "info {info}");
        }
        assert!(rt; refuses(&note, 56, 1), "a cache type");
    }
}

#[test]
fn a_read_with_a_value_is_refused(rt: HostRuntime) {
    for place in [64, 79] {
        assert!(rt; refuses(&of_register(false, 0), place, 1));
        assert!(rt; !refuses(&of_register(true, 0), place, 1));
    }
}

#[test]
fn other_lengths_are_refused(rt: HostRuntime) {
    let note = of_register(true, 5);
    for len in [0, 95, 97] {
        assert_eq!(rt; decoded(&note, len), None, "{len} bytes");
    }
    assert_eq!(rt; decoded(&note, 96), Some(note));
}

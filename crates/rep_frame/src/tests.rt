use super::*;
use hyper_abi::{Control, ResultValue};
use register_file::Bank;
use vsm_base::{HvStatus, Name, Vtl};
use vsm_status::VpStatus;

/// The numbers of twenty registers, Rax to R15 and Dr0 to Dr3.
const NUMBERS: [u64; 20] = [
    0x2_0000, 0x2_0001, 0x2_0002, 0x2_0003, 0x2_0004, 0x2_0005, 0x2_0006, 0x2_0007, 0x2_0008,
    0x2_0009, 0x2_000A, 0x2_000B, 0x2_000C, 0x2_000D, 0x2_000E, 0x2_000F, 0x5_0000, 0x5_0001,
    0x5_0002, 0x5_0003,
];

/// A number that no register has.
const NO_NUMBER: u64 = 0x2_00FF;

/// The number of the register of this element, but none for the bad one.
fn number_at(element: usize, bad: usize) -> u64 {
    match NUMBERS.get(element) {
        Some(number) if element != bad => *number,
        _ => NO_NUMBER,
    }
}

/// The words of a slice that sets the register of each element from the first on to 1000 and the element's index.
fn setting_words(first: u16, bad: usize) -> [u64; 32] {
    let mut words = [0; 32];
    for place in 0..8 {
        let element = first as usize + place;
        words[4 * place] = number_at(element, bad);
        words[4 * place + 2] = 1000 + element as u64;
    }
    words
}

/// The words that hold the numbers of a slice, two in each.
fn number_words(first: u16, bad: usize) -> [u64; 32] {
    let mut words = [0; 32];
    let even = first as usize / 2 * 2;
    for place in 0..5 {
        let low = number_at(even + 2 * place, bad);
        words[place] = low | number_at(even + 2 * place + 1, bad) << 32;
    }
    words
}

/// What the three slices of a call come to that sets twenty registers of level 1.
fn set_all(bank: &mut Bank, bad: usize) -> [SliceEnd; 3] {
    let mut frame = RepFrame::new(20, 0);
    let mut ends = [SliceEnd::GoesOn(0); 3];
    for end in &mut ends {
        let (first, _) = frame.slice();
        let words = setting_words(first, bad);
        *end = set_slice(bank, Vtl::One, Vtl::One, &mut frame, &words);
    }
    ends
}

#[test]
fn twenty_registers_are_set_in_three_slices(rt: HostRuntime) {
    let mut bank = Bank::opening();
    let ends = set_all(&mut bank, 20);
    assert_eq!(rt; ends[0], SliceEnd::GoesOn(8));
    assert_eq!(rt; ends[1], SliceEnd::GoesOn(16));
    assert_eq!(rt; ends[2], SliceEnd::Complete(20));
    assert_eq!(rt; bank.get(Vtl::One, Name::Rax), 1000);
    assert_eq!(rt; bank.get(Vtl::One, Name::Rsp), 1004);
    assert_eq!(rt; bank.get(Vtl::Zero, Name::Rsp), 0);
    assert_eq!(rt; bank.get(Vtl::One, Name::Dr3), 1019);
}

/// A register that isn't set in its slice, with its index and those of the slice's first and past.
const BAD: [(usize, u16, u16); 6] = [
    (0, 0, 0),
    (7, 0, 7),
    (8, 8, 8),
    (11, 8, 11),
    (16, 16, 16),
    (19, 16, 19),
];

#[test]
fn elements_are_counted_from_the_calls_first(rt: HostRuntime) {
    let invalid = HvStatus(0x0005);
    for (bad, first, done) in BAD {
        let mut bank = Bank::opening();
        let mut frame = RepFrame::new(20, first);
        let words = setting_words(first, bad);
        let end = set_slice(&mut bank, Vtl::One, Vtl::One, &mut frame, &words);
        assert_eq!(rt; end, SliceEnd::Refused(invalid, done), "{bad}");
        let answer = ResultValue {
            status: invalid,
            done,
        };
        assert_eq!(rt; frame.finish(invalid), answer, "{bad}");
    }
}

#[test]
fn those_before_a_refused_one_are_set(rt: HostRuntime) {
    let mut bank = Bank::opening();
    let mut frame = RepFrame::new(20, 8);
    let end = set_slice(
        &mut bank,
        Vtl::One,
        Vtl::One,
        &mut frame,
        &setting_words(8, 11),
    );
    assert_eq!(rt; end, SliceEnd::Refused(HvStatus(0x0005), 11));
    assert_eq!(rt; bank.get(Vtl::One, Name::R10), 1010);
    assert_eq!(rt; bank.get(Vtl::One, Name::R11), 0);
    assert_eq!(rt; bank.get(Vtl::One, Name::R12), 0);
}

/// What a slice puts out, by its first element: how many words, the first and the last value, and its end.
const SLICES: [(u16, u8, u64, usize, u64, SliceEnd); 4] = [
    (0, 16, 1000, 14, 1007, SliceEnd::GoesOn(8)),
    (8, 16, 1008, 14, 1015, SliceEnd::GoesOn(16)),
    (16, 8, 1016, 6, 1019, SliceEnd::Complete(20)),
    (3, 16, 1003, 14, 1010, SliceEnd::GoesOn(11)),
];

const STATUS: VpStatus = VpStatus {
    active: Vtl::One,
    one_enabled: true,
};

#[test]
fn a_slice_puts_out_two_words_for_each_element(rt: HostRuntime) {
    let mut bank = Bank::opening();
    let _ = set_all(&mut bank, 20);
    for (first, count, value, last, last_value, end) in SLICES {
        let mut frame = RepFrame::new(20, first);
        let mut output = [7; 16];
        let words = number_words(first, 20);
        let got = get_slice(&bank, STATUS, Vtl::One, &mut frame, &words, &mut output);
        assert_eq!(rt; got.0, count, "{first}");
        assert_eq!(rt; got.1, end, "{first}");
        assert_eq!(rt; output[0], value, "{first}");
        assert_eq!(rt; output[1], 0, "{first}");
        assert_eq!(rt; output.get(last).copied(), Some(last_value), "{first}");
    }
}

#[test]
fn nothing_is_put_out_from_a_refused_element_on(rt: HostRuntime) {
    let mut bank = Bank::opening();
    let _ = set_all(&mut bank, 20);
    let mut frame = RepFrame::new(20, 8);
    let mut output = [7; 16];
    let words = number_words(8, 11);
    let got = get_slice(&bank, STATUS, Vtl::One, &mut frame, &words, &mut output);
    assert_eq!(rt; got.0, 6);
    assert_eq!(rt; got.1, SliceEnd::Refused(HvStatus(0x0005), 11));
    assert_eq!(rt; output[4], 1010);
    assert_eq!(rt; output[5], 0);
    assert_eq!(rt; output[6], 7);
}

/// Registers that a processor doesn't keep, with what level 1 gets.
const OWN: [(u64, u64); 3] = [
    (0x000D_0002, 0x2_0010),
    (0x000D_0003, 0x3_0001),
    (0x000D_0006, 0x2_0001),
];

#[test]
fn registers_that_are_not_kept_have_their_values(rt: HostRuntime) {
    let bank = Bank::opening();
    for (number, value) in OWN {
        let mut words = [0; 32];
        let mut output = [7; 16];
        let mut frame = RepFrame::new(1, 0);
        words[0] = number;
        let got = get_slice(&bank, STATUS, Vtl::One, &mut frame, &words, &mut output);
        assert_eq!(rt; got.1, SliceEnd::Complete(1), "{number}");
        assert_eq!(rt; output[0], value, "{number}");
        assert_eq!(rt; output[1], 0, "{number}");
    }
}

/// The first element of a call that gets registers, by the caller and the level that it means, with what the partition is
/// asked for where there is no other element.
const LOOKS: [(Vtl, Vtl, u64, Option<Look>); 8] = [
    (Vtl::Zero, Vtl::Zero, 0x000D_0004, Some(Look::Status)),
    (Vtl::One, Vtl::Zero, 0x000D_0004, Some(Look::Status)),
    (Vtl::One, Vtl::One, 0x000D_0007, Some(Look::Config)),
    (Vtl::Zero, Vtl::Zero, 0x000D_0007, None),
    (Vtl::One, Vtl::Zero, 0x000D_0007, None),
    (Vtl::One, Vtl::One, 0x000D_0003, None),
    (Vtl::One, Vtl::One, 0x0002_0000, None),
    (Vtl::One, Vtl::One, NO_NUMBER, None),
];

#[test]
fn the_partition_is_asked_for_its_own_registers(rt: HostRuntime) {
    let one = RepFrame::new(1, 0);
    let over = RepFrame::new(1, 1);
    for (caller, target, number, look) in LOOKS {
        let mut words = [0; 32];
        words[0] = number;
        assert_eq!(rt; look_in(&one, caller, target, &words), look, "{number}");
        assert!(rt;
            look_in(&over, caller, target, &words).is_none(),
            "{number}"
        );
    }
}

#[test]
fn no_register_of_the_partition_is_asked_for_beside_others(rt: HostRuntime) {
    let two = RepFrame::new(2, 0);
    for number in [0x000D_0004, 0x000D_0007] {
        let mut words = [0; 32];
        words[0] = number;
        assert!(rt;
            look_in(&two, Vtl::One, Vtl::One, &words).is_none(),
            "{number}"
        );
    }
}

const CONFIG: u64 = 0x000D_0007;

/// The first element of a call that sets registers, by the caller, the level that it means and how many elements there
/// are, with the configuration that the partition is asked to have.
const WRITES: [(Vtl, Vtl, u16, [u64; 4], Option<u128>); 9] = [
    (Vtl::One, Vtl::One, 1, [CONFIG, 0, 0x1F, 0], Some(0x1F)),
    (
        Vtl::One,
        Vtl::One,
        1,
        [CONFIG, 0, 0x80, 1],
        Some(0x1_0000_0000_0000_0080),
    ),
    (Vtl::One, Vtl::One, 1, [CONFIG, 1, 0x1F, 0], None),
    (Vtl::One, Vtl::One, 2, [CONFIG, 0, 0x1F, 0], None),
    (Vtl::One, Vtl::Zero, 1, [CONFIG, 0, 0x1F, 0], None),
    (Vtl::Zero, Vtl::Zero, 1, [CONFIG, 0, 0x1F, 0], None),
    (Vtl::One, Vtl::One, 1, [0x000D_0004, 0, 0x1F, 0], None),
    (Vtl::One, Vtl::One, 1, [0x0002_0000, 0, 0x1F, 0], None),
    (Vtl::One, Vtl::One, 1, [NO_NUMBER, 0, 0x1F, 0], None),
];

#[test]
fn the_partition_is_asked_to_write_its_configuration(rt: HostRuntime) {
    for (caller, target, count, element, value) in WRITES {
        let mut words = [0; 32];
        words[..4].copy_from_slice(&element);
        let frame = RepFrame::new(count, 0);
        assert_eq!(rt; write_in(&frame, caller, target, &words), value, "{count}");
        let over = RepFrame::new(count, count);
        assert!(rt;
            write_in(&over, caller, target, &words).is_none(),
            "{count}"
        );
    }
}

#[test]
fn a_call_begins_below_its_count(rt: HostRuntime) {
    let invalid = Err(HvStatus(0x0003));
    let control = Control {
        code: 0x0051,
        fast: false,
        count: 20,
        start: 19,
    };
    let mut frame = RepFrame::new(20, 19);
    assert_eq!(rt; RepFrame::start(control), Ok(frame));
    assert_eq!(rt;
        RepFrame::start(Control {
            start: 20,
            ..control
        }),
        invalid
    );
    assert_eq!(rt;
        RepFrame::start(Control {
            count: 0,
            start: 0,
            ..control
        }),
        invalid
    );
    assert_eq!(rt; frame.slice(), (19, 20));
    assert!(rt; !frame.advance(1));
    assert_eq!(rt; frame.slice(), (20, 20));
}

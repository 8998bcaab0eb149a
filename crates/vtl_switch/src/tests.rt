use super::*;
use register_file::{Bank, Context};
use vsm_base::{Name, Page, Vtl};
use vtl_state::Levels;

/// The registers that the tests look at: the general ones, and Rsp, Cr3 and Rip of either level.
const WATCHED: [(Vtl, Name); 21] = [
    (Vtl::Zero, Name::Rax),
    (Vtl::Zero, Name::Rcx),
    (Vtl::Zero, Name::Rdx),
    (Vtl::Zero, Name::Rbx),
    (Vtl::Zero, Name::Rbp),
    (Vtl::Zero, Name::Rsi),
    (Vtl::Zero, Name::Rdi),
    (Vtl::Zero, Name::R8),
    (Vtl::Zero, Name::R9),
    (Vtl::Zero, Name::R10),
    (Vtl::Zero, Name::R11),
    (Vtl::Zero, Name::R12),
    (Vtl::Zero, Name::R13),
    (Vtl::Zero, Name::R14),
    (Vtl::Zero, Name::R15),
    (Vtl::Zero, Name::Rsp),
    (Vtl::One, Name::Rsp),
    (Vtl::Zero, Name::Cr3),
    (Vtl::One, Name::Cr3),
    (Vtl::Zero, Name::Rip),
    (Vtl::One, Name::Rip),
];

/// What they are in a machine that `prepared` made.
const FILLED: [u128; 21] = [
    0xA0, 0, 0xA2, 0xA3, 0xA4, 0xA5, 0xA6, 0xA7, 0xA8, 0xA9, 0xAA, 0xAB, 0xAC, 0xAD, 0xAE, 0xB0,
    0xB1, 0xC000, 0xC1000, 0xD0, 0xD1,
];

/// A code segment at privilege level 3.
const USER: u128 = 3 << 96;

/// Level 1's assist page is page 3, and is on.
const PAGE_3: u128 = 0x3001;

#[derive(Drop)]
struct Machine {
    bank: Bank,
    levels: Levels,
}

/// A machine whose level 1 is enabled and has this assist page, with this level active.
fn prepared(level: Vtl, assist: u128) -> Option<Machine> {
    let mut bank = Bank::opening();
    let mut levels = Levels::opening();
    let context = Context::read(&[0; 28]).ok()?;
    levels.enable(&mut bank, Vtl::One, &context).ok()?;
    for ((level, name), value) in WATCHED.iter().zip(&FILLED) {
        bank.put(*level, *name, *value).ok()?;
    }
    bank.put(Vtl::One, Name::VpAssistPage, assist).ok()?;
    if levels.enabled(level) {
        levels.begin_at(level);
    }
    Some(Machine { bank, levels })
}

/// The registers that the tests look at.
fn watched(bank: &Bank) -> [u128; 21] {
    let mut values = [0; 21];
    for (value, (level, name)) in values.iter_mut().zip(&WATCHED) {
        *value = bank.get(*level, *name);
    }
    values
}

/// Whether a call and a return, or an entry too, are refused and change nothing.
fn refuses(m: &mut Machine, entry: bool) -> bool {
    let values = watched(&m.bank);
    let levels = m.levels;
    let Machine { bank, levels: now } = m;
    call(bank, now, 4) == Err(Refused::Undefined)
        && call_kind(bank, now, 4) == Err(Refused::Undefined)
        && (!entry || interrupt_entry(bank, now, 4) == Err(Refused::Undefined))
        && return_kind(bank, now, 4) == Err(Refused::Undefined)
        && give_back(bank, now, Some((7, 8))) == Err(Refused::Undefined)
        && watched(bank) == values
        && *now == levels
}

#[test]
fn a_call_goes_on_and_enters(rt: HostRuntime) {
    for (assist, page) in [
        (0, None),
        (PAGE_3, Some(Page(3))),
        (0x3000, None),
        (0x4001, None),
    ] {
        let Some(mut m) = prepared(Vtl::Zero, assist) else {
            panic!(rt);
        };
        assert_eq!(rt; call_kind(&m.bank, &m.levels, 4), Ok(page));
        assert_eq!(rt; call(&mut m.bank, &mut m.levels, 4), Ok(page));
        assert_eq!(rt; m.levels.active(), Vtl::One);
        let mut wanted = FILLED;
        wanted[19] = 0xD1;
        assert_eq!(rt; watched(&m.bank), wanted);
    }
}

#[test]
fn a_call_of_the_last_place_stays_there(rt: HostRuntime) {
    let Some(mut m) = prepared(Vtl::Zero, 0) else {
        panic!(rt);
    };
    let last = 0xFFFF_FFFF_FFFF_FFFF;
    assert_eq!(rt; m.bank.put(Vtl::Zero, Name::Rip, last), Ok(()));
    assert_eq!(rt; call(&mut m.bank, &mut m.levels, 4), Ok(None));
    assert_eq!(rt; m.bank.get(Vtl::Zero, Name::Rip), last);
}

#[test]
fn an_interrupt_enters_and_leaves_all(rt: HostRuntime) {
    for (cs, rcx) in [(0, 0), (USER, 5)] {
        let Some(mut m) = prepared(Vtl::Zero, PAGE_3) else {
            panic!(rt);
        };
        assert_eq!(rt; m.bank.put(Vtl::Zero, Name::Cs, cs), Ok(()));
        assert_eq!(rt; m.bank.put(Vtl::Zero, Name::Rcx, rcx), Ok(()));
        let page = interrupt_entry(&mut m.bank, &mut m.levels, 4);
        assert_eq!(rt; page, Ok(Some(Page(3))));
        assert_eq!(rt; m.levels.active(), Vtl::One);
        let mut wanted = FILLED;
        wanted[1] = rcx;
        assert_eq!(rt; watched(&m.bank), wanted);
    }
}

#[test]
fn a_return_restores_where_it_should(rt: HostRuntime) {
    let pair = Some((0x55, 0x66));
    for (assist, pages, rcx, back, pair) in [
        (PAGE_3, 4, 0, Back::Restore(Page(3)), pair),
        (PAGE_3, 3, 0, Back::Plain, None),
        (0x3000, 4, 0, Back::Plain, None),
        (PAGE_3, 4, 1, Back::Fast, None),
    ] {
        let Some(mut m) = prepared(Vtl::One, assist) else {
            panic!(rt);
        };
        assert_eq!(rt; m.bank.put(Vtl::One, Name::Rcx, rcx), Ok(()));
        assert_eq!(rt; return_kind(&m.bank, &m.levels, pages), Ok(back));
        assert_eq!(rt; give_back(&mut m.bank, &mut m.levels, pair), Ok(()));
        assert_eq!(rt; m.levels.active(), Vtl::Zero);
        let mut wanted = FILLED;
        wanted[1] = rcx;
        if let Some((rax, rcx)) = pair {
            wanted[0] = u128::from(rax);
            wanted[1] = u128::from(rcx);
        }
        wanted[20] = 0xD2;
        assert_eq!(rt; watched(&m.bank), wanted);
    }
}

#[test]
fn a_switch_that_is_not_lawful_changes_nothing(rt: HostRuntime) {
    for (level, cs, rcx) in [
        (Vtl::Zero, USER, 0),
        (Vtl::Zero, 0, 1),
        (Vtl::Zero, 0, 1 << 63),
        (Vtl::One, USER, 0),
        (Vtl::One, 0, 2),
        (Vtl::One, 0, 1 << 63),
    ] {
        let Some(mut m) = prepared(level, PAGE_3) else {
            panic!(rt);
        };
        assert_eq!(rt; m.bank.put(level, Name::Cs, cs), Ok(()));
        assert_eq!(rt; m.bank.put(level, Name::Rcx, rcx), Ok(()));
        assert!(rt; refuses(&mut m, level == Vtl::One), "at {rcx}");
    }
    let mut m = Machine {
        bank: Bank::opening(),
        levels: Levels::opening(),
    };
    assert!(rt; refuses(&mut m, true));
}

#[test]
fn the_word_of_an_entry_has_its_reason(rt: HostRuntime) {
    assert_eq!(rt; entry_word(2), 2);
    let word = 0xFFFF_FFFE_0000_0003;
    assert_eq!(rt; reason_of(word), 3);
    assert!(rt; !vina_of(word));
    assert!(rt; vina_of(0x1_0000_0000));
}

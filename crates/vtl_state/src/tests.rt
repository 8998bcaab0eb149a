use super::*;
use register_file::{Bank, Context};
use vsm_base::{HvStatus, Name, Vtl};

/// The words of a context whose Rip, Rsp, Cs and Cr3 are 7, 0x8000, 3 at the selector and 0x5000.
fn words() -> [u64; 28] {
    let mut words = [0u64; 28];
    words[0] = 7;
    words[1] = 0x8000;
    words[4] = 3 << 32;
    words[25] = 0x5000;
    words
}

#[test]
fn a_level_is_enabled_once(rt: HostRuntime) {
    let mut bank = Bank::opening();
    let mut levels = Levels::opening();
    assert_eq!(rt; levels.active(), Vtl::Zero);
    assert!(rt; levels.enabled(Vtl::Zero));
    assert!(rt; !levels.enabled(Vtl::One));
    assert_eq!(rt; bank.put(Vtl::Zero, Name::Rsp, 5), Ok(()));
    assert_eq!(rt; bank.put(Vtl::One, Name::Rsp, 6), Ok(()));
    assert_eq!(rt; bank.put(Vtl::One, Name::Star, 8), Ok(()));
    assert_eq!(rt; bank.put(Vtl::One, Name::Rbx, 9), Ok(()));
    let Ok(context) = Context::read(&words()) else {
        panic!(rt);
    };
    let already = Err(HvStatus(0x0086));
    assert_eq!(rt; levels.enable(&mut bank, Vtl::Zero, &context), already);
    assert_eq!(rt; bank.get(Vtl::Zero, Name::Rsp), 5);
    assert_eq!(rt; levels.enable(&mut bank, Vtl::One, &context), Ok(()));
    assert!(rt; levels.enabled(Vtl::One));
    assert_eq!(rt; levels.active(), Vtl::Zero);
    let wanted = [
        (Vtl::One, Name::Rip, 7),
        (Vtl::One, Name::Rsp, 0x8000),
        (Vtl::One, Name::Cs, 3 << 96),
        (Vtl::One, Name::Cr3, 0x5000),
        (Vtl::One, Name::Star, 0),
        (Vtl::One, Name::Sint0, 0x10000),
        (Vtl::One, Name::Rbx, 9),
        (Vtl::Zero, Name::Rsp, 5),
        (Vtl::Zero, Name::Rip, 0),
    ];
    for (level, name, value) in wanted {
        assert_eq!(rt; bank.get(level, name), value, "at {}", name.number());
    }
    assert_eq!(rt; bank.put(Vtl::One, Name::Star, 4), Ok(()));
    assert_eq!(rt; levels.enable(&mut bank, Vtl::One, &context), already);
    assert_eq!(rt; bank.get(Vtl::One, Name::Star), 4);
}

#[test]
fn the_active_level_sees_its_registers(rt: HostRuntime) {
    let mut bank = Bank::opening();
    let mut levels = Levels::opening();
    let Ok(context) = Context::read(&words()) else {
        panic!(rt);
    };
    assert_eq!(rt; levels.enable(&mut bank, Vtl::One, &context), Ok(()));
    assert_eq!(rt; privilege_of(&bank, &levels), 0);
    levels.begin_at(Vtl::One);
    assert_eq!(rt; levels.active(), Vtl::One);
    assert_eq!(rt; privilege_of(&bank, &levels), 3);
    go_on(&mut bank, &levels);
    assert_eq!(rt; word_of(&bank, &levels, Name::Rip), 8);
    assert_eq!(rt; bank.get(Vtl::Zero, Name::Rip), 0);
    put_legal(&mut bank, &levels, Name::Cr3, 1 << 52);
    assert_eq!(rt; word_of(&bank, &levels, Name::Cr3), 0x5000);
    put_legal(&mut bank, &levels, Name::Rip, 0xFFFF_FFFF_FFFF_FFFF);
    go_on(&mut bank, &levels);
    assert_eq!(rt; word_of(&bank, &levels, Name::Rip), 0xFFFF_FFFF_FFFF_FFFF);
}

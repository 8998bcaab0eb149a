use super::*;
use register_file::Bank;
use vsm_base::{Name, Vtl};

/// The bits, each with the register that it stands for and whether it stands for its writes.
const BITS: [(u32, Name, bool); 15] = [
    (0, Name::Cr0, true),
    (1, Name::Cr4, true),
    (5, Name::Lstar, false),
    (6, Name::Lstar, true),
    (7, Name::Star, false),
    (8, Name::Star, true),
    (13, Name::Efer, false),
    (14, Name::Efer, true),
    (15, Name::Gdtr, true),
    (16, Name::Idtr, true),
    (17, Name::Ldtr, true),
    (18, Name::Tr, true),
    (19, Name::SysenterCs, true),
    (20, Name::SysenterEip, true),
    (21, Name::SysenterEsp, true),
];

/// A watch of these accesses and of all bits of Cr0 and Cr4.
fn watch(control: u64) -> Watch {
    Watch {
        control,
        cr0_mask: u64::MAX,
        cr4_mask: u64::MAX,
    }
}

/// Whether an access of this kind is intercepted.
fn is_hit(watch: Watch, name: Name, writes: bool) -> bool {
    if writes {
        watch.on_write(name, 0, 1)
    } else {
        watch.on_read(name)
    }
}

#[test]
fn each_bit_stands_for_one_access(rt: HostRuntime) {
    for (bit, name, writes) in BITS {
        let alone = 1u64.wrapping_shl(bit);
        assert!(rt; is_hit(watch(alone), name, writes), "bit {bit} alone");
        assert!(rt; !is_hit(watch(!alone), name, writes), "all but bit {bit}");
    }
}

#[test]
fn no_other_access_is_intercepted(rt: HostRuntime) {
    let all = watch(u64::MAX);
    for name in [Name::Rax, Name::Rip, Name::Cr3, Name::Cstar, Name::Cs] {
        assert!(rt; !all.on_write(name, 0, 1));
        assert!(rt; !all.on_read(name));
    }
    assert!(rt; !all.on_read(Name::Cr0));
    assert!(rt; !all.on_read(Name::Gdtr));
    assert!(rt; !watch(0).on_write(Name::Efer, 0, 1));
}

#[test]
fn a_write_of_cr0_or_cr4_is_intercepted_where_a_watched_bit_changes(rt: HostRuntime) {
    let watch = Watch {
        control: 3,
        cr0_mask: 1 << 16,
        cr4_mask: 1 << 20,
    };
    assert!(rt; watch.on_write(Name::Cr0, 0x1_0001, 0x0001));
    assert!(rt; watch.on_write(Name::Cr0, 0x0001, 0x1_0001));
    assert!(rt; !watch.on_write(Name::Cr0, 0x1_0001, 0x10_0001 + 0x1_0000));
    assert!(rt; watch.on_write(Name::Cr4, 0x10_0020, 0x0020));
    assert!(rt; !watch.on_write(Name::Cr4, 0x10_0020, 0x11_0000));
}

#[test]
fn a_write_of_another_register_needs_no_change(rt: HostRuntime) {
    let watch = Watch {
        control: 1 << 6,
        cr0_mask: 0,
        cr4_mask: 0,
    };
    assert!(rt; watch.on_write(Name::Lstar, 7, 7));
}

#[test]
fn the_registers_say_what_is_watched(rt: HostRuntime) {
    let mut bank = Bank::opening();
    assert!(rt; bank.put(Vtl::One, Name::CrInterceptControl, 3).is_ok());
    assert!(rt; bank.put(Vtl::One, Name::CrInterceptCr0Mask, 5).is_ok());
    assert!(rt; bank.put(Vtl::One, Name::CrInterceptCr4Mask, 6).is_ok());
    let watch = Watch::of(&bank);
    assert_eq!(rt; watch.control, 3);
    assert_eq!(rt; watch.cr0_mask, 5);
    assert_eq!(rt; watch.cr4_mask, 6);
}

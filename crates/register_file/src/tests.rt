use super::*;
use vsm_base::{HvStatus, Name, Vtl};

const FOUR: u128 = 0xF;

const SIXTEEN: u128 = 0xFFFF;

const THIRTY_TWO: u128 = 0xFFFF_FFFF;

const FIFTY_TWO: u128 = 0xF_FFFF_FFFF_FFFF;

const SIXTY_FOUR: u128 = 0xFFFF_FFFF_FFFF_FFFF;

const ALL: u128 = 0xFFFF_FFFF_FFFF_FFFF_FFFF_FFFF_FFFF_FFFF;

const TABLE: u128 = 0xFFFF_FFFF_FFFF_FFFF_FFFF_0000_0000_0000;

/// Each register, its highest value, which has all the bits that may be set, and what it is at the opening.
const REGISTERS: [(Name, u128, u128); 56] = [
    (Name::Rax, SIXTY_FOUR, 0),
    (Name::Rcx, SIXTY_FOUR, 0),
    (Name::Rdx, SIXTY_FOUR, 0),
    (Name::Rbx, SIXTY_FOUR, 0),
    (Name::Rsp, SIXTY_FOUR, 0),
    (Name::Rbp, SIXTY_FOUR, 0),
    (Name::Rsi, SIXTY_FOUR, 0),
    (Name::Rdi, SIXTY_FOUR, 0),
    (Name::R8, SIXTY_FOUR, 0),
    (Name::R9, SIXTY_FOUR, 0),
    (Name::R10, SIXTY_FOUR, 0),
    (Name::R11, SIXTY_FOUR, 0),
    (Name::R12, SIXTY_FOUR, 0),
    (Name::R13, SIXTY_FOUR, 0),
    (Name::R14, SIXTY_FOUR, 0),
    (Name::R15, SIXTY_FOUR, 0),
    (Name::Rip, SIXTY_FOUR, 0),
    (Name::Rflags, THIRTY_TWO, 2),
    (Name::Cr0, THIRTY_TWO, 1),
    (Name::Cr2, SIXTY_FOUR, 0),
    (Name::Cr3, FIFTY_TWO, 0),
    (Name::Cr4, THIRTY_TWO, 0),
    (Name::Cr8, FOUR, 0),
    (Name::Dr0, SIXTY_FOUR, 0),
    (Name::Dr1, SIXTY_FOUR, 0),
    (Name::Dr2, SIXTY_FOUR, 0),
    (Name::Dr3, SIXTY_FOUR, 0),
    (Name::Dr6, THIRTY_TWO, 0),
    (Name::Dr7, THIRTY_TWO, 0),
    (Name::Es, ALL, 0),
    (Name::Cs, ALL, 0),
    (Name::Ss, ALL, 0),
    (Name::Ds, ALL, 0),
    (Name::Fs, ALL, 0),
    (Name::Gs, ALL, 0),
    (Name::Ldtr, ALL, 0),
    (Name::Tr, ALL, 0),
    (Name::Idtr, TABLE, 0),
    (Name::Gdtr, TABLE, 0),
    (Name::Efer, SIXTEEN, 0),
    (Name::KernelGsBase, SIXTY_FOUR, 0),
    (Name::Pat, SIXTY_FOUR, 0),
    (Name::SysenterCs, SIXTY_FOUR, 0),
    (Name::SysenterEip, SIXTY_FOUR, 0),
    (Name::SysenterEsp, SIXTY_FOUR, 0),
    (Name::Star, SIXTY_FOUR, 0),
    (Name::Lstar, SIXTY_FOUR, 0),
    (Name::Cstar, SIXTY_FOUR, 0),
    (Name::Sfmask, SIXTY_FOUR, 0),
    (Name::VpAssistPage, SIXTY_FOUR, 0),
    (Name::Sint0, SIXTY_FOUR, 0x10000),
    (Name::Scontrol, SIXTY_FOUR, 0),
    (Name::Simp, SIXTY_FOUR, 0),
    (Name::CrInterceptControl, SIXTY_FOUR, 0),
    (Name::CrInterceptCr0Mask, SIXTY_FOUR, 0),
    (Name::CrInterceptCr4Mask, SIXTY_FOUR, 0),
];

/// Whether the register can be given this value, and then has it.
fn keeps(bank: &mut Bank, level: Vtl, name: Name, value: u128) -> bool {
    bank.put(level, name, value) == Ok(()) && bank.get(level, name) == value
}

/// Whether a value with a bit set beside those of the highest is refused, and leaves the register as it was.
fn refuses_other_bits(bank: &mut Bank, level: Vtl, name: Name, highest: u128) -> bool {
    for bit in 0..128u32 {
        let bad = 1u128 << bit;
        if bad & highest == 0
            && (bank.put(level, name, bad) != Err(BadValue)
                || bank.put(level, name, bad | highest) != Err(BadValue)
                || bank.get(level, name) != highest)
        {
            return false;
        }
    }
    true
}

/// The first register that isn't at its opening value, or that doesn't keep its legal values alone.
fn first_wrong(registers: &[(Name, u128, u128)], level: Vtl) -> Option<Name> {
    let mut bank = Bank::opening();
    for (name, highest, opening) in registers {
        if bank.get(level, *name) != *opening
            || !keeps(&mut bank, level, *name, *highest)
            || !refuses_other_bits(&mut bank, level, *name, *highest)
            || !keeps(&mut bank, level, *name, 0)
        {
            return Some(*name);
        }
    }
    None
}

#[test]
fn registers_keep_legal_values_alone(rt: HostRuntime) {
    assert_eq!(rt; first_wrong(&REGISTERS, Vtl::Zero), None);
    assert_eq!(rt; first_wrong(&REGISTERS, Vtl::One), None);
}

#[test]
fn a_level_sees_its_own_registers(rt: HostRuntime) {
    let mut bank = Bank::opening();
    assert_eq!(rt; bank.put(Vtl::One, Name::Rsp, 5), Ok(()));
    assert_eq!(rt; bank.put(Vtl::One, Name::Rax, 6), Ok(()));
    bank.private_mut(Vtl::Zero).rip = 7;
    assert_eq!(rt; bank.get(Vtl::Zero, Name::Rsp), 0);
    assert_eq!(rt; bank.get(Vtl::One, Name::Rsp), 5);
    assert_eq!(rt; bank.get(Vtl::Zero, Name::Rax), 6);
    assert_eq!(rt; bank.get(Vtl::Zero, Name::Rip), 7);
    assert_eq!(rt; bank.get(Vtl::One, Name::Rip), 0);
    assert_eq!(rt; bank.get(Vtl::One, Name::Cr0), 1);
}

#[test]
fn a_context_is_read_and_placed(rt: HostRuntime) {
    let mut words = [0u64; 28];
    words[1] = 0x1000;
    words[3] = 7;
    words[4] = 9;
    words[20] = 0x2000;
    words[23] = 0x500;
    words[27] = 0x0007_0406;
    let mut bank = Bank::opening();
    assert_eq!(rt; bank.put(Vtl::One, Name::Star, 3), Ok(()));
    assert_eq!(rt; bank.put(Vtl::One, Name::Cr0, 5), Ok(()));
    let Ok(context) = Context::read(&words) else {
        panic!(rt);
    };
    context.place(bank.private_mut(Vtl::One));
    let wanted = [
        (Name::Rsp, 0x1000),
        (Name::Rflags, 0),
        (Name::Cs, 0x9_0000_0000_0000_0007),
        (Name::Idtr, 0x2000_0000_0000_0000_0000),
        (Name::Efer, 0x500),
        (Name::Cr0, 0),
        (Name::Pat, 0x0007_0406),
        (Name::Star, 0),
        (Name::Sint0, 0x10000),
    ];
    for (name, value) in wanted {
        assert_eq!(rt; bank.get(Vtl::One, name), value, "at {}", name.number());
    }
    assert_eq!(rt; bank.get(Vtl::Zero, Name::Cr0), 1);
    words[25] = 1 << 52;
    assert_eq!(rt; Context::read(&words), Err(HvStatus(0x0050)));
}

#[test]
fn wide_registers_have_parts(rt: HostRuntime) {
    let bits = 0xA09B_0008_FFFF_FFFF_0000_0000_0001_2000;
    let segment = Segment::of(bits);
    let wanted = Segment {
        base: 0x1_2000,
        limit: 0xFFFF_FFFF,
        selector: 8,
        attributes: 0xA09B,
    };
    assert_eq!(rt; segment, wanted);
    assert_eq!(rt; segment.bits(), bits);
    let table = Table::of(0x3000_0FFF_0000_0000_0000);
    assert_eq!(rt;
        table,
        Table {
            limit: 0x0FFF,
            base: 0x3000
        }
    );
    assert_eq!(rt; table.bits(), 0x3000_0FFF_0000_0000_0000);
}

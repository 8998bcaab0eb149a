use super::*;
use crate::control::is_malformed;
use vsm_base::{HvStatus, Name, VpIndex, Vtl};
use vsm_core::CallRegister;

const FLUSH_SPACE: u64 = 0x0002;

const FLUSH_LIST: u64 = 0x0003;

const MODIFY_MASK: u64 = 0x000C;

const ENABLE_PARTITION_VTL: u64 = 0x000D;

const ENABLE_VP_VTL: u64 = 0x000F;

const GET_VP_REGISTERS: u64 = 0x0050;

const SET_VP_REGISTERS: u64 = 0x0051;

/// A rep call of these tests alone.
const REP: CallForm = CallForm {
    code: 0x0001,
    rep: true,
    fast: false,
    header: 16,
    element: 8,
    read: 8,
    output: 0,
};

/// What is read of a call that isn't a rep call.
fn single(code: u16, fast: bool) -> Result<Control, HvStatus> {
    Ok(Control {
        code,
        fast,
        count: 0,
        start: 0,
    })
}

fn is_refused(value: u64, status: HvStatus) -> bool {
    Control::read(value) == Err(status)
}

/// A page whose bytes tell their place.
fn page() -> [u8; 4096] {
    let mut bytes = [0; 4096];
    for (place, byte) in bytes.iter_mut().enumerate() {
        *byte = (place % 251) as u8;
    }
    bytes
}

#[test]
fn each_bit_that_must_be_zero_is_looked_at(rt: HostRuntime) {
    let bits = [
        17, 18, 19, 20, 21, 22, 23, 24, 25, 26, 27, 28, 29, 30, 31, 44, 45, 46, 47, 60, 61, 62, 63,
    ];
    for bit in bits {
        let value = ENABLE_PARTITION_VTL | 1u64.wrapping_shl(bit);
        assert!(rt; is_refused(value, HvStatus(0x0003)), "bit {bit}");
    }
}

#[test]
fn count_and_start_are_refused_where_there_are_no_elements(rt: HostRuntime) {
    let bits = [
        32, 33, 34, 35, 36, 37, 38, 39, 40, 41, 42, 43, 48, 49, 50, 51, 52, 53, 54, 55, 56, 57, 58,
        59,
    ];
    for bit in bits {
        let value = ENABLE_VP_VTL | 1u64.wrapping_shl(bit);
        assert!(rt; is_refused(value, HvStatus(0x0003)), "bit {bit}");
    }
}

#[test]
fn an_unknown_code_is_refused_before_all_else(rt: HostRuntime) {
    for value in [0, 0x0001, 0x000E, 0x0010, 0xFFFF, 0xFFFF_FFFF_FFFF_0000] {
        assert!(rt; is_refused(value, HvStatus(0x0002)), "{value}");
    }
}

#[test]
fn a_call_is_fast_where_it_may_be(rt: HostRuntime) {
    assert_eq!(rt; Control::read(ENABLE_PARTITION_VTL), single(0x000D, false));
    assert_eq!(rt;
        Control::read(ENABLE_PARTITION_VTL | 0x1_0000),
        single(0x000D, true)
    );
    assert_eq!(rt; Control::read(ENABLE_VP_VTL), single(0x000F, false));
    assert!(rt; is_refused(ENABLE_VP_VTL | 0x1_0000, HvStatus(0x0003)));
}

#[test]
fn a_flush_of_a_space_has_no_elements(rt: HostRuntime) {
    assert_eq!(rt; Control::read(FLUSH_SPACE), single(0x0002, false));
    assert!(rt;
        is_refused(rep(FLUSH_SPACE, 1, 0), HvStatus(0x0003)),
        "count"
    );
    assert!(rt;
        is_refused(rep(FLUSH_SPACE, 0, 1), HvStatus(0x0003)),
        "start"
    );
    assert!(rt; is_refused(FLUSH_SPACE | 1 << 16, HvStatus(0x0003)), "fast");
}

#[test]
fn a_flush_of_a_list_and_a_change_of_masks_have_elements(rt: HostRuntime) {
    for code in [0x0003, 0x000C] {
        let value = u64::from(code);
        let last = Control {
            code,
            fast: false,
            count: 3,
            start: 2,
        };
        assert_eq!(rt; Control::read(rep(value, 3, 2)), Ok(last), "{code}");
        assert!(rt;
            is_refused(value, HvStatus(0x0003)),
            "{code} without elements"
        );
        assert!(rt;
            is_refused(rep(value, 3, 3), HvStatus(0x0003)),
            "{code} past the last"
        );
        assert!(rt;
            is_refused(rep(value, 3, 2) | 1 << 16, HvStatus(0x0003)),
            "{code} fast"
        );
    }
}

#[test]
fn each_field_is_read_from_its_bits(rt: HostRuntime) {
    let control = Control {
        code: 0xBEEF,
        fast: true,
        count: 0xDEF,
        start: 0xABC,
    };
    assert_eq!(rt; Control::of(0x0ABC_0DEF_0001_BEEF), control);
    assert_eq!(rt; Control::of(0xFABC_FDEF_FFFF_BEEF), control);
}

#[test]
fn a_rep_call_begins_below_its_count(rt: HostRuntime) {
    assert!(rt; is_malformed(REP, 0x0000_0000_0000_0001), "no element");
    assert!(rt;
        !is_malformed(REP, 0x0000_0001_0000_0001),
        "the only element"
    );
    assert!(rt;
        is_malformed(REP, 0x0001_0001_0000_0001),
        "past the only element"
    );
    assert!(rt;
        !is_malformed(REP, 0x0FFE_0FFF_0000_0001),
        "the last element"
    );
    assert!(rt;
        is_malformed(REP, 0x0FFF_0FFF_0000_0001),
        "past the last element"
    );
    assert!(rt; is_malformed(REP, 0x0000_0001_0001_0001), "fast");
}

#[test]
fn calls_have_their_sizes(rt: HostRuntime) {
    let enable = CallForm {
        code: 0x000D,
        rep: false,
        fast: true,
        header: 16,
        element: 0,
        read: 0,
        output: 0,
    };
    let level = CallForm {
        code: 0x000F,
        fast: false,
        header: 240,
        ..enable
    };
    let get = CallForm {
        code: 0x0050,
        rep: true,
        fast: false,
        header: 16,
        element: 4,
        read: 4,
        output: 16,
    };
    let set = CallForm {
        code: 0x0051,
        element: 32,
        read: 32,
        output: 0,
        ..get
    };
    assert_eq!(rt; form_of(0x000D), Some(enable));
    assert_eq!(rt; form_of(0x000F), Some(level));
    assert_eq!(rt; form_of(0x0050), Some(get));
    assert_eq!(rt; form_of(0x0051), Some(set));
    assert_eq!(rt; form_of(0x000E), None);
}

#[test]
fn calls_of_protection_have_their_sizes(rt: HostRuntime) {
    let space = CallForm {
        code: 0x0002,
        rep: false,
        fast: false,
        header: 24,
        element: 0,
        read: 0,
        output: 0,
    };
    let list = CallForm {
        code: 0x0003,
        rep: true,
        element: 8,
        ..space
    };
    let modify = CallForm {
        code: 0x000C,
        header: 16,
        read: 8,
        ..list
    };
    assert_eq!(rt; form_of(0x0002), Some(space));
    assert_eq!(rt; form_of(0x0003), Some(list));
    assert_eq!(rt; form_of(0x000C), Some(modify));
    assert_eq!(rt; form_of(0x0004), None);
    assert_eq!(rt; form_of(0x000A), None);
}

#[test]
fn a_result_value_has_its_fields(rt: HostRuntime) {
    let bits = ResultValue {
        status: HvStatus::INVALID_PARAMETER,
        done: 9,
    }
    .bits();
    assert_eq!(rt; bits, 0x0000_0009_0000_0005);
    let bits = ResultValue {
        status: HvStatus(0xFFFF),
        done: 4095,
    }
    .bits();
    assert_eq!(rt; bits, 0x0000_0FFF_0000_FFFF);
    assert_eq!(rt; bits % (1 << 16), 0xFFFF);
    assert_eq!(rt; bits >> 32, 4095);
}

#[test]
fn a_header_ends_at_the_end_of_the_page(rt: HostRuntime) {
    let bytes = page();
    let input = InputPage::over(&bytes, 4080);
    assert_eq!(rt; input.header(16), Ok(&bytes[4080..]));
    assert_eq!(rt; input.header(17), Err(HvStatus(0x0003)));
    assert_eq!(rt; input.header(0), Ok(&bytes[..0]));
}

#[test]
fn an_input_begins_at_a_multiple_of_8(rt: HostRuntime) {
    let bytes = page();
    for offset in [1, 2, 4, 12, 4092, 4095] {
        let input = InputPage::over(&bytes, offset);
        assert_eq!(rt; input.header(16), Err(HvStatus(0x0004)), "{offset}");
        assert_eq!(rt;
            input.element(16, 600, 8),
            Err(HvStatus(0x0004)),
            "{offset}"
        );
    }
}

#[test]
fn an_element_stands_behind_the_header_and_those_before_it(rt: HostRuntime) {
    let bytes = page();
    let input = InputPage::over(&bytes, 8);
    assert_eq!(rt; input.element(16, 0, 32), Ok(&bytes[24..56]));
    assert_eq!(rt; input.element(16, 3, 32), Ok(&bytes[120..152]));
    assert_eq!(rt; input.element(16, 1017, 4), Ok(&bytes[4092..]));
    assert_eq!(rt; input.element(17, 1017, 4), Err(HvStatus(0x0003)));
    assert_eq!(rt; input.element(16, 1018, 4), Err(HvStatus(0x0003)));
    assert_eq!(rt; input.element(65535, 65535, 65535), Err(HvStatus(0x0003)));
}

/// Whether a call of two pages is refused so before its first step.
fn is_not_admitted(value: u64, address: u64, output: u64, status: HvStatus) -> bool {
    admit(2, value, address, output) == Err(status)
}

/// Whether it isn't, and is this call of so many elements, by its input in memory or in registers.
fn is_admitted(value: u64, address: u64, output: u64, admission: Admission) -> bool {
    admit(2, value, address, output) == Ok(admission)
}

/// A call with no elements that is admitted.
fn whole(call: Call, fast: bool) -> Admission {
    Admission {
        call,
        fast,
        count: 0,
        start: 0,
    }
}

#[test]
fn a_call_is_judged_by_its_value_and_then_by_its_address(rt: HostRuntime) {
    let fast = ENABLE_PARTITION_VTL | 1 << 16;
    let enable = whole(Call::EnablePartitionVtl, false);
    assert!(rt; is_not_admitted(0x00FF, 1, 1, HvStatus(0x0002)));
    assert!(rt; is_not_admitted(ENABLE_VP_VTL | 1 << 16, 1, 1, HvStatus(0x0003)));
    assert!(rt; is_not_admitted(ENABLE_VP_VTL, 0x2F14, 1, HvStatus(0x0004)));
    assert!(rt; is_not_admitted(ENABLE_VP_VTL, 0x2F18, 1, HvStatus(0x0003)));
    assert!(rt; is_not_admitted(ENABLE_VP_VTL, 0x2F10, 1, HvStatus(0x0005)));
    assert!(rt; is_not_admitted(ENABLE_PARTITION_VTL, 0x1FF8, 1, HvStatus(0x0003)));
    assert!(rt; is_admitted(ENABLE_VP_VTL, 0x1F10, 1, whole(Call::EnableVpVtl, false)));
    assert!(rt; is_admitted(ENABLE_PARTITION_VTL, 0x1FF0, 1, enable));
    assert!(rt; is_admitted(fast, 0x2FFF, 1, whole(Call::EnablePartitionVtl, true)));
}

/// A call of `count` elements that goes on at the one of index `start`.
fn rep(code: u64, count: u64, start: u64) -> u64 {
    code | count << 32 | start << 48
}

#[test]
fn an_output_is_judged_where_there_is_one(rt: HostRuntime) {
    let get = rep(GET_VP_REGISTERS, 20, 8);
    let admission = Admission {
        call: Call::GetVpRegisters,
        fast: false,
        count: 20,
        start: 8,
    };
    assert!(rt;
        is_not_admitted(get, 0x1001, 0x1EC0, HvStatus(0x0004)),
        "input askew"
    );
    assert!(rt;
        is_not_admitted(get, 0x1FA8, 0x1EC1, HvStatus(0x0004)),
        "output askew"
    );
    assert!(rt;
        is_not_admitted(get, 0x2FA8, 0x1EC0, HvStatus(0x0003)),
        "long input"
    );
    assert!(rt;
        is_not_admitted(get, 0x2FA0, 0x1EC8, HvStatus(0x0003)),
        "long output"
    );
    assert!(rt;
        is_not_admitted(get, 0x2FA0, 0x1EC0, HvStatus(0x0005)),
        "no input page"
    );
    assert!(rt;
        is_not_admitted(get, 0x1FA0, 0x2EC0, HvStatus(0x0005)),
        "no output page"
    );
    assert!(rt; is_admitted(get, 0x1FA0, 0x1EC0, admission));
}

#[test]
fn all_elements_of_a_rep_call_stand_in_the_page(rt: HostRuntime) {
    let set = rep(SET_VP_REGISTERS, 20, 19);
    let admission = Admission {
        call: Call::SetVpRegisters,
        fast: false,
        count: 20,
        start: 19,
    };
    assert!(rt; is_admitted(set, 0x1D70, 0xFFFF, admission));
    assert!(rt; is_not_admitted(set, 0x1D78, 0xFFFF, HvStatus(0x0003)));
    assert!(rt; is_not_admitted(rep(SET_VP_REGISTERS, 20, 20), 0, 0, HvStatus(0x0003)));
    assert!(rt; is_not_admitted(rep(SET_VP_REGISTERS, 0, 0), 0, 0, HvStatus(0x0003)));
    assert!(rt;
        is_not_admitted(set | 1 << 16, 0, 0, HvStatus(0x0003)),
        "fast"
    );
}

#[test]
fn the_header_of_a_flush_stands_in_the_page(rt: HostRuntime) {
    let space = whole(Call::FlushVirtualAddressSpace, false);
    assert!(rt; is_admitted(FLUSH_SPACE, 0x1FE8, 1, space));
    assert!(rt;
        is_not_admitted(FLUSH_SPACE, 0x1FF0, 1, HvStatus(0x0003)),
        "long"
    );
    assert!(rt;
        is_not_admitted(FLUSH_SPACE, 0x1FE4, 1, HvStatus(0x0004)),
        "askew"
    );
    assert!(rt;
        is_not_admitted(FLUSH_SPACE, 0x2FE8, 1, HvStatus(0x0005)),
        "no page"
    );
    assert!(rt;
        is_not_admitted(rep(FLUSH_SPACE, 1, 0), 1, 1, HvStatus(0x0003)),
        "a count"
    );
    assert!(rt;
        is_not_admitted(FLUSH_SPACE | 1 << 16, 1, 1, HvStatus(0x0003)),
        "fast"
    );
}

/// Rep calls of protection with how many elements fill a page, and where twenty elements end with it.
const FILLING: [(Call, u64, u64, u64); 2] = [
    (Call::FlushVirtualAddressList, FLUSH_LIST, 509, 0x1F48),
    (Call::ModifyVtlProtectionMask, MODIFY_MASK, 510, 0x1F50),
];

#[test]
fn all_elements_of_a_call_of_protection_stand_in_the_page(rt: HostRuntime) {
    for (call, code, filling, at) in FILLING {
        let twenty = rep(code, 20, 19);
        let admission = Admission {
            call,
            fast: false,
            count: 20,
            start: 19,
        };
        assert!(rt; is_admitted(twenty, at, 1, admission), "{code}");
        assert!(rt;
            is_not_admitted(twenty, at + 8, 1, HvStatus(0x0003)),
            "{code} long"
        );
        assert!(rt;
            is_not_admitted(twenty, at + 0x1000, 1, HvStatus(0x0005)),
            "{code} no page"
        );
        assert!(rt;
            admit(2, rep(code, filling, 0), 0, 1).is_ok(),
            "{code} whole page"
        );
        assert!(rt;
            is_not_admitted(rep(code, filling + 1, 0), 0, 1, HvStatus(0x0003)),
            "{code} more"
        );
        assert!(rt;
            is_not_admitted(twenty | 1 << 16, 1, 1, HvStatus(0x0003)),
            "{code} fast"
        );
    }
}

const OWN_PARTITION: u64 = u64::MAX;

/// What refuses the header of these words of processor 2 of four.
fn header_status(caller: Vtl, first: u64, second: u64) -> Option<HvStatus> {
    register_refusal(4, VpIndex(2), caller, &[first, second])
}

/// Headers of level 0, with their statuses.
const HEADERS: [(u64, u64, Option<HvStatus>); 12] = [
    (0, 0x00FF_0004, Some(HvStatus(0x000D))),
    (OWN_PARTITION, 4, Some(HvStatus(0x000E))),
    (OWN_PARTITION, 3, Some(HvStatus(0x0015))),
    (OWN_PARTITION, 2, None),
    (OWN_PARTITION, 0xFFFF_FFFE, None),
    (OWN_PARTITION, 0x10_FFFF_FFFE, None),
    (OWN_PARTITION, 0x11_FFFF_FFFE, Some(HvStatus(0x0006))),
    (OWN_PARTITION, 0x01_FFFF_FFFE, None),
    (OWN_PARTITION, 0x12_FFFF_FFFE, Some(HvStatus(0x0005))),
    (OWN_PARTITION, 0x20_FFFF_FFFE, Some(HvStatus(0x0005))),
    (OWN_PARTITION, 0x100_FFFF_FFFE, Some(HvStatus(0x0005))),
    (OWN_PARTITION, 0xFFFF_FFFF, Some(HvStatus(0x000E))),
];

#[test]
fn a_header_names_the_caller_and_no_level_above_it(rt: HostRuntime) {
    for (first, second, status) in HEADERS {
        assert_eq!(rt; header_status(Vtl::Zero, first, second), status, "{second}");
    }
    let one = 0x11_FFFF_FFFE;
    assert_eq!(rt; header_status(Vtl::One, OWN_PARTITION, one), None);
    assert!(rt; target_level(Vtl::One, &[0, 0x10 << 32]) == Vtl::Zero);
    assert!(rt; target_level(Vtl::Zero, &[0, one]) == Vtl::One);
    assert!(rt; target_level(Vtl::One, &[0, 0]) == Vtl::One);
}

#[test]
fn registers_have_their_numbers(rt: HostRuntime) {
    assert!(rt; register_of(0x0004_0003) == Some(CallRegister::Kept(Name::Cr4)));
    assert!(rt; register_of(0x000A_0014) == Some(CallRegister::EndOfMessage));
    assert!(rt; register_of(0x000D_0002) == Some(CallRegister::CodePageOffsets));
    assert!(rt; register_of(0x000D_0003) == Some(CallRegister::VpStatus));
    assert!(rt; register_of(0x000D_0004) == Some(CallRegister::PartitionStatus));
    assert!(rt; register_of(0x000D_0006) == Some(CallRegister::Capabilities));
    assert!(rt; register_of(0x000D_0007) == Some(CallRegister::PartitionConfig));
    assert!(rt; register_of(0x000D_0005).is_none());
    assert!(rt; register_of(0x000D_0008).is_none());
}

/// Elements of a call of one element that get a register, by the caller and the level that it means, with their statuses.
const GOT: [(Vtl, Vtl, u32, Option<HvStatus>); 8] = [
    (Vtl::Zero, Vtl::Zero, 0x0002_0010, None),
    (Vtl::Zero, Vtl::Zero, 0x0002_0011, None),
    (Vtl::Zero, Vtl::Zero, 0x0002_0012, Some(HvStatus(0x0005))),
    (Vtl::Zero, Vtl::Zero, 0x000D_0004, None),
    (Vtl::Zero, Vtl::Zero, 0x000E_0000, Some(HvStatus(0x0006))),
    (Vtl::One, Vtl::Zero, 0x000E_0001, Some(HvStatus(0x0005))),
    (Vtl::One, Vtl::One, 0x000E_0002, None),
    (Vtl::One, Vtl::One, 0x000A_0014, Some(HvStatus(0x0005))),
];

#[test]
fn elements_that_get_a_register_are_judged(rt: HostRuntime) {
    for (caller, target, number, status) in GOT {
        assert_eq!(rt; get_refusal(caller, target, 1, number), status, "{number}");
    }
    let two = get_refusal(Vtl::Zero, Vtl::Zero, 2, 0x000D_0004);
    assert_eq!(rt; two, Some(HvStatus(0x0005)));
}

/// The number of the partition's configuration.
const CONFIG: u32 = 0x000D_0007;

/// What refuses to set it to a value, in a call of so many elements, and to get it.
fn config_refusals(
    caller: Vtl,
    target: Vtl,
    count: u16,
    value: u64,
) -> (Option<HvStatus>, Option<HvStatus>) {
    let setting = Setting::of(u64::from(CONFIG), 0, value, value);
    let set = set_refusal(caller, target, count, &setting);
    (set, get_refusal(caller, target, count, CONFIG))
}

/// Callers with the levels that they mean and how many elements there are, with the status of either call.
const CONFIGURED: [(Vtl, Vtl, u16, Option<HvStatus>); 7] = [
    (Vtl::Zero, Vtl::Zero, 1, Some(HvStatus(0x0006))),
    (Vtl::Zero, Vtl::One, 1, Some(HvStatus(0x0006))),
    (Vtl::One, Vtl::Zero, 1, Some(HvStatus(0x0005))),
    (Vtl::One, Vtl::One, 1, None),
    (Vtl::Zero, Vtl::Zero, 2, Some(HvStatus(0x0005))),
    (Vtl::One, Vtl::One, 2, Some(HvStatus(0x0005))),
    (Vtl::One, Vtl::One, 0, Some(HvStatus(0x0005))),
];

#[test]
fn the_configuration_is_of_level_1_and_an_only_element(rt: HostRuntime) {
    for (caller, target, count, status) in CONFIGURED {
        let refusals = config_refusals(caller, target, count, 1);
        assert_eq!(rt; refusals, (status, status), "{count}");
    }
}

#[test]
fn the_configuration_takes_any_value_of_an_element(rt: HostRuntime) {
    for value in [0, 1, 0x1F, 0x7F, 0x80, u64::MAX] {
        let refusals = config_refusals(Vtl::One, Vtl::One, 1, value);
        assert_eq!(rt; refusals, (None, None), "{value}");
    }
    let padded = Setting::of(u64::from(CONFIG), 1, 0, 0);
    let refusal = set_refusal(Vtl::One, Vtl::One, 1, &padded);
    assert_eq!(rt; refusal, Some(HvStatus(0x0005)));
}

/// Elements that set a register, by the caller and the level that it means, with their statuses.
const SET: [(Vtl, Vtl, [u64; 4], Option<HvStatus>); 10] = [
    (Vtl::Zero, Vtl::Zero, [0x0002_0000, 0, 7, 0], None),
    (
        Vtl::Zero,
        Vtl::Zero,
        [0x0002_0000, 0, 7, 1],
        Some(HvStatus(0x0050)),
    ),
    (
        Vtl::Zero,
        Vtl::Zero,
        [0x1_0002_0000, 0, 7, 0],
        Some(HvStatus(0x0005)),
    ),
    (
        Vtl::Zero,
        Vtl::Zero,
        [0x0002_0000, 1, 7, 0],
        Some(HvStatus(0x0005)),
    ),
    (
        Vtl::Zero,
        Vtl::Zero,
        [0x0002_0010, 0, 7, 0],
        Some(HvStatus(0x0005)),
    ),
    (Vtl::One, Vtl::Zero, [0x0002_0010, 0, 7, 0], None),
    (
        Vtl::One,
        Vtl::One,
        [0x0002_0010, 0, 7, 0],
        Some(HvStatus(0x0005)),
    ),
    (
        Vtl::One,
        Vtl::One,
        [0x000D_0003, 0, 7, 0],
        Some(HvStatus(0x0005)),
    ),
    (Vtl::One, Vtl::One, [0x0006_0001, 0, 7, 1 << 63], None),
    (
        Vtl::One,
        Vtl::One,
        [0x0004_0004, 0, 16, 0],
        Some(HvStatus(0x0050)),
    ),
];

#[test]
fn elements_that_set_a_register_are_judged(rt: HostRuntime) {
    for (caller, target, words, status) in SET {
        let [first, second, third, fourth] = words;
        let setting = Setting::of(first, second, third, fourth);
        let refusal = set_refusal(caller, target, 1, &setting);
        assert_eq!(rt; refusal, status, "{first}");
    }
}

#[test]
fn calls_of_other_processors_have_their_sizes(rt: HostRuntime) {
    let send = CallForm {
        code: 0x000B,
        rep: false,
        fast: true,
        header: 16,
        element: 0,
        read: 0,
        output: 0,
    };
    let start = CallForm {
        code: 0x0099,
        fast: false,
        header: 240,
        ..send
    };
    assert_eq!(rt; form_of(0x000B), Some(send));
    assert_eq!(rt; form_of(0x0099), Some(start));
    assert_eq!(rt; form_of(0x0098), None);
    assert_eq!(rt; Control::read(0x1_000B), single(0x000B, true));
    assert!(rt; is_refused(0x1_0099, HvStatus(0x0003)));
    assert!(rt;
        is_admitted(
            0x000B,
            0x1FF0,
            1,
            whole(Call::SendSyntheticClusterIpi, false)
        )
    );
    assert!(rt; is_not_admitted(0x000B, 0x1FF8, 1, HvStatus(0x0003)));
    assert!(rt;
        is_admitted(
            0x1_000B,
            0x2FFF,
            1,
            whole(Call::SendSyntheticClusterIpi, true)
        )
    );
    assert!(rt; is_admitted(0x0099, 0x1F10, 1, whole(Call::StartVirtualProcessor, false)));
    assert!(rt; is_not_admitted(0x0099, 0x1F18, 1, HvStatus(0x0003)));
}

// Which values a register takes.
ghost use Rattle.std.specs.Prelude.{◌≡◌, ◌<◌, ◌≤◌, ◌^◌, IsTrue};
ghost use Rattle.vsm_core.specs.Registers.{bits_of, has_bits, is_legal};

use vsm_base::Name;

/// The bits of a register that may be set: from the first on, and below the second. All others must be zero. This
/// project's own table.
#[tactic(auto, unfolding(vsm_core::specs::Registers::bits_of))]
fn bits_of(name: Name) -> (u32, u32)
    ensures bits { result ≡ bits_of name }
    ensures first { result.0 < 128 }
    ensures end { result.1 ≤ 128 }
{
    match name {
        Name::Cr8 => (0, 4),
        Name::Efer => (0, 16),
        Name::Rflags | Name::Cr0 | Name::Cr4 | Name::Dr6 | Name::Dr7 => (0, 32),
        Name::Cr3 => (0, 52),
        Name::Es | Name::Cs | Name::Ss | Name::Ds | Name::Fs | Name::Gs | Name::Ldtr | Name::Tr => (
            0, 128,
        ),
        Name::Idtr | Name::Gdtr => (48, 128),
        _ => (0, 64),
    }
}

#[tactic(auto, unfolding(vsm_core::specs::Registers::has_bits))]
fn has_bits(bits: (u32, u32), value: u128) -> bool
    requires first { bits.0 < 128 }
    requires end { bits.1 ≤ 128 }
    ensures bits { result ≡ has_bits bits value }
    ensures below { IsTrue result → value < 2 ^ bits.1 }
{
    let (first, end) = bits;
    value % (1 << first) == 0 && (end == 128 || value < 1 << end)
}

/// Whether the register of this name may have this value: none of its bits is set that must be zero, by the rules of
/// [`Bank::put`](crate::Bank::put).
pub fn is_legal(name: Name, value: u128) -> bool
    ensures legal { result ≡ is_legal name value }
    ensures below { IsTrue result → value < 2 ^ (bits_of name).1 }
{
    has_bits(bits_of(name), value)
}

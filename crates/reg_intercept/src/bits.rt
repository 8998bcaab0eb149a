// The bits of the register that says which accesses are intercepted.
ghost use Rattle.std.specs.Prelude.{◌≡◌, ◌<◌, IfSome};
ghost use Rattle.vsm_core.specs.Watches.{write_bit, read_bit, has_bit, changes};

use vsm_base::Name;

/// The bit that stands for the writes of a register, where there is one.
#[tactic(auto, unfolding(vsm_core::specs::Watches::write_bit))]
pub fn write_bit(name: Name) -> Option<u32>
    ensures bit { result ≡ write_bit name }
    ensures within { IfSome result (λ bit. bit < 64) }
{
    match name {
        Name::Cr0 => Some(0),
        Name::Cr4 => Some(1),
        Name::Lstar => Some(6),
        Name::Star => Some(8),
        Name::Efer => Some(14),
        Name::Gdtr => Some(15),
        Name::Idtr => Some(16),
        Name::Ldtr => Some(17),
        Name::Tr => Some(18),
        Name::SysenterCs => Some(19),
        Name::SysenterEip => Some(20),
        Name::SysenterEsp => Some(21),
        _ => None,
    }
}

/// The bit that stands for the reads of a register, where there is one.
#[tactic(auto, unfolding(vsm_core::specs::Watches::read_bit))]
pub fn read_bit(name: Name) -> Option<u32>
    ensures bit { result ≡ read_bit name }
    ensures within { IfSome result (λ bit. bit < 64) }
{
    match name {
        Name::Lstar => Some(5),
        Name::Star => Some(7),
        Name::Efer => Some(13),
        _ => None,
    }
}

/// Whether this bit is set, if it is one.
pub fn has_bit(control: u64, bit: Option<u32>) -> bool
    requires { IfSome bit (λ bit. bit < 64) }
    ensures { result ≡ has_bit control bit }
{
    match bit {
        Some(bit) => (control >> bit) % 2 == 1,
        None => false,
    }
}

/// Whether a bit of the mask changes.
pub fn changes(mask: u64, old: u128, new: u128) -> bool
    ensures { result ≡ changes mask old new }
{
    (old ^ new) & u128::from(mask) != 0
}

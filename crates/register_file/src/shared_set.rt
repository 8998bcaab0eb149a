// The registers that the levels have as one.
ghost use Rattle.std.specs.Prelude.{◌≡◌, ◌<◌, ◌≤◌, ◌^◌, true, slice_index, slice_set};
ghost use Rattle.vsm_base.specs.Names.{is_shared};
ghost use Rattle.vsm_core.specs.Registers.{bits_of, shared_place};

use vsm_base::Name;

/// How many registers the levels have as one.
pub const SHARED: usize = 24;

/// The place of the register of this name among them, in the order of their numbers.
#[tactic(auto, unfolding(vsm_core::specs::Registers::bits_of, vsm_core::specs::Registers::shared_place, vsm_core::specs::Registers::shared_names, vsm_base::specs::Names::all_names))]
fn place(name: Name) -> usize
    requires { is_shared name ≡ true }
    ensures place { result ≡ shared_place name }
    ensures within { result < 24 }
    ensures narrow { 2 ^ (bits_of name).1 ≤ 2 ^ 64 }
{
    match name {
        Name::Rax => 0,
        Name::Rcx => 1,
        Name::Rdx => 2,
        Name::Rbx => 3,
        Name::Rbp => 4,
        Name::Rsi => 5,
        Name::Rdi => 6,
        Name::R8 => 7,
        Name::R9 => 8,
        Name::R10 => 9,
        Name::R11 => 10,
        Name::R12 => 11,
        Name::R13 => 12,
        Name::R14 => 13,
        Name::R15 => 14,
        Name::Cr2 => 15,
        Name::Dr0 => 16,
        Name::Dr1 => 17,
        Name::Dr2 => 18,
        Name::Dr3 => 19,
        Name::Dr6 => 20,
        Name::CrInterceptControl => 21,
        Name::CrInterceptCr0Mask => 22,
        Name::CrInterceptCr4Mask => 23,
        _ => 0,
    }
}

/// The register of this name.
pub fn get(shared: &[u64; SHARED], name: Name) -> u128
    requires { is_shared name ≡ true }
    ensures { result ≡ slice_index shared.now (shared_place name) }
{
    u128::from(shared[place(name)])
}

/// Makes the register of this name have this value.
pub fn put(shared: &mut [u64; SHARED], name: Name, value: u128)
    requires shared { is_shared name ≡ true }
    requires fits { value < 2 ^ (bits_of name).1 }
    ensures { shared.new ≡ slice_set shared.old (shared_place name) value }
{
    let at = place(name);
    shared[at] = value as u64;
}

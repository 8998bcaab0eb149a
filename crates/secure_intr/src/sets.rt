// Sets of vectors, each of four words of 64 bits: bit b of word w is vector 64 w + b.
ghost use Rattle.std.specs.Prelude.{◌≡◌, ◌+◌, ◌^◌, ◌<◌, ◌≤◌, ◌↔◌, IsNone, IfSome};
ghost use Rattle.vsm_core.specs.Vectors.{highest as highest_lem, with_vector, without_vector, joined as joined_lem, legal as legal_lem};

// The highest bit of a word that is 1.
fn top_bit(word: u64) -> Option<u8>
    ensures none { IsNone result ↔ (word ≡ 0) }
    ensures within { IfSome result (λ bit. bit < 64) }
    ensures reached { IfSome result (λ bit. 2 ^ bit ≤ word) }
    ensures highest { IfSome result (λ bit. word < 2 ^ (bit + 1)) }
{
    if word == 0 {
        None
    } else {
        Some(63 - word.leading_zeros() as u8)
    }
}

// The highest vector of a set.
pub fn highest(set: &[u64; 4]) -> Option<u8>
    ensures { result ≡ highest_lem set.now }
{
    for index in (0..4u8).rev() {
        if let Some(bit) = top_bit(set[index as usize]) {
            return Some(64 * index + bit);
        }
    }
    None
}

pub fn insert(set: &mut [u64; 4], vector: u8)
    ensures { set.new ≡ with_vector set.old vector }
{
    set[(vector / 64) as usize] |= 1 << (vector % 64);
}

pub fn remove(set: &mut [u64; 4], vector: u8)
    ensures { set.new ≡ without_vector set.old vector }
{
    set[(vector / 64) as usize] &= !(1 << (vector % 64));
}

// A set without the vectors below 0x10.
pub fn legal(set: &[u64; 4]) -> [u64; 4]
    ensures { result ≡ legal_lem set.now }
{
    let mut kept = *set;
    kept[0] = kept[0] >> 16 << 16;
    kept
}

pub fn join(set: &mut [u64; 4], others: &[u64; 4])
    ensures { set.new ≡ joined_lem set.old others.now }
{
    for index in 0..4 {
        set[index] |= others[index];
    }
}

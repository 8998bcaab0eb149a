// The masks with which a script's run begins, and the memory words, stretch by stretch.
ghost use Rattle.std.specs.Prelude.{◌≡◌, ℕ, ◌*◌, ◌/◌, ◌%◌, ◌<◌, List, length, replicate, slice_index};
ghost use Rattle.vsm_report.specs.Opening.{opening_masks, opening_words, with_mask, with_word, IsStretch};

use guest_script::Script;
use vsm_base::{Mask, Page};

// Writes a given word where it stands in the stretch and in memory.
fn give(word: &(Page, u16, u64), pages: u32, stretch: usize, into: &mut [u64; 8192])
    ensures { (words : List ℕ) → length words ≡ 512 * pages → IsStretch words stretch into.old
        → IsStretch (with_word words word.now) stretch into.new }
{
    let at = 512 * word.0.0 as u64 + word.1 as u64;
    if at / 8192 == stretch as u64 && at < 512 * pages as u64 {
        into[(at % 8192) as usize] = word.2;
    }
}

/// Writes the opening words of a stretch.
fn fill_stretch(script: &Script, stretch: usize, words: &mut [u64; 8192])
    ensures { IsStretch (opening_words script.now) stretch words.new }
{
    *words = [0; 8192];
    for word in script.words.as_slice() {
        give(word, script.limits.pages, stretch, words);
    }
}

/// Goes on to the opening words of a place's stretch, which is sixteen pages long, so that the words that a script gives
/// are looked through once for each. Within a stretch they stand there already.
pub fn go_on_to(script: &Script, at: usize, words: &mut [u64; 8192])
    requires { 0 < at % 8192 → IsStretch (opening_words script.now) (at / 8192) words.old }
    ensures { IsStretch (opening_words script.now) (at / 8192) words.new }
{
    if at % 8192 == 0 {
        fill_stretch(script, at / 8192, words);
    }
}

fn all_rights(pages: u32, page: usize) -> u32
    ensures { result ≡ slice_index (replicate pages 15) page }
{
    if page < pages as usize { 15 } else { 0 }
}

// The mask of a page after one more that the script gives.
fn after_mask(given: &(Page, Mask), pages: u32, page: usize, mask: u32) -> u32
    ensures { (masks : List ℕ) → length masks ≡ pages → slice_index masks page ≡ mask
        → slice_index (with_mask masks given.now) page ≡ result }
{
    if given.0.0 as usize == page && page < pages as usize {
        given.1.bits()
    } else {
        mask
    }
}

/// The opening mask of a page; 0 where there is no such page.
pub fn opening_mask(script: &Script, page: usize) -> u32
    ensures { result ≡ slice_index (opening_masks script.now) page }
{
    let mut mask = all_rights(script.limits.pages, page);
    for given in script.masks.as_slice() {
        mask = after_mask(given, script.limits.pages, page, mask);
    }
    mask
}

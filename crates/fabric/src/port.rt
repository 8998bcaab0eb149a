// A processor's way to the shared words.
ghost use Rattle.std.specs.Prelude.{◌≡◌, IfSome};
ghost use Rattle.vsm_core.specs.Seat.{Seat, Makes, MayMake};
ghost use Rattle.vsm_core.specs.Tree.{Entering, Checking, Masking, Reading, Writing, Leaving, Posting, Taking};
ghost use Rattle.vsm_core.specs.Words.{word_at};

use vsm_base::{Mask, Page, VpIndex};
use vsm_core::PendingWord;

/// One processor's way to the shared words. Each call is one atomic step on one word, and its event is the last one
/// that is then known. Where the words are known, a call answers by them, and it changes its own word alone. Which
/// words there are, and the busy words and the generation among them, is this project's own.
pub trait Port {
    /// All that is known of it.
    ghost seat: { Self → Seat };

    /// Sets the processor's busy word to 1: it begins an access. It needs that none is under way.
    fn enter(&mut self)
        requires { MayMake (seat self.old) Entering }
        ensures { Makes (seat self.old) Entering 0 (seat self.new) };

    /// Loads the generation. It needs that the access has just been entered.
    fn check(&mut self) -> u64
        requires { MayMake (seat self.old) Checking }
        ensures { Makes (seat self.old) Checking result (seat self.new) };

    /// Loads the mask of a page that there is. It needs a checked generation.
    fn mask(&mut self, page: Page) -> Mask
        requires { MayMake (seat self.old) (Masking page.0) }
        ensures { Makes (seat self.old) (Masking page.0) result (seat self.new) };

    /// Loads a memory word, by page and place in the page, which is below 512. It needs a checked generation.
    fn read(&mut self, page: Page, index: u16) -> u64
        requires { MayMake (seat self.old) (Reading page.0 index) }
        ensures { Makes (seat self.old) (Reading page.0 index) result (seat self.new) };

    /// Writes a memory word and answers what it was. It needs a checked generation.
    fn write(&mut self, page: Page, index: u16, value: u64) -> u64
        requires { MayMake (seat self.old) (Writing page.0 index value) }
        ensures step { Makes (seat self.old) (Writing page.0 index value) 0 (seat self.new) }
        ensures old { let seat = seat self.old in IfSome seat.told (λ f. result ≡ word_at seat.limits seat.vp f.words (Writing page.0 index value)) };

    /// Sets the processor's busy word to 0: its access is over. It needs one under way.
    fn leave(&mut self)
        requires { MayMake (seat self.old) Leaving }
        ensures { Makes (seat self.old) Leaving 0 (seat self.new) };

    /// Sets bits of a processor's word of pending vectors, and answers what it was.
    fn post(&mut self, vp: VpIndex, word: PendingWord, bits: u64) -> u64
        requires { MayMake (seat self.old) (Posting vp.0 word bits) }
        ensures step { Makes (seat self.old) (Posting vp.0 word bits) 0 (seat self.new) }
        ensures old { let seat = seat self.old in IfSome seat.told (λ f. result ≡ word_at seat.limits seat.vp f.words (Posting vp.0 word bits)) };

    /// Takes the bits of the processor's own start word, or of one of its words of pending vectors, which is then 0.
    fn take(&mut self, word: PendingWord) -> u64
        requires { MayMake (seat self.old) (Taking word) }
        ensures { Makes (seat self.old) (Taking word) result (seat self.new) };
}

// The partition's way to the shared words.
ghost use Rattle.std.specs.Prelude.{◌≡◌, not, false, IfSome, slice_index};
ghost use Rattle.vsm_core.specs.Stand.{Stand, Serves, MayServe, start_at};

use vsm_base::{Mask, Page, VpIndex};
use vsm_core::{Event, PendingWord};

/// The partition's way to the shared words. Each call is one atomic step on one word, and its event is the last one
/// that is then known. A round of changes is asks, a turn of the generation, and a clear of each processor in order.
/// That order, and the words, are this project's own.
pub trait Steward {
    /// All that is known of it.
    ghost stand: { Self → Stand };

    /// Sets the mask of a page that there is, and answers what it was. It needs all processors cleared since the last
    /// turn.
    fn ask(&mut self, page: Page, mask: Mask) -> Mask
        requires { MayServe (stand self.old) (Event.Ask page mask) }
        ensures step { Serves (stand self.old) (Event.Ask page mask) (stand self.new) }
        ensures old { IfSome (stand self.old).told (λ f. result ≡ slice_index f.words page.0) };

    /// Adds one to the generation, and answers the new one. It needs all processors cleared since the last turn, and
    /// fewer than 2^64 - 1 turns.
    fn turn(&mut self) -> u64
        requires { MayServe (stand self.old) (Event.Turn 0) }
        ensures { Serves (stand self.old) (Event.Turn result) (stand self.new) };

    /// Loads the busy word of the processor that is to be cleared next: whether it was 0, so that it is cleared.
    fn clear(&mut self, vp: VpIndex) -> bool
        requires { MayServe (stand self.old) (Event.Clear vp false) }
        ensures { Serves (stand self.old) (Event.Clear vp (not result)) (stand self.new) };

    /// Sets bit 0 of a processor's start word, and answers what the word was.
    fn post(&mut self, vp: VpIndex) -> u64
        requires { MayServe (stand self.old) (Event.Post vp PendingWord.Start 1) }
        ensures step { Serves (stand self.old) (Event.Post vp PendingWord.Start 1) (stand self.new) }
        ensures old { let stand = stand self.old in IfSome stand.told (λ f. result ≡ slice_index f.words (start_at stand.limits vp.0)) };
}

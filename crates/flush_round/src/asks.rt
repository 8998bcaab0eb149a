// The asks of a round.
ghost use Rattle.std.specs.Prelude.{◌≡◌, ◌+◌, ◌-◌, ◌<◌, ◌^◌, [], ◌∷◌, IsSome, MatchOption};
ghost use Rattle.flush_round.specs.Asks.{asks_from};

use arrayvec::ArrayVec;
use vsm_base::{Mask, Page};

/// What a round asks: a few masks, or one mask for each of so many pages.
#[derive(Debug, Drop)]
pub enum Asks {
    Few(ArrayVec<(Page, Mask), 8>),
    All { pages: u32, mask: Mask },
}

/// The ask at this place, if there are so many.
pub fn ask_at(asks: &Asks, at: u32) -> Option<(Page, Mask)>
    ensures room { IsSome result → at < 2 ^ 32 - 1 }
    ensures next { MatchOption result (asks_from at asks.now ≡ []) (λ a. asks_from at asks.now ≡ a ∷ asks_from (at + 1) asks.now) }
{
    match asks {
        Asks::Few(few) => few.as_slice().get(at as usize).copied(),
        Asks::All { pages, mask } => {
            if at < *pages {
                Some((Page(at), *mask))
            } else {
                None
            }
        }
    }
}

// A round under way.
ghost use Rattle.std.specs.Prelude.{◌≡◌, ◌≢◌};
ghost use Rattle.vsm_core.specs.Protection.{asks_for_all};
ghost use Rattle.flush_round.specs.Steps.{AreWithin, HasAsked, IsReady, Steps, WasCleared};

use crate::asks::{Asks, ask_at};
use crate::step::RoundStep;
use arrayvec::ArrayVec;
use fabric::Steward;
use std::marker::Model;
use vsm_base::{Mask, Page, VpIndex};

/// How far a round is.
#[derive(Clone, Copy, Debug, PartialEq, Eq)]
pub enum Stage {
    /// Before its turn.
    Asking,
    /// Its turn made round `turned`, and the processors below `cleared` were cleared since.
    Clearing { turned: u64, cleared: u8 },
    /// After its report.
    Over,
}

/// A round under way, by which changes of protection masks come to hold for every access (TLFS, Virtual Secure Mode,
/// Memory Access Protections): it asks for its masks, one page after the other, turns the generation, and then finds each
/// processor, in the order of their numbers, outside every access that began before the turn. Contracts see how many
/// processors it clears, the asks that are to come, and how far it is. Its steps and their order are this project's own.
#[derive(Debug, Drop)]
pub struct Round {
    vps: u8,
    asks: Asks,
    at: u32,
    stage: Stage,
}

impl Model for Round {
    ghost use Rattle.flush_round.specs.Asks.{asks_from};
    ghost use Rattle.flush_round.specs.Steps.{RoundView};

    ghost Value = { RoundView };

    ghost view = { λ r. record { vps = r.vps; asks = asks_from r.at r.asks; stage = r.stage } };
}

impl Round {
    /// A round over `vps` processors that asks for these masks in their order, at most eight. With no ask it is a flush of
    /// translations. No step has been made yet.
    pub fn new(vps: u8, asks: ArrayVec<(Page, Mask), 8>) -> Round
        ensures { result ≡ record { vps = vps; asks = asks.items; stage = Stage.Asking } }
    {
        Round {
            vps,
            asks: Asks::Few(asks),
            at: 0,
            stage: Stage::Asking,
        }
    }

    /// A round over `vps` processors that asks for one mask for each of the first `pages` pages, in the order of their
    /// numbers. No step has been made yet.
    pub fn all(vps: u8, pages: u32, mask: Mask) -> Round
        ensures view { result ≡ record { vps = vps; asks = asks_for_all mask pages; stage = Stage.Asking } }
        ensures within { AreWithin pages (asks_for_all mask pages) }
    {
        Round {
            vps,
            asks: Asks::All { pages, mask },
            at: 0,
            stage: Stage::Asking,
        }
    }

    /// Makes the next step of the round, which is one step on one shared word, but for the last, which makes none. It
    /// answers the first of these that is left to do:
    /// 1. `Asked`: the mask of the next page is set.
    /// 2. `Turned`: the generation is turned.
    /// 3. `Cleared`: the busy word of the next processor is loaded and is 0. `Busy` exactly where that load finds it 1, and
    ///    then the next step loads it again.
    /// 4. `Done`: nothing is left. Each processor's busy word was loaded as 0 since the turn.
    ///
    /// Needs that the round isn't over, and that the steward stands where the round does, as it does after each step: it has
    /// as many processors, and the pages that are still asked for. Before the turn all processors must be cleared since the
    /// last turn, and fewer than 2^64 - 1 turns be made; after it the last turn must be this round's, and the processors
    /// cleared since be those that the round cleared.
    pub fn step<S: Steward>(&mut self, steward: &mut S) -> RoundStep
        requires going { self.old.stage ≢ Stage.Over }
        requires ready { IsReady self.old (S.stand steward.old) }
        ensures step { Steps self.old (S.stand steward.old) self.new (S.stand steward.new) result }
        ensures ready { IsReady self.new (S.stand steward.new) }
        ensures asked { HasAsked result (S.stand steward.new) }
        ensures cleared { WasCleared result (S.stand steward.new) }
    {
        match self.stage {
            Stage::Asking => match ask_at(&self.asks, self.at) {
                Some((page, mask)) => {
                    steward.ask(page, mask);
                    self.at += 1;
                    RoundStep::Asked(page, mask)
                }
                None => {
                    let turned = steward.turn();
                    self.stage = Stage::Clearing { turned, cleared: 0 };
                    RoundStep::Turned(turned)
                }
            },
            Stage::Clearing { turned, cleared } => {
                if cleared >= self.vps {
                    self.stage = Stage::Over;
                    return RoundStep::Done(turned);
                }
                let vp = VpIndex(cleared);
                if !steward.clear(vp) {
                    return RoundStep::Busy(vp);
                }
                self.stage = Stage::Clearing {
                    turned,
                    cleared: cleared + 1,
                };
                RoundStep::Cleared(vp)
            }
            Stage::Over => unreachable!(),
        }
    }
}

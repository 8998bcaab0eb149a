// What is left of a request under way.
ghost use Rattle.std.specs.Prelude.{◌≡◌, ℕ};
ghost use Rattle.vsm_core.specs.Entries.{step_of};
ghost use Rattle.partition.specs.Blocks.{IsSingle, RoundFitsAt, RoundMoves, UnderFits, UnderNext, next_of};
ghost use Rattle.partition.specs.Turns.{ServesIf};

use fabric::Steward;
use flush_round::{Round, RoundStep};
use vsm_base::VpIndex;
use vsm_core::{Entry, Reply};

/// A request that is under way: the first entry and the round are still to be added, in this order, and then it has this
/// reply.
#[derive(Debug, Drop)]
pub struct Under {
    pub by: VpIndex,
    pub first: Option<Entry>,
    pub round: Option<Round>,
    pub reply: Reply,
}

/// What comes next of a request under way.
#[derive(Clone, Copy, Debug, PartialEq, Eq)]
pub enum Next {
    /// This entry, and then others.
    Entry(Entry),
    /// This entry, the last.
    Last(Entry),
    /// Nothing yet: this processor was found busy.
    Busy(VpIndex),
}

fn next_of(by: VpIndex, step: &RoundStep) -> Next
    ensures { result ≡ next_of by step.now }
{
    match *step {
        RoundStep::Asked(page, mask) => Next::Entry(Entry::Ask { page, mask }),
        RoundStep::Turned(round) => Next::Entry(Entry::Turn { round, by }),
        RoundStep::Cleared(vp) => Next::Entry(Entry::Clear { vp }),
        RoundStep::Busy(vp) => Next::Busy(vp),
        RoundStep::Done(round) => Next::Last(Entry::Report { round }),
    }
}

fn round_next<S: Steward>(round: &mut Round, by: VpIndex, steward: &mut S) -> Next
    requires { (k : ℕ) × RoundFitsAt k (S.stand steward.old) round.old }
    ensures { (k : ℕ) → RoundFitsAt k (S.stand steward.old) round.old → RoundMoves k by round.old (S.stand steward.old) round.new (S.stand steward.new) result }
{
    let step = round.step(steward);
    next_of(by, &step)
}

/// Makes the step of an entry that is no part of a round, where it takes one.
fn make_first<S: Steward>(entry: &Entry, steward: &mut S)
    requires { IsSingle (S.stand steward.old).limits.vps entry.now }
    ensures { ServesIf (S.stand steward.old) (step_of entry.now) (S.stand steward.new) }
{
    if let Entry::Start {
        by: _,
        vp,
        level: _,
    } = entry
    {
        steward.post(*vp);
    }
}

/// Makes the step of the next entry of a request under way, where it takes one.
pub fn make_next<S: Steward>(under: &mut Under, steward: &mut S) -> Next
    requires fits { (k : ℕ) × UnderFits k (S.stand steward.old) under.old }
    ensures next { (k : ℕ) → UnderFits k (S.stand steward.old) under.old → UnderNext k under.old (S.stand steward.old) under.new (S.stand steward.new) result }
    ensures reply { under.new.reply ≡ under.old.reply }
{
    if let Some(entry) = under.first {
        make_first(&entry, steward);
        under.first = None;
        return if under.round.is_some() {
            Next::Entry(entry)
        } else {
            Next::Last(entry)
        };
    }
    let by = under.by;
    match &mut under.round {
        Some(round) => round_next(round, by, steward),
        None => unreachable!(),
    }
}

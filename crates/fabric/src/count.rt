// Counts of steps.
ghost use Rattle.std.specs.Prelude.{◌≡◌};
ghost use Rattle.vsm_core.specs.Seat.{counted};

/// A count that stays at its last value.
#[tactic(auto, unfolding(vsm_core::specs::Seat::counted))]
pub fn one_more(steps: u64) -> u64
    ensures { result ≡ counted steps }
{
    if steps < u64::MAX { steps + 1 } else { steps }
}

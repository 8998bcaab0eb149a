// What a turn came to.
ghost use Rattle.std.specs.Prelude.{◌≡◌, false, Option};
ghost use Rattle.vsm_core.specs.declared.request.Request.{Request};
ghost use Rattle.cpu.specs.Turns.{after_mark, asks_by, turn_of};

use vsm_core::{Ending, Request, What};

/// What one turn of a processor came to. The turns are this project's own.
#[derive(Debug, Drop)]
pub enum CpuTurn {
    /// It made a step, and its attempt goes on.
    Moved,
    /// It hasn't started, and its start word was 0: nothing of it changed.
    Idle,
    /// It left a mark that stays.
    Attempt,
    /// It left the mark of a spin that found another value, which stands until its next turn.
    Again,
    /// Its attempt asks this of the partition. It made no step, and goes on by the reply alone.
    Wants(Request),
    /// It runs no more, for this reason.
    Ended(Ending),
}

/// What a step came to: the same, but that a request isn't told.
#[derive(Clone, Copy, Debug)]
pub enum Pace {
    Moved,
    Idle,
    Attempt,
    Again,
    Wants,
    Ended(Ending),
}

impl Pace {
    /// The turn that came to this and asks nothing.
    pub fn turn(self) -> CpuTurn
        requires { asks_by self ≡ false }
        ensures { (asked : Option Request) → result ≡ turn_of self asked }
    {
        match self {
            Pace::Moved => CpuTurn::Moved,
            Pace::Idle => CpuTurn::Idle,
            Pace::Attempt => CpuTurn::Attempt,
            Pace::Again => CpuTurn::Again,
            Pace::Wants => unreachable!(),
            Pace::Ended(ending) => CpuTurn::Ended(ending),
        }
    }
}

/// What a step came to by which an attempt came to this.
pub fn after_mark(what: &What, ended: Option<Ending>) -> Pace
    ensures turn { (asked : Option Request) → turn_of result asked ≡ after_mark what.now ended }
    ensures quiet { asks_by result ≡ false }
{
    match ended {
        Some(ending) => Pace::Ended(ending),
        None if matches!(what, What::Again(_)) => Pace::Again,
        None => Pace::Attempt,
    }
}

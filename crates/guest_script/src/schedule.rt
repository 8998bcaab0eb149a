// The schedule lines that have been read.
ghost use Rattle.std.specs.Prelude.{◌≡◌, ◌<◌, ◌+◌, ◌-◌, ◌^◌, min, [], ◌∷◌, ◌++◌, OnOk, OnErr};
ghost use Rattle.guest_script.specs.Schedules.{turns_of, all_turns};

use crate::Turns;
use std::alloc::{AllocError, Global};
use std::marker::Model;
use vsm_base::Items;

/// The entries of each schedule line, with how many turns they have in all.
#[derive(Debug, Drop)]
pub struct Schedule {
    lines: Items<Items<Turns>>,
    turns: u64,
}

impl Model for Schedule {
    ghost use Rattle.std.specs.Prelude.{◌≡◌, List};
    ghost use Rattle.guest_script.specs.declared.script.Turns.{Turns};
    ghost use Rattle.guest_script.specs.Schedules.{all_turns};

    ghost Value = { List (List Turns) };

    ghost view = { λ s. s.lines };

    ghost invariant = { λ s. s.turns ≡ all_turns s.lines };
}

/// The turns of all the entries, or the largest number where they are more.
pub fn turns_of(turns: &[Turns]) -> u64
    ensures { result ≡ min (turns_of turns.now) (2 ^ 64 - 1) }
{
    let mut total: u64 = 0;
    for t in turns {
        total = total.saturating_add(u64::from(t.count));
    }
    total
}

impl Schedule {
    pub fn new(alloc: Global) -> Schedule
        ensures { result ≡ [] }
    {
        Schedule {
            lines: Items::new(alloc),
            turns: 0,
        }
    }

    /// How many turns there are in all.
    pub fn turns(&self) -> u64
        ensures { result ≡ all_turns self.now }
    {
        self.turns
    }

    /// Adds a line of so many turns. An `Err` changes nothing.
    pub fn push(&mut self, line: Items<Turns>, turns: u64) -> Result<(), AllocError>
        requires counted { turns ≡ turns_of line }
        requires fits { turns + all_turns self.old < 2 ^ 64 }
        ensures ok { OnOk result (self.new ≡ self.old ++ line ∷ []) }
        ensures err { OnErr result (self.new ≡ self.old) }
    {
        let total = self.turns + turns;
        self.lines.push(line)?;
        self.turns = total;
        Ok(())
    }

    pub fn into_lines(self) -> Items<Items<Turns>>
        ensures { result ≡ self }
    {
        let Schedule { lines, turns: _ } = self;
        lines
    }
}

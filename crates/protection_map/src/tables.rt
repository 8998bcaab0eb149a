// What the entries of a journal have come to.
ghost use Rattle.std.specs.Prelude.{◌≡◌, ◌+◌, ◌<◌, ◌^◌, length, IfOk};
ghost use Rattle.vsm_core.specs.Journal.{tables_after, opening_tables};
ghost use Rattle.protection_map.specs.JournalView.{IsWithin};

use std::alloc::{AllocError, Global};
use std::marker::Model;
use vsm_base::Mask;
use vsm_core::Entry;

/// The mask of each page, its mask at the last report, and how many reports there were.
#[derive(Debug, Drop)]
pub struct Tables {
    pub masks: Vec<Mask>,
    pub settled: Vec<Mask>,
    pub rounds: u64,
}

impl Model for Tables {
    ghost use Rattle.std.specs.Prelude.{◌≡◌, length};
    ghost use Rattle.vsm_core.specs.Journal.{Tables as TablesView};

    ghost Value = { TablesView };

    ghost view = { λ t. record { masks = t.masks.items; settled = t.settled.items; rounds = t.rounds } };

    ghost invariant = { λ t. length t.settled.items ≡ length t.masks.items };
}

impl Tables {
    /// The tables before the first entry.
    pub fn new(alloc: Global, opening: &[Mask]) -> Result<Tables, AllocError>
        ensures { IfOk result (λ t. t ≡ opening_tables opening.now) }
    {
        Ok(Tables {
            masks: opening.to_vec(alloc)?,
            settled: opening.to_vec(alloc)?,
            rounds: 0,
        })
    }

    /// Takes one entry more into account.
    pub fn follow(&mut self, entry: &Entry)
        requires page { IsWithin (length self.old.masks) entry.now }
        requires rounds { self.old.rounds + 1 < 2 ^ 64 }
        ensures { self.new ≡ tables_after self.old entry.now }
    {
        match entry {
            Entry::Ask { page, mask } => self.masks[page.0 as usize] = *mask,
            Entry::Report { round: _ } => {
                self.settled.copy_from_slice(&self.masks);
                self.rounds += 1;
            }
            _ => {}
        }
    }
}

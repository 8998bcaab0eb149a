// The programs of the processors.
ghost use Rattle.std.specs.Prelude.{◌≡◌, ◌<◌, IfOk, length, OnOk, OnErr};
ghost use Rattle.guest_script.specs.Programs.{nothings, operations, program_at, added};

use std::alloc::{AllocError, Global};
use std::marker::Model;
use vsm_base::Items;
use vsm_core::{Op, Program};

/// The programs, one for each processor.
#[derive(Debug, Drop)]
pub struct Programs {
    items: Vec<Program>,
}

impl Model for Programs {
    ghost use Rattle.std.specs.Prelude.{List};
    ghost use Rattle.vsm_core.specs.declared.operation.Program.{Program};

    ghost Value = { List Program };

    ghost view = { λ p. p.items.items };
}

impl Programs {
    /// An empty program for each of so many processors.
    pub fn empty(alloc: Global, count: u8) -> Result<Programs, AllocError>
        ensures { IfOk result (λ p. p ≡ nothings count) }
    {
        let mut items = Vec::new(alloc);
        for _ in 0..count {
            items.push(Program {
                zero: Items::new(alloc),
                one: Items::new(alloc),
            })?;
        }
        Ok(Programs { items })
    }

    /// How many operations a processor's program has in a level (0 or 1).
    pub fn operations(&self, vp: usize, level: u8) -> usize
        requires { vp < length self.now }
        ensures { result ≡ length (operations (program_at self.now vp) level) }
    {
        let program = &self.items[vp];
        if level == 0 {
            program.zero.len()
        } else {
            program.one.len()
        }
    }

    /// Adds an operation to a processor's program of a level (0 or 1). An `Err` changes nothing.
    pub fn add(&mut self, vp: usize, level: u8, op: Op) -> Result<(), AllocError>
        requires { vp < length self.old }
        ensures ok { OnOk result (self.new ≡ added self.old vp level op) }
        ensures err { OnErr result (self.new ≡ self.old) }
    {
        let program = &mut self.items[vp];
        if level == 0 {
            program.zero.push(op)?;
        } else {
            program.one.push(op)?;
        }
        Ok(())
    }

    pub fn into_items(self) -> Items<Program>
        ensures { result ≡ self }
    {
        let Programs { items } = self;
        Items::from_vec(items)
    }
}

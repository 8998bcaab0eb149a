// A script once more.
ghost use Rattle.std.specs.Prelude.{◌≡◌, IfOk};

use crate::maker::push_all;
use crate::{Script, Turns};
use std::alloc::Global;
use vsm_base::{Items, Memory};
use vsm_core::Program;

fn items_again<T: Copy>(alloc: Global, items: &Items<T>) -> Result<Items<T>, Memory>
    ensures { IfOk result (λ same. same ≡ items.now) }
{
    let mut same = Items::new(alloc);
    push_all(&mut same, items.as_slice())?;
    Ok(same)
}

fn programs_again(alloc: Global, programs: &[Program]) -> Result<Items<Program>, Memory>
    ensures { IfOk result (λ same. same ≡ programs.now) }
{
    let mut all = Items::new(alloc);
    for program in programs {
        all.push(Program {
            zero: items_again(alloc, &program.zero)?,
            one: items_again(alloc, &program.one)?,
        })?;
    }
    Ok(all)
}

fn schedule_again(alloc: Global, schedule: &[Items<Turns>]) -> Result<Items<Items<Turns>>, Memory>
    ensures { IfOk result (λ same. same ≡ schedule.now) }
{
    let mut all = Items::new(alloc);
    for line in schedule {
        all.push(items_again(alloc, line)?)?;
    }
    Ok(all)
}

impl Script {
    /// The same script once more, in memory of its own. This project's own.
    ///
    /// # Errors
    ///
    /// `Memory` where there was no memory.
    pub fn again(&self, alloc: Global) -> Result<Script, Memory>
        ensures { IfOk result (λ same. same ≡ self.now) }
    {
        Ok(Script {
            limits: self.limits,
            started: self.started,
            masks: items_again(alloc, &self.masks)?,
            words: items_again(alloc, &self.words)?,
            programs: programs_again(alloc, self.programs.as_slice())?,
            schedule: schedule_again(alloc, self.schedule.as_slice())?,
        })
    }
}

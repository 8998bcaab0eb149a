// A port that tells no words and answers what it was fed.
ghost use Rattle.std.specs.Prelude.{◌≡◌, None, IfOk};
ghost use Rattle.vsm_core.specs.Seat.{counted};

use fabric::Port;
use std::alloc::Global;
use std::test::Fail;
use vsm_base::{Limits, Mask, Page, VpIndex};
use vsm_core::{Event, PendingWord, Phase};

/// A port that answers its loads and takes by the numbers that it was fed, in turn, and then by 0.
#[derive(Drop)]
pub struct Fed {
    pub vp: VpIndex,
    pub limits: Limits,
    pub phase: Phase,
    pub last: Option<Event>,
    pub steps: u64,
    pub answers: Vec<u64>,
    pub at: usize,
}

#[tactic(auto, unfolding(vsm_core::specs::Seat::counted))]
fn one_more(steps: u64) -> u64
    ensures { result ≡ counted steps }
{
    if steps < u64::MAX { steps + 1 } else { steps }
}

fn next(answers: &[u64], at: &mut usize) -> u64 {
    let answer = answers.get(*at).copied().unwrap_or(0);
    *at = at.saturating_add(1);
    answer
}

impl Port for Fed {
    ghost seat = { λ p. record {
      name = 0;
      vp = p.vp.0;
      limits = p.limits;
      phase = p.phase;
      last = p.last;
      steps =
          p.steps;
      told = None;
      known = None;
    } };

    fn enter(&mut self) {
        self.phase = Phase::Entered;
        self.last = Some(Event::Enter);
        self.steps = one_more(self.steps);
    }

    fn check(&mut self) -> u64 {
        let generation = next(&self.answers, &mut self.at);
        self.phase = Phase::In { generation };
        self.last = Some(Event::Check { generation });
        self.steps = one_more(self.steps);
        generation
    }

    fn mask(&mut self, page: Page) -> Mask {
        let bits = next(&self.answers, &mut self.at);
        let mask = Mask::of((bits % 16) as u32).unwrap_or(Mask::all());
        self.last = Some(Event::Mask { page, mask });
        self.steps = one_more(self.steps);
        mask
    }

    fn read(&mut self, page: Page, index: u16) -> u64 {
        let value = next(&self.answers, &mut self.at);
        self.last = Some(Event::Read { page, index, value });
        self.steps = one_more(self.steps);
        value
    }

    fn write(&mut self, page: Page, index: u16, value: u64) -> u64 {
        self.last = Some(Event::Write { page, index, value });
        self.steps = one_more(self.steps);
        0
    }

    fn leave(&mut self) {
        self.phase = Phase::Idle;
        self.last = Some(Event::Leave);
        self.steps = one_more(self.steps);
    }

    fn post(&mut self, vp: VpIndex, word: PendingWord, bits: u64) -> u64 {
        self.last = Some(Event::Post { vp, word, bits });
        self.steps = one_more(self.steps);
        0
    }

    fn take(&mut self, word: PendingWord) -> u64 {
        let bits = next(&self.answers, &mut self.at);
        self.last = Some(Event::Take { word, bits });
        self.steps = one_more(self.steps);
        bits
    }
}

/// The port of processor 0 before its first step.
pub fn new_fed(alloc: Global, limits: Limits, answers: &[u64]) -> Result<Fed, Fail>
    ensures vp { IfOk result (λ p. p.vp.0 ≡ 0) }
    ensures limits { IfOk result (λ p. p.limits ≡ limits) }
    ensures idle { IfOk result (λ p. p.phase ≡ Phase.Idle) }
{
    Ok(Fed {
        vp: VpIndex(0),
        limits,
        phase: Phase::Idle,
        last: None,
        steps: 0,
        answers: Vec::from_slice(alloc, answers)?,
        at: 0,
    })
}

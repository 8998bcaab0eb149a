// The one place where a port is touched.
ghost use Rattle.std.specs.Prelude.{◌≡◌};
ghost use Rattle.vsm_core.specs.Seat.{Makes, MayMake};
ghost use Rattle.vsm_core.specs.Steps.{made};
ghost use Rattle.attempt.specs.Asked.{word_step, IsAnswer};

use attempt::Step;
use fabric::Port;
use vsm_core::Event;

/// Makes a step at a port. Answers what the word held, 0 where that teaches nothing, and the step's event. Nothing else
/// of this crate touches a port.
pub fn ask<P: Port>(port: &mut P, step: Step) -> (u64, Event)
    requires { MayMake (P.seat port.old) (word_step step) }
    ensures makes { Makes (P.seat port.old) (word_step step) result.0 (P.seat port.new) }
    ensures event { result.1 ≡ made (word_step step) result.0 }
    ensures answer { IsAnswer (word_step step) result.0 }
{
    match step {
        Step::Enter => {
            port.enter();
            (0, Event::Enter)
        }
        Step::Check => {
            let generation = port.check();
            (generation, Event::Check { generation })
        }
        Step::Mask { page } => {
            let mask = port.mask(page);
            (u64::from(mask.bits()), Event::Mask { page, mask })
        }
        Step::Read { page, index } => {
            let value = port.read(page, index);
            (value, Event::Read { page, index, value })
        }
        Step::Write { page, index, value } => {
            port.write(page, index, value);
            (0, Event::Write { page, index, value })
        }
        Step::Leave => {
            port.leave();
            (0, Event::Leave)
        }
        Step::Post { vp, word, bits } => {
            port.post(vp, word, bits);
            (0, Event::Post { vp, word, bits })
        }
        Step::Take { word } => {
            let bits = port.take(word);
            (bits, Event::Take { word, bits })
        }
    }
}

// The state and the inputs as C has them, and as `colours` has them.
ghost use Rattle.std.specs.Prelude.{◌≡◌};
ghost use Rattle.numbers.specs.Refuse.{refuse};
ghost use Rattle.numbers.specs.Refusal.{given_back};
ghost use Rattle.colours_c.specs.State.{lawful, taken_waiting, handed, taken_inputs};
ghost use Rattle.colours_c.specs.Calls.{taken_or_excluded};

use crate::{Held, HeldInputs, HeldLevels};
use colours::{Colours, Inputs};
use numbers::{Refusal, refuse};

impl Held {
    // Whether the rules allow it: waiting 0 or 1, a low part of 0 where none waits, and three outputs that pixels can make.
    #[tactic(auto, unfolding(crate::specs::State::lawful))]
    fn lawful(self) -> bool
        ensures { result ≡ lawful self }
    {
        let part = (self.waiting == 1) | ((self.waiting == 0) & (self.low == 0));
        part & self.first.makes() & self.second.makes() & self.third.makes()
    }

    // What refuses a call with it: 1. Inlined, as the two conversions below: not so, a pixel took 16 instructions more and a write 97.
    #[inline(always)]
    pub(crate) fn refusal(self) -> Result<(), Refusal>
        ensures { given_back result ≡ refuse (lawful self) 1 0 }
    {
        refuse(self.lawful(), Refusal::StateExcluded)
    }

    // The low part that waits.
    fn part(self) -> Option<u8>
        ensures { result ≡ taken_waiting self.waiting self.low }
    {
        if self.waiting == 0 {
            None
        } else {
            Some(self.low)
        }
    }
}

impl TryFrom<Held> for Colours {
    type Error = Refusal;

    ghost try_from_gives = { λ held answer. answer ≡ taken_or_excluded held };

    #[inline(always)]
    #[tactic(auto, unfolding(crate::specs::State::taken))]
    fn try_from(held: Held) -> Result<Colours, Refusal> {
        held.refusal()?;
        Ok(Colours {
            waiting: held.part(),
            first: held.first.output(),
            second: held.second.output(),
            third: held.third.output(),
        })
    }
}

impl From<Colours> for Held {
    ghost from_gives = { λ state held. held ≡ handed state };

    #[inline(always)]
    #[tactic(auto, unfolding(crate::specs::State::handed))]
    fn from(state: Colours) -> Held {
        Held {
            waiting: state.waits() as u8,
            low: state.low(),
            first: HeldLevels::from(state.first),
            second: HeldLevels::from(state.second),
            third: HeldLevels::from(state.third),
        }
    }
}

impl From<HeldInputs> for Inputs {
    ghost from_gives = { λ held inputs. inputs ≡ taken_inputs held };

    #[tactic(auto, unfolding(crate::specs::State::taken_inputs))]
    fn from(inputs: HeldInputs) -> Inputs {
        Inputs {
            address: inputs.address,
            horizontal: inputs.horizontal != 0,
            vertical: inputs.vertical != 0,
            blank: inputs.blank != 0,
            overlay: inputs.overlay != 0,
            red: inputs.red != 0,
            green: inputs.green != 0,
            blue: inputs.blue != 0,
            blink: inputs.blink != 0,
        }
    }
}

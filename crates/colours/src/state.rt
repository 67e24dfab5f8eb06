// The low part that waits, the rule, and what refuses a call.
ghost use Rattle.std.specs.Prelude.{◌≡◌};
ghost use Rattle.numbers.specs.Refusal.{given_back};
ghost use Rattle.colours.specs.State.{waits, low_waiting, steps_ok, ruled};
ghost use Rattle.colours.specs.Calls.{state_refusal};

use crate::{Colours, Output};
use numbers::{Refusal, refuse};

impl Output {
    // Whether a pixel can make it: a colour has steps 0 to 15, and the rest is the type's.
    fn steps_ok(self) -> bool
        ensures { result ≡ steps_ok self }
    {
        match self {
            Output::Colour { red, green, blue } => (red <= 15) & (green <= 15) & (blue <= 15),
            _ => true,
        }
    }
}

impl Colours {
    // Whether a low part waits.
    pub fn waits(self) -> bool
        ensures { result ≡ waits self.waiting }
    {
        self.waiting.is_some()
    }

    // The low part that waits, 0 where none does.
    pub fn low(self) -> u8
        ensures { result ≡ low_waiting self.waiting }
    {
        self.waiting.unwrap_or(0)
    }

    // Whether the rules allow the state: no step over 15 is on its way.
    #[tactic(auto, unfolding(crate::specs::State::ruled))]
    fn ruled(self) -> bool
        ensures { result ≡ ruled self }
    {
        self.first.steps_ok() & self.second.steps_ok() & self.third.steps_ok()
    }

    // What refuses a call: 1 for the state.
    pub(crate) fn refusal(self) -> Result<(), Refusal>
        ensures { given_back result ≡ state_refusal self 0 }
    {
        refuse(self.ruled(), Refusal::StateExcluded)
    }
}

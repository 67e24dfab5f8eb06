// What the rules allow of a state, and what refuses a call.
#![tactic(auto, unfolding(crate::specs::State::ruled, crate::specs::Calls::refusal))]

ghost use Rattle.std.specs.Prelude.{◌≡◌};
ghost use Rattle.numbers.specs.Refusal.{number_of, given_back};
ghost use Rattle.controller.specs.State.{overrides, ruled};
ghost use Rattle.controller.specs.Calls.{refusal};

use crate::{Controller, Update};
use numbers::{Refusal, refuse};

impl Controller {
    // Whether the update mode is override.
    pub(crate) fn overrides(self) -> bool
        ensures { result ≡ overrides self.update }
    {
        self.update == Update::Override
    }

    // Whether the rules allow the state: Top of Frame and counter of 18 bits, 0 to 3 refresh cycles, page mode not with interleaved.
    pub(crate) fn ruled(self) -> bool
        ensures { result ≡ ruled self }
    {
        self.top < 262144
            && self.counter < 262144
            && self.cycles <= 3
            && !(self.page && self.update == Update::Interleaved)
    }

    // What refuses a call: the state, then the call's own test.
    pub(crate) fn refusal(self, holds: bool, why: Refusal) -> Result<(), Refusal>
        ensures { given_back result ≡ refusal self holds (number_of why) }
    {
        refuse(self.ruled(), Refusal::StateExcluded)?;
        refuse(holds, why)
    }
}

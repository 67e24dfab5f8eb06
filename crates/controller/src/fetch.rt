// A video word fetched.
#![tactic(auto, unfolding(crate::specs::State::ruled, crate::specs::Calls::allows, crate::specs::Calls::against, crate::specs::Calls::refusal, crate::specs::Calls::effect))]

ghost use Rattle.std.specs.Prelude.{◌≡◌, ◌<◌};
ghost use Rattle.controller.specs.Address.{address_of};
ghost use Rattle.controller.specs.Calls.{Fetch, allows, fetch_call, fetched_by};

use crate::{Address, Controller};
use numbers::Refusal;

impl Controller {
    // The counter's address as bank, row and column.
    fn address(self) -> Address
        requires { self.counter < 262144 }
        ensures { result ≡ address_of self.counter }
    {
        Address {
            bank: (self.counter / 65536) as u8,
            row: (self.counter / 256 % 256) as u8,
            column: (self.counter % 256) as u8,
        }
    }

    // Whether words are fetched: video is on, and the mode is not override.
    fn shows(self) -> bool
        ensures { result ≡ allows Fetch self }
    {
        self.video && !self.overrides()
    }

    // The counter's address; then the counter goes up by one, wrapped at 18 bits.
    pub fn fetch(self) -> Result<(Controller, Address), Refusal>
        ensures { fetched_by self result ≡ fetch_call self }
    {
        self.refusal(self.shows(), Refusal::VideoOffOrOverride)?;
        let next = Controller {
            counter: (self.counter + 1) % 262144,
            ..self
        };
        Ok((next, self.address()))
    }
}

// The controller's state as C has it, and as `controller` has it.
#![tactic(auto, unfolding(crate::specs::State::lawful, crate::specs::State::taken, crate::specs::State::taking, crate::specs::State::handed))]

ghost use Rattle.std.specs.Prelude.{◌≡◌};
ghost use Rattle.controller_c.specs.State.{taking, handed};

use crate::Held;
use controller::{Controller, Update};
use numbers::{Refusal, refuse};

// Refused where no `Controller` can be so: an update mode over 2, or a yes-or-no byte that is neither 0 nor 1.
impl TryFrom<Held> for Controller {
    type Error = Refusal;

    ghost try_from_gives = { λ held answer. answer ≡ taking held };

    fn try_from(held: Held) -> Result<Controller, Refusal> {
        let lawful = held.update <= 2 && held.page <= 1 && held.video <= 1 && held.inhibited <= 1;
        refuse(lawful, Refusal::StateExcluded)?;
        Ok(Controller {
            top: held.top,
            counter: held.counter,
            offset: held.offset,
            refresh: held.refresh,
            cycles: held.cycles,
            update: Update::from(u32::from(held.update)),
            page: held.page != 0,
            video: held.video != 0,
            inhibited: held.inhibited != 0,
        })
    }
}

impl From<Controller> for Held {
    ghost from_gives = { λ state held. held ≡ handed state };

    fn from(state: Controller) -> Held {
        Held {
            top: state.top,
            counter: state.counter,
            offset: state.offset,
            refresh: state.refresh,
            cycles: state.cycles,
            update: u8::from(state.update),
            page: u8::from(state.page),
            video: u8::from(state.video),
            inhibited: u8::from(state.inhibited),
        }
    }
}

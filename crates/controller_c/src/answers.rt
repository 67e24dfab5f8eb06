// An answer as C has it.
ghost use Rattle.std.specs.Prelude.{◌≡◌};
ghost use Rattle.controller.specs.Calls.{Call};
ghost use Rattle.controller_c.specs.State.{taken};
ghost use Rattle.controller_c.specs.Calls.{Owes, held_call};

use crate::{Controlled, Held};
use controller::Controller;
use numbers::Refusal;

// A call below on the state taken: 1 where no `Controller` can be so. A refusal hands the state back as it came.
pub(crate) fn answer<F: FnOnce(Controller) -> Result<Controller, Refusal>>(
    state: Held,
    call: F,
) -> Controlled
    requires { F.IsAlwaysCallable call }
    ensures { (c : Call) → Owes c (taken state) (F.post call (taken state)) → result ≡ held_call c state }
{
    match Controller::try_from(state).and_then(call) {
        Ok(done) => Controlled {
            state: Held::from(done),
            number: 0,
        },
        Err(refusal) => Controlled {
            state,
            number: u32::from(refusal),
        },
    }
}

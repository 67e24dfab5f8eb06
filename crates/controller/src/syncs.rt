// Video on and off, and the two syncs.
#![tactic(auto, unfolding(crate::specs::State::ruled, crate::specs::Calls::allows, crate::specs::Calls::against, crate::specs::Calls::refusal, crate::specs::Calls::effect))]

ghost use Rattle.std.specs.Prelude.{◌≡◌, true};
ghost use Rattle.controller.specs.State.{ruled};
ghost use Rattle.controller.specs.Effect.{advanced};
ghost use Rattle.controller.specs.Calls.{Video, HorizontalSync, VerticalSync, does, controlled_by};

use crate::Controller;
use numbers::{Refusal, refuse};
use std::num::wrapping_add_u8;

impl Controller {
    // The Offset added to the counter, wrapped at 18 bits; not while inhibited, nor in override.
    fn advanced(self) -> Controller
        requires { ruled self ≡ true }
        ensures { result ≡ advanced self }
    {
        if self.inhibited || self.overrides() {
            self
        } else {
            Controller {
                counter: (self.counter + u32::from(self.offset)) % 262144,
                ..self
            }
        }
    }

    // Video on, or off where the number is 0; a change from off to on ends the inhibition.
    pub fn video(self, on: u32) -> Result<Controller, Refusal>
        ensures { controlled_by self result ≡ does (Video on) self }
    {
        refuse(self.ruled(), Refusal::StateExcluded)?;
        let video = on != 0;
        Ok(Controller {
            video,
            inhibited: self.inhibited && (self.video || !video),
            ..self
        })
    }

    // A horizontal sync: the Offset is added, and each of the refresh cycles raises the refresh counter by one.
    pub fn horizontal_sync(self) -> Result<Controller, Refusal>
        ensures { controlled_by self result ≡ does HorizontalSync self }
    {
        refuse(self.ruled(), Refusal::StateExcluded)?;
        let advanced = self.advanced();
        Ok(Controller {
            refresh: wrapping_add_u8(advanced.refresh, advanced.cycles),
            ..advanced
        })
    }

    // A vertical sync, in override too: the counter is loaded from Top of Frame, and additions are inhibited.
    pub fn vertical_sync(self) -> Result<Controller, Refusal>
        ensures { controlled_by self result ≡ does VerticalSync self }
    {
        refuse(self.ruled(), Refusal::StateExcluded)?;
        Ok(Controller {
            counter: self.top,
            inhibited: true,
            ..self
        })
    }
}

// The state's rule.
ghost use Rattle.std.specs.Prelude.{◌≡◌};
ghost use Rattle.vram.specs.State.{ruled};

use crate::{Vram, Waiting};

impl Vram {
    // Whether the rules allow the state: a waiting tap needs a full transfer made, and lies in the half that does not hold the pointer. That
    // a partition has one of the four lengths is the type's.
    #[tactic(auto, unfolding(crate::specs::State::ruled))]
    pub fn ruled(self) -> bool
        ensures { result ≡ ruled self }
    {
        match self.waiting {
            Waiting::None => true,
            Waiting::Tap(tap) => self.loaded & (tap / 128 != self.pointer / 128),
        }
    }
}

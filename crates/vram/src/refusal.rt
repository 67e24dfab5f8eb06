// What is refused of the state and the lengths given to a call.
ghost use Rattle.std.specs.Prelude.{◌≡◌};
ghost use Rattle.numbers.specs.Refusal.{given_back};
ghost use Rattle.vram.specs.Refusal.{given};

use crate::Vram;
use numbers::{Refusal, refuse};
use refusals::fitted;

impl Vram {
    // 1 to 3: the state and the lengths given to a call, checked whether it uses them or not.
    #[tactic(auto, unfolding(crate::specs::Refusal::given))]
    pub fn given(self, words: usize, serial_words: usize) -> Result<(), Refusal>
        ensures { given_back result ≡ given self words serial_words }
    {
        refuse(self.ruled(), Refusal::StateExcluded)?;
        refuse(fitted(words), Refusal::MemoryLength)?;
        refuse(serial_words == 256, Refusal::RegisterLength)
    }
}

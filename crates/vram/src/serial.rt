// The serial port: the clock, and how a run of clocks moves. The tap is used up and the pointer advanced here and nowhere else.
ghost use Rattle.std.specs.Prelude.{◌≡◌, ◌<◌};
ghost use Rattle.vram.specs.Serial.{after, through, clocks};
ghost use Rattle.vram.specs.Calls.{clocked_by, clock_call, moved_by, clocks_call};

use crate::{Vram, Waiting};
use numbers::{Refusal, refuse};

// The place so many after another, 255 going to 0. The second clause is the range of a u8, which the callers' proofs use.
fn advance(place: u8, count: u32) -> u8
    ensures { (result ≡ after place count) × (place < 256) }
{
    std::num::wrapping_add_u8(place, (count % 256) as u8)
}

impl Vram {
    // How many clocks lead through the end of the pointer's partition.
    fn through(self) -> u32
        ensures { result ≡ through self }
    {
        let length = self.stop.length();
        (length - self.pointer % length) as u32
    }

    // The state after some clocks: within the partition at a later place; past its end from the waiting tap on, which is used up.
    fn moved(self, count: u32) -> Vram
        ensures { result ≡ clocks count self }
    {
        let through = self.through();
        let later = advance(self.pointer, count);
        match self.waiting {
            Waiting::Tap(tap) if through <= count => Vram {
                pointer: advance(tap, count - through),
                waiting: Waiting::None,
                ..self
            },
            _ => Vram {
                pointer: later,
                ..self
            },
        }
    }

    // A serial clock: the word at the pointer; then the pointer moves.
    #[tactic(auto, unfolding(crate::specs::Calls::clock_call, crate::specs::Calls::clock_refusal))]
    pub fn clock(self, serial: &[u16]) -> Result<(Vram, u16), Refusal>
        ensures { clocked_by self result ≡ clock_call self serial.now }
    {
        refuse(self.ruled(), Refusal::StateExcluded)?;
        refuse(serial.len() == 256, Refusal::RegisterLength)?;
        refuse(self.loaded, Refusal::NotLoaded)?;
        let word = serial[self.pointer as usize];
        Ok((self.moved(1), word))
    }

    // The state after some clocks, 0 to 512, and how many more lead through the end of its partition.
    #[tactic(auto, unfolding(crate::specs::Calls::clocks_call, crate::specs::Calls::clocks_refusal))]
    pub fn clocks(self, count: u32) -> Result<(Vram, u32), Refusal>
        ensures { moved_by self result ≡ clocks_call self count }
    {
        refuse(self.ruled(), Refusal::StateExcluded)?;
        refuse((count == 0) | self.loaded, Refusal::NotLoaded)?;
        refuse(count <= 512, Refusal::RunOver)?;
        let state = self.moved(count);
        Ok((state, state.through()))
    }
}

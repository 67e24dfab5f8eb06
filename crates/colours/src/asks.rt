// What a pixel asks for, and the levels that it is.
ghost use Rattle.std.specs.Prelude.{◌≡◌};
ghost use Rattle.colours.specs.Calls.{asked_by, ask_call};
ghost use Rattle.colours.specs.Output.{colour_of, blinked, asks, overlaid, levels_of};

use crate::access::word_at;
use crate::{Inputs, Level, Levels, Output};
use numbers::Refusal;

// The twelve colour bits of a word; blink together with the word's blink bit inverts them.
#[tactic(auto, unfolding(words::specs::Bit::bit))]
fn blinked(blink: bool, word: u16) -> u16
    ensures { result ≡ blinked blink word }
{
    let bits = word % 4096;
    if blink & (word / 4096 % 2 == 1) {
        4095 - bits
    } else {
        bits
    }
}

// Three steps of four bits each: red, green, blue.
fn colour(bits: u16) -> Output
    ensures { result ≡ colour_of bits }
{
    Output::Colour {
        red: (bits % 16) as u8,
        green: (bits / 16 % 16) as u8,
        blue: (bits / 256 % 16) as u8,
    }
}

impl Inputs {
    // What these inputs ask for with the word at their address: sync, blank, overlay, colour, in this order.
    #[tactic(auto, unfolding(crate::specs::Output::asks))]
    pub(crate) fn asks(self, word: u16) -> Output
        ensures { result ≡ asks self word }
    {
        let both = self.horizontal & self.vertical;
        if (self.horizontal | self.vertical) & !both {
            Output::Sync
        } else if both | self.blank {
            Output::Blank
        } else if self.overlay {
            Output::Overlay {
                red: self.red,
                green: self.green,
                blue: self.blue,
            }
        } else {
            colour(blinked(self.blink, word))
        }
    }
}

// What the inputs ask for with the table as it is. A pixel is this and a step of the three outputs, and whoever has those in another form
// asks here; so 3 and 21 are judged, and no state.
#[tactic(auto, unfolding(crate::specs::Calls::ask_call, crate::specs::Calls::read_call, crate::specs::Calls::read_refusal))]
pub fn ask(table: &[u16], inputs: Inputs) -> Result<Output, Refusal>
    ensures { asked_by result ≡ ask_call table.now inputs }
{
    let word = word_at(table, inputs.address)?;
    Ok(inputs.asks(word))
}

// A gun in an overlay: peak white where it is on, reference black where it is off.
fn overlaid(on: bool) -> Level
    ensures { result ≡ overlaid on }
{
    if on { Level::White } else { Level::Black }
}

impl Output {
    // The level of each gun.
    pub fn levels(self) -> Levels
        ensures { result ≡ levels_of self }
    {
        match self {
            Output::Sync => Levels {
                red: Level::Blank,
                green: Level::Sync,
                blue: Level::Blank,
            },
            Output::Blank => Levels {
                red: Level::Blank,
                green: Level::Blank,
                blue: Level::Blank,
            },
            Output::Overlay { red, green, blue } => Levels {
                red: overlaid(red),
                green: overlaid(green),
                blue: overlaid(blue),
            },
            Output::Colour { red, green, blue } => Levels {
                red: Level::Step(red),
                green: Level::Step(green),
                blue: Level::Step(blue),
            },
        }
    }
}

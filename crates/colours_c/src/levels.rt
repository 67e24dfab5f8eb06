// An output as three levels of C, and as `colours` has it.
ghost use Rattle.std.specs.Prelude.{◌≡◌};
ghost use Rattle.colours_c.specs.Levels.{number_of, handed_output, black_or_white, makes, taken_output};

use crate::HeldLevels;
use colours::{Level, Output};

// A level as a number. No `From`, since level and number are both another crate's.
fn number_of(level: Level) -> u8
    ensures { result ≡ number_of level }
{
    match level {
        Level::Step(step) => step,
        Level::Sync => 16,
        Level::Blank => 17,
        Level::Black => 18,
        Level::White => 19,
    }
}

impl From<Output> for HeldLevels {
    ghost from_gives = { λ output levels. levels ≡ handed_output output };

    #[tactic(auto, unfolding(crate::specs::Levels::handed_output))]
    fn from(output: Output) -> HeldLevels {
        let levels = output.levels();
        HeldLevels {
            red: number_of(levels.red),
            green: number_of(levels.green),
            blue: number_of(levels.blue),
        }
    }
}

// A gun in an overlay.
fn black_or_white(level: u8) -> bool
    ensures { result ≡ black_or_white level }
{
    (level == 18) | (level == 19)
}

impl HeldLevels {
    // Whether a pixel can make these three together. Green tells which: a colour, sync or blank, or an overlay.
    #[tactic(auto, unfolding(crate::specs::Levels::makes))]
    pub(crate) fn makes(self) -> bool
        ensures { result ≡ makes self }
    {
        match self.green {
            0..=15 => (self.red <= 15) & (self.blue <= 15),
            16 | 17 => (self.red == 17) & (self.blue == 17),
            _ => black_or_white(self.red) & black_or_white(self.green) & black_or_white(self.blue),
        }
    }

    // The output that these three are, where a pixel can make them: green tells which.
    #[tactic(auto, unfolding(crate::specs::Levels::taken_output))]
    pub(crate) fn output(self) -> Output
        ensures { result ≡ taken_output self }
    {
        match self.green {
            0..=15 => Output::Colour {
                red: self.red,
                green: self.green,
                blue: self.blue,
            },
            16 => Output::Sync,
            17 => Output::Blank,
            _ => Output::Overlay {
                red: self.red == 19,
                green: self.green == 19,
                blue: self.blue == 19,
            },
        }
    }
}

// The Am8159 colour palette: its table, the two ways to reach it, and what comes out for a pixel. Source document 003: Pin Description,
// Functional Description with Table 1 (the modes) and Table 2 (the function table), Color Data Input/Output; change request M-112 decides
// what they leave open.
// A call stands for a whole access, or for one pixel clock with its inputs: S1 is which of the two it is, H/L which 8-bit access, and S0
// low is a pixel's overlay. Not modelled: volts, currents and the reference, the converters and their timing, pin edges, the clocks
// between accesses.
// Where sheet and request differ, or the sheet is silent:
// - the sheet's list of delayed signals leaves out BLINK; here all inputs of a pixel have the same delay;
// - the sheet latches the RAM's word one clock after the address, and has registers that are transparent during an access; here the table is
//   read as the inputs enter, and no access disturbs what is on its way;
// - Table 2 has sync and blank come out whatever S1 is; here an access is no clock, and nothing comes out of it;
// - Table 1 has no address for an overlay; here the address of every pixel is judged;
// - the sheet has the low bits written to the RAM before the high ones, and does not say what happens otherwise; here they wait beside the
//   table, have no address of their own, and high bits with none waiting are refused; nor does it mix the two widths, where here a 16-bit
//   write drops what waits;
// - an overlay's gun that is off has the voltage of step 0; here reference black is a level of its own;
// - before the first pixel comes out the outputs are at blank level.
#![tactic(auto)]

ghost use Rattle.std.specs.Prelude.{◌≡◌};
ghost use Rattle.colours.specs.State.{fresh};

mod access;
pub mod asks;
mod parts;
mod pixel;
pub mod reads;
mod state;
mod writes;

// The level of one gun: a step of the colour, or a name. Black is reference black, white peak white, brighter than step 15.
#[derive(Clone, Copy, Debug, PartialEq, Eq)]
pub enum Level {
    Step(u8),
    Sync,
    Blank,
    Black,
    White,
}

// The levels of the three guns.
#[derive(Clone, Copy, Debug, PartialEq, Eq)]
pub struct Levels {
    pub red: Level,
    pub green: Level,
    pub blue: Level,
}

// What comes out for a pixel: sync, blank, an overlay with each gun on or off, or a colour of three steps. All but a step over 15 is what a
// pixel can make.
#[derive(Clone, Copy, Debug, PartialEq, Eq)]
pub enum Output {
    Sync,
    Blank,
    Overlay { red: bool, green: bool, blue: bool },
    Colour { red: u8, green: u8, blue: u8 },
}

// The low part of a word that waits for its high part, and the three outputs on their way: `first` is the next to come out. Every field is
// public: a state with a step over 15, which the rules exclude, can be built, and is refused.
#[derive(Clone, Copy, Debug, PartialEq, Eq)]
pub struct Colours {
    pub waiting: Option<u8>,
    pub first: Output,
    pub second: Output,
    pub third: Output,
}

// The inputs of a pixel: `horizontal` and `vertical` are the two syncs, `red`, `green` and `blue` the guns that an overlay has on.
#[derive(Clone, Copy, Debug, PartialEq, Eq)]
pub struct Inputs {
    pub address: u32,
    pub horizontal: bool,
    pub vertical: bool,
    pub blank: bool,
    pub overlay: bool,
    pub red: bool,
    pub green: bool,
    pub blue: bool,
    pub blink: bool,
}

// What a 16-bit read answers: the number given back, and the word. In C it is `linkshoar_word`.
#[repr(C)]
#[derive(Clone, Copy, Debug, PartialEq, Eq)]
pub struct Word {
    pub number: u32,
    pub word: u16,
}

// What an 8-bit read answers: the number given back, and the part. In C it is `linkshoar_byte`.
#[repr(C)]
#[derive(Clone, Copy, Debug, PartialEq, Eq)]
pub struct Byte {
    pub number: u32,
    pub byte: u8,
}

impl Colours {
    pub fn fresh() -> Colours
        ensures { result ≡ fresh }
    {
        Colours {
            waiting: None,
            first: Output::Blank,
            second: Output::Blank,
            third: Output::Blank,
        }
    }
}

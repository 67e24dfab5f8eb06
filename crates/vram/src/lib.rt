// The TMS55161 video RAM. Source document 004, pages on byte operation, write-per-bit, block write, transfers, the serial port and stop
// points; where our copy has gaps, document 01 decides.
// A call stands for a whole cycle. Not modelled: pin edges, voltages, nanoseconds, decay and refresh, page mode, the exchange of column
// bits 7 and 8 in stop-point mode, masked transfers, serial input. A split tap of 127, which the sheet calls not valid, is accepted: the
// table of document 01 allows 0 to 127. Stop points (change request M-107) are set by the length of a partition, not by the
// sheet's code for it.
#![tactic(auto)]

ghost use Rattle.std.specs.Prelude.{◌≡◌};
ghost use Rattle.vram.specs.State.{stop_length, stop_of, fresh};
ghost use Rattle.vram.specs.Calls.{word_read_by, word_read_call};

mod cycles;
mod memory;
mod refusal;
mod serial;
mod state;

use memory::place;
use numbers::{Refusal, number, refuse};
use refusals::{fitted, placed};

// The tap that a split transfer leaves for the end of the pointer's partition: document 01 names this form, so it is no Option.
#[derive(Clone, Copy, Debug, PartialEq, Eq)]
pub enum Waiting {
    None,
    Tap(u8),
}

// The length of a partition of the serial register: a stop point every so many places. There is no other length to exclude.
#[derive(Clone, Copy, Debug, PartialEq, Eq)]
pub enum Stop {
    Every16,
    Every32,
    Every64,
    Every128,
}

// The registers, by value. Every field is public: a state that the rules exclude can be built, and is refused.
#[derive(Clone, Copy, Debug, PartialEq, Eq)]
pub struct Vram {
    pub colour: u16,
    pub mask: u16,
    pub persistent: bool,
    pub loaded: bool,
    pub pointer: u8,
    pub waiting: Waiting,
    pub stop: Stop,
}

// A cycle on the memory, with the widths of a field's body. Masking, strobes, half and length stay numbers, since another is answered with
// its refusal: an enum would ask more of callers.
#[derive(Clone, Copy, Debug, PartialEq, Eq)]
pub enum Cycle {
    WordWrite {
        row: u16,
        column: u16,
        word: u16,
        masking: u8,
        mask: u16,
        strobes: u8,
    },
    BlockWrite {
        row: u16,
        column: u16,
        columns: u16,
        masking: u8,
        mask: u16,
        strobes: u8,
    },
    LoadColour {
        word: u16,
        strobes: u8,
    },
    LoadMask {
        word: u16,
        strobes: u8,
    },
    ResetRefresh,
    FullTransfer {
        row: u16,
        half: u8,
        tap: u8,
    },
    SplitTransfer {
        row: u16,
        half: u8,
        tap: u8,
    },
    StopPoints {
        length: u8,
    },
}

// What C gets of a word read: the number given back, and the word.
#[repr(C)]
#[derive(Clone, Copy, Debug, PartialEq, Eq)]
pub struct Word {
    pub number: u32,
    pub word: u16,
}

impl Stop {
    // The stop points of a partition's length: whoever has another than the four refuses it before. It answers for every number, as
    // `of_once` says, so it is no `TryFrom`.
    pub fn of(length: u8) -> Stop
        ensures { result ≡ stop_of length }
    {
        match length {
            16 => Stop::Every16,
            32 => Stop::Every32,
            64 => Stop::Every64,
            _ => Stop::Every128,
        }
    }

    // The length of a partition.
    pub fn length(self) -> u8
        ensures { result ≡ stop_length self }
    {
        match self {
            Stop::Every16 => 16,
            Stop::Every32 => 32,
            Stop::Every64 => 64,
            Stop::Every128 => 128,
        }
    }
}

impl Vram {
    pub fn fresh() -> Vram
        ensures { result ≡ fresh }
    {
        Vram {
            colour: 0,
            mask: 0,
            persistent: false,
            loaded: false,
            pointer: 0,
            waiting: Waiting::None,
            stop: Stop::Every128,
        }
    }
}

// The word, with 0 in a byte not strobed.
#[tactic(auto, unfolding(crate::specs::Calls::word_read_call, crate::specs::Refusal::word_read_refusal))]
fn word_read(memory: &[u16], row: u32, column: u32, strobes: u32) -> Result<u16, Refusal>
    ensures { word_read_by result ≡ word_read_call memory.now row column strobes }
{
    refuse(fitted(memory.len()), Refusal::MemoryLength)?;
    placed(memory.len() / 512, row, column, strobes)?;
    let at = place(row, column);
    Ok(words::merge(0, memory[at], words::strobe_mask(strobes)))
}

// A word read, as C has it.
pub fn read(memory: &[u16], row: u32, column: u32, strobes: u32) -> Word
    ensures { result ≡ word_read_call memory.now row column strobes }
{
    let word = word_read(memory, row, column, strobes);
    Word {
        number: number(word),
        word: word.unwrap_or(0),
    }
}

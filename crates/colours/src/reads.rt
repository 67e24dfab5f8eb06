// Reads, which need no state.
ghost use Rattle.std.specs.Prelude.{◌≡◌};
ghost use Rattle.colours.specs.Calls.{read_call, read_low_call, read_high_call};

use crate::access::word_at;
use crate::{Byte, Word};

// A read of 16 bits.
pub fn read(table: &[u16], address: u32) -> Word
    ensures { result ≡ read_call table.now address }
{
    let word = word_at(table, address);
    Word {
        number: numbers::number(word),
        word: word.unwrap_or(0),
    }
}

// A read of 8 bits, the low part.
#[tactic(auto, unfolding(crate::specs::Calls::read_low_call))]
pub fn read_low(table: &[u16], address: u32) -> Byte
    ensures { result ≡ read_low_call table.now address }
{
    let whole = read(table, address);
    Byte {
        number: whole.number,
        byte: (whole.word % 256) as u8,
    }
}

// A read of 8 bits, the high part: five bits, and zeros above them.
#[tactic(auto, unfolding(crate::specs::Calls::read_high_call))]
pub fn read_high(table: &[u16], address: u32) -> Byte
    ensures { result ≡ read_high_call table.now address }
{
    let whole = read(table, address);
    Byte {
        number: whole.number,
        byte: (whole.word / 256 % 32) as u8,
    }
}

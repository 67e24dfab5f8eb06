// A word write: the mask in force, and the word bit by bit.
ghost use Rattle.std.specs.Prelude.{◌≡◌, ◌<◌, length};
ghost use Rattle.words.specs.Bit.{bit};
ghost use Rattle.vram.specs.Board.{force};
ghost use Rattle.pencil.specs.Bits.{with_bit, takes, written};
ghost use Rattle.pencil.specs.Memory.{word_written};

use crate::bits::{has, strobed, with_bit};

// "The mask in force is all ones for plain. For masked it is the mask register when persistent, else the mask given with the cycle."
pub fn in_force(masking: u8, persistent: bool, register: u16, given: u16) -> u16
    ensures { result ≡ force masking persistent register given }
{
    if masking == 0 {
        return 0xFFFF;
    }
    if persistent { register } else { given }
}

// "A bit of the word takes the data bit exactly where strobe and mask in force allow it." Elsewhere it stays.
fn write_bit(old: u16, new: u16, mask: u16, strobes: u8, b: u16) -> u16
    requires { b < 16 }
    ensures { result ≡ with_bit old b (takes new mask strobes b (bit old b)) }
{
    if strobed(strobes, b) & has(mask, b) {
        return with_bit(old, b, has(new, b));
    }
    old
}

// The sixteen bits of a word, one after the other, through a mask that is taken as given.
pub fn write_bits(old: u16, new: u16, mask: u16, strobes: u8) -> u16
    ensures { result ≡ written old new mask strobes }
{
    let mut word = old;
    for b in 0..16 {
        word = write_bit(word, new, mask, strobes, b);
    }
    word
}

// The word at a place of the memory.
pub(crate) fn write_word(memory: &mut [u16], at: usize, new: u16, mask: u16, strobes: u8)
    requires { at < length memory.old }
    ensures { memory.new ≡ word_written memory.old at new mask strobes }
{
    let old = memory[at];
    memory[at] = write_bits(old, new, mask, strobes);
}

// A block write as four word writes, one for each column.
ghost use Rattle.std.specs.Prelude.{◌≡◌, ◌+◌, ◌%◌, ◌≤◌, ◌<◌, length};
ghost use Rattle.words.specs.Bit.{bit};
ghost use Rattle.pencil.specs.Bits.{with_bit, stays, bits_left};
ghost use Rattle.pencil.specs.Memory.{block_written};

use crate::bits::{has, let_through, with_bit};
use crate::word::write_word;

// Bit b of a mask stays where the column mask lets it through in this column. Elsewhere it is cleared.
fn keep_bit(mask: u16, columns: u16, column: u16, b: u16) -> u16
    requires { b < 16 }
    ensures { result ≡ with_bit mask b (stays columns (column % 4) b (bit mask b)) }
{
    let set = let_through(columns, column, b) & has(mask, b);
    with_bit(mask, b, set)
}

// The bits of a mask that a column has left.
pub fn bits_left(columns: u16, column: u16, mask: u16) -> u16
    ensures { result ≡ bits_left columns (column % 4) mask }
{
    let mut left = mask;
    for b in 0..16 {
        left = keep_bit(left, columns, column, b);
    }
    left
}

// "For j from 0 to 3, bit b of the block's column j takes bit b of the colour register" where column mask, mask in force and strobe allow it:
// a word write in each column, through the bits that column has left of the mask in force.
pub(crate) fn write_block(
    memory: &mut [u16],
    base: usize,
    colour: u16,
    columns: u16,
    mask: u16,
    strobes: u8,
)
    requires { base + 4 ≤ length memory.old }
    ensures { memory.new ≡ block_written memory.old base colour columns mask strobes 4 }
{
    for j in 0..4 {
        let left = bits_left(columns, j, mask);
        write_word(memory, base + j as usize, colour, left, strobes);
    }
}

// From a word to the three bytes that show it.
ghost use Rattle.std.specs.Prelude.{◌≡◌, ◌+◌, ◌*◌, ◌%◌, ◌≤◌, ◌<◌, length};
ghost use Rattle.std.specs.Int.Bits.{bit_and};
ghost use Rattle.palette.specs.Table.{store};
ghost use Rattle.panel.specs.Panel.{pixel, part_at, shows, colour_of, bytes_of};
ghost use Rattle.panel.specs.Two.{two};
ghost use Rattle.numbers.specs.Buffer.{over};

use crate::{Panel, Width};

// A word's pixel: its high byte; where that is 0 the word, which is then its low byte; where that is 255 the word inverted, which is then
// its low byte inverted. Kept in 16 bits: one instruction less a pixel. 255 is told by the word: the compiler then chooses without a jump.
fn pixel(word: u16) -> u16
    ensures { (result ≡ pixel word) × (result < 256) }
{
    if word >= 0xFF00 {
        return !word;
    }
    let high = word / 256;
    if high == 0 { word } else { high }
}

// Where the entry that a word names stands in the table: the pixel, ANDed with the pixel mask.
fn place(word: u16, mask: u8) -> usize
    ensures { (result ≡ 3 * bit_and (pixel word) mask) × (result ≤ 765) }
{
    let byte = pixel(word);
    let wide = mask as u16;
    3 * ((byte & wide) as usize)
}

// Two bytes as one number, with only these bits of each: the compiler takes one load, one AND and one store for both.
fn two_kept(low: u8, high: u8, bits: u8) -> u16
    ensures { result ≡ two (bit_and low bits) (bit_and high bits) }
{
    let both = (low as u16) + 256 * (high as u16);
    let each = bits as u16;
    both & (each + 256 * each)
}

// Two parts of an entry as the panel takes them, as one number. v/16 is taken of bits 4 and 5 alone, so that no bit of one part reaches the
// other. The compiler takes the choice of the width out of the loop that calls this.
fn two_parts(width: Width, low: u8, high: u8) -> u16
    ensures { result ≡ two (part_at width (low % 64)) (part_at width (high % 64)) }
{
    let six = two_kept(low, high, 0x3F);
    match width {
        Width::Six => six,
        Width::Eight => 4 * six + two_kept(low, high, 0x30) / 16,
    }
}

// The i-th three bytes of the buffer take the colour that a word shows.
fn show_word(word: u16, panel: Panel, out: &mut [u8], i: usize)
    requires { 3 * i + 3 ≤ length out.old }
    ensures { out.new ≡ store out.old i (colour_of (shows panel.entry) word) }
{
    let table = panel.table;
    let at = place(word, panel.mask);
    let red_green = two_parts(panel.width, table[at], table[at + 1]);
    let blue = two_parts(panel.width, table[at + 2], 0);
    out[3 * i] = (red_green % 256) as u8;
    out[3 * i + 1] = (red_green / 256) as u8;
    out[3 * i + 2] = (blue % 256) as u8;
}

// The words of a stretch, at the start of the buffer.
pub(crate) fn show_words(words: &[u16], panel: Panel, out: &mut [u8])
    requires { 3 * length words.now ≤ length out.old }
    ensures { out.new ≡ over (bytes_of (shows panel.entry) words.now) out.old }
{
    for (i, word) in words.iter().enumerate() {
        show_word(*word, panel, out, i);
    }
}

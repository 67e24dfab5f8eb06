// A 16-bit word as bits: merging through a mask, what strobes cover, what a column mask lets through. Source document 004 (TMS55161):
// byte operation, write-per-bit, block write; document 01 decides.
#![tactic(auto)]

ghost use Rattle.std.specs.Prelude.{◌≡◌, ◌%◌};
ghost use Rattle.words.specs.Bit.{bit, of_bits};
ghost use Rattle.words.specs.Word.{merged, covers, lets};

// The word that takes new's bit where allow has one, and old's elsewhere.
pub fn merge(old: u16, new: u16, allow: u16) -> u16
    ensures { result ≡ merged old new (bit allow) }
{
    (old & !allow) | (new & allow)
}

// The bits that the strobes cover: the low byte, the high byte, both. Only the two low bits of the strobes count.
pub fn strobe_mask(strobes: u32) -> u16
    ensures { result ≡ of_bits 16 (covers strobes) }
{
    let flags = strobes % 4;
    match flags {
        1 => 0x00FF,
        2 => 0xFF00,
        3 => 0xFFFF,
        _ => 0,
    }
}

// The bits that a column mask lets through in a column: of each quad's four column bits the one of this column, spread over the quad.
// Only the two low bits of the column count.
pub fn column_allow(columns: u16, column: u16) -> u16
    ensures { result ≡ of_bits 16 (lets columns (column % 4)) }
{
    let first = 0x1111 & (columns >> (column % 4));
    first | (first << 1) | (first << 2) | (first << 3)
}

// The rules of one bit. Bit 0 of a word is its lowest, bit 15 its highest.
ghost use Rattle.std.specs.Prelude.{◌≡◌, ◌%◌, ◌<◌};
ghost use Rattle.words.specs.Bit.{bit};
ghost use Rattle.words.specs.Word.{covers, lets};
ghost use Rattle.pencil.specs.Bits.{with_bit};

// Whether bit b of a word is set. A word has no bits above 15.
pub fn has(word: u16, b: u16) -> bool
    ensures { result ≡ bit word b }
{
    if 15 < b {
        return false;
    }
    (word >> b) % 2 == 1
}

// "Strobes: 1 low byte (bits 0 to 7), 2 high byte, 3 both." So they are two flags: flag 0 covers bits 0 to 7, flag 1 covers bits 8 to 15.
pub fn strobed(strobes: u8, b: u16) -> bool
    ensures { result ≡ covers strobes b }
{
    let flag = b / 8;
    has(strobes as u16, flag)
}

// "Bit 4·(b/4) + j (whole division) of the column mask is set": four bits of a word are a quad, each quad has four bits of the column
// mask, and of these bit j speaks for column j of the block. Of the column's number only the two low bits count.
pub fn let_through(columns: u16, column: u16, b: u16) -> bool
    ensures { result ≡ lets columns (column % 4) b }
{
    let quad = b / 4;
    let j = column % 4;
    has(columns, 4 * quad + j)
}

// The word with bit b set or not. Every other bit stays.
pub(crate) fn with_bit(word: u16, b: u16, set: bool) -> u16
    requires { b < 16 }
    ensures { result ≡ with_bit word b set }
{
    let alone: u16 = 1 << b;
    if set { word | alone } else { word & !alone }
}

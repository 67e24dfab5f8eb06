// Document 01: "When the core stands, a second entry has the palette state lent to it and leaves the new one there"; C is their caller.
ghost use Rattle.std.specs.Prelude.{◌≡◌};
ghost use Rattle.palette.specs.Calls.{accessed, outcome, write_call, read_call};

use crate::Palette;

// What C gets of a read with the state lent: the number given back, and the byte.
#[repr(C)]
#[derive(Clone, Copy, Debug, PartialEq, Eq)]
pub struct Byte {
    pub number: u32,
    pub byte: u8,
}

// `Palette::write`, with the state left where it was lent.
pub fn linkshoar_palette_write_lent(
    state: &mut Palette,
    table: &mut [u8],
    select: u32,
    value: u8,
) -> u32
    ensures { outcome (accessed state.new 0 result) table.new ≡ write_call state.old table.old select value }
{
    match state.write(table, select, value) {
        Ok((left, _)) => {
            *state = left;
            0
        }
        Err(refusal) => u32::from(refusal),
    }
}

// `Palette::read`, with the state left where it was lent.
pub fn linkshoar_palette_read_lent(state: &mut Palette, table: &[u8], select: u32) -> Byte
    ensures { accessed state.new result.byte result.number ≡ read_call state.old table.now select }
{
    match state.read(table, select) {
        Ok((left, byte)) => {
            *state = left;
            Byte { number: 0, byte }
        }
        Err(refusal) => Byte {
            number: u32::from(refusal),
            byte: 0,
        },
    }
}

// A run to the panel: serial words through the palette to bytes. Document 01, "A run to the panel"; source document 001 (Am81C176),
// its pixel mask and colour table. The sheet has eight pixel inputs; which byte of a word they take is the board's rule: the high byte, a
// mark; under 0 the low byte, a result; under 255 the low byte inverted, a result in reverse (change request M-101). The sheet's red,
// green and blue have six bits each: `run` widens them to eight, `run_six` leaves them (change request M-108).
// A call stands for a whole run. Not modelled: the pixel clock, sync, the converters and their levels.
// A run goes in stretches to the end of a partition, so that the inner loop has no test; the tap is used up and the pointer advanced in
// `vram` alone.
#![tactic(auto)]

ghost use Rattle.std.specs.Prelude.{◌≡◌};
ghost use Rattle.numbers.specs.Refusal.{given_back};
ghost use Rattle.vram.specs.Calls.{answered_by};
ghost use Rattle.panel.specs.Calls.{outcome, run_refusal, run_call_by, run_call, run_six_call};
ghost use Rattle.panel.specs.Panel.{part_at};

mod pixels;
mod stretches;

use numbers::{Refusal, refuse};
use palette::{Palette, Table};
use stretches::run_bytes;
use vram::Vram;

// What refuses a run: 1 and 3 for what is given, 10 and 14 by what the clocks answer, 15 for the buffer.
#[tactic(auto, unfolding(crate::specs::Calls::run_refusal))]
fn refusal(
    state: Vram,
    palette: Palette,
    serial_words: usize,
    table_bytes: usize,
    clocks: u32,
    bytes: usize,
) -> Result<(), Refusal>
    ensures { given_back result ≡ run_refusal state palette serial_words table_bytes clocks bytes }
{
    refuse(state.ruled() & palette.ruled(), Refusal::StateExcluded)?;
    let lengths = (serial_words == 256) & (table_bytes == 768);
    refuse(lengths, Refusal::RegisterLength)?;
    state.clocks(clocks)?;
    refuse(3 * (clocks as usize) <= bytes, Refusal::BufferShort)
}

// How many bits the panel takes for a part: six, as the palette has them, or eight, to which it is widened.
#[derive(Clone, Copy, Debug, PartialEq, Eq)]
pub enum Width {
    Six,
    Eight,
}

// What shows a word: the width of a part, the pixel mask and the colour table.
#[derive(Clone, Copy)]
pub(crate) struct Panel<'a> {
    pub width: Width,
    pub mask: u8,
    pub table: &'a Table,
}

// A run of some clocks, shown with parts of this width, or blanked where blank is not 0. Both runs below are this one.
pub fn run_at(
    width: Width,
    state: Vram,
    serial: &[u16],
    palette: Palette,
    table: &[u8],
    clocks: u32,
    blank: u32,
    out: &mut [u8],
) -> Result<Vram, Refusal>
    ensures { outcome (answered_by state result) out.new ≡ run_call_by (part_at width) state serial.now palette table.now clocks blank out.old }
{
    refusal(state, palette, serial.len(), table.len(), clocks, out.len())?;
    let panel = Panel {
        width,
        mask: palette.mask,
        table: table.as_array().unwrap(),
    };
    run_bytes(panel, state, serial, clocks, blank, out);
    let (after, _) = state.clocks(clocks).unwrap();
    Ok(after)
}

// A run with parts of eight bits, 0 to 255: the default.
pub fn run(
    state: Vram,
    serial: &[u16],
    palette: Palette,
    table: &[u8],
    clocks: u32,
    blank: u32,
    out: &mut [u8],
) -> Result<Vram, Refusal>
    ensures { outcome (answered_by state result) out.new ≡ run_call state serial.now palette table.now clocks blank out.old }
{
    run_at(
        Width::Eight,
        state,
        serial,
        palette,
        table,
        clocks,
        blank,
        out,
    )
}

// A run with parts of six bits, 0 to 63.
pub fn run_six(
    state: Vram,
    serial: &[u16],
    palette: Palette,
    table: &[u8],
    clocks: u32,
    blank: u32,
    out: &mut [u8],
) -> Result<Vram, Refusal>
    ensures { outcome (answered_by state result) out.new ≡ run_six_call state serial.now palette table.now clocks blank out.old }
{
    run_at(
        Width::Six,
        state,
        serial,
        palette,
        table,
        clocks,
        blank,
        out,
    )
}

// The C interface: the calls of the crates below as a C program makes them. `host/include/linkshoar.h` declares them.
// Structs go by value, slices as pointer and length; arguments that have a refusal are 32 bits wide and are tested before they are
// narrowed. Nothing is allocated and nothing is kept.
#![tactic(auto)]

ghost use Rattle.std.specs.Prelude.{◌≡◌};
ghost use Rattle.vram.specs.State.{fresh as fresh_vram};
ghost use Rattle.vram.specs.Calls.{answered_by, clocked_by, word_read_call};
ghost use Rattle.palette.specs.State.{fresh as fresh_palette};
ghost use Rattle.palette.specs.Calls.{outcome as accessed_outcome, write_call, read_call};
ghost use Rattle.panel.specs.Panel.{part_at};
ghost use Rattle.planner.specs.Fill.{fill};
ghost use Rattle.planner.specs.Calls.{outcome as filled_outcome, fill_call};
ghost use Rattle.planner.specs.Paint.{list_in, Demanded};
ghost use Rattle.registers.specs.State.{handed};
ghost use Rattle.registers.specs.Lists.{listed, list_call};
ghost use Rattle.host.specs.Calls.{clock_answer, clock_call, shown_by, shown, panel_call_by, panel_call, panel_six_call};

use numbers::{Refusal, number};
use palette::{Accessed, Palette};
use panel::Width;
use planner::Filled;
use registers::{Ran, Registers, excluded, hand, hand_ran};
use vram::{Vram, Word};

// The state after a run, and the number given back.
#[repr(C)]
#[derive(Clone, Copy, Debug, PartialEq, Eq)]
pub struct Shown {
    pub state: Registers,
    pub number: u32,
}

// The state after a clock, the word answered, and the number given back.
#[repr(C)]
#[derive(Clone, Copy, Debug, PartialEq, Eq)]
pub struct Clocked {
    pub state: Registers,
    pub word: u16,
    pub number: u32,
}

impl Shown {
    // Of a run, and the state before it.
    fn of(before: Vram, answer: Result<Vram, Refusal>) -> Shown
        ensures { result ≡ shown_by (answered_by before answer) }
    {
        Shown {
            state: hand(answer.unwrap_or(before)),
            number: number(answer),
        }
    }
}

impl Clocked {
    // Of a clock, and the state before it.
    fn of(before: Vram, clocked: Result<(Vram, u16), Refusal>) -> Clocked
        ensures { result ≡ clock_answer (clocked_by before clocked) }
    {
        let (after, word) = clocked.unwrap_or((before, 0));
        Clocked {
            state: hand(after),
            word,
            number: number(clocked),
        }
    }
}

// The registers at power-on.
pub fn linkshoar_vram_fresh() -> Registers
    ensures { result ≡ handed fresh_vram }
{
    hand(Vram::fresh())
}

// The palette's registers at power-on.
pub fn linkshoar_palette_fresh() -> Palette
    ensures { result ≡ fresh_palette }
{
    Palette::fresh()
}

// The planner's call again: an archive has the exports of its own crate alone.
pub fn linkshoar_fill(
    rows: u32,
    first_row: u32,
    end_row: u32,
    first_column: u32,
    end_column: u32,
    mask: u16,
    colour: u16,
    persistent: u32,
    list: &mut [u8],
) -> Filled
    ensures outcome { filled_outcome result list.new ≡ fill_call (fill rows first_row end_row first_column end_column mask colour persistent) list.old }
    ensures demand { result.number ≡ 0 → Demanded (fill rows first_row end_row first_column end_column mask colour persistent) result (list_in (filled_outcome result list.new)) }
{
    planner::linkshoar_fill(
        rows,
        first_row,
        end_row,
        first_column,
        end_column,
        mask,
        colour,
        persistent,
        list,
    )
}

// A list, checked whole and then run in order.
pub fn linkshoar_list_run(
    state: Registers,
    memory: &mut [u16],
    serial: &mut [u16],
    list: &[u8],
) -> Ran
    ensures { listed result memory.new serial.new ≡ list_call state memory.old serial.old list.now }
{
    match Vram::try_from(state) {
        Ok(vram) => hand_ran(vram, list::run(vram, memory, serial, list)),
        Err(refusal) => excluded(state, refusal),
    }
}

// A word, with 0 in a byte not strobed.
pub fn linkshoar_word_read(memory: &[u16], row: u32, column: u32, strobes: u32) -> Word
    ensures { result ≡ word_read_call memory.now row column strobes }
{
    vram::read(memory, row, column, strobes)
}

// One serial clock.
pub fn linkshoar_serial_clock(state: Registers, serial: &[u16]) -> Clocked
    ensures { result ≡ clock_call state serial.now }
{
    match Vram::try_from(state) {
        Ok(vram) => Clocked::of(vram, vram.clock(serial)),
        Err(refusal) => Clocked {
            state,
            word: 0,
            number: u32::from(refusal),
        },
    }
}

// A run to the panel, shown with parts of this width, or blanked where blank is not 0. Both exports below are this one.
fn panel_run(
    width: Width,
    state: Registers,
    serial: &[u16],
    palette: Palette,
    table: &[u8],
    clocks: u32,
    blank: u32,
    out: &mut [u8],
) -> Shown
    ensures { shown result out.new ≡ panel_call_by (part_at width) state serial.now palette table.now clocks blank out.old }
{
    match Vram::try_from(state) {
        Ok(vram) => Shown::of(
            vram,
            panel::run_at(width, vram, serial, palette, table, clocks, blank, out),
        ),
        Err(refusal) => Shown {
            state,
            number: u32::from(refusal),
        },
    }
}

// A run to the panel with parts of eight bits, the default.
pub fn linkshoar_panel_run(
    state: Registers,
    serial: &[u16],
    palette: Palette,
    table: &[u8],
    clocks: u32,
    blank: u32,
    out: &mut [u8],
) -> Shown
    ensures { shown result out.new ≡ panel_call state serial.now palette table.now clocks blank out.old }
{
    panel_run(
        Width::Eight,
        state,
        serial,
        palette,
        table,
        clocks,
        blank,
        out,
    )
}

// A run to the panel with parts of six bits.
pub fn linkshoar_panel_run_six(
    state: Registers,
    serial: &[u16],
    palette: Palette,
    table: &[u8],
    clocks: u32,
    blank: u32,
    out: &mut [u8],
) -> Shown
    ensures { shown result out.new ≡ panel_six_call state serial.now palette table.now clocks blank out.old }
{
    panel_run(
        Width::Six,
        state,
        serial,
        palette,
        table,
        clocks,
        blank,
        out,
    )
}

// A palette write. Any bytes that C hands over are a `Palette`, so its state needs no test here.
pub fn linkshoar_palette_write(state: Palette, table: &mut [u8], select: u32, value: u8) -> Accessed
    ensures { accessed_outcome result table.new ≡ write_call state table.old select value }
{
    Accessed::of(state, state.write(table, select, value))
}

// A palette read.
pub fn linkshoar_palette_read(state: Palette, table: &[u8], select: u32) -> Accessed
    ensures { result ≡ read_call state table.now select }
{
    Accessed::of(state, state.read(table, select))
}

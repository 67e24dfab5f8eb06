// The archive of `host`: the board as C has it, but for what has an archive of its own.
// A static library has the exports of its own crate alone, and no crate can stand on one: so each export calls the function of its name below
// and has its clauses again, and adds nothing.
#![tactic(auto)]

ghost use Rattle.std.specs.Prelude.{◌≡◌};
ghost use Rattle.host.specs.Calls.{clock_call, panel_call, panel_six_call, shown};
ghost use Rattle.palette.specs.Calls.{outcome as accessed_outcome, read_call, write_call};
ghost use Rattle.palette.specs.State.{fresh as fresh_palette};
ghost use Rattle.planner.specs.Calls.{fill_call, outcome as filled_outcome};
ghost use Rattle.planner.specs.Fill.{fill};
ghost use Rattle.planner.specs.Paint.{Demanded, list_in};
ghost use Rattle.registers.specs.Lists.{list_call, listed};
ghost use Rattle.registers.specs.State.{handed};
ghost use Rattle.vram.specs.Calls.{word_read_call};
ghost use Rattle.vram.specs.State.{fresh as fresh_vram};

use host::{Clocked, Shown};
use palette::{Accessed, Palette};
use planner::Filled;
use registers::{Ran, Registers};
use vram::Word;

// The registers at power-on.
#[unsafe(no_mangle)]
pub extern "C" fn linkshoar_vram_fresh() -> Registers
    ensures { result ≡ handed fresh_vram }
{
    host::linkshoar_vram_fresh()
}

// The palette's registers at power-on.
#[unsafe(no_mangle)]
pub extern "C" fn linkshoar_palette_fresh() -> Palette
    ensures { result ≡ fresh_palette }
{
    host::linkshoar_palette_fresh()
}

// A fill, planned.
#[unsafe(no_mangle)]
pub extern "C" fn linkshoar_fill(
    rows: u32,
    first_row: u32,
    end_row: u32,
    first_column: u32,
    end_column: u32,
    mask: u16,
    colour: u16,
    persistent: u32,
    list: &mut [u8],
) -> Filled
    ensures outcome { filled_outcome result list.new ≡ fill_call (fill rows first_row end_row first_column end_column mask colour persistent) list.old }
    ensures demand { result.number ≡ 0 → Demanded (fill rows first_row end_row first_column end_column mask colour persistent) result (list_in (filled_outcome result list.new)) }
{
    host::linkshoar_fill(
        rows,
        first_row,
        end_row,
        first_column,
        end_column,
        mask,
        colour,
        persistent,
        list,
    )
}

// A list, checked whole and then run in order.
#[unsafe(no_mangle)]
pub extern "C" fn linkshoar_list_run(
    state: Registers,
    memory: &mut [u16],
    serial: &mut [u16],
    list: &[u8],
) -> Ran
    ensures { listed result memory.new serial.new ≡ list_call state memory.old serial.old list.now }
{
    host::linkshoar_list_run(state, memory, serial, list)
}

// A word, with 0 in a byte not strobed.
#[unsafe(no_mangle)]
pub extern "C" fn linkshoar_word_read(memory: &[u16], row: u32, column: u32, strobes: u32) -> Word
    ensures { result ≡ word_read_call memory.now row column strobes }
{
    host::linkshoar_word_read(memory, row, column, strobes)
}

// One serial clock.
#[unsafe(no_mangle)]
pub extern "C" fn linkshoar_serial_clock(state: Registers, serial: &[u16]) -> Clocked
    ensures { result ≡ clock_call state serial.now }
{
    host::linkshoar_serial_clock(state, serial)
}

// A run to the panel with parts of eight bits, the default.
#[unsafe(no_mangle)]
pub extern "C" fn linkshoar_panel_run(
    state: Registers,
    serial: &[u16],
    palette: Palette,
    table: &[u8],
    clocks: u32,
    blank: u32,
    out: &mut [u8],
) -> Shown
    ensures { shown result out.new ≡ panel_call state serial.now palette table.now clocks blank out.old }
{
    host::linkshoar_panel_run(state, serial, palette, table, clocks, blank, out)
}

// A run to the panel with parts of six bits.
#[unsafe(no_mangle)]
pub extern "C" fn linkshoar_panel_run_six(
    state: Registers,
    serial: &[u16],
    palette: Palette,
    table: &[u8],
    clocks: u32,
    blank: u32,
    out: &mut [u8],
) -> Shown
    ensures { shown result out.new ≡ panel_six_call state serial.now palette table.now clocks blank out.old }
{
    host::linkshoar_panel_run_six(state, serial, palette, table, clocks, blank, out)
}

// A palette write. Any bytes that C hands over are a `Palette`, so its state needs no test here.
#[unsafe(no_mangle)]
pub extern "C" fn linkshoar_palette_write(
    state: Palette,
    table: &mut [u8],
    select: u32,
    value: u8,
) -> Accessed
    ensures { accessed_outcome result table.new ≡ write_call state table.old select value }
{
    host::linkshoar_palette_write(state, table, select, value)
}

// A palette read.
#[unsafe(no_mangle)]
pub extern "C" fn linkshoar_palette_read(state: Palette, table: &[u8], select: u32) -> Accessed
    ensures { result ≡ read_call state table.now select }
{
    host::linkshoar_palette_read(state, table, select)
}

// The archive of `colours_c`: the Am8159.
// A static library has the exports of its own crate alone, and no crate can stand on one: so each export calls the function of its name below
// and has its clauses again, and adds nothing.
#![tactic(auto)]

ghost use Rattle.std.specs.Prelude.{◌≡◌};
ghost use Rattle.colours.specs.Calls.{read_call, read_high_call, read_low_call};
ghost use Rattle.colours.specs.State.{fresh};
ghost use Rattle.colours_c.specs.Calls.{held_high, held_low, held_pixel, held_write, outcome};
ghost use Rattle.colours_c.specs.State.{handed};

use colours::{Byte, Word};
use colours_c::{Coloured, Emitted, Held, HeldInputs};

// Nothing waits, and three outputs at blank level are on their way.
#[unsafe(no_mangle)]
pub extern "C" fn linkshoar_colours_fresh() -> Held
    ensures { result ≡ handed fresh }
{
    colours_c::linkshoar_colours_fresh()
}

// A write of 16 bits.
#[unsafe(no_mangle)]
pub extern "C" fn linkshoar_colours_write(
    state: Held,
    table: &mut [u16],
    address: u32,
    value: u32,
) -> Coloured
    ensures { outcome result table.new ≡ held_write state table.old address value }
{
    colours_c::linkshoar_colours_write(state, table, address, value)
}

// The low eight bits of a word.
#[unsafe(no_mangle)]
pub extern "C" fn linkshoar_colours_write_low(state: Held, low: u8) -> Coloured
    ensures { result ≡ held_low state low }
{
    colours_c::linkshoar_colours_write_low(state, low)
}

// The high five bits, with which the word is stored.
#[unsafe(no_mangle)]
pub extern "C" fn linkshoar_colours_write_high(
    state: Held,
    table: &mut [u16],
    address: u32,
    high: u8,
) -> Coloured
    ensures { outcome result table.new ≡ held_high state table.old address high }
{
    colours_c::linkshoar_colours_write_high(state, table, address, high)
}

// A read of 16 bits.
#[unsafe(no_mangle)]
pub extern "C" fn linkshoar_colours_read(table: &[u16], address: u32) -> Word
    ensures { result ≡ read_call table.now address }
{
    colours_c::linkshoar_colours_read(table, address)
}

// A read of the low eight bits.
#[unsafe(no_mangle)]
pub extern "C" fn linkshoar_colours_read_low(table: &[u16], address: u32) -> Byte
    ensures { result ≡ read_low_call table.now address }
{
    colours_c::linkshoar_colours_read_low(table, address)
}

// A read of the high five bits.
#[unsafe(no_mangle)]
pub extern "C" fn linkshoar_colours_read_high(table: &[u16], address: u32) -> Byte
    ensures { result ≡ read_high_call table.now address }
{
    colours_c::linkshoar_colours_read_high(table, address)
}

// One pixel clock: inputs enter, and the levels of those that entered three clocks before come out.
#[unsafe(no_mangle)]
pub extern "C" fn linkshoar_colours_pixel(state: Held, table: &[u16], inputs: HeldInputs) -> Emitted
    ensures { result ≡ held_pixel state table.now inputs }
{
    colours_c::linkshoar_colours_pixel(state, table, inputs)
}

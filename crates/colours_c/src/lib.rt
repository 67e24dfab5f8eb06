// The Am8159's calls as a C program makes them. `host/include/linkshoar.h` declares them.
// The state goes by value, in flat structs; arguments that have a refusal are 32 bits wide and are tested before they are narrowed, and an
// input byte that is not 0 is yes. Nothing is allocated and nothing is kept.
#![tactic(auto)]

ghost use Rattle.std.specs.Prelude.{◌≡◌};
ghost use Rattle.colours.specs.State.{fresh};
ghost use Rattle.colours.specs.Calls.{asked_by, read_call, read_low_call, read_high_call};
ghost use Rattle.colours_c.specs.State.{handed};
ghost use Rattle.colours_c.specs.Calls.{outcome, held_write, held_low, held_high, held_asked, held_pixel};

mod answers;
mod levels;
mod state;

use colours::{Byte, Colours, Inputs, Output, Word};
use numbers::Refusal;

// Three levels: a step 0 to 15, or 16 sync, 17 blank, 18 reference black, 19 peak white.
#[repr(C)]
#[derive(Clone, Copy, Debug, PartialEq, Eq)]
pub struct HeldLevels {
    pub red: u8,
    pub green: u8,
    pub blue: u8,
}

// The state as the C program holds it. waiting: 0 or 1; low: 0 where none waits.
#[repr(C)]
#[derive(Clone, Copy, Debug, PartialEq, Eq)]
pub struct Held {
    pub waiting: u8,
    pub low: u8,
    pub first: HeldLevels,
    pub second: HeldLevels,
    pub third: HeldLevels,
}

// The inputs of a pixel as C has them, where the syncs are `horizontal_sync` and `vertical_sync` and the guns `red_on` and so on.
#[repr(C)]
#[derive(Clone, Copy, Debug, PartialEq, Eq)]
pub struct HeldInputs {
    pub address: u32,
    pub horizontal: u8,
    pub vertical: u8,
    pub blank: u8,
    pub overlay: u8,
    pub red: u8,
    pub green: u8,
    pub blue: u8,
    pub blink: u8,
}

// The state after a write, and the number given back.
#[repr(C)]
#[derive(Clone, Copy, Debug, PartialEq, Eq)]
pub struct Coloured {
    pub state: Held,
    pub number: u32,
}

// The state after a pixel, the levels that came out, and the number given back.
#[repr(C)]
#[derive(Clone, Copy, Debug, PartialEq, Eq)]
pub struct Emitted {
    pub state: Held,
    pub levels: HeldLevels,
    pub number: u32,
}

// Nothing waits, and three outputs at blank level are on their way.
pub fn linkshoar_colours_fresh() -> Held
    ensures { result ≡ handed fresh }
{
    Held::from(Colours::fresh())
}

// A write of 16 bits. Here and for the high part a `match`: of a closure for `and_then` the proof did not close, since nothing says what it
// leaves of the table.
pub fn linkshoar_colours_write(state: Held, table: &mut [u16], address: u32, value: u32) -> Coloured
    ensures { outcome result table.new ≡ held_write state table.old address value }
{
    match Colours::try_from(state) {
        Ok(colours) => Coloured::of(state, colours.write(table, address, value)),
        Err(refusal) => Coloured::of(state, Err(refusal)),
    }
}

// The low eight bits of a word.
pub fn linkshoar_colours_write_low(state: Held, low: u8) -> Coloured
    ensures { result ≡ held_low state low }
{
    let answer = Colours::try_from(state).and_then(|colours| colours.write_low(low));
    Coloured::of(state, answer)
}

// The high five bits, with which the word is stored.
pub fn linkshoar_colours_write_high(
    state: Held,
    table: &mut [u16],
    address: u32,
    high: u8,
) -> Coloured
    ensures { outcome result table.new ≡ held_high state table.old address high }
{
    match Colours::try_from(state) {
        Ok(colours) => Coloured::of(state, colours.write_high(table, address, high)),
        Err(refusal) => Coloured::of(state, Err(refusal)),
    }
}

// A read of 16 bits.
pub fn linkshoar_colours_read(table: &[u16], address: u32) -> Word
    ensures { result ≡ read_call table.now address }
{
    colours::reads::read(table, address)
}

// A read of the low eight bits.
pub fn linkshoar_colours_read_low(table: &[u16], address: u32) -> Byte
    ensures { result ≡ read_low_call table.now address }
{
    colours::reads::read_low(table, address)
}

// A read of the high five bits.
pub fn linkshoar_colours_read_high(table: &[u16], address: u32) -> Byte
    ensures { result ≡ read_high_call table.now address }
{
    colours::reads::read_high(table, address)
}

// What a pixel asks for, where the rules allow the state.
fn asked(state: Held, table: &[u16], inputs: HeldInputs) -> Result<Output, Refusal>
    ensures { asked_by result ≡ held_asked state table.now inputs }
{
    state.refusal()?;
    colours::asks::ask(table, Inputs::from(inputs))
}

// One pixel clock: inputs enter, and the levels of those that entered three clocks before come out.
pub fn linkshoar_colours_pixel(state: Held, table: &[u16], inputs: HeldInputs) -> Emitted
    ensures { result ≡ held_pixel state table.now inputs }
{
    Emitted::of(state, asked(state, table, inputs))
}

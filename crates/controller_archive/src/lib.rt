// The archive of `controller_c`: the Am8150.
// A static library has the exports of its own crate alone, and no crate can stand on one: so each export calls the function of its name below
// and has its clauses again, and adds nothing.
#![tactic(auto)]

ghost use Rattle.std.specs.Prelude.{◌≡◌};
ghost use Rattle.controller.specs.Calls.{HorizontalSync, Pan, SetMode, SetOffset, SetTopOfFrame, VerticalSync, Video};
ghost use Rattle.controller.specs.State.{fresh};
ghost use Rattle.controller_c.specs.Calls.{held_call, held_fetch};
ghost use Rattle.controller_c.specs.State.{handed};

use controller_c::{Controlled, Fetched, Held};

// The registers and counters at power-on.
#[unsafe(no_mangle)]
pub extern "C" fn linkshoar_controller_fresh() -> Held
    ensures { result ≡ handed fresh }
{
    controller_c::linkshoar_controller_fresh()
}

// Top of Frame, from the next vertical sync on.
#[unsafe(no_mangle)]
pub extern "C" fn linkshoar_controller_set_top_of_frame(state: Held, address: u32) -> Controlled
    ensures { result ≡ held_call (SetTopOfFrame address) state }
{
    controller_c::linkshoar_controller_set_top_of_frame(state, address)
}

// Top of Frame moved by a signed number of words.
#[unsafe(no_mangle)]
pub extern "C" fn linkshoar_controller_pan(state: Held, words: i32) -> Controlled
    ensures { result ≡ held_call (Pan words) state }
{
    controller_c::linkshoar_controller_pan(state, words)
}

// The Offset; setting it resets the chip.
#[unsafe(no_mangle)]
pub extern "C" fn linkshoar_controller_set_offset(state: Held, offset: u32) -> Controlled
    ensures { result ≡ held_call (SetOffset offset) state }
{
    controller_c::linkshoar_controller_set_offset(state, offset)
}

// The Mode register whole.
#[unsafe(no_mangle)]
pub extern "C" fn linkshoar_controller_set_mode(
    state: Held,
    cycles: u32,
    page: u32,
    update: u32,
) -> Controlled
    ensures { result ≡ held_call (SetMode cycles page update) state }
{
    controller_c::linkshoar_controller_set_mode(state, cycles, page, update)
}

// Video on, or off where the number is 0.
#[unsafe(no_mangle)]
pub extern "C" fn linkshoar_controller_video(state: Held, on: u32) -> Controlled
    ensures { result ≡ held_call (Video on) state }
{
    controller_c::linkshoar_controller_video(state, on)
}

// A horizontal sync.
#[unsafe(no_mangle)]
pub extern "C" fn linkshoar_controller_horizontal_sync(state: Held) -> Controlled
    ensures { result ≡ held_call HorizontalSync state }
{
    controller_c::linkshoar_controller_horizontal_sync(state)
}

// A vertical sync.
#[unsafe(no_mangle)]
pub extern "C" fn linkshoar_controller_vertical_sync(state: Held) -> Controlled
    ensures { result ≡ held_call VerticalSync state }
{
    controller_c::linkshoar_controller_vertical_sync(state)
}

// A video word fetched: its address as bank, row and column.
#[unsafe(no_mangle)]
pub extern "C" fn linkshoar_controller_fetch(state: Held) -> Fetched
    ensures { result ≡ held_fetch state }
{
    controller_c::linkshoar_controller_fetch(state)
}

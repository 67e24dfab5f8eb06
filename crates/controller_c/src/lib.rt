// The Am8150's calls as a C program makes them. `host/include/linkshoar.h` declares them.
// The state goes by value, in flat structs; arguments that have a refusal, and yes-or-no arguments, are 32 bits wide and are tested before
// they are narrowed. Nothing is allocated and nothing is kept.
#![tactic(auto)]

ghost use Rattle.std.specs.Prelude.{◌≡◌};
ghost use Rattle.controller.specs.State.{fresh};
ghost use Rattle.controller.specs.Calls.{SetTopOfFrame, Pan, SetOffset, SetMode, Video, HorizontalSync, VerticalSync};
ghost use Rattle.controller_c.specs.State.{handed};
ghost use Rattle.controller_c.specs.Calls.{held_call, held_fetch};

mod answers;
mod state;

use answers::answer;
use controller::Controller;

// The controller's state as the C program holds it. update: 0 retrace only, 1 override, 2 interleaved; page, video, inhibited: 0 or 1.
#[repr(C)]
#[derive(Clone, Copy, Debug, PartialEq, Eq)]
pub struct Held {
    pub top: u32,
    pub counter: u32,
    pub offset: u8,
    pub refresh: u8,
    pub cycles: u8,
    pub update: u8,
    pub page: u8,
    pub video: u8,
    pub inhibited: u8,
}

// The state after a call, and the number given back.
#[repr(C)]
#[derive(Clone, Copy, Debug, PartialEq, Eq)]
pub struct Controlled {
    pub state: Held,
    pub number: u32,
}

// The state after a fetch, the number given back, and the address of the word fetched.
#[repr(C)]
#[derive(Clone, Copy, Debug, PartialEq, Eq)]
pub struct Fetched {
    pub state: Held,
    pub number: u32,
    pub bank: u8,
    pub row: u8,
    pub column: u8,
}

// The registers and counters at power-on.
pub fn linkshoar_controller_fresh() -> Held
    ensures { result ≡ handed fresh }
{
    Held::from(Controller::fresh())
}

// Top of Frame, from the next vertical sync on.
pub fn linkshoar_controller_set_top_of_frame(state: Held, address: u32) -> Controlled
    ensures { result ≡ held_call (SetTopOfFrame address) state }
{
    answer(state, |state| state.set_top_of_frame(address))
}

// Top of Frame moved by a signed number of words.
pub fn linkshoar_controller_pan(state: Held, words: i32) -> Controlled
    ensures { result ≡ held_call (Pan words) state }
{
    answer(state, |state| state.pan(words))
}

// The Offset; setting it resets the chip.
pub fn linkshoar_controller_set_offset(state: Held, offset: u32) -> Controlled
    ensures { result ≡ held_call (SetOffset offset) state }
{
    answer(state, |state| state.set_offset(offset))
}

// The Mode register whole.
pub fn linkshoar_controller_set_mode(state: Held, cycles: u32, page: u32, update: u32) -> Controlled
    ensures { result ≡ held_call (SetMode cycles page update) state }
{
    answer(state, |state| state.set_mode(cycles, page, update))
}

// Video on, or off where the number is 0.
pub fn linkshoar_controller_video(state: Held, on: u32) -> Controlled
    ensures { result ≡ held_call (Video on) state }
{
    answer(state, |state| state.video(on))
}

// A horizontal sync.
pub fn linkshoar_controller_horizontal_sync(state: Held) -> Controlled
    ensures { result ≡ held_call HorizontalSync state }
{
    answer(state, Controller::horizontal_sync)
}

// A vertical sync.
pub fn linkshoar_controller_vertical_sync(state: Held) -> Controlled
    ensures { result ≡ held_call VerticalSync state }
{
    answer(state, Controller::vertical_sync)
}

// A video word fetched: its address as bank, row and column.
pub fn linkshoar_controller_fetch(state: Held) -> Fetched
    ensures { result ≡ held_fetch state }
{
    match Controller::try_from(state).and_then(Controller::fetch) {
        Ok((after, address)) => Fetched {
            state: Held::from(after),
            number: 0,
            bank: address.bank,
            row: address.row,
            column: address.column,
        },
        Err(refusal) => Fetched {
            state,
            number: u32::from(refusal),
            bank: 0,
            row: 0,
            column: 0,
        },
    }
}

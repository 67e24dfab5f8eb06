// The video RAM's state, and the answer to a list, as C has them: what every crate that takes the state from C and hands it back rests on.
// Structs go by value; a state that no `Vram` can be is told before it is taken.
#![tactic(auto)]

ghost use Rattle.std.specs.Prelude.{◌≡◌};
ghost use Rattle.std.specs.Prelude.Result.{Ok, Err};
ghost use Rattle.numbers.specs.declared.Refusal.TheVariants.{StateExcluded};
ghost use Rattle.numbers.specs.Refusal.{number_of};
ghost use Rattle.list.specs.Meaning.{bad, ran_by};
ghost use Rattle.registers.specs.State.{lawful, waiting_of, taken, taking, handed, handed_answer, handed_ran};

use list::Refused;
use numbers::{Refusal, refuse};
use refusals::partition_ok;
use vram::{Stop, Vram, Waiting};

// The registers. waiting: 0 none, 1 tap. stop: the length of a partition.
#[repr(C)]
#[derive(Clone, Copy, Debug, PartialEq, Eq)]
pub struct Registers {
    pub colour: u16,
    pub mask: u16,
    pub persistent: u8,
    pub loaded: u8,
    pub pointer: u8,
    pub waiting: u8,
    pub tap: u8,
    pub stop: u8,
}

// The state after a list, the number given back, and the offset of the field that it is about.
#[repr(C)]
#[derive(Clone, Copy, Debug, PartialEq, Eq)]
pub struct Ran {
    pub state: Registers,
    pub number: u32,
    pub place: u64,
}

// `lawful` and `take` stand beside `TryFrom` below, since both answer for any bytes.
// Whether a `Vram` can be so: yes-or-no bytes of 0 or 1, no tap where nothing waits, and a partition of one of the four lengths.
#[tactic(auto, unfolding(crate::specs::State::lawful))]
pub fn lawful(state: Registers) -> bool
    ensures { result ≡ lawful state }
{
    (state.persistent <= 1)
        & (state.loaded <= 1)
        & (state.waiting <= 1)
        & ((state.waiting == 1) | (state.tap == 0))
        & partition_ok(state.stop)
}

fn waiting_of(waiting: u8, tap: u8) -> Waiting
    ensures { result ≡ waiting_of waiting tap }
{
    if waiting == 0 {
        Waiting::None
    } else {
        Waiting::Tap(tap)
    }
}

// The state as `vram` has it. Whoever calls this has asked `lawful`; other bytes are taken for some state all the same.
#[tactic(auto, unfolding(crate::specs::State::taken))]
pub fn take(state: Registers) -> Vram
    ensures { result ≡ taken state }
{
    Vram {
        colour: state.colour,
        mask: state.mask,
        persistent: state.persistent != 0,
        loaded: state.loaded != 0,
        pointer: state.pointer,
        waiting: waiting_of(state.waiting, state.tap),
        stop: Stop::of(state.stop),
    }
}

// The state that C hands over, or 1 where no `Vram` can be so.
impl TryFrom<Registers> for Vram {
    type Error = Refusal;

    ghost try_from_gives = { λ state answer. answer ≡ taking state (λ vram. Ok vram) (Err StateExcluded) };

    fn try_from(state: Registers) -> Result<Vram, Refusal> {
        refuse(lawful(state), Refusal::StateExcluded)?;
        Ok(take(state))
    }
}

// The state as C has it.
#[tactic(auto, unfolding(crate::specs::State::handed))]
pub fn hand(state: Vram) -> Registers
    ensures { result ≡ handed state }
{
    let (waiting, tap) = match state.waiting {
        Waiting::None => (0, 0),
        Waiting::Tap(tap) => (1, tap),
    };
    Registers {
        colour: state.colour,
        mask: state.mask,
        persistent: u8::from(state.persistent),
        loaded: u8::from(state.loaded),
        pointer: state.pointer,
        waiting,
        tap,
        stop: state.stop.length(),
    }
}

// An answer to a list: any state, number and place.
pub fn hand_answer(state: Vram, number: u32, place: u64) -> Ran
    ensures { result ≡ handed_answer (bad number place) state }
{
    Ran {
        state: hand(state),
        number,
        place,
    }
}

// The answer to a list, of the state before it.
pub fn hand_ran(before: Vram, answer: Result<Vram, Refused>) -> Ran
    ensures { result ≡ handed_ran (ran_by before answer) }
{
    match answer {
        Ok(state) => hand_answer(state, 0, 0),
        Err(refused) => hand_answer(before, u32::from(refused.refusal), refused.place),
    }
}

// The answer where no `Vram` can be so: the state as it came.
pub fn excluded(state: Registers, refusal: Refusal) -> Ran
    ensures { result ≡ record { state = state; number = number_of refusal; place = 0 } }
{
    Ran {
        state,
        number: u32::from(refusal),
        place: 0,
    }
}

// An answer as C has it: refused, the state is the one that C handed over.
ghost use Rattle.std.specs.Prelude.{◌≡◌};
ghost use Rattle.colours.specs.Calls.{asked_by};
ghost use Rattle.colours_c.specs.Calls.{answered, moved_on};

use crate::{Coloured, Emitted, Held, HeldLevels};
use colours::{Colours, Output};
use numbers::Refusal;

impl Coloured {
    // Of the answer of a write below.
    pub(crate) fn of(state: Held, answer: Result<Colours, Refusal>) -> Coloured
        ensures { result ≡ answered state answer }
    {
        match answer {
            Ok(colours) => Coloured {
                state: Held::from(colours),
                number: 0,
            },
            Err(refusal) => Coloured {
                state,
                number: u32::from(refusal),
            },
        }
    }
}

impl Emitted {
    // A pixel by what it asked for: the outputs on their way move up as they are, with no `Colours` made of them. Refused, it answers zeros.
    pub(crate) fn of(state: Held, asked: Result<Output, Refusal>) -> Emitted
        ensures { result ≡ moved_on state (asked_by asked) }
    {
        match asked {
            Ok(output) => Emitted {
                state: Held {
                    first: state.second,
                    second: state.third,
                    third: HeldLevels::from(output),
                    ..state
                },
                levels: state.first,
                number: 0,
            },
            Err(refusal) => Emitted {
                state,
                levels: HeldLevels {
                    red: 0,
                    green: 0,
                    blue: 0,
                },
                number: u32::from(refusal),
            },
        }
    }
}

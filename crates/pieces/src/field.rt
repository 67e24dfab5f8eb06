// One field, when its last byte has come.
ghost use Rattle.std.specs.Prelude.{◌≡◌, take};
ghost use Rattle.numbers.specs.Refusal.{given_back};
ghost use Rattle.vram.specs.Board.{board};
ghost use Rattle.vram.specs.Step.{given_of};
ghost use Rattle.list.specs.Waits.{waits};
ghost use Rattle.pieces.specs.Pieces.{pack};
ghost use Rattle.pieces.specs.Turns.{standing, Meets, met_by};

use crate::Pieces;
use list::left::opens;
use list::{Head, head_of};
use numbers::{Refusal, number};
use vram::Vram;

// What a field that is run leaves: the state, the open mask load, and how many bytes it took.
#[derive(Clone, Copy, Debug, PartialEq, Eq)]
pub(crate) struct Met {
    pub state: Vram,
    pub left: Option<u64>,
    pub size: usize,
}

// The field at the head of some bytes is judged, and run where nothing refuses it. Bytes that wait for more, and a field that is refused,
// take none.
pub(crate) fn meet(
    at: u32,
    left: Option<u64>,
    state: Vram,
    memory: &mut [u16],
    serial: &mut [u16],
    bytes: &[u8],
) -> Result<Option<Met>, Refusal>
    requires { given_of (board state memory.old serial.old) ≡ 0 }
    ensures { let met = met_by state left result in (met.waits ≡ waits bytes.now) × Meets at bytes.now left (board state memory.old serial.old) met.number met.size met.left (board met.state memory.new serial.new) }
{
    match head_of(bytes) {
        Head::Waits => Ok(None),
        Head::Wrong => Err(Refusal::FieldUnreadable),
        // No `?` here: an edit has a refused field answer otherwise.
        Head::Whole { cycle, size } => match state.cycle(memory, serial, cycle) {
            Ok(after) => Ok(Some(Met {
                state: after,
                left: opens(bytes[0], at as u64, left),
                size,
            })),
            Err(refusal) => Err(refusal),
        },
    }
}

// The line with nothing held: the next field begins, or the list is refused there.
pub(crate) fn standing(answer: Result<(), Refusal>, start: u32, left: Option<u64>) -> Pieces
    ensures { result ≡ pack (standing (given_back answer) start left) }
{
    Pieces {
        held: [0; 13],
        count: 0,
        start,
        number: number(answer),
        left: if answer.is_ok() { left } else { None },
    }
}

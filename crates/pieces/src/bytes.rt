// One byte more: it is held, or it is its field's last.
ghost use Rattle.std.specs.Prelude.{◌≡◌, take};
ghost use Rattle.vram.specs.Board.{board};
ghost use Rattle.vram.specs.Step.{given_of};
ghost use Rattle.pieces.specs.Line.{port, come, feed};
ghost use Rattle.pieces.specs.Pieces.{pack, unpack};
ghost use Rattle.pieces.specs.PackLaws.{Sound};
ghost use Rattle.pieces.specs.Turns.{Held};

use crate::field::{meet, standing};
use crate::{LIMIT, Pieces};
use numbers::Refusal;
use vram::Vram;

// Where the list stands, and the state.
#[derive(Clone, Copy, Debug, PartialEq, Eq)]
pub(crate) struct Moved {
    pub pieces: Pieces,
    pub state: Vram,
}

// The held bytes of one field: they stay held while more may make a field of them.
fn come(p: Pieces, state: Vram, memory: &mut [u16], serial: &mut [u16]) -> Moved
    requires { Held p.held p.count p.start × (p.number ≡ 0) × (given_of (board state memory.old serial.old) ≡ 0) }
    ensures { (result.pieces ≡ pack (come p.start (take p.count p.held) p.left (board state memory.old serial.old)).line) × (board result.state memory.new serial.new ≡ (come p.start (take p.count p.held) p.left (board state memory.old serial.old)).on) }
{
    let n = p.count as usize;
    match meet(p.start, p.left, state, memory, serial, &p.held[..n]) {
        Ok(None) => Moved { pieces: p, state },
        Ok(Some(met)) => Moved {
            pieces: standing(Ok(()), p.start + (met.size as u32), met.left),
            state: met.state,
        },
        Err(refusal) => Moved {
            pieces: standing(Err(refusal), p.start, p.left),
            state,
        },
    }
}

// After a refusal it does nothing, and past the limit it is refused.
pub(crate) fn feed(p: Pieces, state: Vram, memory: &mut [u16], serial: &mut [u16], x: u8) -> Moved
    requires { Sound p × (given_of (board state memory.old serial.old) ≡ 0) }
    ensures { (result.pieces ≡ pack (feed (port (unpack p) (board state memory.old serial.old)) x).line) × (board result.state memory.new serial.new ≡ (feed (port (unpack p) (board state memory.old serial.old)) x).on) }
{
    if p.number != 0 {
        return Moved { pieces: p, state };
    }
    if LIMIT - p.start <= (p.count as u32) {
        let pieces = standing(Err(Refusal::FieldUnreadable), p.start, p.left);
        return Moved { pieces, state };
    }
    let mut held = p.held;
    held[p.count as usize] = x;
    let more = Pieces {
        held,
        count: p.count + 1,
        ..p
    };
    come(more, state, memory, serial)
}

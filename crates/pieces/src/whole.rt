// Whole fields inside a piece: they run from the piece's own bytes, and nothing is copied to the held field.
ghost use Rattle.std.specs.Prelude.{◌≡◌, true, [], ◌<◌, length};
ghost use Rattle.vram.specs.Board.{board};
ghost use Rattle.vram.specs.Step.{given_of};
ghost use Rattle.pieces.specs.Line.{line, port, piece};
ghost use Rattle.pieces.specs.Pieces.{pack, unpack, packed, possible};
ghost use Rattle.pieces.specs.PackLaws.{Sound};
ghost use Rattle.pieces.specs.Turns.{Along};

use crate::bytes::{Moved, feed};
use crate::field::{meet, standing};
use crate::{Pieces, SAFE};
use vram::Vram;

// Where the list stands, the state, and how many bytes are used up.
#[derive(Clone, Copy, Debug, PartialEq, Eq)]
struct Went {
    pieces: Pieces,
    state: Vram,
    used: usize,
}

// With nothing held: field after field, up to one that waits or is refused. Near the limit bytes are counted one by one.
fn whole_fields(
    start: u32,
    left: Option<u64>,
    state: Vram,
    memory: &mut [u16],
    serial: &mut [u16],
    bytes: &[u8],
) -> Went
    requires { (possible (line [] start 0 left) ≡ true) × (given_of (board state memory.old serial.old) ≡ 0) }
    ensures { Along (packed [] start 0 left) (board state memory.old serial.old) bytes.now result.pieces (board result.state memory.new serial.new) result.used }
{
    // A field's size comes from its bytes; how many are used up is what `Along` speaks of.
    let mut used: usize = 0;
    let mut at = start;
    let mut opened = left;
    let mut state = state;
    let answer = loop {
        if SAFE < at {
            break Ok(());
        }
        match meet(at, opened, state, memory, serial, &bytes[used..]) {
            Ok(None) => break Ok(()),
            Ok(Some(met)) => {
                state = met.state;
                opened = met.left;
                at += met.size as u32;
                used += met.size;
            }
            Err(refusal) => break Err(refusal),
        }
    };
    Went {
        pieces: standing(answer, at, opened),
        state,
        used,
    }
}

// The whole fields at the head of some bytes, where nothing is held or refused.
fn at_once(p: Pieces, state: Vram, memory: &mut [u16], serial: &mut [u16], rest: &[u8]) -> Went
    requires { Sound p × (given_of (board state memory.old serial.old) ≡ 0) }
    ensures { Along p (board state memory.old serial.old) rest.now result.pieces (board result.state memory.new serial.new) result.used }
{
    if (p.number == 0) & (p.count == 0) {
        return whole_fields(p.start, p.left, state, memory, serial, rest);
    }
    Went {
        pieces: p,
        state,
        used: 0,
    }
}

// And then a byte. Those after a refused field are used up and do nothing.
fn advance(p: Pieces, state: Vram, memory: &mut [u16], serial: &mut [u16], rest: &[u8]) -> Went
    requires { Sound p × (given_of (board state memory.old serial.old) ≡ 0) × (0 < length rest.now) }
    ensures { Along p (board state memory.old serial.old) rest.now result.pieces (board result.state memory.new serial.new) result.used × (0 < result.used) }
{
    let went = at_once(p, state, memory, serial, rest);
    if went.pieces.number != 0 {
        return Went {
            used: rest.len(),
            ..went
        };
    }
    if rest.len() <= went.used {
        return went;
    }
    let moved = feed(went.pieces, went.state, memory, serial, rest[went.used]);
    Went {
        pieces: moved.pieces,
        state: moved.state,
        used: went.used + 1,
    }
}

// The bytes of a piece, in order.
pub(crate) fn take_all(
    p: Pieces,
    state: Vram,
    memory: &mut [u16],
    serial: &mut [u16],
    bytes: &[u8],
) -> Moved
    requires { Sound p × (given_of (board state memory.old serial.old) ≡ 0) }
    ensures { (result.pieces ≡ pack (piece (port (unpack p) (board state memory.old serial.old)) bytes.now).line) × (board result.state memory.new serial.new ≡ (piece (port (unpack p) (board state memory.old serial.old)) bytes.now).on) }
{
    // Each turn says how many bytes it has used up.
    let mut rest = bytes;
    let mut pieces = p;
    let mut state = state;
    while !rest.is_empty() {
        let went = advance(pieces, state, memory, serial, rest);
        pieces = went.pieces;
        state = went.state;
        rest = &rest[went.used..];
    }
    Moved { pieces, state }
}

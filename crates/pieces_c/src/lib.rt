// Lists in pieces as a C program has them: change request M-109. `host/include/linkshoar.h` declares the calls.
// They stand in an object of their own: a second run of cycles beside `host`'s would stop the compiler from keeping those in line.
#![tactic(auto)]

ghost use Rattle.std.specs.Prelude.{◌≡◌};
ghost use Rattle.pieces.specs.Line.{fresh};
ghost use Rattle.pieces.specs.Pieces.{pack};
ghost use Rattle.pieces_c.specs.Line.{handed_line};
ghost use Rattle.pieces_c.specs.Calls.{answered, take_call, end_call};

mod line;

use line::{excluded, take_both};
use registers::Registers;

// Where a list stands between two pieces. open: 0 no mask load is open, 1 one is, at the offset left.
#[repr(C)]
#[derive(Clone, Copy, Debug, PartialEq, Eq)]
pub struct Pieces {
    pub left: u64,
    pub start: u32,
    pub number: u32,
    pub held: [u8; 13],
    pub count: u8,
    pub open: u8,
}

// The state after a piece or the last call, where the list stands, the number given back, and the offset of the field that it is about.
#[repr(C)]
#[derive(Clone, Copy, Debug, PartialEq, Eq)]
pub struct Taken {
    pub state: Registers,
    pub pieces: Pieces,
    pub number: u32,
    pub place: u64,
}

// Before a list's first byte.
pub fn linkshoar_pieces_fresh() -> Pieces
    ensures { result ≡ handed_line (pack fresh) }
{
    Pieces::from(pieces::fresh())
}

// A piece of a list, also one of no bytes.
pub fn linkshoar_pieces_take(
    state: Registers,
    line: Pieces,
    memory: &mut [u16],
    serial: &mut [u16],
    piece: &[u8],
) -> Taken
    ensures { answered result memory.new serial.new ≡ take_call state line memory.old serial.old piece.now }
{
    match take_both(state, line) {
        Ok((vram, list)) => Taken::from(pieces::take(vram, list, memory, serial, piece)),
        Err(refusal) => excluded(state, line, refusal),
    }
}

// The list is over.
pub fn linkshoar_pieces_end(state: Registers, line: Pieces, memory: &[u16], serial: &[u16]) -> Taken
    ensures { answered result memory.now serial.now ≡ end_call state line memory.now serial.now }
{
    match take_both(state, line) {
        Ok((vram, list)) => Taken::from(pieces::end(vram, list, memory, serial)),
        Err(refusal) => excluded(state, line, refusal),
    }
}

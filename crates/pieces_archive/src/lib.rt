// The archive of `pieces_c`: lists in pieces.
// A static library has the exports of its own crate alone, and no crate can stand on one: so each export calls the function of its name below
// and has its clauses again, and adds nothing.
#![tactic(auto)]

ghost use Rattle.std.specs.Prelude.{◌≡◌};
ghost use Rattle.pieces.specs.Line.{fresh};
ghost use Rattle.pieces.specs.Pieces.{pack};
ghost use Rattle.pieces_c.specs.Calls.{answered, end_call, take_call};
ghost use Rattle.pieces_c.specs.Line.{handed_line};

use pieces_c::{Pieces, Taken};
use registers::Registers;

// Before a list's first byte.
#[unsafe(no_mangle)]
pub extern "C" fn linkshoar_pieces_fresh() -> Pieces
    ensures { result ≡ handed_line (pack fresh) }
{
    pieces_c::linkshoar_pieces_fresh()
}

// A piece of a list, also one of no bytes.
#[unsafe(no_mangle)]
pub extern "C" fn linkshoar_pieces_take(
    state: Registers,
    line: Pieces,
    memory: &mut [u16],
    serial: &mut [u16],
    piece: &[u8],
) -> Taken
    ensures { answered result memory.new serial.new ≡ take_call state line memory.old serial.old piece.now }
{
    pieces_c::linkshoar_pieces_take(state, line, memory, serial, piece)
}

// The list is over.
#[unsafe(no_mangle)]
pub extern "C" fn linkshoar_pieces_end(
    state: Registers,
    line: Pieces,
    memory: &[u16],
    serial: &[u16],
) -> Taken
    ensures { answered result memory.now serial.now ≡ end_call state line memory.now serial.now }
{
    pieces_c::linkshoar_pieces_end(state, line, memory, serial)
}

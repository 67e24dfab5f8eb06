// Lists that come in pieces: change request M-109. A slow port sends a list a few bytes at a time; each field runs when its last byte has
// come. Between two pieces the caller keeps where the list stands, which holds at most one unfinished field.
#![tactic(auto)]

ghost use Rattle.std.specs.Prelude.{◌≡◌, length};
ghost use Rattle.numbers.specs.Refusal.{given_back};
ghost use Rattle.numbers.specs.Refuse.{refuse as refused};
ghost use Rattle.vram.specs.Board.{board};
ghost use Rattle.vram.specs.Refusal.{given};
ghost use Rattle.pieces.specs.Line.{fresh};
ghost use Rattle.pieces.specs.Pieces.{pack, sound};
ghost use Rattle.pieces.specs.Calls.{taken_of, outcome, take_call, end_call};

mod bytes;
mod field;
mod last;
mod rule;
mod whole;

use field::standing;
use last::{at_last, so_far};
use list::Refused;
use numbers::{Refusal, refuse};
use rule::sound;
use vram::Vram;
use whole::take_all;

// A list has at most this many bytes.
pub(crate) const LIMIT: u32 = 4294967295;

// The limit less the longest field: a field that begins here ends within it.
pub(crate) const SAFE: u32 = 4294967282;

// Where a list stands between two pieces: the unfinished field's bytes and zeros after them, how many are held, the field's offset in the
// list, the number that the list was refused with at that offset or 0, and the mask load that is still open.
// The number stays one, and is no Option<Refusal>: `take_call` says of every number what a line with it answers, so a type with fewer would
// ask more of callers.
#[derive(Clone, Copy, Debug, PartialEq, Eq)]
pub struct Pieces {
    pub held: [u8; 13],
    pub count: u8,
    pub start: u32,
    pub number: u32,
    pub left: Option<u64>,
}

// The state after a piece or the last call, where the list stands, and the answer. A refused field leaves those before it drawn, so state
// and line are there on a refusal too.
#[derive(Clone, Copy, Debug, PartialEq, Eq)]
pub struct Taken {
    pub state: Vram,
    pub pieces: Pieces,
    pub answer: Result<(), Refused>,
}

// Before any byte: 1 for what no pieces could make, then 1 to 3.
fn first_refusal(p: Pieces, state: Vram, words: usize, serial_words: usize) -> Result<(), Refusal>
    ensures { (given_back result ≡ refused (sound p) 1 (given state words serial_words)) × (length p.held ≡ 13) }
{
    refuse(sound(p), Refusal::StateExcluded)?;
    state.given(words, serial_words)
}

// Before a list's first byte.
pub fn fresh() -> Pieces
    ensures { result ≡ pack fresh }
{
    standing(Ok(()), 0, None)
}

// A piece of a list, also one of no bytes. A refused field leaves those before it drawn; nothing that comes after it is.
pub fn take(
    state: Vram,
    pieces: Pieces,
    memory: &mut [u16],
    serial: &mut [u16],
    piece: &[u8],
) -> Taken
    ensures { outcome (taken_of result) memory.new serial.new ≡ take_call pieces piece.now (board state memory.old serial.old) }
{
    if let Err(refusal) = first_refusal(pieces, state, memory.len(), serial.len()) {
        return Taken {
            state,
            pieces,
            answer: Err(Refused::from(refusal)),
        };
    }
    let moved = take_all(pieces, state, memory, serial, piece);
    Taken {
        state: moved.state,
        pieces: moved.pieces,
        answer: so_far(moved.pieces),
    }
}

// The list is over: an unfinished field is refused, and a mask left behind. The next piece starts a new list.
pub fn end(state: Vram, pieces: Pieces, memory: &[u16], serial: &[u16]) -> Taken
    ensures { outcome (taken_of result) memory.now serial.now ≡ end_call pieces (board state memory.now serial.now) }
{
    if let Err(refusal) = first_refusal(pieces, state, memory.len(), serial.len()) {
        return Taken {
            state,
            pieces,
            answer: Err(Refused::from(refusal)),
        };
    }
    let next = fresh();
    Taken {
        state,
        pieces: next,
        answer: at_last(pieces),
    }
}

// The run of a list that has been checked: each field is made a cycle, and performed.
ghost use Rattle.std.specs.Prelude.{◌≡◌, true, ◌+◌, ◌<◌, length};
ghost use Rattle.vram.specs.declared.Cycle.TheVariants.{WordWrite, BlockWrite, LoadColour, LoadMask, FullTransfer, SplitTransfer, StopPoints};
ghost use Rattle.vram.specs.Board.{board};
ghost use Rattle.vram.specs.Step.{run};
ghost use Rattle.list.specs.Tags.{byte, word, len_of, cycle_of};
ghost use Rattle.list.specs.Fields.{fields};
ghost use Rattle.list.specs.Meaning.{cycles_of, readable};

use crate::fields::{body_length, word_at};
use vram::{Cycle, Vram};

// Each kind's cycle of its body. Each makes another variant: one function for all that took the variant would read no plainer, and neither
// would arrays for the bodies, with an `unwrap` at each call.
fn word_write(body: &[u8]) -> Cycle
    requires { length body.now ≡ 10 }
    ensures { result ≡ WordWrite (word body.now 0) (word body.now 2) (word body.now 4) (byte body.now 6) (word body.now 7) (byte body.now 9) }
{
    Cycle::WordWrite {
        row: word_at(body, 0),
        column: word_at(body, 2),
        word: word_at(body, 4),
        masking: body[6],
        mask: word_at(body, 7),
        strobes: body[9],
    }
}

fn block_write(body: &[u8]) -> Cycle
    requires { length body.now ≡ 10 }
    ensures { result ≡ BlockWrite (word body.now 0) (word body.now 2) (word body.now 4) (byte body.now 6) (word body.now 7) (byte body.now 9) }
{
    Cycle::BlockWrite {
        row: word_at(body, 0),
        column: word_at(body, 2),
        columns: word_at(body, 4),
        masking: body[6],
        mask: word_at(body, 7),
        strobes: body[9],
    }
}

fn load_colour(body: &[u8]) -> Cycle
    requires { length body.now ≡ 3 }
    ensures { result ≡ LoadColour (word body.now 0) (byte body.now 2) }
{
    Cycle::LoadColour {
        word: word_at(body, 0),
        strobes: body[2],
    }
}

fn load_mask(body: &[u8]) -> Cycle
    requires { length body.now ≡ 3 }
    ensures { result ≡ LoadMask (word body.now 0) (byte body.now 2) }
{
    Cycle::LoadMask {
        word: word_at(body, 0),
        strobes: body[2],
    }
}

fn full_transfer(body: &[u8]) -> Cycle
    requires { length body.now ≡ 4 }
    ensures { result ≡ FullTransfer (word body.now 0) (byte body.now 2) (byte body.now 3) }
{
    Cycle::FullTransfer {
        row: word_at(body, 0),
        half: body[2],
        tap: body[3],
    }
}

fn split_transfer(body: &[u8]) -> Cycle
    requires { length body.now ≡ 4 }
    ensures { result ≡ SplitTransfer (word body.now 0) (byte body.now 2) (byte body.now 3) }
{
    Cycle::SplitTransfer {
        row: word_at(body, 0),
        half: body[2],
        tap: body[3],
    }
}

fn stop_points(body: &[u8]) -> Cycle
    requires { length body.now ≡ 1 }
    ensures { result ≡ StopPoints (byte body.now 0) }
{
    Cycle::StopPoints { length: body[0] }
}

// The cycle that a body says.
pub(crate) fn cycle_of(tag: u8, body: &[u8]) -> Cycle
    requires { length body.now ≡ len_of tag }
    ensures { result ≡ cycle_of tag body.now }
{
    match tag {
        1 => word_write(body),
        2 => block_write(body),
        3 => load_colour(body),
        4 => load_mask(body),
        6 => full_transfer(body),
        7 => split_transfer(body),
        9 => stop_points(body),
        _ => Cycle::ResetRefresh,
    }
}

// The fields in order.
pub(crate) fn run_fields(state: Vram, memory: &mut [u16], serial: &mut [u16], list: &[u8]) -> Vram
    requires { readable (fields list.now) ≡ true }
    ensures { board result memory.new serial.new ≡ run (cycles_of list.now) (board state memory.old serial.old) }
{
    // A field's size comes from its bytes: so each turn takes what is left, and there is no index to count.
    let mut rest = list;
    let mut current = state;
    while !rest.is_empty() {
        let tag = rest[0];
        let size = 3 + body_length(tag);
        let cycle = cycle_of(tag, &rest[3..size]);
        // None is refused: the list has been checked.
        current = current.cycle(memory, serial, cycle).unwrap_or(current);
        rest = &rest[size..];
    }
    current
}

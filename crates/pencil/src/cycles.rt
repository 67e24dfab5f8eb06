// A cycle on the plain engine, refused or done. The writes are its own; all else is `vram`'s, by its one call.
ghost use Rattle.std.specs.Prelude.{◌≡◌, ◌+◌, ◌*◌, ◌/◌, length};
ghost use Rattle.numbers.specs.Refusal.{left_by};
ghost use Rattle.vram.specs.Board.{board, in_force};
ghost use Rattle.vram.specs.Step.{step_by};
ghost use Rattle.vram.specs.Calls.{answered_by, Wrote};
ghost use Rattle.pencil.specs.Memory.{word_written, block_written};
ghost use Rattle.pencil.specs.Pencil.{write_number, pencil};

use crate::block::write_block;
use crate::word::{in_force, write_word};
use numbers::Refusal;
use refusals::write_refusal;
use vram::{Cycle, Vram};

// A word write: word 512·row + column of the memory, through the mask in force. A list has been checked before it runs, and yet a write judges
// what it is given, 1 to 3, then 5 to 8: so it requires nothing of its caller.
fn word_write(
    state: Vram,
    memory: &mut [u16],
    serial_words: usize,
    row: u16,
    column: u16,
    word: u16,
    masking: u8,
    mask: u16,
    strobes: u8,
) -> Result<Vram, Refusal>
    ensures { Wrote (write_number state (length memory.old) serial_words row column masking mask strobes) state memory.old (word_written memory.old (512 * row + column) word (in_force state masking mask) strobes) (answered_by state result) memory.new }
{
    state.given(memory.len(), serial_words)?;
    write_refusal(memory.len() / 512, row, column, masking, mask, strobes)?;
    let at = 512 * (row as usize) + column as usize;
    write_word(
        memory,
        at,
        word,
        in_force(masking, state.persistent, state.mask, mask),
        strobes,
    );
    Ok(state)
}

// A block write: "A block write ignores the two low column bits." Its four words take the colour register's bits.
fn block_write(
    state: Vram,
    memory: &mut [u16],
    serial_words: usize,
    row: u16,
    column: u16,
    columns: u16,
    masking: u8,
    mask: u16,
    strobes: u8,
) -> Result<Vram, Refusal>
    ensures { Wrote (write_number state (length memory.old) serial_words row column masking mask strobes) state memory.old (block_written memory.old (512 * row + 4 * (column / 4)) state.colour columns (in_force state masking mask) strobes 4) (answered_by state result) memory.new }
{
    state.given(memory.len(), serial_words)?;
    write_refusal(memory.len() / 512, row, column, masking, mask, strobes)?;
    let base = 512 * (row as usize) + 4 * (column as usize / 4);
    let force = in_force(masking, state.persistent, state.mask, mask);
    write_block(memory, base, state.colour, columns, force, strobes);
    Ok(state)
}

// One cycle: the state afterwards, or what refuses the cycle.
pub(crate) fn step(
    state: Vram,
    memory: &mut [u16],
    serial: &mut [u16],
    cycle: Cycle,
) -> Result<Vram, Refusal>
    ensures { board (left_by state result) memory.new serial.new ≡ step_by pencil cycle (board state memory.old serial.old) }
{
    match cycle {
        Cycle::WordWrite {
            row,
            column,
            word,
            masking,
            mask,
            strobes,
        } => word_write(
            state,
            memory,
            serial.len(),
            row,
            column,
            word,
            masking,
            mask,
            strobes,
        ),
        Cycle::BlockWrite {
            row,
            column,
            columns,
            masking,
            mask,
            strobes,
        } => block_write(
            state,
            memory,
            serial.len(),
            row,
            column,
            columns,
            masking,
            mask,
            strobes,
        ),
        _ => state.cycle(memory, serial, cycle),
    }
}

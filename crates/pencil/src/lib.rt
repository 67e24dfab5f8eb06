// The plain engine: change request M-105. It runs the lists that `list` runs, with the same refusals, so that it can be followed with a
// pencil: every word write bit by bit (`word.rt`, by the rules of one bit in `bits.rt`), every block write as four word writes, one for
// each column, through the bits that column has left (`block.rt`). Source document 004 (TMS55161): byte operation, write-per-bit, block
// write; document 01 decides. It shares no code that writes with `vram`. Loads, reset refresh, transfers and stop points are `vram`'s own,
// by its one call; what is not modelled is said there.
#![tactic(auto)]

ghost use Rattle.std.specs.Prelude.{◌≡◌};
ghost use Rattle.vram.specs.Board.{board};
ghost use Rattle.list.specs.Meaning.{ran_by, outcome};
ghost use Rattle.marks.specs.Calls.{outcome as marked_outcome};
ghost use Rattle.pencil.specs.Calls.{run_call, marked_call};

pub mod bits;
pub mod block;
mod cycles;
mod runs;
pub mod word;

use list::{Refused, check};
use marks::mark_list;
use runs::run_fields;
use vram::Vram;

// A list is checked whole, then run in order. A refusal changes nothing.
pub fn run(
    state: Vram,
    memory: &mut [u16],
    serial: &mut [u16],
    list: &[u8],
) -> Result<Vram, Refused>
    ensures { outcome (ran_by state result) memory.new serial.new ≡ run_call list.now (board state memory.old serial.old) }
{
    state.given(memory.len(), serial.len())?;
    check(list, memory.len() / 512, state.loaded)?;
    Ok(run_fields(state, memory, serial, list))
}

// The same, and the rows that its writes name are marked, as `marks` does it: a list that passes its check runs to its end.
pub fn run_marked(
    state: Vram,
    memory: &mut [u16],
    serial: &mut [u16],
    marks: &mut [u8],
    list: &[u8],
) -> Result<Vram, Refused>
    ensures { marked_outcome (ran_by state result) memory.new serial.new marks.new ≡ marked_call list.now (board state memory.old serial.old) marks.old }
{
    state.given(memory.len(), serial.len())?;
    mark_list(list, memory.len() / 512, state.loaded, marks)?;
    Ok(run_fields(state, memory, serial, list))
}

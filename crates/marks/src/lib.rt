// Which rows changed: change request M-104. A list is run with a mark for each of the 512 rows, in 64 lent bytes: row r at bit r mod 8
// of byte r / 8. A mark is set when a word or block write that names the row has run, even if it changed no bit.
#![tactic(auto)]

ghost use Rattle.std.specs.Prelude.{◌≡◌};
ghost use Rattle.vram.specs.Board.{board};
ghost use Rattle.numbers.specs.Refusal.{given_back};
ghost use Rattle.list.specs.Meaning.{bad_of, ran_by};
ghost use Rattle.marks.specs.Calls.{length_number, outcome, run_call, noted, mark_call, cleared, clear_call, next_by, next_call};

mod rows;

use list::{Refused, check};
use numbers::{Refusal, refuse};
use rows::{first_from, mark_writes};
use vram::Vram;

// 18 where so many bytes are not a mark for each row.
#[tactic(auto, unfolding(crate::specs::Calls::length_number))]
fn check_length(bytes: usize) -> Result<(), Refusal>
    ensures { given_back result ≡ length_number bytes }
{
    refuse(bytes == 64, Refusal::MarksLength)
}

// A list, run as `list` runs it; then the rows that its writes name are marked. A refused list sets no mark.
pub fn run(
    state: Vram,
    memory: &mut [u16],
    serial: &mut [u16],
    marks: &mut [u8],
    list: &[u8],
) -> Result<Vram, Refused>
    ensures { outcome (ran_by state result) memory.new serial.new marks.new ≡ run_call list.now (board state memory.old serial.old) marks.old }
{
    state.given(memory.len(), serial.len())?;
    check_length(marks.len())?;
    let after = list::run(state, memory, serial, list)?;
    mark_writes(list, marks);
    Ok(after)
}

// For an engine that runs a list itself: the list is checked, 18 first, and where nothing refuses it the rows that its writes name are
// marked.
pub fn mark_list(list: &[u8], rows: usize, loaded: bool, marks: &mut [u8]) -> Result<(), Refused>
    ensures { noted (bad_of result) marks.new ≡ mark_call list.now rows loaded marks.old }
{
    check_length(marks.len())?;
    check(list, rows, loaded)?;
    mark_writes(list, marks);
    Ok(())
}

// All marks cleared.
#[tactic(auto, unfolding(crate::specs::Calls::clear_call, crate::specs::Calls::length_number))]
pub fn clear(marks: &mut [u8]) -> Result<(), Refusal>
    ensures { cleared (given_back result) marks.new ≡ clear_call marks.old }
{
    check_length(marks.len())?;
    marks.fill(0);
    Ok(())
}

// The least marked row from a start row on, itself included.
#[tactic(auto, unfolding(crate::specs::Calls::next_call, crate::specs::Calls::next_number, crate::specs::Calls::length_number))]
pub fn next(marks: &[u8], start: u32) -> Result<Option<u16>, Refusal>
    ensures { next_by result ≡ next_call marks.now start }
{
    check_length(marks.len())?;
    refuse(start <= 511, Refusal::RowNotFitted)?;
    Ok(first_from(marks, start as usize))
}

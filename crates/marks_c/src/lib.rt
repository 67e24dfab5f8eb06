// Marks of rows as a C program has them: change request M-104. `host/include/linkshoar.h` declares the calls.
// They stand in an object of their own: a second run of lists beside `host`'s would stop the compiler from keeping its cycles in line.
#![tactic(auto)]

ghost use Rattle.std.specs.Prelude.{◌≡◌};
ghost use Rattle.marks.specs.Calls.{cleared, clear_call, next_call};
ghost use Rattle.marks_c.specs.Calls.{listed, marked_call, handed_next};

use numbers::number;
use registers::{Ran, Registers, excluded, hand_ran};
use vram::Vram;

// The number given back, and what is found: found 0 is none, 1 a row.
#[repr(C)]
#[derive(Clone, Copy, Debug, PartialEq, Eq)]
pub struct Marked {
    pub number: u32,
    pub found: u32,
    pub row: u32,
}

// A list, checked whole and then run in order; the rows that its writes name are marked.
pub fn linkshoar_list_run_marked(
    state: Registers,
    memory: &mut [u16],
    serial: &mut [u16],
    marks: &mut [u8],
    list: &[u8],
) -> Ran
    ensures { listed result memory.new serial.new marks.new ≡ marked_call state memory.old serial.old marks.old list.now }
{
    match Vram::try_from(state) {
        Ok(vram) => hand_ran(vram, marks::run(vram, memory, serial, marks, list)),
        Err(refusal) => excluded(state, refusal),
    }
}

// All marks cleared.
pub fn linkshoar_marks_clear(marks: &mut [u8]) -> u32
    ensures { cleared result marks.new ≡ clear_call marks.old }
{
    number(marks::clear(marks))
}

// What is found, as C has it.
fn answer(number: u32, found: u32, row: u32) -> Marked
    ensures { result ≡ record { number = number; found = found; row = row } }
{
    Marked { number, found, row }
}

// The least marked row from a start row on, itself included.
#[tactic(auto, unfolding(crate::specs::Calls::handed_next, marks::specs::Calls::answered, marks::specs::Calls::values_of), using(crate::specs::CallLaws::refused_handed))]
pub fn linkshoar_marks_next(marks: &[u8], start: u32) -> Marked
    ensures { result ≡ handed_next (next_call marks.now start) }
{
    match marks::next(marks, start) {
        Ok(None) => answer(0, 0, 0),
        Ok(Some(row)) => answer(0, 1, u32::from(row)),
        Err(refusal) => answer(u32::from(refusal), 0, 0),
    }
}

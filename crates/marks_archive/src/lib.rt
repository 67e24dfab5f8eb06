// The archive of `marks_c`: marked runs and row marks.
// A static library has the exports of its own crate alone, and no crate can stand on one: so each export calls the function of its name below
// and has its clauses again, and adds nothing.
#![tactic(auto)]

ghost use Rattle.std.specs.Prelude.{◌≡◌};
ghost use Rattle.marks.specs.Calls.{clear_call, cleared, next_call};
ghost use Rattle.marks_c.specs.Calls.{handed_next, listed, marked_call};

use marks_c::Marked;
use registers::{Ran, Registers};

// A list, checked whole and then run in order; the rows that its writes name are marked.
#[unsafe(no_mangle)]
pub extern "C" fn linkshoar_list_run_marked(
    state: Registers,
    memory: &mut [u16],
    serial: &mut [u16],
    marks: &mut [u8],
    list: &[u8],
) -> Ran
    ensures { listed result memory.new serial.new marks.new ≡ marked_call state memory.old serial.old marks.old list.now }
{
    marks_c::linkshoar_list_run_marked(state, memory, serial, marks, list)
}

// All marks cleared.
#[unsafe(no_mangle)]
pub extern "C" fn linkshoar_marks_clear(marks: &mut [u8]) -> u32
    ensures { cleared result marks.new ≡ clear_call marks.old }
{
    marks_c::linkshoar_marks_clear(marks)
}

// The least marked row from a start row on, itself included.
#[unsafe(no_mangle)]
pub extern "C" fn linkshoar_marks_next(marks: &[u8], start: u32) -> Marked
    ensures { result ≡ handed_next (next_call marks.now start) }
{
    marks_c::linkshoar_marks_next(marks, start)
}

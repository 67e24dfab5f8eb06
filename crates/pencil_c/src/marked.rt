// A list on the plain engine, with marks.
ghost use Rattle.std.specs.Prelude.{◌≡◌};
ghost use Rattle.marks_c.specs.Calls.{listed};
ghost use Rattle.pencil_c.specs.Calls.{pencil_marked_call};

use registers::{Ran, Registers, excluded, hand_ran};
use vram::Vram;

// Checked whole, then run in order; the rows that its writes name are marked.
pub fn linkshoar_pencil_run_marked(
    state: Registers,
    memory: &mut [u16],
    serial: &mut [u16],
    marks: &mut [u8],
    list: &[u8],
) -> Ran
    ensures { listed result memory.new serial.new marks.new ≡ pencil_marked_call state memory.old serial.old marks.old list.now }
{
    match Vram::try_from(state) {
        Ok(vram) => hand_ran(vram, pencil::run_marked(vram, memory, serial, marks, list)),
        Err(refusal) => excluded(state, refusal),
    }
}

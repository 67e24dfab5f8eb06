// The archive of `pencil_c`: the plain engine.
// A static library has the exports of its own crate alone, and no crate can stand on one: so each export calls the function of its name below
// and has its clauses again, and adds nothing.
#![tactic(auto)]

ghost use Rattle.std.specs.Prelude.{◌≡◌};
ghost use Rattle.marks_c.specs.Calls.{listed as marked_listed};
ghost use Rattle.registers.specs.Lists.{listed};
ghost use Rattle.pencil_c.specs.Calls.{pencil_call, pencil_marked_call};

use registers::{Ran, Registers};

// Checked whole, then run in order.
#[unsafe(no_mangle)]
pub extern "C" fn linkshoar_pencil_run(
    state: Registers,
    memory: &mut [u16],
    serial: &mut [u16],
    list: &[u8],
) -> Ran
    ensures { listed result memory.new serial.new ≡ pencil_call state memory.old serial.old list.now }
{
    pencil_c::run::linkshoar_pencil_run(state, memory, serial, list)
}

// Checked whole, then run in order; the rows that its writes name are marked.
#[unsafe(no_mangle)]
pub extern "C" fn linkshoar_pencil_run_marked(
    state: Registers,
    memory: &mut [u16],
    serial: &mut [u16],
    marks: &mut [u8],
    list: &[u8],
) -> Ran
    ensures { marked_listed result memory.new serial.new marks.new ≡ pencil_marked_call state memory.old serial.old marks.old list.now }
{
    pencil_c::marked::linkshoar_pencil_run_marked(state, memory, serial, marks, list)
}

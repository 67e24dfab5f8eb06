// A list on the plain engine.
ghost use Rattle.std.specs.Prelude.{◌≡◌};
ghost use Rattle.registers.specs.Lists.{listed};
ghost use Rattle.pencil_c.specs.Calls.{pencil_call};

use registers::{Ran, Registers, excluded, hand_ran};
use vram::Vram;

// Checked whole, then run in order.
pub fn linkshoar_pencil_run(
    state: Registers,
    memory: &mut [u16],
    serial: &mut [u16],
    list: &[u8],
) -> Ran
    ensures { listed result memory.new serial.new ≡ pencil_call state memory.old serial.old list.now }
{
    match Vram::try_from(state) {
        Ok(vram) => hand_ran(vram, pencil::run(vram, memory, serial, list)),
        Err(refusal) => excluded(state, refusal),
    }
}

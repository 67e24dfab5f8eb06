// The run of a list that has been checked: field by field, each made a cycle and run.
ghost use Rattle.std.specs.Prelude.{◌≡◌};
ghost use Rattle.vram.specs.Board.{board};
ghost use Rattle.vram.specs.Step.{step_by, run_by};
ghost use Rattle.list.specs.Meaning.{cycles_of};
ghost use Rattle.pencil.specs.Pencil.{pencil};

use crate::cycles::step;
use list::{Head, head_of};
use vram::Vram;

// The fields in order, up to one that cannot be read: in a list that has passed its check there is none, and no cycle is refused.
pub(crate) fn run_fields(state: Vram, memory: &mut [u16], serial: &mut [u16], list: &[u8]) -> Vram
    ensures { board result memory.new serial.new ≡ run_by (step_by pencil) (cycles_of list.now) (board state memory.old serial.old) }
{
    // A field's size comes from its bytes: so each turn takes what is left, and there is no index to count.
    let mut rest = list;
    let mut current = state;
    while let Head::Whole { cycle, size } = head_of(rest) {
        current = step(current, memory, serial, cycle).unwrap_or(current);
        rest = &rest[size..];
    }
    current
}

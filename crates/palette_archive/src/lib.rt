// The archive of `palette`: the two calls with the state lent.
// A static library has the exports of its own crate alone, and no crate can stand on one: so each export calls the function of its name below
// and has its clauses again, and adds nothing.
#![tactic(auto)]

ghost use Rattle.std.specs.Prelude.{◌≡◌};
ghost use Rattle.palette.specs.Calls.{accessed, outcome, read_call, write_call};

use palette::Palette;
use palette::lent::Byte;

// `Palette::write`, with the state left where it was lent.
#[unsafe(no_mangle)]
pub extern "C" fn linkshoar_palette_write_lent(
    state: &mut Palette,
    table: &mut [u8],
    select: u32,
    value: u8,
) -> u32
    ensures { outcome (accessed state.new 0 result) table.new ≡ write_call state.old table.old select value }
{
    palette::lent::linkshoar_palette_write_lent(state, table, select, value)
}

// `Palette::read`, with the state left where it was lent.
#[unsafe(no_mangle)]
pub extern "C" fn linkshoar_palette_read_lent(
    state: &mut Palette,
    table: &[u8],
    select: u32,
) -> Byte
    ensures { accessed state.new result.byte result.number ≡ read_call state.old table.now select }
{
    palette::lent::linkshoar_palette_read_lent(state, table, select)
}

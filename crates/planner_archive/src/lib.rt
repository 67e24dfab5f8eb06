// The archive of `planner`, for a host that only plans.
// A static library has the exports of its own crate alone, and no crate can stand on one: so each export calls the function of its name below
// and has its clauses again, and adds nothing.
#![tactic(auto)]

ghost use Rattle.std.specs.Prelude.{◌≡◌};
ghost use Rattle.planner.specs.Fill.{fill};
ghost use Rattle.planner.specs.Calls.{outcome, fill_call};
ghost use Rattle.planner.specs.Paint.{list_in, Demanded};

use planner::Filled;

// The shortest list that fills the rectangle.
#[unsafe(no_mangle)]
pub extern "C" fn linkshoar_fill(
    rows: u32,
    first_row: u32,
    end_row: u32,
    first_column: u32,
    end_column: u32,
    mask: u16,
    colour: u16,
    persistent: u32,
    list: &mut [u8],
) -> Filled
    ensures outcome { outcome result list.new ≡ fill_call (fill rows first_row end_row first_column end_column mask colour persistent) list.old }
    ensures demand { result.number ≡ 0 → Demanded (fill rows first_row end_row first_column end_column mask colour persistent) result (list_in (outcome result list.new)) }
{
    planner::linkshoar_fill(
        rows,
        first_row,
        end_row,
        first_column,
        end_column,
        mask,
        colour,
        persistent,
        list,
    )
}

// The lists of a page's fills, one after the other.
ghost use Rattle.std.specs.Prelude.{◌≡◌, ◌≤◌, ◌<◌, length};
ghost use Rattle.planner.specs.Calls.{filled_by, outcome as filled_outcome, fill_call};
ghost use Rattle.page.specs.Rectangles.{rectangle_of, body, items, fill_of};
ghost use Rattle.page.specs.Calls.{fills_of, joined, plans, verdict, paged_by, outcome, page_answer};
ghost use Rattle.list.specs.Meaning.{bad};

use crate::Totals;
use crate::rectangles::rectangle_of;
use list::Refused;
use numbers::Refusal;
use planner::Counts;

// The list of the fill that the field at the head of some bytes asks for, at the start of a part of the buffer.
fn put_fill(rows: u32, field: &[u8], list: &mut [u8]) -> Result<Counts, Refusal>
    requires { 15 ≤ length field.now }
    ensures { filled_outcome (filled_by result) list.new ≡ fill_call (fill_of rows (rectangle_of (body field.now))) list.old }
{
    rectangle_of(&field[3..15]).fill(rows).put(list)
}

// The lists of all fills, where no field is refused and there is room for them: so none is refused here.
pub(crate) fn put_fills(rows: u32, rectangles: &[u8], list: &mut [u8]) -> Result<Totals, Refused>
    requires { (1 ≤ rows) × (rows ≤ 512) × ((verdict rows 0 (items rectangles.now)).number ≡ 0) × (length (joined (fills_of rows rectangles.now)) ≤ length list.old) }
    ensures { outcome (paged_by result) list.new ≡ page_answer (bad 0 0) (joined (fills_of rows rectangles.now)) (length (plans (fills_of rows rectangles.now))) list.old }
{
    let mut rest = rectangles;
    let mut at: usize = 0;
    let mut cycles: u64 = 0;
    while !rest.is_empty() {
        let counts = put_fill(rows, rest, &mut list[at..])?;
        at += counts.bytes as usize;
        cycles += u64::from(counts.cycles);
        rest = &rest[15..];
    }
    Ok(Totals {
        bytes: at as u64,
        cycles,
    })
}

// What refuses a page: each field is checked and its fill measured, before a byte is written.
ghost use Rattle.std.specs.Prelude.{◌≡◌, ◌≤◌, ◌<◌, eqb, length};
ghost use Rattle.std.specs.Prelude.Option.{Some};
ghost use Rattle.numbers.specs.Refusal.{given_back};
ghost use Rattle.numbers.specs.Refuse.{refuse};
ghost use Rattle.list.specs.Meaning.{bad_of, bad_at};
ghost use Rattle.planner.specs.Calls.{filled_by};
ghost use Rattle.page.specs.Rectangles.{items, item_of};
ghost use Rattle.page.specs.Rooms.{takes, room_number};
ghost use Rattle.page.specs.Calls.{unplaced, judged, measured};

use crate::rectangles::{rectangle_of, whole};
use list::Refused;
use numbers::{Refusal, refuse};
use planner::Counts;

// What is left of the room after n bytes more; none where they pass it. Nothing is summed, so nothing can wrap.
#[tactic(auto, unfolding(crate::specs::Rooms::takes))]
fn take_room(room: Option<usize>, n: u32) -> Option<usize>
    ensures { result ≡ takes room n }
{
    room?.checked_sub(n as usize)
}

// 13, and then 15 where the lists pass the room.
#[tactic(auto, unfolding(crate::specs::Rooms::room_number))]
fn end(persistent: u32, left: Option<usize>) -> Result<(), Refusal>
    ensures { given_back result ≡ refuse (eqb persistent 0) 13 (room_number left) }
{
    refuse(persistent == 0, Refusal::FillPersistent)?;
    refuse(left.is_some(), Refusal::BufferShort)
}

// The bytes and cycles of the fill that the field at the head of some bytes asks for; 4 or 12 refuses it.
fn measure_field(rows: u32, field: &[u8]) -> Result<Counts, Refusal>
    requires { 0 < length field.now }
    ensures { filled_by result ≡ measured rows (item_of field.now) }
{
    if whole(field) {
        rectangle_of(&field[3..15]).fill(rows).measure()
    } else {
        Err(Refusal::FieldUnreadable)
    }
}

// The same, with the field's offset.
fn measure_at(rows: u32, field: &[u8], place: u64) -> Result<Counts, Refused>
    requires { 0 < length field.now }
    ensures fill { filled_by (unplaced result) ≡ measured rows (item_of field.now) }
    ensures place { bad_of result ≡ bad_at (measured rows (item_of field.now)).number place }
{
    measure_field(rows, field).map_err(|refusal| Refused { refusal, place })
}

// The first refused field, with its offset; then 13; then 15 for the joined length.
pub(crate) fn check(
    rows: u32,
    persistent: u32,
    rectangles: &[u8],
    room: usize,
) -> Result<(), Refused>
    requires { (1 ≤ rows) × (rows ≤ 512) }
    ensures { bad_of result ≡ judged rows persistent (Some room) 0 (items rectangles.now) }
{
    let mut rest = rectangles;
    let mut left = Some(room);
    while !rest.is_empty() {
        let place = (rectangles.len() - rest.len()) as u64;
        let counts = measure_at(rows, rest, place)?;
        left = take_room(left, counts.bytes);
        rest = &rest[15..];
    }
    Ok(end(persistent, left)?)
}

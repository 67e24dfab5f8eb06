// Marks of rows in lent bytes: set by the writes of a list, searched.
ghost use Rattle.std.specs.Prelude.{◌≡◌, true, ◌-◌, ◌≤◌, length};
ghost use Rattle.list.specs.Tags.{cycle_of};
ghost use Rattle.list.specs.Fields.{tag, body, whole, fields};
ghost use Rattle.list.specs.Meaning.{readable, cycles_of};
ghost use Rattle.marks.specs.Marks.{mark, marked_by, marked_by_all, first_marked};

use list::number_at;

// A row that has no byte here is left alone: no write that has run names such a row.
#[tactic(auto, unfolding(crate::specs::Marks::mark), using(crate::proofs::Turns::shifted))]
fn mark_row(row: u16, marks: &mut [u8])
    ensures { marks.new ≡ mark row marks.old }
{
    let at = (row / 8) as usize;
    if at < marks.len() {
        marks[at] |= 1 << (row % 8);
    }
}

// The row that the field at the head of some bytes names, where it is a write: tag 1 or 2, and the body begins with the row.
#[tactic(auto, using(crate::proofs::Turns::whole_some, crate::proofs::Turns::mark_write, crate::proofs::Turns::mark_none))]
fn mark_field(field: &[u8], marks: &mut [u8])
    requires { whole field.now ≡ true }
    ensures { marks.new ≡ marked_by (cycle_of (tag field.now) (body field.now)) marks.old }
{
    if field[0] <= 2 {
        mark_row(number_at(field, 3), marks);
    }
}

// The rows that the writes of a list name, where each field can be read.
pub(crate) fn mark_writes(list: &[u8], marks: &mut [u8])
    requires { readable (fields list.now) ≡ true }
    ensures { marks.new ≡ marked_by_all (cycles_of list.now) marks.old }
{
    // A field's size comes from its bytes: so each turn takes what is left, and there is no index to count.
    let mut rest = list;
    while !rest.is_empty() {
        mark_field(rest, marks);
        // A body has at most ten bytes, so the low byte of its length says how many.
        let size = 3 + rest[2] as usize;
        rest = &rest[size..];
    }
}

// The first marked row from a row on.
pub(crate) fn first_from(marks: &[u8], start: usize) -> Option<u16>
    requires { (length marks.now ≡ 64) × (start ≤ 511) }
    ensures { result ≡ first_marked marks.now start (512 - start) }
{
    // A loop and no `find` over the rows: where a byte has no mark left eight rows are passed at once, and a link walks the faster.
    let mut row = start;
    while row <= 511 {
        let left = marks[row / 8] >> (row % 8);
        if left % 2 == 1 {
            return Some(row as u16);
        }
        // No mark is left in this byte: on to the next.
        row = if left == 0 { row / 8 * 8 + 8 } else { row + 1 };
    }
    None
}

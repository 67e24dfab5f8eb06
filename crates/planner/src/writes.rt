// The bytes of single cycles and of a row of writes, stored into a lent buffer from a place on.
ghost use Rattle.std.specs.Prelude.{◌≡◌, ◌+◌, ◌*◌, ◌≤◌, length};
ghost use Rattle.std.proofs.lemmas.List.Edits.{sets};
ghost use Rattle.planner.specs.Bytes.{place_bytes, tag_bytes, rest_bytes, write_at, load_bytes, row_bytes};

// Row and column, which go together as 65,536 times the row and the column.
fn put_place(list: &mut [u8], at: usize, place: u32)
    requires { at + 4 ≤ length list.old }
    ensures { list.new ≡ sets list.old at (place_bytes place) }
{
    list[at] = (place / 16777216) as u8;
    list[at + 1] = (place / 65536 % 256) as u8;
    list[at + 2] = (place / 256 % 256) as u8;
    list[at + 3] = (place % 256) as u8;
}

fn put_tag(list: &mut [u8], at: usize, tag: u8)
    requires { at + 3 ≤ length list.old }
    ensures { list.new ≡ sets list.old at (tag_bytes tag) }
{
    list[at] = tag;
    list[at + 1] = 0;
    list[at + 2] = 10;
}

// Data or column mask, masked with the mask, both strobes.
fn put_rest(list: &mut [u8], at: usize, value: u16, mask: u16)
    requires { at + 6 ≤ length list.old }
    ensures { list.new ≡ sets list.old at (rest_bytes value mask) }
{
    list[at] = (value / 256) as u8;
    list[at + 1] = (value % 256) as u8;
    list[at + 2] = 1;
    list[at + 3] = (mask / 256) as u8;
    list[at + 4] = (mask % 256) as u8;
    list[at + 5] = 3;
}

// A word write (tag 1) or a block write (tag 2). The place is stored first: its four bytes are then one store of the machine.
pub(crate) fn put_write(list: &mut [u8], at: usize, tag: u8, place: u32, value: u16, mask: u16)
    requires { at + 13 ≤ length list.old }
    ensures { list.new ≡ sets list.old at (write_at tag place value mask) }
{
    put_place(list, at + 3, place);
    put_tag(list, at, tag);
    put_rest(list, at + 7, value, mask);
}

// n writes of one value, the place going up by a step.
pub(crate) fn put_row(
    list: &mut [u8],
    at: usize,
    tag: u8,
    first: u32,
    step: u32,
    n: u32,
    value: u16,
    mask: u16,
)
    requires { (at + 13 * n ≤ length list.old) × (first ≤ 33554432) × (step ≤ 4) × (n ≤ 512) }
    ensures { list.new ≡ sets list.old at (row_bytes tag first step value mask n) }
{
    // Places by sums, and no product by the step: a small controller has no multiply (DECISIONS, "Products in the planner").
    let mut o = at;
    let mut place = first;
    for _i in 0..n {
        put_write(list, o, tag, place, value, mask);
        o += 13;
        place += step;
    }
}

// A colour load with both strobes, at the start of the buffer.
pub(crate) fn put_load(list: &mut [u8], colour: u16)
    requires { 6 ≤ length list.old }
    ensures { list.new ≡ sets list.old 0 (load_bytes colour) }
{
    list[0] = 3;
    list[1] = 0;
    list[2] = 3;
    list[3] = (colour / 256) as u8;
    list[4] = (colour % 256) as u8;
    list[5] = 3;
}

// A whole list of word writes or of block writes, from the start of the buffer: rows go up, then columns.
ghost use Rattle.std.specs.Prelude.{◌≡◌, ◌+◌, ◌-◌, ◌*◌, ◌≤◌, ◌<◌, length};
ghost use Rattle.std.proofs.lemmas.List.Edits.{sets};
ghost use Rattle.planner.specs.Fill.{W, B};
ghost use Rattle.planner.specs.Bytes.{place_of, block_row, block_rows};
ghost use Rattle.planner.specs.Calls.{list_of};
ghost use Rattle.planner.specs.Shapes.{Words, Blocks, shape_of};

use super::Fill;
use super::columns::columns_of;
use super::writes::{put_load, put_row, put_write};

// The block writes of a row: the first block, how many they are, what the first and the last of them cover, and the mask.
#[derive(Clone, Copy)]
struct BlockRow {
    block: u32,
    n: u32,
    first: u16,
    last: u16,
    mask: u16,
}

fn place_of(row: u32, column: u32) -> u32
    requires { (row < 512) × (column ≤ 512) }
    ensures { (result ≡ place_of row column) × (result ≤ 33554432) }
{
    65536 * row + column
}

// A word write for each word.
pub(crate) fn put_words(list: &mut [u8], fill: Fill)
    requires { (shape_of fill ≡ Words (W fill)) × (length (list_of fill) ≤ length list.old) }
    ensures { list.new ≡ sets list.old 0 (list_of fill) }
{
    let width = fill.end_column - fill.first_column;
    let step = 13 * (width as usize);
    let mut o: usize = 0;
    for row in fill.first_row..fill.end_row {
        put_row(
            list,
            o,
            1,
            place_of(row, fill.first_column),
            1,
            width,
            fill.colour,
            fill.mask,
        );
        o += step;
    }
}

// A row of block writes. The first and the last block may be covered in part.
fn put_block_row(list: &mut [u8], at: usize, row: u32, blocks: BlockRow)
    requires { (at + 13 * blocks.n ≤ length list.old) × (row < 512) × (blocks.block + blocks.n ≤ 128) × (1 ≤ blocks.n) }
    ensures { list.new ≡ sets list.old at (block_row blocks.block blocks.first blocks.last blocks.mask blocks.n row) }
{
    let place = place_of(row, 4 * blocks.block);
    put_write(list, at, 2, place, blocks.first, blocks.mask);
    if blocks.n == 1 {
        return;
    }
    let inner = blocks.n - 2;
    put_row(list, at + 13, 2, place + 4, 4, inner, 0xFFFF, blocks.mask);
    let end = blocks.n - 1;
    put_write(
        list,
        at + 13 * (end as usize),
        2,
        place + 4 * end,
        blocks.last,
        blocks.mask,
    );
}

// Rows of block writes, after the colour load.
fn put_block_rows(list: &mut [u8], first_row: u32, end_row: u32, blocks: BlockRow)
    requires { (6 + (end_row - first_row) * (13 * blocks.n) ≤ length list.old) × (first_row ≤ end_row) × (end_row ≤ 512) × (blocks.block + blocks.n ≤ 128) × (1 ≤ blocks.n) }
    ensures { list.new ≡ sets list.old 6 (block_rows blocks.block blocks.first blocks.last blocks.mask blocks.n first_row (end_row - first_row)) }
{
    let step = 13 * (blocks.n as usize);
    let mut o: usize = 6;
    for row in first_row..end_row {
        put_block_row(list, o, row, blocks);
        o += step;
    }
}

// A colour load, and a block write for each block. What the first and the last block of a row cover is worked out once.
pub(crate) fn put_blocks(list: &mut [u8], fill: Fill)
    requires { (shape_of fill ≡ Blocks (B fill)) × (length (list_of fill) ≤ length list.old) }
    ensures { list.new ≡ sets list.old 0 (list_of fill) }
{
    let block = fill.first_column / 4;
    let n = fill.across();
    let blocks = BlockRow {
        block,
        n,
        first: columns_of(fill.first_column, fill.end_column, block),
        last: columns_of(fill.first_column, fill.end_column, block + (n - 1)),
        mask: fill.mask,
    };
    put_load(list, fill.colour);
    put_block_rows(list, fill.first_row, fill.end_row, blocks);
}

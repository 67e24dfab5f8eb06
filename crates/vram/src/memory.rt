// Writes to the memory, and copies from it to the serial register.
ghost use Rattle.std.specs.Prelude.{◌≡◌, ◌+◌, ◌*◌, ◌<◌, ◌≤◌, ◌&&◌, length};
ghost use Rattle.words.specs.Bit.{bit};
ghost use Rattle.words.specs.Word.{lets};
ghost use Rattle.vram.specs.Memory.{put, puts, copied};

// Row and column as a place in the memory.
pub(crate) fn place(row: u32, column: u32) -> usize
    requires { (row < 65536) × (column < 65536) }
    ensures { result ≡ 512 * row + column }
{
    512 * (row as usize) + column as usize
}

// A word takes new's bits where allow has one.
pub(crate) fn write_word(memory: &mut [u16], at: usize, new: u16, allow: u16)
    requires { at < length memory.old }
    ensures { memory.new ≡ put memory.old at new (bit allow) }
{
    let old = memory[at];
    memory[at] = words::merge(old, new, allow);
}

// Column j of the block.
fn write_column(memory: &mut [u16], at: usize, colour: u16, columns: u16, j: u16, allow: u16)
    requires { (at < length memory.old) × (j < 4) }
    ensures { memory.new ≡ put memory.old at colour (λ b. lets columns j b && bit allow b) }
{
    write_word(memory, at, colour, words::column_allow(columns, j) & allow);
}

// The four words of a block.
pub(crate) fn write_block(memory: &mut [u16], base: usize, colour: u16, columns: u16, allow: u16)
    requires { base + 4 ≤ length memory.old }
    ensures { memory.new ≡ puts memory.old base colour (λ j b. lets columns j b && bit allow b) 4 }
{
    write_column(memory, base + 0, colour, columns, 0, allow);
    write_column(memory, base + 1, colour, columns, 1, allow);
    write_column(memory, base + 2, colour, columns, 2, allow);
    write_column(memory, base + 3, colour, columns, 3, allow);
}

// n words of memory from `from` on go to the serial register from `to` on.
pub(crate) fn copy(memory: &[u16], from: usize, serial: &mut [u16], to: usize, n: usize)
    requires { (from + n ≤ length memory.now) × (to + n ≤ length serial.old) }
    ensures { serial.new ≡ copied memory.now from serial.old to n }
{
    // Word by word: by `copy_from_slice` C's archives would need `memmove` from outside.
    for i in 0..n {
        serial[to + i] = memory[from + i];
    }
}

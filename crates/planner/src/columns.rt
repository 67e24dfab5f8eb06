// The column mask of a block: its four column bits in all four quads.
ghost use Rattle.std.specs.Prelude.{◌≡◌, ◌+◌, ◌*◌, ◌%◌, ◌≤◌, ◌<◌};
ghost use Rattle.words.specs.Bit.{bit, digit, of_bits};
ghost use Rattle.numbers.specs.Between.{between};
ghost use Rattle.planner.specs.Bytes.{columns_in};

// 1 where a column lies from the first up to the end.
fn covered(first_column: u32, end_column: u32, column: u32) -> u16
    ensures { (result ≡ digit (between first_column end_column column)) × (result ≤ 1) }
{
    u16::from((first_column <= column) & (column < end_column))
}

// Four column bits in all four quads: in the top one, in the upper two, in all. The last step, a byte down, keeps the compiler from a product.
fn all_quads(columns: u16) -> u16
    requires { columns < 16 }
    ensures { result ≡ of_bits 16 (λ b. bit columns (b % 4)) }
{
    let top = columns << 12;
    let upper = top | (top >> 4);
    upper | (upper >> 8)
}

pub(crate) fn columns_of(first_column: u32, end_column: u32, block: u32) -> u16
    requires { block < 128 }
    ensures { result ≡ columns_in first_column end_column block }
{
    let column = 4 * block;
    let a = covered(first_column, end_column, column);
    let b = covered(first_column, end_column, column + 1);
    let c = covered(first_column, end_column, column + 2);
    let d = covered(first_column, end_column, column + 3);
    all_quads(a + 2 * b + 4 * c + 8 * d)
}

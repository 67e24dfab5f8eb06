// Prints one block write worked through bit by bit: the figures of docs/PENCIL.md (change request M-105). Which bits are set, covered, let
// through, left and written, and which mask is in force, is asked of the plain engine's own functions; the numbers of quads and of the column
// mask's bits stand beside them for the reader. Then a list that has the block write runs on both engines.
#![tactic(auto)]

use list::Refused;
use numbers::number;
use pencil::bits::{has, let_through, strobed};
use pencil::block::bits_left;
use pencil::word::{in_force, write_bits};
use std::{fmt, io};
use vram::Vram;

// The block write: masked, with a mask of 0 given, which is idle while the mask register is persistent.
const ROW: usize = 3;

const COLUMN: usize = 6;

const COLUMNS: u16 = 0xFF96;

const STROBES: u8 = 1;

const MASKING: u8 = 1;

const GIVEN: u16 = 0;

const COLOUR: u16 = 0xE35D;

const MASK: u16 = 0xFFF7;

// The block's first word, and its four words before.
const BASE: usize = 512 * ROW + 4 * (COLUMN / 4);

const BEFORE: [u16; 4] = [0x8142, 0x8100, 0x81FF, 0x8037];

// A row of the working.
#[derive(Clone, Copy, Debug, PartialEq, Eq)]
enum Row {
    Bit,
    Quad,
    ColumnBit,
    LetThrough,
    InForce,
    Left,
    Strobe,
    Colour,
    Before,
    After,
}

// From the top of the working to its foot.
const ROWS: [Row; 10] = [
    Row::Bit,
    Row::Quad,
    Row::ColumnBit,
    Row::LetThrough,
    Row::InForce,
    Row::Left,
    Row::Strobe,
    Row::Colour,
    Row::Before,
    Row::After,
];

impl fmt::Display for Row {
    fn fmt<W: fmt::Write>(&self, f: &mut fmt::Formatter<W>) -> fmt::Result {
        f.pad(match self {
            Row::Bit => "bit",
            Row::Quad => "its quad",
            Row::ColumnBit => "column mask's bit",
            Row::LetThrough => "  is set",
            Row::InForce => "mask in force",
            Row::Left => "left",
            Row::Strobe => "strobe covers",
            Row::Colour => "colour",
            Row::Before => "before",
            Row::After => "after",
        })
    }
}

// One column of the block: its number, the mask in force, the bits that the column has left, its word before and after.
#[derive(Clone, Copy, Debug, PartialEq, Eq)]
struct Column {
    j: u16,
    force: u16,
    left: u16,
    before: u16,
    after: u16,
}

impl Column {
    fn of(j: u16, before: u16) -> Column {
        let force = in_force(MASKING, true, MASK, GIVEN);
        let left = bits_left(COLUMNS, j, force);
        let after = write_bits(before, COLOUR, left, STROBES);
        Column {
            j,
            force,
            left,
            before,
            after,
        }
    }

    // What a row has for bit b.
    fn entry(self, row: Row, b: u16) -> u16 {
        match row {
            Row::Bit => b,
            Row::Quad => b / 4,
            Row::ColumnBit => 4 * (b / 4) + self.j % 4,
            Row::LetThrough => let_through(COLUMNS, self.j, b) as u16,
            Row::InForce => has(self.force, b) as u16,
            Row::Left => has(self.left, b) as u16,
            Row::Strobe => strobed(STROBES, b) as u16,
            Row::Colour => has(COLOUR, b) as u16,
            Row::Before => has(self.before, b) as u16,
            Row::After => has(self.after, b) as u16,
        }
    }
}

// The working of one column: in each row sixteen places, bit 15 first.
fn say_column(rt: &impl Print, column: Column) -> io::Result<()> {
    println!(rt; "\ncolumn {} of the block", column.j)?;
    for row in ROWS {
        print!(rt; "{row:18}")?;
        for b in (0..16).rev() {
            print!(rt; "{:3}", column.entry(row, b))?;
        }
        println!(rt)?;
    }
    println!(rt; "{:04X} becomes {:04X}", column.before, column.after)
}

fn say_list(rt: &impl Print, list: &[u8]) -> io::Result<()> {
    print!(rt; "list")?;
    for byte in list {
        print!(rt; " {byte:02X}")?;
    }
    println!(rt)
}

// The number that an engine answers, and the block's words afterwards.
fn say_ran(
    rt: &impl Print,
    engine: &str,
    ran: Result<Vram, Refused>,
    words: &[u16],
) -> io::Result<()> {
    let number = number(ran.map_err(|refused| refused.refusal));
    print!(rt; "{engine} engine: number {number}, the four words")?;
    for word in words {
        print!(rt; " {word:04X}")?;
    }
    println!(rt)
}

// Four rows of zeros with the block's words.
fn fitted() -> [u16; 2048] {
    let mut memory = [0u16; 2048];
    memory[BASE..BASE + 4].copy_from_slice(&BEFORE);
    memory
}

fn main(rt: HostRuntime) -> io::Result<()> {
    // A colour load, a mask load, the block write, a reset refresh.
    let list =
        *b"\x03\0\x03\xE3\x5D\x03\x04\0\x03\xFF\xF7\x03\x02\0\x0A\0\x03\0\x06\xFF\x96\x01\0\0\x01\x05\0\0";
    say_list(&rt, &list)?;
    println!(rt; "first word {BASE}")?;
    for (j, before) in (0..4).zip(BEFORE) {
        say_column(&rt, Column::of(j, before))?;
    }
    println!(rt)?;
    let mut serial = [0u16; 256];
    let mut memory = fitted();
    let ran = pencil::run(Vram::fresh(), &mut memory, &mut serial, &list);
    say_ran(&rt, "plain", ran, &memory[BASE..BASE + 4])?;
    let mut memory = fitted();
    let ran = list::run(Vram::fresh(), &mut memory, &mut serial, &list);
    say_ran(&rt, "fast", ran, &memory[BASE..BASE + 4])
}

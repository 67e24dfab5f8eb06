// The planner of fills: document 01, "Lists and fills". A fill is answered with the shortest list that paints it.
// The panel's host program is in C and calls `linkshoar_fill`.
// It checks first and writes after, straight into the lent buffer.
#![tactic(auto)]

ghost use Rattle.std.specs.Prelude.{◌≡◌, ◌+◌, ◌-◌, ◌*◌, ◌/◌, ◌≤◌};
ghost use Rattle.std.specs.Prelude.Result.{Ok};
ghost use Rattle.numbers.specs.Refusal.{given_back};
ghost use Rattle.planner.specs.Fill.{fill};
ghost use Rattle.planner.specs.Calls.{filled_by, outcome, asked_refusal, measure_call, fill_call};
ghost use Rattle.planner.specs.Shapes.{made, shaped_by, shape_of, shape_size, shape_answer};
ghost use Rattle.planner.specs.Paint.{list_in, Demanded};

mod columns;
mod rows;
mod writes;

use numbers::{Refusal, refuse};
use rows::{put_blocks, put_words};

// How many bytes a list has, and how many cycles.
#[derive(Clone, Copy, Debug, PartialEq, Eq)]
pub struct Counts {
    pub bytes: u32,
    pub cycles: u32,
}

// What C gets of a fill: the number given back, and the counts: zeros where it is a refusal's.
#[repr(C)]
#[derive(Clone, Copy, Debug, PartialEq, Eq)]
pub struct Filled {
    pub number: u32,
    pub bytes: u32,
    pub cycles: u32,
}

impl From<Result<Counts, Refusal>> for Filled {
    ghost from_gives = { λ answer filled. filled ≡ filled_by answer };

    fn from(answer: Result<Counts, Refusal>) -> Filled {
        match answer {
            Ok(Counts { bytes, cycles }) => Filled {
                number: 0,
                bytes,
                cycles,
            },
            Err(refusal) => Filled {
                number: u32::from(refusal),
                bytes: 0,
                cycles: 0,
            },
        }
    }
}

// A fill: a rectangle of the rows fitted, its ends not included, painted with a colour through a bit mask.
// Persistent: 0 no, any other number yes.
#[derive(Clone, Copy, Debug, PartialEq, Eq)]
pub struct Fill {
    pub rows: u32,
    pub first_row: u32,
    pub end_row: u32,
    pub first_column: u32,
    pub end_column: u32,
    pub mask: u16,
    pub colour: u16,
    pub persistent: u32,
}

// What a fill comes to: nothing to paint; so many word writes; or a colour load and so many block writes.
#[derive(Clone, Copy, Debug, PartialEq, Eq)]
pub(crate) enum Shape {
    Nothing,
    Words(u32),
    Blocks(u32),
}

impl Shape {
    // The counts of its list.
    #[tactic(auto, unfolding(crate::specs::Shapes::shape_answer))]
    fn counts(self) -> Counts
        requires { shape_size (made self) ≤ 262144 }
        ensures { filled_by (Ok result) ≡ shape_answer (made self) }
    {
        match self {
            Shape::Nothing => Counts {
                bytes: 0,
                cycles: 0,
            },
            Shape::Words(words) => Counts {
                bytes: 13 * words,
                cycles: words,
            },
            Shape::Blocks(blocks) => Counts {
                bytes: 6 + 13 * blocks,
                cycles: 1 + blocks,
            },
        }
    }
}

// A product of two numbers of rows and columns.
fn area(height: u32, width: u32) -> u32
    requires { (height ≤ 512) × (width ≤ 512) }
    ensures { (result ≡ height * width) × (result ≤ 262144) }
{
    height * width
}

impl Fill {
    // How many blocks of a row are touched, where the rectangle has columns.
    fn across(self) -> u32
        requires { (self.first_column ≤ self.end_column) × (self.end_column ≤ 512) }
        ensures { (result ≡ (self.end_column + 3) / 4 - self.first_column / 4) × (result ≤ 512) }
    {
        (self.end_column + 3) / 4 - self.first_column / 4
    }

    // What refuses a fill, but for its buffer: 2, 12 and 13. Mask and colour are never refused.
    #[tactic(auto, unfolding(crate::specs::Calls::asked_refusal))]
    fn refusal(self) -> Result<(), Refusal>
        ensures { given_back result ≡ asked_refusal self }
    {
        refuse((1 <= self.rows) & (self.rows <= 512), Refusal::MemoryLength)?;
        refuse(
            (self.first_row <= self.end_row)
                & (self.first_column <= self.end_column)
                & (self.end_column <= 512)
                & (self.end_row <= self.rows),
            Refusal::RectangleOutside,
        )?;
        refuse(self.persistent == 0, Refusal::FillPersistent)
    }

    // What a fill's list is made of, where it is not refused with 2, 12 or 13.
    fn shape(self) -> Result<Shape, Refusal>
        ensures { shaped_by result ≡ shape_of self }
    {
        self.refusal()?;
        let height = self.end_row - self.first_row;
        let width = self.end_column - self.first_column;
        if (self.mask == 0) | (height == 0) | (width == 0) {
            return Ok(Shape::Nothing);
        }
        let words = area(height, width);
        let blocks = area(height, self.across());
        if words <= 1 + blocks {
            Ok(Shape::Words(words))
        } else {
            Ok(Shape::Blocks(blocks))
        }
    }

    // What a fill answers where there is room enough: 2, 12, 13, or the bytes of its list and the cycles. Nothing is written.
    pub fn measure(self) -> Result<Counts, Refusal>
        ensures { filled_by result ≡ measure_call self }
    {
        Ok(self.shape()?.counts())
    }

    // A fill's list at the start of the buffer.
    pub fn put(self, list: &mut [u8]) -> Result<Counts, Refusal>
        ensures { outcome (filled_by result) list.new ≡ fill_call self list.old }
    {
        let shape = self.shape()?;
        let counts = shape.counts();
        // At once: tested with the others, a fill with nothing to paint took a quarter more instructions.
        if let Shape::Nothing = shape {
            return Ok(counts);
        }
        refuse((counts.bytes as usize) <= list.len(), Refusal::BufferShort)?;
        match shape {
            Shape::Nothing => {}
            // Before words: in this order a page, which has this in line, takes fewer instructions.
            Shape::Blocks(_) => put_blocks(list, self),
            Shape::Words(_) => put_words(list, self),
        }
        Ok(counts)
    }
}

// A fill's list at the start of the buffer, as C has it.
// Where it answers 0, the list is as demand 3 asks: it paints, no list that paints is shorter, and the counts are its own.
pub fn linkshoar_fill(
    rows: u32,
    first_row: u32,
    end_row: u32,
    first_column: u32,
    end_column: u32,
    mask: u16,
    colour: u16,
    persistent: u32,
    list: &mut [u8],
) -> Filled
    ensures outcome { outcome result list.new ≡ fill_call (fill rows first_row end_row first_column end_column mask colour persistent) list.old }
    ensures demand { result.number ≡ 0 → Demanded (fill rows first_row end_row first_column end_column mask colour persistent) result (list_in (outcome result list.new)) }
{
    let fill = Fill {
        rows,
        first_row,
        end_row,
        first_column,
        end_column,
        mask,
        colour,
        persistent,
    };
    Filled::from(fill.put(list))
}

// A page of fills at once: change request M-103. A list of rectangles is answered with the lists of their fills, joined.
// The panel's host program calls `linkshoar_page`, which checks and measures all first and writes after, straight into the lent buffer.
#![tactic(auto)]

ghost use Rattle.std.specs.Prelude.{◌≡◌};
ghost use Rattle.page.specs.Rectangles.{fill_of};
ghost use Rattle.page.specs.Calls.{paged_by, outcome, page_call};

mod checks;
mod lists;
mod rectangles;

use checks::check;
use list::Refused;
use lists::put_fills;
use numbers::{Refusal, refuse};
use planner::Fill;

// A rectangle with its bit mask and colour; the ends are not included.
#[derive(Clone, Copy, Debug, PartialEq, Eq)]
pub(crate) struct Rectangle {
    pub first_row: u16,
    pub end_row: u16,
    pub first_column: u16,
    pub end_column: u16,
    pub mask: u16,
    pub colour: u16,
}

impl Rectangle {
    // Its fill, for the rows fitted and a mask that is not persistent.
    pub fn fill(self, rows: u32) -> Fill
        ensures { result ≡ fill_of rows self }
    {
        Fill {
            rows,
            first_row: u32::from(self.first_row),
            end_row: u32::from(self.end_row),
            first_column: u32::from(self.first_column),
            end_column: u32::from(self.end_column),
            mask: self.mask,
            colour: self.colour,
            persistent: 0,
        }
    }
}

// How many bytes the joined list has, and how many cycles.
#[derive(Clone, Copy, Debug, PartialEq, Eq)]
pub struct Totals {
    pub bytes: u64,
    pub cycles: u64,
}

// What C gets of a page: the number given back, the offset of the field that it is about, and the totals: zeros where it is a refusal's.
#[repr(C)]
#[derive(Clone, Copy, Debug, PartialEq, Eq)]
pub struct Paged {
    pub number: u32,
    pub place: u64,
    pub bytes: u64,
    pub cycles: u64,
}

impl From<Result<Totals, Refused>> for Paged {
    ghost from_gives = { λ answer paged. paged ≡ paged_by answer };

    fn from(answer: Result<Totals, Refused>) -> Paged {
        match answer {
            Ok(Totals { bytes, cycles }) => Paged {
                number: 0,
                place: 0,
                bytes,
                cycles,
            },
            Err(Refused { refusal, place }) => Paged {
                number: u32::from(refusal),
                place,
                bytes: 0,
                cycles: 0,
            },
        }
    }
}

// The joined lists of a page's fills, at the start of the buffer.
fn put(rows: u32, persistent: u32, rectangles: &[u8], list: &mut [u8]) -> Result<Totals, Refused>
    ensures { outcome (paged_by result) list.new ≡ page_call rows persistent rectangles.now list.old }
{
    refuse((1 <= rows) & (rows <= 512), Refusal::MemoryLength)?;
    check(rows, persistent, rectangles, list.len())?;
    put_fills(rows, rectangles, list)
}

// The same, as C has it. Persistent: 0 no, any other number yes.
pub fn linkshoar_page(rows: u32, persistent: u32, rectangles: &[u8], list: &mut [u8]) -> Paged
    ensures { outcome result list.new ≡ page_call rows persistent rectangles.now list.old }
{
    Paged::from(put(rows, persistent, rectangles, list))
}

// Lists of cycles: document 01, "Lists and fills". A list is fields of one-byte tag, two-byte length, body, numbers high byte first.
// It is checked whole, then run in order over the cycles of `vram`, which this crate knows only by their contracts.
#![tactic(auto)]

ghost use Rattle.std.specs.Prelude.{◌≡◌};
ghost use Rattle.vram.specs.Board.{board};
ghost use Rattle.std.specs.Prelude.Option.{None};
ghost use Rattle.list.specs.Tags.{word};
ghost use Rattle.list.specs.Splits.{sized};
ghost use Rattle.list.specs.Fields.{fields};
ghost use Rattle.list.specs.Heads.{head_of};
ghost use Rattle.list.specs.Meaning.{bad_of, judged, ran_by, outcome, run_call};

mod checks;
pub mod fields;
pub mod left;
mod runs;

use checks::judge_at;
use fields::{body_length, waits, whole, word_at};
use left::{left_behind, opens};
use numbers::Refusal;
use runs::{cycle_of, run_fields};
use vram::{Cycle, Vram};

// Why a list is refused, and the offset of the field that it is about; 0 where it is about none.
#[derive(Clone, Copy, Debug, PartialEq, Eq)]
pub struct Refused {
    pub refusal: Refusal,
    pub place: u64,
}

// A refusal that is about no field.
impl From<Refusal> for Refused {
    ghost from_gives = { λ refusal refused. refused ≡ record { refusal = refusal; place = 0 } };

    fn from(refusal: Refusal) -> Refused {
        Refused { refusal, place: 0 }
    }
}

// The field at the head of some bytes: one that more bytes may yet make, one that none can, or a cycle and how many bytes it takes.
#[derive(Clone, Copy, Debug, PartialEq, Eq)]
pub enum Head {
    Waits,
    Wrong,
    Whole { cycle: Cycle, size: usize },
}

// The number of two bytes at a place, high byte first. A byte past the end is read as 0.
pub fn number_at(bytes: &[u8], at: usize) -> u16
    ensures { result ≡ word bytes.now at }
{
    if bytes.len() <= at {
        return 0;
    }
    if bytes.len() - at == 1 {
        return u16::from(bytes[at]) * 256;
    }
    word_at(bytes, at)
}

// Whether the field at the head of some bytes says this length, and is not cut short. It may be of a kind that only a room above knows.
pub fn sized(field: &[u8], length: u16) -> bool
    ensures { result ≡ sized field.now length }
{
    if field.len() < 3 + (length as usize) {
        return false;
    }
    word_at(field, 1) == length
}

// The field at the head of some bytes.
pub fn head_of(bytes: &[u8]) -> Head
    ensures { result ≡ head_of bytes.now }
{
    if waits(bytes) {
        return Head::Waits;
    }
    if whole(bytes) {
        let tag = bytes[0];
        let size = 3 + body_length(tag);
        let cycle = cycle_of(tag, &bytes[3..size]);
        return Head::Whole { cycle, size };
    }
    Head::Wrong
}

// What refuses a list, for the rows fitted and whether a full transfer has been made: the first refused field, and then a mask load that is
// left open. A full transfer made by a field counts for those after it.
pub fn check(list: &[u8], rows: usize, loaded: bool) -> Result<(), Refused>
    ensures { bad_of result ≡ judged rows loaded None 0 (fields list.now) }
{
    // A field's size comes from its bytes: so each turn takes what is left, and there is no index to count.
    let mut rest = list;
    let mut made = loaded;
    let mut left = None;
    let bad = loop {
        if rest.is_empty() {
            break Ok(());
        }
        let place = (list.len() - rest.len()) as u64;
        // Document 01 names this form: the loop yields the first refused field's number and offset by `break`.
        if let Err(refused) = judge_at(rest, rows, made, place) {
            break Err(refused);
        }
        let tag = rest[0];
        // Writes and colour loads, of which fills are made, leave both as they are.
        if 3 < tag {
            made |= tag == 6;
            left = opens(tag, place, left);
        }
        rest = &rest[3 + body_length(tag)..];
    };
    bad.and(left_behind(left))
}

// A list is checked whole, then run in order. A refusal changes nothing.
pub fn run(
    state: Vram,
    memory: &mut [u16],
    serial: &mut [u16],
    list: &[u8],
) -> Result<Vram, Refused>
    ensures { outcome (ran_by state result) memory.new serial.new ≡ run_call list.now (board state memory.old serial.old) }
{
    state.given(memory.len(), serial.len())?;
    check(list, memory.len() / 512, state.loaded)?;
    Ok(run_fields(state, memory, serial, list))
}

// The rule of a line: every line that pieces make meets it, and another is refused with 1 before anything else.
ghost use Rattle.std.specs.Prelude.{◌≡◌, ◌&&◌, ◌||◌, eqb, length, take, drop, is_some, IfSome};
ghost use Rattle.numbers.specs.Refusal.{number_of};
ghost use Rattle.refusals.specs.Refusal.{refusing};
ghost use Rattle.pieces.specs.Line.{line};
ghost use Rattle.pieces.specs.Pieces.{all_zero, before, is_none, going, stopped, sound};

use crate::{LIMIT, Pieces};
use list::fields::waits;
use numbers::Refusal;

// Whether the bytes from n on are zeros.
fn zeros_from(held: &[u8; 13], n: usize) -> bool
    ensures { (result ≡ all_zero (drop n held.now)) × (length held.now ≡ 13) }
{
    // By an index and its step, which an edit tries: of an iterator with one step more nothing but the shape was refused.
    let s: &[u8] = held;
    let mut i = n;
    while i < s.len() {
        if s[i] != 0 {
            return false;
        }
        i += 1;
    }
    true
}

// The open mask load stands before the unfinished field.
fn before(left: Option<u64>, start: u32) -> bool
    ensures { result ≡ before left start }
{
    left.is_none_or(|place| place < u64::from(start))
}

// The refusal of a number that a field can get.
pub(crate) fn field_refusal(number: u32) -> Option<Refusal>
    ensures { (is_some result ≡ (eqb number 4 || refusing number)) × IfSome result (λ refusal. number_of refusal ≡ number) }
{
    match number {
        4 => Some(Refusal::FieldUnreadable),
        5 => Some(Refusal::RowNotFitted),
        6 => Some(Refusal::ColumnOver),
        7 => Some(Refusal::StrobesOther),
        8 => Some(Refusal::MaskingOther),
        9 => Some(Refusal::HalfOrTapOver),
        10 => Some(Refusal::NotLoaded),
        19 => Some(Refusal::PartitionOther),
        _ => None,
    }
}

// No field is refused: the first n bytes are such that more may make a field of them, and lie within the limit.
fn going(held: &[u8; 13], n: usize, start: u32, left: Option<u64>) -> bool
    ensures { result ≡ going (line (take n held.now) start 0 left) }
{
    if 12 < n {
        return false;
    }
    let fits = (n as u32) <= LIMIT - start;
    let earlier = before(left, start);
    waits(&held[..n]) & fits & earlier
}

// One is: with a number that a field can get; nothing is held, and no mask load is open.
fn stopped(number: u32, n: usize, left: Option<u64>) -> bool
    ensures { result ≡ (((eqb number 4 || refusing number) && eqb n 0) && is_none left) }
{
    field_refusal(number).is_some() & (n == 0) & left.is_none()
}

// Whether a line meets the rule.
pub(crate) fn sound(p: Pieces) -> bool
    ensures { (result ≡ sound p) × (length p.held ≡ 13) }
{
    let n = p.count as usize;
    if !zeros_from(&p.held, n) {
        return false;
    }
    if p.number == 0 {
        return going(&p.held, n, p.start, p.left);
    }
    stopped(p.number, n, p.left)
}

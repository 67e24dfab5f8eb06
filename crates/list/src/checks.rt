// What refuses a field: its bytes are read and `refusals` is asked.
ghost use Rattle.std.specs.Prelude.{◌≡◌, ◌+◌, ◌<◌, length};
ghost use Rattle.numbers.specs.Refusal.{given_back};
ghost use Rattle.refusals.specs.Refusal.{write_refusal, load_refusal, full_refusal, split_refusal, stop_refusal};
ghost use Rattle.vram.specs.Refusal.{refusal};
ghost use Rattle.list.specs.Tags.{byte, word, len_of, cycle_of};
ghost use Rattle.list.specs.Fields.{field_of};
ghost use Rattle.list.specs.Meaning.{number_of, bad_of, bad_at};

use crate::Refused;
use crate::fields::{body_length, whole, word_at};
use numbers::Refusal;
use refusals::{full_refusal, load_refusal, split_refusal, stop_refusal, write_refusal};

// What refuses each kind's body.
fn judge_write(body: &[u8], rows: usize) -> Result<(), Refusal>
    requires { length body.now ≡ 10 }
    ensures { given_back result ≡ write_refusal rows (word body.now 0) (word body.now 2) (byte body.now 6) (word body.now 7) (byte body.now 9) }
{
    write_refusal(
        rows,
        word_at(body, 0),
        word_at(body, 2),
        body[6],
        word_at(body, 7),
        body[9],
    )
}

fn judge_load(body: &[u8]) -> Result<(), Refusal>
    requires { length body.now ≡ 3 }
    ensures { given_back result ≡ load_refusal (byte body.now 2) }
{
    load_refusal(body[2])
}

fn judge_full(body: &[u8], rows: usize) -> Result<(), Refusal>
    requires { length body.now ≡ 4 }
    ensures { given_back result ≡ full_refusal rows (word body.now 0) (byte body.now 2) }
{
    full_refusal(rows, word_at(body, 0), body[2])
}

fn judge_split(body: &[u8], rows: usize, loaded: bool) -> Result<(), Refusal>
    requires { length body.now ≡ 4 }
    ensures { given_back result ≡ split_refusal rows loaded (word body.now 0) (byte body.now 2) (byte body.now 3) }
{
    split_refusal(rows, loaded, word_at(body, 0), body[2], body[3])
}

fn judge_stop(body: &[u8]) -> Result<(), Refusal>
    requires { length body.now ≡ 1 }
    ensures { given_back result ≡ stop_refusal (byte body.now 0) }
{
    stop_refusal(body[0])
}

// 5 to 10, and 19: what refuses the cycle that a body says.
fn judge_body(tag: u8, body: &[u8], rows: usize, loaded: bool) -> Result<(), Refusal>
    requires { length body.now ≡ len_of tag }
    ensures { given_back result ≡ refusal rows loaded (cycle_of tag body.now) }
{
    // Writes first, since fills are made of them: in the match the compiler would try other tags before.
    if (1 <= tag) & (tag <= 2) {
        return judge_write(body, rows);
    }
    match tag {
        3 | 4 => judge_load(body),
        6 => judge_full(body, rows),
        7 => judge_split(body, rows, loaded),
        9 => judge_stop(body),
        _ => Ok(()),
    }
}

// 4 to 10, and 19: what refuses the field at the head of some bytes.
fn judge(field: &[u8], rows: usize, loaded: bool) -> Result<(), Refusal>
    requires { 0 < length field.now }
    ensures { given_back result ≡ number_of rows loaded (field_of field.now) }
{
    if whole(field) {
        let tag = field[0];
        let end = 3 + body_length(tag);
        judge_body(tag, &field[3..end], rows, loaded)
    } else {
        Err(Refusal::FieldUnreadable)
    }
}

// The same, with the field's offset.
pub(crate) fn judge_at(field: &[u8], rows: usize, loaded: bool, place: u64) -> Result<(), Refused>
    requires { 0 < length field.now }
    ensures { bad_of result ≡ bad_at (number_of rows loaded (field_of field.now)) place }
{
    judge(field, rows, loaded).map_err(|refusal| Refused { refusal, place })
}

// What is answered of a line: the refusal that it keeps, and what the last call adds.
ghost use Rattle.std.specs.Prelude.{◌≡◌};
ghost use Rattle.list.specs.Meaning.{bad_of};
ghost use Rattle.pieces.specs.Line.{at_last, so_far};
ghost use Rattle.pieces.specs.Pieces.{unpack};
ghost use Rattle.pieces.specs.PackLaws.{Sound};

use crate::Pieces;
use crate::rule::field_refusal;
use list::Refused;
use list::left::left_behind;
use numbers::Refusal;

// A piece: the refusal that is kept.
pub(crate) fn so_far(p: Pieces) -> Result<(), Refused>
    requires { Sound p }
    ensures { bad_of result ≡ so_far (unpack p) }
{
    match field_refusal(p.number) {
        None => Ok(()),
        Some(refusal) => Err(Refused {
            refusal,
            place: p.start as u64,
        }),
    }
}

// The last call: the refusal that is kept, then 4 for an unfinished field, then 20 for a mask left behind.
pub(crate) fn at_last(p: Pieces) -> Result<(), Refused>
    requires { Sound p }
    ensures { bad_of result ≡ at_last (unpack p) }
{
    so_far(p)?;
    if p.count != 0 {
        return Err(Refused {
            refusal: Refusal::FieldUnreadable,
            place: p.start as u64,
        });
    }
    left_behind(p.left)
}

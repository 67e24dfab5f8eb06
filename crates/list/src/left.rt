// What a list leaves behind: change request M-111. A mask load is open until a reset refresh comes.
ghost use Rattle.std.specs.Prelude.{◌≡◌};
ghost use Rattle.list.specs.Open.{opens};
ghost use Rattle.list.specs.Meaning.{bad_of, left_behind};

use crate::Refused;
use numbers::Refusal;

// The open mask load after a field, by its tag: a mask load (4) is open from its offset on, a reset refresh (5) leaves none open.
#[tactic(auto, unfolding(crate::specs::Open::opens))]
pub fn opens(tag: u8, at: u64, left: Option<u64>) -> Option<u64>
    ensures { result ≡ opens tag at left }
{
    match tag {
        4 => Some(at),
        5 => None,
        _ => left,
    }
}

// 20 for an open mask load, at its offset.
#[tactic(auto, unfolding(crate::specs::Meaning::left_behind))]
pub fn left_behind(left: Option<u64>) -> Result<(), Refused>
    ensures { bad_of result ≡ left_behind left }
{
    match left {
        None => Ok(()),
        Some(place) => Err(Refused {
            refusal: Refusal::MaskLeftBehind,
            place,
        }),
    }
}

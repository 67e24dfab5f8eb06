// Where a list stands, there and back.
ghost use Rattle.std.specs.Prelude.{◌≡◌, ◌&&◌, true, false, cond, MatchResult};
ghost use Rattle.std.specs.Prelude.Result.{Ok, Err};
ghost use Rattle.numbers.specs.declared.Refusal.TheVariants.{StateExcluded};
ghost use Rattle.numbers.specs.Refusal.{number_of};
ghost use Rattle.registers.specs.State.{lawful, taken};
ghost use Rattle.pieces.specs.Calls.{taken_of};
ghost use Rattle.pieces_c.specs.Line.{line_lawful, taken_line, handed_line, handed_below_taken};

use crate::{Pieces, Taken};
use numbers::{Refusal, refuse};
use registers::{Registers, hand};
use vram::Vram;

// Whether a line can be so: open is 0 or 1, and there is no offset where no mask load is open.
#[tactic(auto, unfolding(crate::specs::Line::line_lawful))]
fn line_lawful(line: Pieces) -> bool
    ensures { result ≡ line_lawful line }
{
    (line.open <= 1) & ((line.open == 1) | (line.left == 0))
}

// As `pieces` has it. Whoever calls this has asked `line_lawful`.
#[tactic(auto, unfolding(crate::specs::Line::taken_line))]
fn take_line(line: Pieces) -> pieces::Pieces
    ensures { result ≡ taken_line line }
{
    pieces::Pieces {
        held: line.held,
        count: line.count,
        start: line.start,
        number: line.number,
        left: if line.open == 0 {
            None
        } else {
            Some(line.left)
        },
    }
}

// The line that C hands over, or 1 where none can be so.
impl TryFrom<Pieces> for pieces::Pieces {
    type Error = Refusal;

    ghost try_from_gives = { λ line answer. answer ≡ cond (line_lawful line) (Ok (taken_line line)) (Err StateExcluded) };

    fn try_from(line: Pieces) -> Result<pieces::Pieces, Refusal> {
        refuse(line_lawful(line), Refusal::StateExcluded)?;
        Ok(take_line(line))
    }
}

// State and line that C hands over, or 1 where none can be so.
pub(crate) fn take_both(state: Registers, line: Pieces) -> Result<(Vram, pieces::Pieces), Refusal>
    ensures { MatchResult result (λ both. ((lawful state && line_lawful line) ≡ true) × (both.0 ≡ taken state) × (both.1 ≡ taken_line line)) (λ refusal. ((lawful state && line_lawful line) ≡ false) × (refusal ≡ StateExcluded)) }
{
    Ok((Vram::try_from(state)?, pieces::Pieces::try_from(line)?))
}

// As C has it.
impl From<pieces::Pieces> for Pieces {
    ghost from_gives = { λ line handed. handed ≡ handed_line line };

    #[tactic(auto, unfolding(crate::specs::Line::handed_line))]
    fn from(line: pieces::Pieces) -> Pieces {
        let (open, left) = match line.left {
            None => (0, 0),
            Some(place) => (1, place),
        };
        // The borrow checker wants an array that goes from field to field by a variable.
        let held = line.held;
        Pieces {
            left,
            start: line.start,
            number: line.number,
            held,
            count: line.count,
            open,
        }
    }
}

// The answer of a piece and of the last call.
impl From<pieces::Taken> for Taken {
    ghost from_gives = { λ answer handed. handed ≡ handed_below_taken (taken_of answer) };

    fn from(taken: pieces::Taken) -> Taken {
        let (number, place) = match taken.answer {
            Ok(()) => (0, 0),
            Err(refused) => (u32::from(refused.refusal), refused.place),
        };
        Taken {
            state: hand(taken.state),
            pieces: Pieces::from(taken.pieces),
            number,
            place,
        }
    }
}

// The answer where no `Vram` or no line can be so: the refusal, and both as they came.
pub(crate) fn excluded(state: Registers, line: Pieces, refusal: Refusal) -> Taken
    ensures { result ≡ record { state = state; pieces = line; number = number_of refusal; place = 0 } }
{
    Taken {
        state,
        pieces: line,
        number: u32::from(refusal),
        place: 0,
    }
}

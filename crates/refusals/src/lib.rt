// What refuses a cycle of each kind, by its numbers alone: document 01, "Numbers given back", 2 and 5 to 10, and 19 of change request
// M-107. The lowest wins: the tests stand in the table's order, and the first that fails decides. A single cycle and a list, which is judged
// from its bytes, ask here, and the rule stands once.
#![tactic(auto)]

ghost use Rattle.std.specs.Prelude.{◌≡◌};
ghost use Rattle.numbers.specs.Refusal.{given_back};
ghost use Rattle.refusals.specs.Refusal.{fitted, placed, partition_ok, strobes_ok, write_refusal, load_refusal, full_refusal, split_refusal, stop_refusal};

use numbers::{Refusal, refuse};

// 512 words to a row, 1 to 512 rows.
pub fn fitted(words: usize) -> bool
    ensures { result ≡ fitted words }
{
    (512 <= words) & (words <= 262144) & (words % 512 == 0)
}

// Whether a partition can have this length: asked of a cycle, and of a state from C.
pub fn partition_ok(length: u8) -> bool
    ensures { result ≡ partition_ok length }
{
    (length == 16) | (length == 32) | (length == 64) | (length == 128)
}

// Low byte, high byte or both.
fn strobed(strobes: u32) -> bool
    ensures { result ≡ strobes_ok strobes }
{
    (1 <= strobes) & (strobes <= 3)
}

// 5 to 7, of a word read.
pub fn placed(rows: usize, row: u32, column: u32, strobes: u32) -> Result<(), Refusal>
    ensures { given_back result ≡ placed rows row column strobes 0 }
{
    refuse((row as usize) < rows, Refusal::RowNotFitted)?;
    refuse(column <= 511, Refusal::ColumnOver)?;
    refuse(strobed(strobes), Refusal::StrobesOther)
}

// 5 to 8, of a write.
#[tactic(auto, unfolding(crate::specs::Refusal::write_refusal))]
pub fn write_refusal(
    rows: usize,
    row: u16,
    column: u16,
    masking: u8,
    mask: u16,
    strobes: u8,
) -> Result<(), Refusal>
    ensures { given_back result ≡ write_refusal rows row column masking mask strobes }
{
    placed(rows, row as u32, column as u32, strobes as u32)?;
    // Fills are made of masked writes: one such works out no more.
    if masking == 1 {
        return Ok(());
    }
    refuse((masking == 0) & (mask == 0), Refusal::MaskingOther)
}

// 7, of a load.
#[tactic(auto, unfolding(crate::specs::Refusal::load_refusal))]
pub fn load_refusal(strobes: u8) -> Result<(), Refusal>
    ensures { given_back result ≡ load_refusal strobes }
{
    refuse(strobed(strobes as u32), Refusal::StrobesOther)
}

// 5 and 9, of a full transfer.
#[tactic(auto, unfolding(crate::specs::Refusal::full_refusal))]
pub fn full_refusal(rows: usize, row: u16, half: u8) -> Result<(), Refusal>
    ensures { given_back result ≡ full_refusal rows row half }
{
    refuse((row as usize) < rows, Refusal::RowNotFitted)?;
    refuse(half <= 1, Refusal::HalfOrTapOver)
}

// 5, 9 and 10, of a split transfer.
#[tactic(auto, unfolding(crate::specs::Refusal::split_refusal))]
pub fn split_refusal(rows: usize, loaded: bool, row: u16, half: u8, tap: u8) -> Result<(), Refusal>
    ensures { given_back result ≡ split_refusal rows loaded row half tap }
{
    refuse((row as usize) < rows, Refusal::RowNotFitted)?;
    refuse((half <= 1) & (tap <= 127), Refusal::HalfOrTapOver)?;
    refuse(loaded, Refusal::NotLoaded)
}

// 19, of stop points.
#[tactic(auto, unfolding(crate::specs::Refusal::stop_refusal))]
pub fn stop_refusal(length: u8) -> Result<(), Refusal>
    ensures { given_back result ≡ stop_refusal length }
{
    refuse(partition_ok(length), Refusal::PartitionOther)
}

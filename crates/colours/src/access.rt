// The table's words, and what refuses an access to them.
ghost use Rattle.std.specs.Prelude.{◌≡◌, true};
ghost use Rattle.numbers.specs.Refusal.{given_back};
ghost use Rattle.colours.specs.Calls.{table_refusal, read_by, read_call};

use numbers::{Refusal, refuse};

// What refuses an access: 3 for the table, 21 for address and data.
pub(crate) fn table_refusal(words: usize, within: bool) -> Result<(), Refusal>
    ensures { given_back result ≡ table_refusal words within true }
{
    refuse(words == 64, Refusal::RegisterLength)?;
    refuse(within, Refusal::AddressOrDataOver)
}

// The word at an address: thirteen bits are read.
#[tactic(auto, unfolding(crate::specs::Calls::read_refusal, crate::specs::Calls::read_call))]
pub(crate) fn word_at(table: &[u16], address: u32) -> Result<u16, Refusal>
    ensures { read_by result ≡ read_call table.now address }
{
    table_refusal(table.len(), address <= 63)?;
    Ok(table[address as usize] % 8192)
}

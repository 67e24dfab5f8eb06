// A write of 16 bits.
ghost use Rattle.std.specs.Prelude.{◌≡◌};
ghost use Rattle.colours.specs.Calls.{coloured_by, outcome, write_call};

use crate::Colours;
use crate::access::table_refusal;
use numbers::Refusal;

impl Colours {
    // The word is stored; a low part that waits is dropped.
    #[tactic(auto, unfolding(crate::specs::Calls::write_call, crate::specs::Calls::write_refusal))]
    pub fn write(self, table: &mut [u16], address: u32, value: u32) -> Result<Colours, Refusal>
        ensures { outcome (coloured_by self result) table.new ≡ write_call self table.old address value }
    {
        self.refusal()?;
        table_refusal(table.len(), (address <= 63) & (value <= 8191))?;
        table[address as usize] = value as u16;
        Ok(Colours {
            waiting: None,
            ..self
        })
    }
}

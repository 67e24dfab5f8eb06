// A word written in two parts, of eight and of five bits: the low part waits until the high one comes.
ghost use Rattle.std.specs.Prelude.{◌≡◌};
ghost use Rattle.colours.specs.Table.{joined};
ghost use Rattle.colours.specs.Calls.{coloured_by, outcome, write_low_call, write_high_call};

use crate::Colours;
use crate::access::table_refusal;
use numbers::Refusal;

// A word of its two parts; of the high one five bits count.
fn joined(low: u8, high: u8) -> u16
    ensures { result ≡ joined low high }
{
    low as u16 + 256 * (high as u16 % 32)
}

impl Colours {
    // The low part waits, in the place of one that waited.
    #[tactic(auto, unfolding(crate::specs::Calls::write_low_call, crate::specs::Calls::low_refusal))]
    pub fn write_low(self, low: u8) -> Result<Colours, Refusal>
        ensures { coloured_by self result ≡ write_low_call self low }
    {
        self.refusal()?;
        Ok(Colours {
            waiting: Some(low),
            ..self
        })
    }

    // The high part, with the low one that waits, is stored at the address given with it; nothing waits then.
    #[tactic(auto, unfolding(crate::specs::Calls::write_high_call, crate::specs::Calls::high_refusal))]
    pub fn write_high(self, table: &mut [u16], address: u32, high: u8) -> Result<Colours, Refusal>
        ensures { outcome (coloured_by self result) table.new ≡ write_high_call self table.old address high }
    {
        self.refusal()?;
        table_refusal(table.len(), address <= 63)?;
        let low = self.waiting.ok_or(Refusal::NoLowPart)?;
        table[address as usize] = joined(low, high);
        Ok(Colours {
            waiting: None,
            ..self
        })
    }
}

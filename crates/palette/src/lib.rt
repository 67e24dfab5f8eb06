// The Am81C176 palette. Source document 001, its pages on the MPU interface: the running text, Table 1 (the selects) and Table 2 (what each
// access does). On a colour read the running text and Table 2 differ, and the running text decides (change request M-102): at the end of
// blue the colour registers take the next entry, and A goes up by one.
// A call stands for a whole access. Not modelled: pin edges, nanoseconds and the clocks between two accesses, the pixel inputs and
// their delay, blank, the converters and their levels. One phase serves reads and writes, as the sheet's one counter does.
#![tactic(auto)]

ghost use Rattle.std.specs.Prelude.{◌≡◌};
ghost use Rattle.numbers.specs.Refusal.{given_back};
ghost use Rattle.palette.specs.State.{fresh};
ghost use Rattle.palette.specs.Calls.{access_refusal, outcome, accessed_by, write_call, read_call};

use numbers::{Refusal, refuse};

mod access;
pub mod lent;
mod state;

// The colour table where its length has been judged: 256 entries of three bytes.
pub type Table = [u8; 768];

// The registers, by value. Every field is public: a state that the rules exclude can be built, and is refused.
#[repr(C)]
#[derive(Clone, Copy, Debug, PartialEq, Eq)]
pub struct Palette {
    pub address: u8,
    pub phase: u8,
    pub red: u8,
    pub green: u8,
    pub blue: u8,
    pub mask: u8,
}

// What C gets of an access: the state after it, the byte answered (0 for a write), and the number given back.
#[repr(C)]
#[derive(Clone, Copy, Debug, PartialEq, Eq)]
pub struct Accessed {
    pub state: Palette,
    pub byte: u8,
    pub number: u32,
}

impl Palette {
    pub fn fresh() -> Palette
        ensures { result ≡ fresh }
    {
        Palette {
            address: 0,
            phase: 0,
            red: 0,
            green: 0,
            blue: 0,
            mask: 255,
        }
    }

    // What refuses an access of select 0 to `last`. The table's length is checked whether the select uses the table or not.
    fn access_refusal(self, last: u32, bytes: usize, select: u32) -> Result<(), Refusal>
        ensures { given_back result ≡ access_refusal last self bytes select }
    {
        refuse(self.ruled(), Refusal::StateExcluded)?;
        refuse(bytes == 768, Refusal::RegisterLength)?;
        refuse(select <= last, Refusal::SelectOther)
    }

    // A write, of select 0 to 3. A select stays a number, since any other is refused with 11: an enum would ask more of callers.
    // The byte is 0: document 01 names the state and a byte as what an access answers.
    pub fn write(self, table: &mut [u8], select: u32, value: u8) -> Result<(Palette, u8), Refusal>
        ensures { outcome (accessed_by self result) table.new ≡ write_call self table.old select value }
    {
        self.access_refusal(3, table.len(), select)?;
        let table: &mut Table = table.as_mut_array().unwrap();
        Ok((self.after_write(table, select, value), 0))
    }

    // A read, of select 0 to 2. The byte is the one from before the access.
    pub fn read(self, table: &[u8], select: u32) -> Result<(Palette, u8), Refusal>
        ensures { accessed_by self result ≡ read_call self table.now select }
    {
        self.access_refusal(2, table.len(), select)?;
        let table: &Table = table.as_array().unwrap();
        let state = self.after_read(table, select);
        let byte = self.byte_read(select);
        Ok((state, byte))
    }
}

impl Accessed {
    // Of an access that is refused, the state from before it and the byte 0.
    pub fn of(before: Palette, answer: Result<(Palette, u8), Refusal>) -> Accessed
        ensures { result ≡ accessed_by before answer }
    {
        match answer {
            Ok((state, byte)) => Accessed {
                state,
                byte,
                number: 0,
            },
            Err(refusal) => Accessed {
                state: before,
                byte: 0,
                number: u32::from(refusal),
            },
        }
    }
}

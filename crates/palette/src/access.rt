// What each access does, where nothing is refused.
ghost use Rattle.std.specs.Prelude.{◌≡◌};
ghost use Rattle.palette.specs.State.{advanced};
ghost use Rattle.palette.specs.Access.{addressed, taken, entered, coloured, coloured_table, after_write, table_after_write, colour_read, byte_read, after_read};

use crate::{Palette, Table};

impl Palette {
    // A = data, phase 0: an unfinished colour is dropped.
    fn addressed(self, value: u8) -> Palette
        ensures { result ≡ addressed self value }
    {
        Palette {
            address: value,
            phase: 0,
            ..self
        }
    }

    // The registers take entry A, the low six bits of each byte, and A goes up by one.
    fn taken(self, table: &Table) -> Palette
        ensures { result ≡ taken self table.now }
    {
        let at = 3 * (self.address as usize);
        let state = Palette {
            red: table[at] % 64,
            green: table[at + 1] % 64,
            blue: table[at + 2] % 64,
            ..self
        };
        state.advanced()
    }

    // All three registers go to entry A, and A goes up by one.
    fn entered(self, table: &mut Table) -> Palette
        ensures state { result ≡ advanced self }
        ensures entry { table.new ≡ entered table.old self }
    {
        let at = 3 * (self.address as usize);
        table[at] = self.red;
        table[at + 1] = self.green;
        table[at + 2] = self.blue;
        self.advanced()
    }

    // The register of the phase takes data mod 64, and the phase moves on; after blue all three go to entry A.
    fn coloured(self, table: &mut Table, value: u8) -> Palette
        ensures state { result ≡ coloured self value }
        ensures entry { table.new ≡ coloured_table self table.old value }
    {
        let state = self.with_register(value % 64).moved();
        if self.phase == 2 {
            state.entered(table)
        } else {
            state
        }
    }

    // A write, by its select.
    pub(crate) fn after_write(self, table: &mut Table, select: u32, value: u8) -> Palette
        ensures state { result ≡ after_write self table.old select value }
        ensures entry { table.new ≡ table_after_write self table.old select value }
    {
        match select {
            0 => self.addressed(value),
            1 => self.coloured(table, value),
            2 => Palette {
                mask: value,
                ..self
            },
            _ => self.addressed(value).taken(table),
        }
    }

    // What a colour read leaves: the phase moves on; after blue the registers take entry A.
    fn colour_read(self, table: &Table) -> Palette
        ensures { result ≡ colour_read self table.now }
    {
        let state = self.moved();
        if self.phase == 2 {
            state.taken(table)
        } else {
            state
        }
    }

    // The byte that a read answers, by its select.
    pub(crate) fn byte_read(self, select: u32) -> u8
        ensures { result ≡ byte_read self select }
    {
        match select {
            0 => self.address,
            1 => self.register(),
            _ => self.mask,
        }
    }

    // The state that a read leaves.
    pub(crate) fn after_read(self, table: &Table, select: u32) -> Palette
        ensures { result ≡ after_read self table.now select }
    {
        if select == 1 {
            self.colour_read(table)
        } else {
            self
        }
    }
}

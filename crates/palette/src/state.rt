// The rule of the states, the phase, and A.
ghost use Rattle.std.specs.Prelude.{◌≡◌};
ghost use Rattle.palette.specs.State.{ruled, register, with_register, advanced, moved};

use crate::Palette;

impl Palette {
    // Whether the rules allow the state: a phase 0 to 2, and three colour registers of six bits.
    pub fn ruled(self) -> bool
        ensures { result ≡ ruled self }
    {
        (self.phase <= 2) & (self.red <= 63) & (self.green <= 63) & (self.blue <= 63)
    }

    // The register of the phase: red, green, blue.
    pub(crate) fn register(self) -> u8
        ensures { result ≡ register self }
    {
        match self.phase {
            0 => self.red,
            1 => self.green,
            _ => self.blue,
        }
    }

    // The register of the phase takes a value.
    pub(crate) fn with_register(self, value: u8) -> Palette
        ensures { result ≡ with_register self value }
    {
        match self.phase {
            0 => Palette { red: value, ..self },
            1 => Palette {
                green: value,
                ..self
            },
            _ => Palette {
                blue: value,
                ..self
            },
        }
    }

    // A goes up by one, from 255 to 0.
    pub(crate) fn advanced(self) -> Palette
        ensures { result ≡ advanced self }
    {
        Palette {
            address: self.address.wrapping_add(1),
            ..self
        }
    }

    // The phase moves on, from blue to 0.
    pub(crate) fn moved(self) -> Palette
        ensures { result ≡ moved self }
    {
        let phase = if self.phase < 2 { self.phase + 1 } else { 0 };
        Palette { phase, ..self }
    }
}

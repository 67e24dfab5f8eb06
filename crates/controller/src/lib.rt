// The Am8150 display refresh controller: its video address counter and its refresh counter. Source documents 000 and 002, two copies of
// one sheet, the sections Register Set, Display Refresh, Scrolling and Panning, Graphics Processor Access, Dynamic RAM Refresh and Page
// Mode Operation; change request M-100 decides what they leave open.
// A call stands for a whole sync, fetch or setting. Not modelled: arbitration and the update cycles themselves, RAS and CAS, page timing,
// the character clock and the master clock, the RAMs that are refreshed. Interleaved update and page mode are held and judged, and
// change no address.
// Where the sheet is unclear: our copies have lost the figures of the registers, so each is set by its meaning and not by pin code; the
// two mode bits 5 and 4 are read as 0 to 3 refresh cycles; the Offset is 0 to 255 as in the request, where the sheet says even and at most
// 126; what is inhibited from vertical sync on is the Offset's addition, and only a change of video from off to on, or a reset by setting
// the Offset, ends that.
#![tactic(auto)]

ghost use Rattle.std.specs.Prelude.{◌≡◌};
ghost use Rattle.controller.specs.State.{fresh, update_of, number_of};

mod fetch;
mod settings;
mod state;
mod syncs;

// When the graphics processor has the display memory: in the retrace only, always, or between two words. Each by its number.
#[derive(Clone, Copy, Debug, PartialEq, Eq)]
pub enum Update {
    Retrace = 0,
    Override = 1,
    Interleaved = 2,
}

// The registers and counters, by value: `top` is Top of Frame, `refresh` the refresh counter, `cycles` the refresh cycles at each horizontal
// sync. Every field is public: a state that the rules exclude can be built, and is refused.
#[derive(Clone, Copy, Debug, PartialEq, Eq)]
pub struct Controller {
    pub top: u32,
    pub counter: u32,
    pub offset: u8,
    pub refresh: u8,
    pub cycles: u8,
    pub update: Update,
    pub page: bool,
    pub video: bool,
    pub inhibited: bool,
}

// The address of a word, as the RAMs have it.
#[derive(Clone, Copy, Debug, PartialEq, Eq)]
pub struct Address {
    pub bank: u8,
    pub row: u8,
    pub column: u8,
}

// The update mode of a number: 0 retrace only, 1 override, else interleaved. Whoever has a number over 2 refuses it before.
// It answers for every number, as `of_once` says, so it is no `TryFrom`.
impl From<u32> for Update {
    ghost from_gives = { λ number update. update ≡ update_of number };

    fn from(number: u32) -> Update {
        match number {
            0 => Update::Retrace,
            1 => Update::Override,
            _ => Update::Interleaved,
        }
    }
}

// The number of an update mode.
impl From<Update> for u8 {
    ghost from_gives = { λ update number. number ≡ number_of update };

    fn from(update: Update) -> u8 {
        update as u8
    }
}

impl Controller {
    pub fn fresh() -> Controller
        ensures { result ≡ fresh }
    {
        Controller {
            top: 0,
            counter: 0,
            offset: 0,
            refresh: 0,
            cycles: 0,
            update: Update::Retrace,
            page: false,
            video: false,
            inhibited: false,
        }
    }
}

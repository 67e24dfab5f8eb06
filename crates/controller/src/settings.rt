// Registers, set by their meaning. A setting moves no counter, but for the Offset's, which resets.
#![tactic(auto, unfolding(crate::specs::State::ruled, crate::specs::Calls::allows, crate::specs::Calls::against, crate::specs::Calls::refusal, crate::specs::Calls::effect))]

ghost use Rattle.std.specs.Prelude.{◌≡◌, ◌<◌, true};
ghost use Rattle.controller.specs.Address.{panned, reaches};
ghost use Rattle.controller.specs.Calls.{SetTopOfFrame, Pan, SetOffset, SetMode, mode_allowed, does, controlled_by};

use crate::{Controller, Update};
use numbers::Refusal;

// Whether a pan reaches so far: from -131,072 to 131,071 words.
fn reaches(words: i32) -> bool
    ensures { result ≡ reaches words }
{
    (-131072..=131071).contains(&words)
}

// Top of Frame and a signed number of words, wrapped at 18 bits.
fn panned(top: u32, words: i32) -> u32
    requires { (top < 262144) × (reaches words ≡ true) }
    ensures { result ≡ panned top words }
{
    (top as i32 + words).rem_euclid(262144) as u32
}

// Whether the Mode register takes these: cycles 0 to 3, an update mode 0 to 2, page mode not together with interleaved update.
fn mode_allowed(cycles: u32, page: u32, update: u32) -> bool
    ensures { result ≡ mode_allowed cycles page update }
{
    cycles <= 3 && update <= 2 && (page == 0 || update != 2)
}

impl Controller {
    // Top of Frame, the address of the first word shown, from the next vertical sync on.
    pub fn set_top_of_frame(self, address: u32) -> Result<Controller, Refusal>
        ensures { controlled_by self result ≡ does (SetTopOfFrame address) self }
    {
        self.refusal(address < 262144, Refusal::SettingOther)?;
        Ok(Controller {
            top: address,
            ..self
        })
    }

    // Top of Frame moved by a signed number of words, wrapped at 18 bits.
    pub fn pan(self, words: i32) -> Result<Controller, Refusal>
        ensures { controlled_by self result ≡ does (Pan words) self }
    {
        self.refusal(reaches(words), Refusal::SettingOther)?;
        Ok(Controller {
            top: panned(self.top, words),
            ..self
        })
    }

    // The Offset, added at each horizontal sync. Setting it resets the chip: counter, refresh counter and video go to zero, and nothing is
    // inhibited.
    pub fn set_offset(self, offset: u32) -> Result<Controller, Refusal>
        ensures { controlled_by self result ≡ does (SetOffset offset) self }
    {
        self.refusal(offset <= 255, Refusal::SettingOther)?;
        Ok(Controller {
            offset: offset as u8,
            counter: 0,
            refresh: 0,
            video: false,
            inhibited: false,
            ..self
        })
    }

    // The Mode register whole: refresh cycles at each horizontal sync, page mode (0 no), update mode (0 to 2).
    pub fn set_mode(self, cycles: u32, page: u32, update: u32) -> Result<Controller, Refusal>
        ensures { controlled_by self result ≡ does (SetMode cycles page update) self }
    {
        self.refusal(mode_allowed(cycles, page, update), Refusal::SettingOther)?;
        Ok(Controller {
            cycles: cycles as u8,
            page: page != 0,
            update: Update::from(update),
            ..self
        })
    }
}

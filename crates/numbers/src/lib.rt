// The numbers given back: document 01, "Numbers given back"; 16 and 17 are change request M-100's, 18 is M-104's, 19 is M-107's, 20 is
// M-111's, 21 and 22 are M-112's. A call that is not done answers why, and the reason has a number; 0 is done, and of several that hold the
// lowest is given, but 18 comes straight after 3.
#![tactic(auto)]

ghost use Rattle.std.specs.Prelude.{◌≡◌};
ghost use Rattle.numbers.specs.Refusal.{number_of, given_back};
ghost use Rattle.numbers.specs.Refuse.{refuse};

// Why a call is refused, by its number in the table.
#[derive(Clone, Copy, Debug, PartialEq, Eq)]
pub enum Refusal {
    StateExcluded = 1,
    MemoryLength = 2,
    RegisterLength = 3,
    FieldUnreadable = 4,
    RowNotFitted = 5,
    ColumnOver = 6,
    StrobesOther = 7,
    MaskingOther = 8,
    HalfOrTapOver = 9,
    NotLoaded = 10,
    SelectOther = 11,
    RectangleOutside = 12,
    FillPersistent = 13,
    RunOver = 14,
    BufferShort = 15,
    SettingOther = 16,
    VideoOffOrOverride = 17,
    MarksLength = 18,
    PartitionOther = 19,
    MaskLeftBehind = 20,
    AddressOrDataOver = 21,
    NoLowPart = 22,
}

// Its number.
impl From<Refusal> for u32 {
    ghost from_gives = { λ refusal number. number ≡ number_of refusal };

    fn from(refusal: Refusal) -> u32 {
        refusal as u32
    }
}

// The number given back: 0 where the call is done.
pub fn number<T: Copy>(answer: Result<T, Refusal>) -> u32
    ensures { result ≡ given_back answer }
{
    match answer {
        Ok(_) => 0,
        Err(refusal) => u32::from(refusal),
    }
}

// A call is refused where a test fails. Tests stand in the order of the table, each with `?`: so of several numbers that hold the lowest is
// given.
pub fn refuse(holds: bool, refusal: Refusal) -> Result<(), Refusal>
    ensures { given_back result ≡ refuse holds (number_of refusal) 0 }
{
    if holds { Ok(()) } else { Err(refusal) }
}

// The same of numbers, whatever they are: the number where the test fails; where it holds, what the later tests say.
pub fn lowest(holds: bool, number: u32, later: u32) -> u32
    ensures { result ≡ refuse holds number later }
{
    if holds { later } else { number }
}

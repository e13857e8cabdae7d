// What the calls of a sheet refuse.
ghost use Rattle.std.specs.Prelude.{◌≡◌, ℕ, Option};
ghost use Rattle.sheet.specs.Calls.{open_case, take_case, wipe_case};

use block::SizeRefusal;
use thiserror::Error;

// Why no sheet is opened.
#[derive(Clone, Copy, Debug, PartialEq, Error)]
pub enum OpenRefusal {
    #[error("{0}")]
    Size(SizeRefusal),
    // 6
    #[error("the tally has under 32 * N entries")]
    Tally,
}

impl OpenRefusal {
    pub fn number(self) -> u8
        ensures { result ≡ (open_case self).number }
    {
        // A cast gives no number here, since a refusal for the size carries its own.
        match self {
            OpenRefusal::Size(refusal) => refusal.number(),
            OpenRefusal::Tally => 6,
        }
    }
}

// Why a sheet is not wiped, and the number of the refusal.
#[derive(Clone, Copy, Debug, PartialEq, Error)]
pub enum WipeRefusal {
    #[error("the tally has under 32 * N entries")]
    Tally = 6,
}

impl WipeRefusal {
    pub fn number(self) -> u8
        ensures { result ≡ (wipe_case self).number }
    {
        self as u8
    }
}

// Why symbols are not taken.
#[derive(Clone, Copy, Debug, PartialEq, Error)]
pub enum TakeRefusal {
    // 6
    #[error("the tally has under 32 * N entries")]
    Tally,
    // 7
    #[error("the buffer has no such octet to start at")]
    Start,
    // 8
    #[error("symbols come in eights, from 8 to 32 * N of them")]
    Count,
    // 10
    #[error("the sheet would have taken more symbols than it may")]
    Full,
    // 9, of the first such octet by its index
    #[error("the octet at index {0} is no symbol")]
    Symbol(usize),
}

impl TakeRefusal {
    pub fn number(self) -> u8
        ensures { (first : Option ℕ) → result ≡ (take_case first self).number }
    {
        // A cast gives no number here, since the refusal of a symbol carries its index.
        match self {
            TakeRefusal::Tally => 6,
            TakeRefusal::Start => 7,
            TakeRefusal::Count => 8,
            TakeRefusal::Full => 10,
            TakeRefusal::Symbol(_) => 9,
        }
    }
}

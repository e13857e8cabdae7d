// Why nothing is heard.
use code::OrderRefusal;
use search::FindRefusal;
use sheet::{OpenRefusal, TakeRefusal};

// The refusal of the call that refuses.
#[derive(Clone, Copy)]
pub(crate) enum HearRefusal {
    Order(OrderRefusal),
    Open(OpenRefusal),
    Take(TakeRefusal),
    Find(FindRefusal),
}

impl HearRefusal {
    ghost use Rattle.std.specs.Prelude.{◌≡◌, ℕ, Option};
    ghost use Rattle.tally_c.specs.Hearing.{hear_case, symbol_index};

    pub(crate) fn number(self) -> u8
        ensures { (first : Option ℕ) → result ≡ (hear_case first self).number }
    {
        match self {
            HearRefusal::Order(refusal) => refusal.number(),
            HearRefusal::Open(refusal) => refusal.number(),
            HearRefusal::Take(refusal) => refusal.number(),
            HearRefusal::Find(refusal) => refusal.number(),
        }
    }

    // The index of an octet that is no symbol; 0 with every other refusal.
    pub(crate) fn index(self) -> usize
        ensures { result ≡ symbol_index self }
    {
        match self {
            HearRefusal::Take(TakeRefusal::Symbol(index)) => index,
            _ => 0,
        }
    }
}

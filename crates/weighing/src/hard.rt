// The hard reading: each symbol is a bit or missing, and weights count the bits that are
// contradicted.
ghost use Rattle.std.specs.Prelude.{◌≡◌, ◌+◌, min, Decides, nat_le};
ghost use Rattle.weighing.specs.Hard.{hard_alphabet, hard_reads, hard_weight};
ghost use Rattle.weighing.specs.Scales.{counted};

use crate::{Reading, Weighing};

pub struct Hard;

// A bit that came, or none. No `Option`, since a missing bit is a symbol, and `read` answers `None`
// for what is none.
#[derive(Clone, Copy, Debug, PartialEq)]
pub enum HardSymbol {
    Bit(bool),
    Missing,
}

impl Weighing for Hard {
    type Value = u32;

    ghost scale = { counted };

    fn zero() -> u32
        ensures means { counted.mean result ≡ counted.zero }
        ensures value { result ≡ 0 }
    {
        0
    }

    fn sum(a: u32, b: u32) -> u32
        ensures means { counted.mean result ≡ counted.plus (counted.mean a) (counted.mean b) }
        ensures value { result ≡ min (a + b) 4294967295 }
    {
        a.saturating_add(b)
    }

    fn at_most(a: u32, b: u32) -> bool
        ensures means { Decides result (counted.atmost (counted.mean a) (counted.mean b)) }
        ensures value { result ≡ nat_le a b }
    {
        a <= b
    }
}

impl Reading for Hard {
    type Symbol = HardSymbol;

    ghost alphabet = { hard_alphabet };

    fn read(octet: u8) -> Option<HardSymbol>
        ensures { result ≡ hard_reads octet }
    {
        match octet {
            0 => Some(HardSymbol::Bit(false)),
            1 => Some(HardSymbol::Bit(true)),
            2 => Some(HardSymbol::Missing),
            _ => None,
        }
    }

    fn cost(symbol: HardSymbol, bit: bool) -> u32
        ensures means { counted.mean result ≡ counted.mean (hard_alphabet.against symbol bit) }
        ensures value { result ≡ hard_weight symbol bit }
    {
        match symbol {
            HardSymbol::Bit(received) => u32::from(received != bit),
            HardSymbol::Missing => 0,
        }
    }
}

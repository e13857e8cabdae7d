// The soft reading: each symbol is a level, and weights add up the sizes of those that are
// contradicted.
ghost use Rattle.std.specs.Prelude.{◌≡◌, ◌+◌, min, Decides, nat_le};
ghost use Rattle.weighing.specs.Levels.{level_alphabet, level_reads, level_weight};
ghost use Rattle.weighing.specs.Scales.{counted};

use crate::level::Level;
use crate::{Reading, Weighing};

pub struct Soft;

// It adds as the hard reading does, and is written out all the same: each reading stands whole in a
// file of its own, with a contract on every call.
impl Weighing for Soft {
    type Value = u32;

    ghost scale = { counted };

    fn zero() -> u32
        ensures means { counted.mean result ≡ counted.zero }
        ensures value { result ≡ 0 }
    {
        0
    }

    fn sum(a: u32, b: u32) -> u32
        ensures means { counted.mean result ≡ counted.plus (counted.mean a) (counted.mean b) }
        ensures value { result ≡ min (a + b) 4294967295 }
    {
        a.saturating_add(b)
    }

    fn at_most(a: u32, b: u32) -> bool
        ensures means { Decides result (counted.atmost (counted.mean a) (counted.mean b)) }
        ensures value { result ≡ nat_le a b }
    {
        a <= b
    }
}

// What the readings of levels share is `Level`'s.
impl Reading for Soft {
    type Symbol = Level;

    ghost alphabet = { level_alphabet };

    fn read(octet: u8) -> Option<Level>
        ensures { result ≡ level_reads octet }
    {
        Level::read(octet)
    }

    fn cost(symbol: Level, bit: bool) -> u32
        ensures means { counted.mean result ≡ counted.mean (level_alphabet.against symbol bit) }
        ensures value { result ≡ level_weight symbol bit }
    {
        u32::from(symbol.weight(bit))
    }
}

// The worst reading: each symbol is a level, and a sum is its heaviest part.
ghost use Rattle.std.specs.Prelude.{◌≡◌, max, Decides, nat_le};
ghost use Rattle.weighing.specs.Levels.{level_alphabet, level_reads, level_weight};
ghost use Rattle.weighing.specs.Scales.{largest};

use crate::level::Level;
use crate::{Reading, Weighing};

pub struct Worst;

impl Weighing for Worst {
    type Value = u8;

    ghost scale = { largest };

    fn zero() -> u8
        ensures means { largest.mean result ≡ largest.zero }
        ensures value { result ≡ 0 }
    {
        0
    }

    fn sum(a: u8, b: u8) -> u8
        ensures means { largest.mean result ≡ largest.plus (largest.mean a) (largest.mean b) }
        ensures value { result ≡ max a b }
    {
        a.max(b)
    }

    fn at_most(a: u8, b: u8) -> bool
        ensures means { Decides result (largest.atmost (largest.mean a) (largest.mean b)) }
        ensures value { result ≡ nat_le a b }
    {
        a <= b
    }
}

// What the readings of levels share is `Level`'s.
impl Reading for Worst {
    type Symbol = Level;

    ghost alphabet = { level_alphabet };

    fn read(octet: u8) -> Option<Level>
        ensures { result ≡ level_reads octet }
    {
        Level::read(octet)
    }

    fn cost(symbol: Level, bit: bool) -> u8
        ensures means { largest.mean result ≡ largest.mean (level_alphabet.against symbol bit) }
        ensures value { result ≡ level_weight symbol bit }
    {
        symbol.weight(bit)
    }
}

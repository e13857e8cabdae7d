// The readings that are tried, each with its kind in the second decoder.
use crate::second::readings::Kind;
use weighing::Reading;
use weighing::hard::Hard;
use weighing::soft::Soft;
use weighing::worst::Worst;

pub(crate) trait Tried: Reading {
    fn kind() -> Kind;

    // The number that a weight is.
    fn number(weight: Self::Value) -> u64;

    // A weight by its number, to fill buffers with.
    fn weight(number: u8) -> Self::Value;
}

impl Tried for Hard {
    fn kind() -> Kind {
        Kind::Hard
    }

    fn number(weight: u32) -> u64 {
        u64::from(weight)
    }

    fn weight(number: u8) -> u32 {
        u32::from(number)
    }
}

impl Tried for Soft {
    fn kind() -> Kind {
        Kind::Soft
    }

    fn number(weight: u32) -> u64 {
        u64::from(weight)
    }

    fn weight(number: u8) -> u32 {
        u32::from(number)
    }
}

impl Tried for Worst {
    fn kind() -> Kind {
        Kind::Worst
    }

    fn number(weight: u8) -> u64 {
        u64::from(weight)
    }

    fn weight(number: u8) -> u8 {
        number
    }
}

// Sizes of reports and blocks, payload lengths, and orders of the columns.
use crate::second::random::Random;

// A size: the octets of the report, the bits of its check, and the octets of the block.
#[derive(Clone, Copy)]
pub(crate) struct Sizes {
    pub(crate) octets: usize,
    pub(crate) check: usize,
    pub(crate) block: usize,
}

impl Sizes {
    // The block has eight bits for each octet of the report, those of the check, and four of the
    // tail.
    pub(crate) fn of(octets: usize, check: usize) -> Sizes {
        let bits = octets
            .saturating_mul(8)
            .saturating_add(check)
            .saturating_add(4);
        Sizes {
            octets,
            check,
            block: bits / 8,
        }
    }

    // The bits of a message.
    pub(crate) fn message(self) -> usize {
        self.block.saturating_mul(8).saturating_sub(4)
    }

    // The octets of the buffer.
    pub(crate) fn round(self) -> usize {
        self.block.saturating_mul(4)
    }

    // The places of the buffer.
    pub(crate) fn places(self) -> usize {
        self.block.saturating_mul(32)
    }

    // The octets that output 1 and `k` columns fill: the whole ones, and one more for bits that are
    // left.
    pub(crate) fn payload(self, k: usize) -> usize {
        let bits = self.block.saturating_mul(k.saturating_add(8));
        (bits / 8).saturating_add(usize::from(bits % 8 > 0))
    }
}

pub(crate) const CHECKS: [usize; 4] = [4, 12, 20, 28];

// Order R.
pub(crate) const ORDER_R: [u8; 24] = [
    0, 4, 2, 6, 1, 5, 3, 7, 8, 12, 10, 14, 9, 13, 11, 15, 16, 20, 18, 22, 17, 21, 19, 23,
];

// Order R with its columns in some other order.
pub(crate) fn shuffled(random: &mut Random) -> [u8; 24] {
    let mut columns = ORDER_R;
    for i in 0..24 {
        columns.swap(i, usize::from(random.octet() % 24));
    }
    columns
}

pub(crate) fn backwards() -> [u8; 24] {
    let mut columns = ORDER_R;
    columns.reverse();
    columns
}

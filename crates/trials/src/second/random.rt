// Numbers that look like chance, and are the same in every run.
use std::alloc::Global;

#[derive(Drop)]
pub(crate) struct Random(pub(crate) u64);

impl Random {
    // The next number: a counter by large steps, whose bits are then mixed.
    pub(crate) fn next(&mut self) -> u64 {
        self.0 = self.0.wrapping_add(0x9e37_79b9_7f4a_7c15);
        let z = (self.0 ^ (self.0 >> 30)).wrapping_mul(0xbf58_476d_1ce4_e5b9);
        let z = (z ^ (z >> 27)).wrapping_mul(0x94d0_49bb_1331_11eb);
        z ^ (z >> 31)
    }

    pub(crate) fn octet(&mut self) -> u8 {
        (self.next() >> 56) as u8
    }

    pub(crate) fn octets(&mut self, heap: Global, count: usize) -> Vec<u8> {
        let mut octets = Vec::new(heap);
        for _ in 0..count {
            let _pushed = octets.push(self.octet());
        }
        octets
    }

    // A number below a bound, or 0 where nothing is below it.
    pub(crate) fn below(&mut self, bound: usize) -> usize {
        let draw = self.next();
        let rest = draw.checked_rem(bound as u64).unwrap_or(0);
        rest as usize
    }
}

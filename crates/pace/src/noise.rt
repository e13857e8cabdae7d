// A row of numbers that look like chance, and what a channel makes of a bit. bench/peers.c has the
// same row.
use weighing::Reading;
use weighing::hard::Hard;
use weighing::soft::Soft;

#[derive(Drop)]
pub(crate) struct Noise(u32);

impl Noise {
    pub(crate) fn begin() -> Noise {
        Noise(2026)
    }

    pub(crate) fn next(&mut self) -> u8 {
        self.0 = self.0.wrapping_mul(1664525).wrapping_add(1013904223);
        (self.0 >> 24) as u8
    }

    // The bit as it is heard: one in twenty is turned.
    fn turn(&mut self, bit: bool) -> bool {
        bit ^ (self.next() % 20 == 0)
    }
}

// A reading whose receiver notes a bit as the octet of a symbol.
pub(crate) trait Noted: Reading {
    const NAME: &'static str;

    fn note(noise: &mut Noise, bit: bool) -> u8;
}

impl Noted for Hard {
    const NAME: &'static str = "hard";

    fn note(noise: &mut Noise, bit: bool) -> u8 {
        noise.turn(bit) as u8
    }
}

impl Noted for Soft {
    const NAME: &'static str = "soft";

    // A level of 1 to 64, as an octet in two's complement.
    fn note(noise: &mut Noise, bit: bool) -> u8 {
        let heard = noise.turn(bit);
        let level = noise.next() % 64 + 1;
        if heard { level } else { level.wrapping_neg() }
    }
}

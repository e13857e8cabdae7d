// A bad channel that is the same in every run: it turns some bits and mutes others. A turned bit is
// heard with less level.
use block::bit_of;
use std::alloc::{AllocError, Global};
use weighing::Reading;
use weighing::hard::Hard;
use weighing::soft::Soft;
use weighing::worst::Worst;

// What the channel does to one bit.
#[derive(Clone, Copy)]
pub(crate) enum Fate {
    Clean,
    Turned,
    Mute,
}

// A reading whose receiver notes each bit as an octet, which the reading then reads: as a level, if
// it says no other.
pub(crate) trait Noted: Reading {
    fn note(noise: &mut Noise, bit: bool, fate: Fate) -> u8 {
        noise.level(bit, fate)
    }
}

impl Noted for Hard {
    // 0, 1, or 2 for missing.
    fn note(_noise: &mut Noise, bit: bool, fate: Fate) -> u8 {
        match fate {
            Fate::Clean => bit as u8,
            Fate::Turned => !bit as u8,
            Fate::Mute => 2,
        }
    }
}

impl Noted for Soft {}

impl Noted for Worst {}

// A level of this size for a bit, as an octet in two's complement.
fn level(heard: bool, size: u8) -> u8 {
    if heard { size } else { size.wrapping_neg() }
}

// A row of numbers that look like chance.
#[derive(Drop)]
pub(crate) struct Noise(pub(crate) u32);

impl Noise {
    fn next(&mut self) -> u8 {
        self.0 = self.0.wrapping_mul(1664525).wrapping_add(1013904223);
        (self.0 >> 24) as u8
    }

    // One bit in sixteen is turned, and one in sixteen is muted.
    fn fate(&mut self) -> Fate {
        match self.next() % 16 {
            3 => Fate::Turned,
            11 => Fate::Mute,
            _ => Fate::Clean,
        }
    }

    // A level, whose sign is the bit and whose size says how sure it is; 0 is missing.
    fn level(&mut self, bit: bool, fate: Fate) -> u8 {
        match fate {
            Fate::Clean => level(bit, self.next() % 64 + 33),
            Fate::Turned => level(!bit, self.next() % 16 + 1),
            Fate::Mute => 0,
        }
    }

    // One symbol for each bit of the octets, bit 1 of each octet first.
    pub(crate) fn hear<R: Noted>(
        &mut self,
        heap: Global,
        octets: &[u8],
    ) -> Result<Heard, AllocError> {
        let mut heard = Heard {
            symbols: Vec::new(heap),
            turned: 0,
            muted: 0,
        };
        for octet in octets {
            // by position, as `bit_of` is asked
            for i in 0..8 {
                let fate = self.fate();
                heard.count(fate);
                heard
                    .symbols
                    .push(R::note(self, bit_of(u32::from(*octet), i), fate))?;
            }
        }
        Ok(heard)
    }
}

// What arrives: the symbols, and how many bits the channel turned and muted.
#[derive(Drop)]
pub(crate) struct Heard {
    pub(crate) symbols: Vec<u8>,
    pub(crate) turned: usize,
    pub(crate) muted: usize,
}

impl Heard {
    // The counts saturate, since nothing bounds what is heard.
    fn count(&mut self, fate: Fate) {
        match fate {
            Fate::Clean => {}
            Fate::Turned => self.turned = self.turned.saturating_add(1),
            Fate::Mute => self.muted = self.muted.saturating_add(1),
        }
    }
}

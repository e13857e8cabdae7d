// Bad channels: what is heard in place of each bit.
use crate::second::random::Random;
use crate::second::readings::Kind;
use std::alloc::Global;

// How a channel damages what goes through it.
#[derive(Clone, Copy)]
pub(crate) enum Damage {
    Clean,
    FewTurned,
    ManyTurned,
    Missing,
    Bursts,
    Noise,
    Chance,
    AllTurned,
}

pub(crate) const DAMAGES: [Damage; 8] = [
    Damage::Clean,
    Damage::FewTurned,
    Damage::ManyTurned,
    Damage::Missing,
    Damage::Bursts,
    Damage::Noise,
    Damage::Chance,
    Damage::AllTurned,
];

// How a bit is heard.
#[derive(Clone, Copy)]
enum Heard {
    Kept,
    Turned,
    Missing,
    Blurred,
}

impl Damage {
    pub(crate) fn word(self) -> &'static str {
        match self {
            Damage::Clean => "clean",
            Damage::FewTurned => "few turned",
            Damage::ManyTurned => "many turned",
            Damage::Missing => "missing",
            Damage::Bursts => "bursts",
            Damage::Noise => "noise",
            Damage::Chance => "chance",
            Damage::AllTurned => "all turned",
        }
    }

    // How the bit at an index of a take is heard.
    fn draw(self, random: &mut Random, index: usize) -> Heard {
        let draw = random.octet();
        match self {
            Damage::Clean => Heard::Kept,
            Damage::FewTurned if draw < 8 => Heard::Turned,
            Damage::ManyTurned if draw < 45 => Heard::Turned,
            Damage::Missing if draw < 128 => Heard::Missing,
            Damage::Bursts if index % 256 < 50 && draw < 200 => Heard::Turned,
            Damage::Chance if draw < 100 => Heard::Turned,
            Damage::Chance if draw < 150 => Heard::Missing,
            Damage::Chance if draw < 200 => Heard::Blurred,
            Damage::Noise => Heard::Blurred,
            Damage::AllTurned => Heard::Turned,
            _ => Heard::Kept,
        }
    }
}

// The octet of a level that favours a bit.
fn level(bit: bool, size: u8) -> u8 {
    if bit { size } else { size.wrapping_neg() }
}

// The octet of a level of a bit with noise; a level that would be too large is missing.
fn blurred(random: &mut Random, bit: bool) -> u8 {
    let signal = if bit { 60i16 } else { -60 };
    let noise = i16::from(random.octet()) - 128;
    i8::try_from(signal + noise)
        .unwrap_or(0)
        .max(-127)
        .cast_unsigned()
}

// The symbol that a reading of this kind hears in place of a bit.
fn symbol_of(random: &mut Random, kind: Kind, bit: bool, heard: Heard) -> u8 {
    let size = random.octet() % 127 + 1;
    match (kind, heard) {
        (Kind::Hard, Heard::Kept) => u8::from(bit),
        (Kind::Hard, Heard::Turned) => u8::from(!bit),
        (Kind::Hard, Heard::Missing) => 2,
        (Kind::Hard, Heard::Blurred) => u8::from(bit != (random.octet() < 50)),
        (_, Heard::Kept) => level(bit, size),
        (_, Heard::Turned) => level(!bit, size),
        (_, Heard::Missing) => 0,
        (_, Heard::Blurred) => blurred(random, bit),
    }
}

// What is heard of bits.
pub(crate) fn hear(
    heap: Global,
    random: &mut Random,
    kind: Kind,
    bits: &[bool],
    damage: Damage,
) -> Vec<u8> {
    let mut octets = Vec::new(heap);
    for (index, bit) in bits.iter().enumerate() {
        let heard = damage.draw(random, index);
        let _pushed = octets.push(symbol_of(random, kind, *bit, heard));
    }
    octets
}

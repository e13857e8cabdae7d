// Levels, the symbols of the soft and the worst reading: how they are read and what they weigh.
ghost use Rattle.std.specs.Prelude.{◌≤◌, unsigned_abs};

// A number from -127 to 127. A positive one favours bit 1 and a negative one bit 0, by its size,
// and 0 is missing.
#[derive(Clone, Copy, Debug, PartialEq)]
pub struct Level {
    pub value: i8,
    ghost ok: { unsigned_abs value ≤ 127 },
}

impl Level {
    ghost use Rattle.std.specs.Prelude.{◌≡◌};
    ghost use Rattle.weighing.specs.Levels.{level_reads, level_weight};

    // The octet is a two's complement number, and the lowest is no level.
    pub(crate) fn read(octet: u8) -> Option<Level>
        ensures { result ≡ level_reads octet }
    {
        match octet.cast_signed() {
            i8::MIN => None,
            value => Some(Level { value }),
        }
    }

    // The size of a level that the bit contradicts, else 0.
    pub(crate) fn weight(self, bit: bool) -> u8
        ensures { result ≡ level_weight self bit }
    {
        let contradicted = if bit { self.value < 0 } else { self.value > 0 };
        if contradicted {
            self.value.unsigned_abs()
        } else {
            0
        }
    }
}

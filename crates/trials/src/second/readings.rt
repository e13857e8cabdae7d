// The three readings over one notion: an octet is a level, whose sign is the bit that it favours.

#[derive(Clone, Copy)]
pub(crate) enum Kind {
    Hard,
    Soft,
    Worst,
}

impl Kind {
    pub(crate) fn word(self) -> &'static str {
        match self {
            Kind::Hard => "hard",
            Kind::Soft => "soft",
            Kind::Worst => "worst",
        }
    }

    // The level of an octet, if it is a symbol: a hard bit has level 1 or -1, and 0 is missing.
    fn level(self, octet: u8) -> Option<i64> {
        match self {
            Kind::Hard => match octet {
                0 => Some(-1),
                1 => Some(1),
                2 => Some(0),
                _ => None,
            },
            Kind::Soft | Kind::Worst => match i64::from(octet) {
                128 => None,
                low if low < 128 => Some(low),
                high => Some(high - 256),
            },
        }
    }

    pub(crate) fn is_symbol(self, octet: u8) -> bool {
        self.level(octet).is_some()
    }

    // What a symbol weighs against a bit.
    pub(crate) fn weight(self, octet: u8, bit: bool) -> u64 {
        let level = self.level(octet).unwrap_or(0);
        if bit == (level > 0) {
            0
        } else {
            level.unsigned_abs()
        }
    }

    // The sum of two weights.
    pub(crate) fn join(self, a: u64, b: u64) -> u64 {
        match self {
            Kind::Hard | Kind::Soft => a.saturating_add(b),
            Kind::Worst => a.max(b),
        }
    }
}

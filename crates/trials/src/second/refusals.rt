// What calls should refuse: their conditions, in turn, and sizes about the edges of them.

// Octet counts about the edges of what a report may have.
pub(crate) const OCTETS: [usize; 7] = [0, 1, 2, 511, 512, 513, usize::MAX];

// Check lengths about the edges of the four that are permitted.
pub(crate) const CHECK_EDGES: [usize; 19] = [
    0,
    3,
    4,
    5,
    8,
    11,
    12,
    13,
    16,
    19,
    20,
    21,
    27,
    28,
    29,
    36,
    44,
    260,
    usize::MAX,
];

// A condition, and the number that a call refuses with where it holds.
#[derive(Clone, Copy)]
pub(crate) struct Check {
    pub(crate) holds: bool,
    pub(crate) number: u8,
}

// The number of the first condition that holds.
pub(crate) fn first(checks: &[Check]) -> Option<u8> {
    for check in checks {
        if check.holds {
            return Some(check.number);
        }
    }
    None
}

// No report has so many octets.
pub(crate) fn wrong_octets(octets: usize) -> Check {
    Check {
        holds: octets < 1 || octets > 512,
        number: 1,
    }
}

// No check has so many bits.
pub(crate) fn wrong_check(check: usize) -> Check {
    Check {
        holds: check != 4 && check != 12 && check != 20 && check != 28,
        number: 2,
    }
}

// A buffer that is lent is too short.
pub(crate) fn short(length: usize, needed: usize) -> Check {
    Check {
        holds: length < needed,
        number: 6,
    }
}

// The book of a sheet: all takes as they were handed. What a place weighs is reckoned from them
// when it is asked.
use crate::second::readings::Kind;
use std::alloc::Global;

// A take: the place of its first symbol, and its symbols.
#[derive(Drop)]
struct Take {
    first: usize,
    octets: Vec<u8>,
}

impl Take {
    // The symbol that this take has for a place, if any: a round has so many places, and the take
    // may run over its end.
    fn at(&self, round: usize, place: usize) -> Option<u8> {
        let behind = if place >= self.first {
            place
        } else {
            place.wrapping_add(round)
        };
        self.octets.get(behind.wrapping_sub(self.first)).copied()
    }
}

// What all symbols of a place weigh together against each bit.
#[derive(Clone, Copy, PartialEq)]
pub(crate) struct Sums {
    pub(crate) zero: u64,
    pub(crate) one: u64,
}

impl Sums {
    pub(crate) fn against(self, bit: bool) -> u64 {
        if bit { self.one } else { self.zero }
    }
}

#[derive(Drop)]
pub(crate) struct Book {
    heap: Global,
    pub(crate) kind: Kind,
    round: usize,
    takes: Vec<Take>,
    pub(crate) count: usize,
}

impl Book {
    pub(crate) fn new(heap: Global, kind: Kind, round: usize) -> Book {
        Book {
            heap,
            kind,
            round,
            takes: Vec::new(heap),
            count: 0,
        }
    }

    // Notes a take from an octet of the buffer on.
    pub(crate) fn note(&mut self, start: usize, octets: &[u8]) {
        let first = start.wrapping_mul(8);
        let octets = octets.to_vec(self.heap).unwrap_or(Vec::new(self.heap));
        self.count = self.count.saturating_add(octets.len());
        let _pushed = self.takes.push(Take { first, octets });
    }

    pub(crate) fn wipe(&mut self) {
        self.takes.clear();
        self.count = 0;
    }

    // The sums of a place, oldest take first.
    fn sums_at(&self, place: usize) -> Sums {
        let mut sums = Sums { zero: 0, one: 0 };
        for take in self.takes.iter() {
            if let Some(octet) = take.at(self.round, place) {
                sums.zero = self.kind.join(sums.zero, self.kind.weight(octet, false));
                sums.one = self.kind.join(sums.one, self.kind.weight(octet, true));
            }
        }
        sums
    }

    // The sums of all places.
    pub(crate) fn sums(&self) -> Vec<Sums> {
        let mut sums = Vec::new(self.heap);
        for place in 0..self.round {
            let _pushed = sums.push(self.sums_at(place));
        }
        sums
    }
}

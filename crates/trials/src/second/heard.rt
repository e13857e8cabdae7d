// What the second decoder makes of what was heard of a block, and of the messages that are named.
use crate::second::all::{Least, least_of_all};
use crate::second::book::Sums;
use crate::second::coder::{Coded, bits_of};
use crate::second::division::divides;
use crate::second::layout::Source;
use crate::second::nearest::{Nearest, StepSums, by_steps, find_nearest, weight_of};
use crate::second::readings::Kind;
use crate::second::sizes::Sizes;
use std::alloc::Global;

// Whether the tail and the check of a block are what they should be.
#[derive(Clone, Copy, PartialEq)]
pub(crate) struct Fits {
    pub(crate) tail: bool,
    pub(crate) check: bool,
}

// A block whose message was coded anew.
#[derive(Drop)]
struct Anew {
    coded: Coded,
    fits: Fits,
}

impl Anew {
    fn of(heap: Global, block: &[bool], sizes: Sizes) -> Anew {
        let message = block.get(..sizes.message()).unwrap_or(block);
        let check = divides(heap, message, sizes.check);
        let coded = Coded::of(heap, message);
        let tail = coded.inputs.as_slice() == block;
        Anew {
            coded,
            fits: Fits { tail, check },
        }
    }
}

// Whether the tail and the check fit that stand in the first octets of these.
pub(crate) fn fits_of(heap: Global, octets: &[u8], sizes: Sizes) -> Fits {
    let bits = bits_of(heap, octets);
    let bits = bits.as_slice();
    let block = bits.get(..sizes.block.saturating_mul(8)).unwrap_or(bits);
    Anew::of(heap, block, sizes).fits
}

// A block that was named: what it weighs, and whether its tail and its check fit.
#[derive(Clone, Copy)]
pub(crate) struct Judged {
    pub(crate) weight: u64,
    pub(crate) fits: Fits,
}

// A least weight, and what its message weighs when it is coded anew.
#[derive(Clone, Copy)]
pub(crate) struct Found {
    pub(crate) weight: u64,
    pub(crate) judged: Judged,
}

// What was heard: what each output of each step weighs against each bit.
#[derive(Drop)]
pub(crate) struct Heard {
    heap: Global,
    kind: Kind,
    sizes: Sizes,
    steps: Vec<StepSums>,
}

impl Heard {
    pub(crate) fn of(
        heap: Global,
        kind: Kind,
        sizes: Sizes,
        sums: &[Sums],
        sources: &[Source],
    ) -> Heard {
        Heard {
            heap,
            kind,
            sizes,
            steps: by_steps(heap, sums, sources),
        }
    }

    // What a message weighs.
    pub(crate) fn weight(&self, message: &[bool]) -> u64 {
        let coded = Coded::of(self.heap, message);
        self.weight_of(&coded)
    }

    fn weight_of(&self, coded: &Coded) -> u64 {
        weight_of(self.kind, self.steps.as_slice(), coded.outputs.as_slice())
    }

    fn judge_bits(&self, block: &[bool]) -> Judged {
        let anew = Anew::of(self.heap, block, self.sizes);
        Judged {
            weight: self.weight_of(&anew.coded),
            fits: anew.fits,
        }
    }

    // Weighs a block that was named.
    pub(crate) fn judge(&self, octets: &[u8]) -> Judged {
        let bits = bits_of(self.heap, octets);
        self.judge_bits(bits.as_slice())
    }

    fn found(&self, nearest: &Nearest) -> Found {
        Found {
            weight: nearest.weight,
            judged: self.judge_bits(nearest.bits.as_slice()),
        }
    }

    // The least weight by the list of candidates, if the list ends in one.
    pub(crate) fn find(&self) -> Option<Found> {
        match find_nearest(self.heap, self.kind, self.steps.as_slice()) {
            Some(nearest) => Some(self.found(&nearest)),
            None => None,
        }
    }

    // The least weight of all messages, by trying each.
    pub(crate) fn least(&self) -> Least {
        least_of_all(self.kind, self.steps.as_slice())
    }
}

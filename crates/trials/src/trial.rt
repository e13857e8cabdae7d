// A trial: a report is coded by both coders, sent over a bad channel in some parts, and taken.
use crate::channel::{DAMAGES, Damage, hear};
use crate::frame::Frame;
use crate::hearing::Hearing;
use crate::second::coder::{bits_of, buffer_of};
use crate::second::family::{Case, differing};
use crate::second::pattern::marked;
use crate::second::random::Random;
use crate::second::readings::Kind;
use crate::second::sizes::Sizes;
use crate::tried::Tried;
use block::plan;
use code::encode_report;
use std::alloc::Global;

// A part of the buffer: its first octet and how many octets it has, over the buffer's end if need
// be.
#[derive(Clone, Copy)]
struct Part {
    start: usize,
    count: usize,
}

// How the parts of a report come.
#[derive(Clone, Copy)]
pub(crate) enum Coming {
    First,
    FirstTwice,
    FirstAndNext,
    FirstAndAll,
    OverTheEnd,
    Elsewhere,
    InPieces,
    AfterAWipe,
}

pub(crate) const COMINGS: [Coming; 8] = [
    Coming::First,
    Coming::FirstTwice,
    Coming::FirstAndNext,
    Coming::FirstAndAll,
    Coming::OverTheEnd,
    Coming::Elsewhere,
    Coming::InPieces,
    Coming::AfterAWipe,
];

impl Coming {
    fn word(self) -> &'static str {
        match self {
            Coming::First => "first",
            Coming::FirstTwice => "first twice",
            Coming::FirstAndNext => "first and next",
            Coming::FirstAndAll => "first and all",
            Coming::OverTheEnd => "over the end",
            Coming::Elsewhere => "elsewhere",
            Coming::InPieces => "in pieces",
            Coming::AfterAWipe => "after a wipe",
        }
    }
}

// What a trial is made of.
#[derive(Clone, Copy)]
pub(crate) struct Trial {
    pub(crate) k: usize,
    pub(crate) damage: Damage,
    pub(crate) coming: Coming,
}

// Whether the crates code a report into a buffer of these bits.
fn codes_so(frame: &Frame, report: &[u8], bits: &[bool]) -> bool {
    let heap = frame.heap;
    let mut buffer = marked(heap, frame.sizes.round());
    let check = frame.sizes.check;
    let coded = encode_report(report, check, &frame.order, buffer.as_mut_slice());
    coded.is_ok() && bits_of(heap, buffer.as_slice()).as_slice() == bits
}

// The bits of the buffer of a report of chance, and whether both coders agree on them.
#[derive(Drop)]
struct Sent {
    bits: Vec<bool>,
    agree: bool,
}

fn send(frame: &Frame, random: &mut Random) -> Sent {
    let report = random.octets(frame.heap, frame.sizes.octets);
    let report = report.as_slice();
    let sources = frame.sources.as_slice();
    let bits = buffer_of(frame.heap, report, frame.sizes.check, sources);
    let agree = codes_so(frame, report, bits.as_slice());
    Sent { bits, agree }
}

impl Part {
    // The bits of this part of a buffer: those from its start on, and then those from the
    // beginning.
    fn of(self, heap: Global, buffer: &[bool]) -> Vec<bool> {
        let start = self.start.saturating_mul(8);
        let mut bits = buffer
            .get(start..)
            .unwrap_or(&[])
            .to_vec(heap)
            .unwrap_or(Vec::new(heap));
        let _extended = bits.extend_from_slice(buffer);
        bits.truncate(self.count.saturating_mul(8));
        bits
    }
}

// All octets of a round in pieces of one length; the last may run over the end.
fn pieces(heap: Global, round: usize, count: usize) -> Vec<Part> {
    let mut pieces = Vec::new(heap);
    for start in (0..round).step_by(count.max(1)) {
        let _pushed = pieces.push(Part { start, count });
    }
    pieces
}

// One part, and another behind it if there is one.
fn one_or_two(heap: Global, one: Part, two: Option<Part>) -> Vec<Part> {
    let mut parts = vec![in heap; one].unwrap_or(Vec::new(heap));
    if let Some(two) = two {
        let _pushed = parts.push(two);
    }
    parts
}

impl Trial {
    // A trial at a rate.
    pub(crate) fn draw(random: &mut Random, k: usize) -> Trial {
        Trial {
            k,
            damage: DAMAGES[random.below(8) % 8],
            coming: COMINGS[random.below(8) % 8],
        }
    }

    // The parts that come, in turn; the first payload has `first` octets of a round.
    fn parts(self, heap: Global, random: &mut Random, round: usize, first: usize) -> Vec<Part> {
        let payload = Part {
            start: 0,
            count: first,
        };
        let some = random.below(round).saturating_add(1);
        let start = random.below(round);
        let next = Part {
            start: first.checked_rem(round).unwrap_or(0),
            count: some,
        };
        let all = Part {
            start,
            count: round,
        };
        let last = Part {
            start: round.saturating_sub(1),
            count: some,
        };
        let elsewhere = Part { start, count: some };
        let (one, two) = match self.coming {
            Coming::InPieces => return pieces(heap, round, round / 5 + 1),
            Coming::First | Coming::AfterAWipe => (payload, None),
            Coming::FirstTwice => (payload, Some(payload)),
            Coming::FirstAndNext => (payload, Some(next)),
            Coming::FirstAndAll => (payload, Some(all)),
            Coming::OverTheEnd => (last, Some(payload)),
            Coming::Elsewhere => (elsewhere, None),
        };
        one_or_two(heap, one, two)
    }

    // A trial of blocks of these sizes, by a reading of this kind.
    pub(crate) fn case(self, sizes: Sizes, kind: Kind) -> Case {
        Case {
            words: ["block", kind.word(), self.damage.word(), self.coming.word()],
            numbers: [sizes.octets, sizes.check, self.k, 0],
        }
    }

    // Takes symbols, and again after a wipe where the trial has one. Answers whether all were
    // counted.
    fn take<R: Tried>(self, hearing: &mut Hearing<'_, R>, start: usize, symbols: &[u8]) -> bool {
        let counts = hearing.take(start, symbols);
        if matches!(self.coming, Coming::AfterAWipe) {
            let wiped = hearing.wipe();
            return counts && wiped && hearing.take(start, symbols);
        }
        counts
    }

    // Takes what is heard of a part of the buffer.
    fn hear_part<R: Tried>(
        self,
        hearing: &mut Hearing<'_, R>,
        random: &mut Random,
        buffer: &[bool],
        part: Part,
    ) -> bool {
        let heap = hearing.frame.heap;
        let bits = part.of(heap, buffer);
        let symbols = hear(heap, random, R::kind(), bits.as_slice(), self.damage);
        self.take(hearing, part.start, symbols.as_slice())
    }

    // Takes part after part. From one to the next the weight does not fall.
    fn hear_parts<R: Tried>(
        self,
        hearing: &mut Hearing<'_, R>,
        random: &mut Random,
        buffer: &[bool],
        parts: &[Part],
    ) -> Option<&'static str> {
        let mut weight = 0;
        let mut grows = true;
        let mut counts = true;
        for part in parts {
            counts = self.hear_part(hearing, random, buffer, *part) && counts;
            let now = hearing.decode().weight;
            grows = grows && weight <= now;
            weight = now;
        }
        differing(&[("the count", counts), ("the growth of the weight", grows)])
    }

    // Sends a report of chance, and takes what is heard of it; in what it differs, if in anything.
    pub(crate) fn hear<R: Tried>(
        self,
        hearing: &mut Hearing<'_, R>,
        random: &mut Random,
    ) -> Option<&'static str> {
        let frame = hearing.frame;
        let sizes = frame.sizes;
        let first = plan(sizes.octets, sizes.check, self.k).unwrap_or(0);
        let sent = send(frame, random);
        let parts = self.parts(frame.heap, random, sizes.round(), first);
        let differs = self.hear_parts(hearing, random, sent.bits.as_slice(), parts.as_slice());
        differing(&[("the buffer", sent.agree)]).or(differs)
    }
}

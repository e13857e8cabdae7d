// Senders: passages of chance over a buffer, confirmed or not, against a plain list of octets.
use crate::second::family::{Case, Family, Outcome, differing};
use crate::second::pattern::{begins_with, is_marked, marked};
use crate::second::random::Random;
use crate::second::sizes::{CHECKS, Sizes};
use block::SizeRefusal;
use sender::{Passage, PassageRefusal, Sender};
use std::alloc::Global;

// How a passage ends.
#[derive(Clone, Copy, PartialEq)]
pub(crate) enum Ending {
    Confirmed,
    GivenUp,
    LetGo,
}

impl Ending {
    fn draw(random: &mut Random) -> Ending {
        match random.below(4) {
            0 => Ending::GivenUp,
            1 => Ending::LetGo,
            _ => Ending::Confirmed,
        }
    }

    pub(crate) fn word(self) -> &'static str {
        match self {
            Ending::Confirmed => "confirmed",
            Ending::GivenUp => "given up",
            Ending::LetGo => "let go",
        }
    }

    pub(crate) fn end(self, passage: Passage<'_>) {
        match self {
            Ending::Confirmed => passage.confirm(),
            Ending::GivenUp => passage.give_up(),
            Ending::LetGo => {
                let _let_go = passage;
            }
        }
    }
}

// What a copy is asked for, and what it is lent.
#[derive(Clone, Copy)]
pub(crate) struct Request {
    pub(crate) count: usize,
    pub(crate) buffer: usize,
    pub(crate) target: usize,
}

impl Request {
    // The number that this copy is refused with, where a round has so many octets.
    pub(crate) fn refused(self, round: usize) -> Option<u8> {
        if self.count == 0 || self.count > round {
            Some(8)
        } else if self.buffer < round || self.target < self.count {
            Some(6)
        } else {
            None
        }
    }

    // A copy of chance: most are performed, and some are refused.
    fn draw(random: &mut Random, round: usize) -> Request {
        let count = match random.below(12) {
            0 => 0,
            1 => round,
            2 => round.saturating_add(1),
            3 => random.next() as usize,
            _ => random.below(round.min(40)).saturating_add(1),
        };
        let buffer = match random.below(8) {
            0 => round.saturating_sub(1),
            1 => round,
            _ => round.saturating_add(8),
        };
        let room = count.min(round.saturating_add(2));
        let target = match random.below(8) {
            0 => room.saturating_sub(1),
            1 => room.saturating_add(5),
            _ => room,
        };
        Request {
            count,
            buffer,
            target,
        }
    }
}

// What came of a copy: in what it differs, if in anything, and the octets that are due.
#[derive(Drop)]
pub(crate) struct Copied {
    pub(crate) differs: Option<&'static str>,
    due: Vec<u8>,
}

// A buffer, where the sender stands, and the octets of all confirmed passages.
#[derive(Drop)]
pub(crate) struct Model {
    heap: Global,
    pub(crate) round: usize,
    buffer: Vec<u8>,
    pub(crate) standing: usize,
    confirmed: Vec<u8>,
}

impl Model {
    // The buffer has eight octets more than a round.
    pub(crate) fn new(heap: Global, random: &mut Random, sizes: Sizes, standing: usize) -> Model {
        let round = sizes.round();
        Model {
            heap,
            round,
            buffer: random.octets(heap, round.saturating_add(8)),
            standing,
            confirmed: Vec::new(heap),
        }
    }

    // The octet so many behind the standing, over the end if need be.
    fn behind(&self, count: usize) -> usize {
        let octet = self.standing.saturating_add(count);
        octet.checked_rem(self.round).unwrap_or(0)
    }

    // The octets that are due of a copy from an octet on: none where it is refused.
    fn due(&self, at: usize, request: Request) -> Vec<u8> {
        if request.refused(self.round).is_some() {
            return Vec::new(self.heap);
        }
        let round = self.buffer.get(..self.round).unwrap_or(&[]);
        let mut octets = round
            .get(at..)
            .unwrap_or(&[])
            .to_vec(self.heap)
            .unwrap_or(Vec::new(self.heap));
        let _extended = octets.extend_from_slice(round);
        octets.truncate(request.count);
        octets
    }

    // Asks a passage for a copy, so many octets behind the standing.
    pub(crate) fn copy(
        &self,
        passage: &mut Passage<'_>,
        before: usize,
        request: Request,
    ) -> Copied {
        let due = self.due(self.behind(before), request);
        let mut target = marked(self.heap, request.target);
        let lent = self.buffer.as_slice();
        let lent = lent.get(..request.buffer).unwrap_or(lent);
        let found = passage.copy(lent, target.as_mut_slice(), request.count);
        let refused = found.err().map(|refusal| refusal.number());
        let differs = differing(&[
            ("the refusal", refused == request.refused(self.round)),
            ("the octets", begins_with(target.as_slice(), due.as_slice())),
            ("what lies behind", is_marked(target.as_slice(), due.len())),
        ]);
        Copied { differs, due }
    }

    // Asks a passage for some copies, one behind the other.
    fn copies(&self, passage: &mut Passage<'_>, requests: &[Request]) -> Copied {
        let mut all = Copied {
            differs: None,
            due: Vec::new(self.heap),
        };
        for request in requests {
            let copied = self.copy(passage, all.due.len(), *request);
            all.differs = all.differs.or(copied.differs);
            let _extended = all.due.extend_from_slice(copied.due.as_slice());
        }
        all
    }

    fn confirm(&mut self, octets: &[u8]) {
        self.standing = self.behind(octets.len());
        let _extended = self.confirmed.extend_from_slice(octets);
    }

    // A passage of some copies that ends so; in what it differs, if in anything.
    fn pass(
        &mut self,
        sender: &mut Sender,
        requests: &[Request],
        ending: Ending,
    ) -> Option<&'static str> {
        let mut passage = Passage::begin(sender.size(), &mut sender.cursor);
        let copied = self.copies(&mut passage, requests);
        ending.end(passage);
        if ending == Ending::Confirmed {
            self.confirm(copied.due.as_slice());
        }
        copied.differs.or(differing(&[
            ("the standing", sender.standing() == self.standing),
            ("the cursor", sender.cursor == self.standing),
        ]))
    }

    // Whether the confirmed octets are the buffer's, round after round.
    fn confirmed_in_rounds(&self) -> bool {
        for round in self.confirmed.chunks(self.round.max(1)) {
            if !begins_with(self.buffer.as_slice(), round) {
                return false;
            }
        }
        true
    }
}

// A passage whose second copy is refused is let go on the way out.
fn two_copies(sender: &mut Sender, buffer: &[u8], target: &mut [u8]) -> Result<(), PassageRefusal> {
    let mut passage = Passage::begin(sender.size(), &mut sender.cursor);
    passage.copy(buffer, target, 1)?;
    passage.copy(buffer, target, 0)?;
    passage.confirm();
    Ok(())
}

// A passage of chance; after each, another is left by a refusal.
fn try_passage(
    model: &mut Model,
    sender: &mut Sender,
    random: &mut Random,
    ending: Ending,
) -> Option<&'static str> {
    let round = model.round;
    let first = Request::draw(random, round);
    let second = Request::draw(random, round);
    let requests = [first, second, Request::draw(random, round)];
    let requests = &requests[..random.below(3) % 3 + 1];
    let differs = model.pass(sender, requests, ending);
    let left = two_copies(sender, model.buffer.as_slice(), &mut [0; 8]);
    let is_left = left == Err(PassageRefusal::Count);
    differs.or(differing(&[
        ("the refusal on the way out", is_left),
        ("the standing after it", sender.standing() == model.standing),
    ]))
}

// Many passages of a sender.
fn try_passages(
    family: &mut Family,
    random: &mut Random,
    sizes: Sizes,
    model: &mut Model,
    sender: &mut Sender,
) {
    for turn in 0..300 {
        let ending = Ending::draw(random);
        let case = Case {
            words: ["passage", ending.word(), "", ""],
            numbers: [sizes.octets, sizes.check, turn, 0],
        };
        family.case(case, try_passage(model, sender, random, ending));
    }
    family.facts(&[("the row of confirmed octets", model.confirmed_in_rounds())]);
}

fn try_sender(
    family: &mut Family,
    heap: Global,
    random: &mut Random,
    sizes: Sizes,
) -> Result<(), SizeRefusal> {
    let mut sender = Sender::new(sizes.octets, sizes.check)?;
    let mut model = Model::new(heap, random, sizes, 0);
    try_passages(family, random, sizes, &mut model, &mut sender);
    Ok(())
}

pub(crate) fn run(rt: &HostRuntime) -> anyhow::Result<Outcome> {
    let mut family = Family::begin("senders");
    let mut random = Random(60);
    for octets in [1, 2, 3, 5, 13, 40, 100, 511, 512] {
        for check in CHECKS {
            let sizes = Sizes::of(octets, check);
            try_sender(&mut family, rt.alloc(), &mut random, sizes)?;
        }
    }
    Ok(family.end(rt)?)
}

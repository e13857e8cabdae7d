// A passage's copy: what it refuses at each edge of the count and of both buffers, and what it
// leaves.
use crate::second::family::{Case, Family, Outcome, differing};
use crate::second::random::Random;
use crate::second::sizes::Sizes;
use crate::senders::{Ending, Model, Request};
use block::SizeRefusal;
use sender::{Passage, Sender};
use std::alloc::Global;

// The octet at which the sender stands.
const STANDING: usize = 5;

// A copy in a passage after which the sender has to be back.
fn try_copy(
    family: &mut Family,
    model: &Model,
    sender: &mut Sender,
    request: Request,
    ending: Ending,
) {
    let mut passage = Passage::begin(sender.size(), &mut sender.cursor);
    let copied = model.copy(&mut passage, 0, request);
    ending.end(passage);
    let is_back = sender.cursor == STANDING;
    let case = Case {
        words: ["copy", ending.word(), "", ""],
        numbers: [request.count, request.buffer, request.target, STANDING],
    };
    family.case(
        case,
        copied.differs.or(differing(&[("the cursor", is_back)])),
    );
}

// A passage that is given up leaves the sender where it was, and so does a refused copy that is
// confirmed.
fn try_request(family: &mut Family, model: &Model, sender: &mut Sender, request: Request) {
    try_copy(family, model, sender, request, Ending::GivenUp);
    if request.refused(model.round).is_some() {
        try_copy(family, model, sender, request, Ending::Confirmed);
    }
}

// Every edge of the two buffers with one count.
fn try_count(family: &mut Family, model: &Model, sender: &mut Sender, count: usize) {
    let round = model.round;
    let more = round.saturating_add(1);
    let room = count.min(more);
    for buffer in [0, round.saturating_sub(1), round, more] {
        for target in [0, room.saturating_sub(1), room, room.saturating_add(3)] {
            let request = Request {
                count,
                buffer,
                target,
            };
            try_request(family, model, sender, request);
        }
    }
}

// Every edge of the count.
fn try_counts(family: &mut Family, model: &Model, sender: &mut Sender) {
    let round = model.round;
    let less = round.saturating_sub(1);
    let more = round.saturating_add(1);
    for count in [0, 1, 2, less, round, more, usize::MAX] {
        try_count(family, model, sender, count);
    }
}

fn try_size(family: &mut Family, heap: Global, sizes: Sizes) -> Result<(), SizeRefusal> {
    let mut sender = Sender::new(sizes.octets, sizes.check)?;
    sender.cursor = STANDING;
    let model = Model::new(heap, &mut Random(70), sizes, STANDING);
    try_counts(family, &model, &mut sender);
    Ok(())
}

pub(crate) fn run(rt: &HostRuntime) -> anyhow::Result<Outcome> {
    let mut family = Family::begin("refusals of copies");
    for sizes in [Sizes::of(1, 4), Sizes::of(3, 28), Sizes::of(512, 12)] {
        try_size(&mut family, rt.alloc(), sizes)?;
    }
    Ok(family.end(rt)?)
}

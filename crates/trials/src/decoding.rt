// Decoding: what is refused where any of the four buffers is short, and what is left of the three
// that it may write.
use crate::lent::{Lengths, Lent, marked_tally};
use crate::second::family::{Case, Family, Outcome, differing};
use crate::second::refusals::{Check, first};
use crate::second::sizes::Sizes;
use crate::summed::Summed;
use crate::tried::Tried;
use code::Order;
use sheet::Sheet;
use std::alloc::Global;
use std::io;
use weighing::hard::Hard;
use weighing::soft::Soft;
use weighing::worst::Worst;

// A length by its turn: none, one short, just enough, or some more.
fn length(needed: usize, turn: usize) -> usize {
    match turn % 4 {
        0 => 0,
        1 => needed.saturating_sub(1),
        2 => needed,
        _ => needed.saturating_add(3),
    }
}

// Decodes with buffers of these lengths; in what it differs, if in anything.
fn decode<R: Tried>(
    heap: Global,
    sheet: &Sheet<R>,
    needed: Lengths,
    lengths: Lengths,
) -> Option<&'static str> {
    let tally = marked_tally::<R>(heap, lengths.tally);
    let mut lent = Lent::<R>::marked(heap, lengths);
    let decoded = lent.decode(sheet, tally.as_slice());
    let found = decoded.err().map(|refusal| refusal.number());
    let due = first(&[Check {
        holds: lengths.is_short_of(needed),
        number: 6,
    }]);
    let used = match due {
        None => needed,
        Some(_) => Lengths::none(),
    };
    let [target, survivors, paths] = lent.stay(used);
    differing(&[
        ("the refusal", found == due),
        ("the target", target),
        ("the survivors", survivors),
        ("the path weights", paths),
    ])
}

// Each length of each buffer with each of the others.
fn try_decodes<R: Tried>(family: &mut Family, heap: Global, sheet: &Sheet<R>, needed: Lengths) {
    for turn in 0..256 {
        let lengths = Lengths {
            tally: length(needed.tally, turn),
            target: length(needed.target, turn / 4),
            survivors: length(needed.survivors, turn / 16),
            paths: length(needed.paths, turn / 64),
        };
        let differs = decode(heap, sheet, needed, lengths);
        family.case(Case::of("decode", lengths.numbers()), differs);
    }
}

fn try_size<R: Tried>(family: &mut Family, heap: Global, sizes: Sizes) {
    let needed = Lengths::needed(sizes);
    match Summed::<R>::open(heap, sizes, Order::order_r(), needed.tally) {
        Ok(summed) => try_decodes(family, heap, &summed.sheet, needed),
        Err(_) => family.case(Case::of("open", needed.numbers()), Some("the opening")),
    }
}

fn try_reading<R: Tried>(family: &mut Family, heap: Global) {
    for sizes in [Sizes::of(1, 4), Sizes::of(3, 12), Sizes::of(60, 28)] {
        try_size::<R>(family, heap, sizes);
    }
}

pub(crate) fn run(rt: &HostRuntime) -> io::Result<Outcome> {
    let mut family = Family::begin("refusals of decodes");
    try_reading::<Hard>(&mut family, rt.alloc());
    try_reading::<Soft>(&mut family, rt.alloc());
    try_reading::<Worst>(&mut family, rt.alloc());
    family.end(rt)
}

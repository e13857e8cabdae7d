// Opening and wiping a sheet: what they refuse, what they clear, and what they leave.
use crate::lent::{is_marked_tally, is_zero_tally, marked_tally};
use crate::second::family::{Case, Family, Outcome, differing};
use crate::second::refusals::{CHECK_EDGES, OCTETS, first, short, wrong_check, wrong_octets};
use crate::second::sizes::{CHECKS, Sizes};
use crate::summed::Summed;
use crate::tried::Tried;
use code::Order;
use sheet::{OpenRefusal, Sheet};
use std::alloc::Global;
use std::io;
use weighing::hard::Hard;
use weighing::soft::Soft;
use weighing::worst::Worst;

// In what an answer differs, if in anything: a sheet of these sizes is due, or this refusal.
fn answer<R: Tried>(
    found: Result<Sheet<R>, OpenRefusal>,
    sizes: Sizes,
    due: Option<u8>,
) -> Option<&'static str> {
    match found {
        Ok(sheet) => differing(&[
            ("the refusal", due.is_none()),
            ("T", sheet.octets() == sizes.octets),
            ("L", sheet.check() == sizes.check),
            ("N", sheet.block_octets() == sizes.block),
            ("the count", sheet.count() == 0),
        ]),
        Err(refusal) => differing(&[("the refusal", due == Some(refusal.number()))]),
    }
}

// The entries that a call clears: all places, and none where it is refused.
fn cleared(sizes: Sizes, due: Option<u8>) -> usize {
    match due {
        None => sizes.places(),
        Some(_) => 0,
    }
}

// Opens a sheet over a tally with so many entries.
fn try_open<R: Tried>(family: &mut Family, heap: Global, sizes: Sizes, entries: usize) {
    let octets = sizes.octets;
    let check = sizes.check;
    let due = first(&[
        wrong_octets(octets),
        wrong_check(check),
        short(entries, sizes.places()),
    ]);
    let cleared = cleared(sizes, due);
    let mut tally = marked_tally::<R>(heap, entries);
    let found = Sheet::<R>::open(octets, check, Order::order_r(), tally.as_mut_slice());
    let differs = answer(found, sizes, due).or(differing(&[
        (
            "what is cleared",
            is_zero_tally::<R>(tally.as_slice(), cleared),
        ),
        (
            "what stays",
            is_marked_tally::<R>(tally.as_slice(), cleared),
        ),
    ]));
    family.case(Case::of("open", [octets, check, entries, 0]), differs);
}

// Lengths of a tally about the least that serves.
fn lengths(places: usize) -> [usize; 4] {
    [
        0,
        places.saturating_sub(1),
        places,
        places.saturating_add(5),
    ]
}

// Every edge of the octets and the check.
fn try_opens<R: Tried>(family: &mut Family, heap: Global) {
    for check in CHECK_EDGES {
        for octets in OCTETS {
            let sizes = Sizes::of(octets, check);
            for entries in lengths(sizes.places().min(17000)) {
                try_open::<R>(family, heap, sizes, entries);
            }
        }
    }
}

// Wipes a sheet that has taken eight symbols, over a tally with so many entries.
fn try_wipe<R: Tried>(
    family: &mut Family,
    heap: Global,
    sheet: &mut Sheet<R>,
    sizes: Sizes,
    entries: usize,
) {
    let due = first(&[short(entries, sizes.places())]);
    let cleared = cleared(sizes, due);
    let count = if due.is_some() { 8 } else { 0 };
    let mut tally = marked_tally::<R>(heap, entries);
    let found = sheet.wipe(tally.as_mut_slice());
    let found = found.err().map(|refusal| refusal.number());
    let differs = differing(&[
        ("the refusal", found == due),
        ("the count", sheet.count() == count),
        (
            "what is cleared",
            is_zero_tally::<R>(tally.as_slice(), cleared),
        ),
        (
            "what stays",
            is_marked_tally::<R>(tally.as_slice(), cleared),
        ),
    ]);
    let numbers = [sizes.octets, sizes.check, entries, 0];
    family.case(Case::of("wipe", numbers), differs);
}

fn try_wipes<R: Tried>(family: &mut Family, heap: Global, sizes: Sizes) {
    for entries in lengths(sizes.places()) {
        match Summed::<R>::open(heap, sizes, Order::order_r(), sizes.places()) {
            Ok(mut own) => {
                let _taken = own.take(0, &[1; 8]);
                try_wipe(family, heap, &mut own.sheet, sizes, entries);
            }
            Err(_) => family.case(
                Case::of("open", [sizes.octets, sizes.check, entries, 0]),
                Some("the opening"),
            ),
        }
    }
}

fn try_reading<R: Tried>(family: &mut Family, heap: Global) {
    try_opens::<R>(family, heap);
    for octets in [1, 2, 40, 512] {
        for check in CHECKS {
            try_wipes::<R>(family, heap, Sizes::of(octets, check));
        }
    }
}

pub(crate) fn run(rt: &HostRuntime) -> io::Result<Outcome> {
    let mut family = Family::begin("refusals of opening and wiping");
    try_reading::<Hard>(&mut family, rt.alloc());
    try_reading::<Soft>(&mut family, rt.alloc());
    try_reading::<Worst>(&mut family, rt.alloc());
    family.end(rt)
}

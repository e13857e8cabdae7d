// Taking symbols: what is refused at each edge of tally, start, count, fullness and symbols, and
// what is left.
use crate::frame::MOST_SYMBOLS;
use crate::second::book::{Book, Sums};
use crate::second::family::{Case, Family, Outcome, differing};
use crate::second::refusals::{Check, first, short};
use crate::summed::Summed;
use crate::tried::Tried;
use sheet::{OpenRefusal, TakeRefusal, Taken};
use std::alloc::Global;
use std::io;
use weighing::hard::Hard;
use weighing::soft::Soft;
use weighing::worst::Worst;

// A block of two octets has so many places; the tally has three more.
const PLACES: usize = 64;

const ENTRIES: usize = 67;

// A take that is tried: the entries that it is lent, its start, how many symbols, and which two of
// them are unlawful.
#[derive(Clone, Copy)]
struct Offer {
    entries: usize,
    start: usize,
    count: usize,
    unlawful: [Option<usize>; 2],
}

impl Offer {
    // The index of the first unlawful symbol.
    fn first_unlawful(self) -> Option<usize> {
        for index in 0..self.count {
            if self.unlawful.contains(&Some(index)) {
                return Some(index);
            }
        }
        None
    }

    fn symbol(self, index: usize) -> u8 {
        if self.unlawful.contains(&Some(index)) {
            0x80
        } else {
            (index % 3 % 2) as u8
        }
    }

    fn symbols(self, heap: Global) -> Vec<u8> {
        let mut symbols = Vec::new(heap);
        for index in 0..self.count {
            let _pushed = symbols.push(self.symbol(index));
        }
        symbols
    }

    // The number that is due where so many symbols were taken before.
    fn due(self, taken: usize) -> Option<u8> {
        let count = self.count;
        let wrong_count = count == 0 || count % 8 != 0 || count > PLACES;
        first(&[
            short(self.entries, PLACES),
            Check {
                holds: self.start >= 8,
                number: 7,
            },
            Check {
                holds: wrong_count,
                number: 8,
            },
            Check {
                holds: taken.saturating_add(count) > MOST_SYMBOLS,
                number: 10,
            },
            Check {
                holds: self.first_unlawful().is_some(),
                number: 9,
            },
        ])
    }

    // Whether an answer has the number that is due, and with it the count or the index.
    fn is_answered(self, found: Result<Taken, TakeRefusal>, due: Option<u8>, count: usize) -> bool {
        match found {
            Ok(taken) => due.is_none() && taken.total == count,
            Err(TakeRefusal::Symbol(index)) => {
                due == Some(9) && self.first_unlawful() == Some(index)
            }
            Err(refusal) => due == Some(refusal.number()),
        }
    }
}

// A small sheet that has taken so many symbols: a multiple of a round, or eight less. Where a take
// is refused, its count is another than the one that is due.
fn filled<R: Tried>(heap: Global, symbols: usize) -> Result<Summed<R>, OpenRefusal> {
    let mut sheet = Summed::<R>::small(heap, ENTRIES)?;
    for _ in 0..symbols / PLACES {
        let _taken = sheet.take(0, &[1; PLACES]);
    }
    if symbols % PLACES > 0 {
        let _taken = sheet.take(0, &[1; PLACES - 8]);
    }
    Ok(sheet)
}

// Adds a take to sums.
fn add(held: &mut [Sums], take: &Book) {
    let added = take.sums();
    for (held, added) in held.iter_mut().zip(added.iter()) {
        held.zero = take.kind.join(held.zero, added.zero);
        held.one = take.kind.join(held.one, added.one);
    }
}

// What a tally should hold once a take was performed, or refused.
fn sums_after<R: Tried>(
    heap: Global,
    sheet: &Summed<R>,
    offer: Offer,
    symbols: &[u8],
    due: Option<u8>,
) -> Vec<Sums> {
    let mut sums = sheet.sums();
    if due.is_none() {
        let mut take = Book::new(heap, R::kind(), PLACES);
        take.note(offer.start, symbols);
        add(sums.as_mut_slice(), &take);
    }
    sums
}

// Hands a sheet the take that is tried.
fn hand<R: Tried>(
    sheet: &mut Summed<R>,
    offer: Offer,
    symbols: &[u8],
) -> Result<Taken, TakeRefusal> {
    let tally = sheet.tally.as_mut_slice();
    let entries = offer.entries.min(tally.len());
    sheet
        .sheet
        .take(&mut tally[..entries], offer.start, symbols)
}

// Tries a take on a sheet; in what it differs, if in anything.
fn try_offer<R: Tried>(
    heap: Global,
    sheet: &mut Summed<R>,
    offer: Offer,
    taken: usize,
) -> Option<&'static str> {
    let due = offer.due(taken);
    let symbols = offer.symbols(heap);
    let sums = sums_after(heap, sheet, offer, symbols.as_slice(), due);
    let count = match due {
        None => taken.saturating_add(offer.count),
        Some(_) => taken,
    };
    let found = hand(sheet, offer, symbols.as_slice());
    differing(&[
        ("the answer", offer.is_answered(found, due, count)),
        ("the count", sheet.sheet.count() == count),
        ("the tally", sheet.has_sums(sums.as_slice())),
    ])
}

// Makes a sheet anew that has taken more than it had.
fn renew<R: Tried>(heap: Global, sheet: &mut Summed<R>, taken: usize) {
    if sheet.sheet.count() != taken
        && let Ok(made) = filled::<R>(heap, taken)
    {
        *sheet = made;
    }
}

// Takes that differ in their symbols alone. The sheet is made anew after each that is performed.
fn try_symbols<R: Tried>(
    family: &mut Family,
    heap: Global,
    sheet: &mut Summed<R>,
    offer: Offer,
    taken: usize,
) {
    let last = offer.count.saturating_sub(1);
    for unlawful in [
        [None, None],
        [Some(0), None],
        [Some(last), None],
        [Some(last), Some(2)],
    ] {
        let offer = Offer { unlawful, ..offer };
        let differs = try_offer(heap, sheet, offer, taken);
        let numbers = [taken, offer.entries, offer.start, offer.count];
        family.case(Case::of("take", numbers), differs);
        renew(heap, sheet, taken);
    }
}

// Takes of each count, from each start.
fn try_counts<R: Tried>(
    family: &mut Family,
    heap: Global,
    sheet: &mut Summed<R>,
    entries: usize,
    taken: usize,
) {
    for count in [0, 4, 7, 8, 9, 56, 63, 64, 65, 72] {
        for start in [0, 3, 7, 8, 9, usize::MAX] {
            let offer = Offer {
                entries,
                start,
                count,
                unlawful: [None, None],
            };
            try_symbols(family, heap, sheet, offer, taken);
        }
    }
}

// All takes that are tried on a sheet that has taken so many symbols, over tallies of these
// lengths.
fn try_takes<R: Tried>(family: &mut Family, heap: Global, taken: usize, tallies: &[usize]) {
    match filled::<R>(heap, taken) {
        Ok(mut sheet) => {
            for entries in tallies {
                try_counts(family, heap, &mut sheet, *entries, taken);
            }
        }
        Err(_) => family.case(Case::of("open", [taken, 0, 0, 0]), Some("the opening")),
    }
}

fn try_reading<R: Tried>(family: &mut Family, heap: Global) {
    try_takes::<R>(family, heap, 0, &[0, 63, 64, 67]);
    try_takes::<R>(family, heap, 120, &[63, 64, 67]);
}

pub(crate) fn run(rt: &HostRuntime) -> io::Result<Outcome> {
    let mut family = Family::begin("refusals of takes");
    let heap = rt.alloc();
    try_reading::<Hard>(&mut family, heap);
    try_reading::<Soft>(&mut family, heap);
    try_reading::<Worst>(&mut family, heap);
    for taken in [MOST_SYMBOLS - 64, MOST_SYMBOLS - 8, MOST_SYMBOLS] {
        try_takes::<Hard>(&mut family, heap, taken, &[63, 67]);
    }
    family.end(rt)
}

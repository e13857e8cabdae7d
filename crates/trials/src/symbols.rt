// Symbols: all 256 octets by each reading, whether each is a symbol, and what it weighs against
// each bit.
use crate::second::book::Sums;
use crate::second::family::{Case, Family, Outcome, differing};
use crate::second::readings::Kind;
use crate::summed::Summed;
use crate::tried::Tried;
use sheet::{TakeRefusal, Taken};
use std::alloc::Global;
use std::io;
use weighing::hard::Hard;
use weighing::soft::Soft;
use weighing::worst::Worst;

// The index of the octet in its take, and so its place. The other seven of the take are symbols by
// each reading.
const AT: usize = 3;

// A block of two octets has so many places.
const PLACES: usize = 64;

// A take of eight that has this octet.
fn symbols(octet: u8) -> [u8; 8] {
    let mut symbols = [1; 8];
    symbols[AT] = octet;
    symbols
}

// What the tally has at the octet's place: what a symbol weighs, and nothing where the take is
// refused.
fn sums(kind: Kind, octet: u8) -> Sums {
    if kind.is_symbol(octet) {
        Sums {
            zero: kind.weight(octet, false),
            one: kind.weight(octet, true),
        }
    } else {
        Sums { zero: 0, one: 0 }
    }
}

// Whether a take that has this octet is answered so: it is performed just where the octet is a
// symbol.
fn is_due(found: Result<Taken, TakeRefusal>, kind: Kind, octet: u8) -> bool {
    match found {
        Ok(taken) => kind.is_symbol(octet) && taken.total == 8,
        Err(refusal) => {
            let is_at = refusal == TakeRefusal::Symbol(AT);
            !kind.is_symbol(octet) && is_at && refusal.number() == 9
        }
    }
}

// Whether the tally has these sums at the octet's place.
fn has_sums<R: Tried>(summed: &Summed<R>, sums: Sums) -> bool {
    match summed.tally.get(AT) {
        Some(entry) => R::number(entry.zero) == sums.zero && R::number(entry.one) == sums.one,
        None => false,
    }
}

// A take that has this octet adds what the symbol weighs; a refused one leaves tally and count.
fn try_octet<R: Tried>(summed: &mut Summed<R>, octet: u8) -> Option<&'static str> {
    let kind = R::kind();
    let found = summed.take(0, &symbols(octet));
    let count = if kind.is_symbol(octet) { 8 } else { 0 };
    differing(&[
        ("the answer", is_due(found, kind, octet)),
        ("the weights", has_sums(summed, sums(kind, octet))),
        ("the count", summed.sheet.count() == count),
    ])
}

fn try_reading<R: Tried>(family: &mut Family, heap: Global) {
    for octet in 0..=255u8 {
        let differs = match Summed::<R>::small(heap, PLACES) {
            Ok(mut summed) => try_octet(&mut summed, octet),
            Err(_) => Some("the opening"),
        };
        let case = Case {
            words: ["octet", R::kind().word(), "", ""],
            numbers: [usize::from(octet), 0, 0, 0],
        };
        family.case(case, differs);
    }
}

pub(crate) fn run(rt: &HostRuntime) -> io::Result<Outcome> {
    let mut family = Family::begin("symbols");
    try_reading::<Hard>(&mut family, rt.alloc());
    try_reading::<Soft>(&mut family, rt.alloc());
    try_reading::<Worst>(&mut family, rt.alloc());
    family.end(rt)
}

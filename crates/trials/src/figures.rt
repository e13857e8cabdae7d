// Worked figures: blocks of one octet with a check of four bits in order R, what is named of them,
// and the edges of a sheet.
use crate::frame::{Frame, MOST_SYMBOLS};
use crate::hearing::{Hearing, Named};
use crate::second::all::Least;
use crate::second::coder::{bits_of, buffer_of};
use crate::second::family::{Fact, Family, Outcome};
use crate::second::heard::Heard;
use crate::second::sizes::{ORDER_R, Sizes};
use crate::summed::Summed;
use crate::tried::Tried;
use sheet::{OpenRefusal, TakeRefusal, Taken};
use std::alloc::Global;
use std::io;
use weighing::hard::Hard;
use weighing::soft::Soft;
use weighing::worst::Worst;

// The check 1101, the highest term first, and the check of hex 80.
const CHECK: [bool; 4] = [true, true, false, true];

// The bits of the buffer of hex 80 as hard symbols, with that of step 0 turned.
fn turned_block(frame: &Frame) -> Vec<u8> {
    let bits = buffer_of(frame.heap, &[0x80], 4, frame.sources.as_slice());
    let mut symbols = Vec::new(frame.heap);
    for (place, bit) in bits.iter().enumerate() {
        let _pushed = symbols.push(u8::from(*bit != (place == 0)));
    }
    symbols
}

// What an octet with the check 1101 weighs.
fn weight_with_check(heap: Global, heard: &Heard, octet: u8) -> u64 {
    let mut message = bits_of(heap, &[octet]);
    let _extended = message.extend_from_slice(&CHECK);
    heard.weight(message.as_slice())
}

// What came of a block: whether its symbols were counted, what was named, its first octet and
// whether it has the check 1101, the least of all messages, what hex 80, 01 and 81 with that check
// weigh, and in what the second decoder differs, if in anything.
#[derive(Clone, Copy)]
struct Told {
    counts: bool,
    named: Named,
    octet: u8,
    has_check: bool,
    least: Least,
    weights: [u64; 3],
    differs: Option<&'static str>,
}

impl Told {
    fn second(self) -> Fact {
        (
            self.differs.unwrap_or("the second decoder"),
            self.differs.is_none(),
        )
    }
}

fn weights(heap: Global, heard: &Heard) -> [u64; 3] {
    [
        weight_with_check(heap, heard, 0x80),
        weight_with_check(heap, heard, 0x01),
        weight_with_check(heap, heard, 0x81),
    ]
}

// Takes the symbols of a block from its first place on, and decodes.
fn comes<R: Tried>(hearing: &mut Hearing<'_, R>, symbols: &[u8]) -> Told {
    let heap = hearing.frame.heap;
    let counts = hearing.take(0, symbols);
    let compared = hearing.compared();
    let heard = hearing.heard();
    let bits = bits_of(heap, hearing.octets());
    Told {
        counts,
        named: compared.named,
        octet: hearing.octets().first().copied().unwrap_or(0),
        has_check: bits.get(8..12) == Some(&CHECK[..]),
        least: heard.least(),
        weights: weights(heap, &heard),
        differs: compared.differs,
    }
}

fn tell<R: Tried>(frame: &Frame, symbols: &[u8]) -> Result<Told, OpenRefusal> {
    let mut hearing = Hearing::<R>::open(frame)?;
    Ok(comes(&mut hearing, symbols))
}

// Output 1 alone, one bit of it turned: three messages weigh 1.
fn ties(told: Told) -> [Fact; 10] {
    let [first, second, third] = told.weights;
    [
        ("the count", told.counts),
        ("the weight answered", told.named.weight == 1),
        ("the octet named", matches!(told.octet, 0x80 | 0x01 | 0x81)),
        ("the check named", told.has_check),
        ("the weight of hex 80", first == 1),
        ("the weight of hex 01", second == 1),
        ("the weight of hex 81", third == 1),
        ("the least weight of all messages", told.least.weight == 1),
        ("how many weigh least", told.least.messages == 3),
        told.second(),
    ]
}

// The whole block, one bit turned: one message weighs 1.
fn whole_block(told: Told) -> [Fact; 8] {
    [
        ("the count", told.counts),
        ("the weight answered", told.named.weight == 1),
        ("the octet named", told.octet == 0x80),
        ("the verdict on the check", told.named.check_fits),
        ("the least weight of all messages", told.least.weight == 1),
        ("how many weigh least", told.least.messages == 1),
        ("the octet of the least", told.least.first % 256 == 0x80),
        told.second(),
    ]
}

// Output 1 as levels: step 0 is 9, steps 7 and 14 are -20, and the others are -4.
const LEVELS: [u8; 16] = [
    9, 0xfc, 0xfc, 0xfc, 0xfc, 0xfc, 0xfc, 0xec, 0xfc, 0xfc, 0xfc, 0xfc, 0xfc, 0xfc, 0xec, 0xfc,
];

// The same levels by a reading that adds them, and by one that takes the worst.
fn levels(soft: Told, worst: Told) -> [Fact; 9] {
    [
        ("the count of the soft sheet", soft.counts),
        ("the soft weight", soft.named.weight == 9),
        ("the octet named", soft.octet == 0),
        ("the least soft weight", soft.least.weight == 9),
        soft.second(),
        ("the count of the worst sheet", worst.counts),
        ("the worst weight", worst.named.weight == 4),
        ("the least worst weight", worst.least.weight == 4),
        worst.second(),
    ]
}

// Starts, counts and symbols at their edges, for a block of two octets.
fn edges(sheet: &mut Summed<Soft>) -> [Fact; 8] {
    let mut symbols = [0x81; 8];
    symbols[5] = 0x80;
    [
        ("start 7", sheet.refused(7, &[1; 8]).is_none()),
        ("start 8", sheet.refused(8, &[1; 8]) == Some(7)),
        ("64 symbols", sheet.refused(0, &[1; 64]).is_none()),
        ("72 symbols", sheet.refused(0, &[1; 72]) == Some(8)),
        ("4 symbols", sheet.refused(0, &[1; 4]) == Some(8)),
        ("hex 81", sheet.refused(0, &[0x81; 8]).is_none()),
        ("hex 80", sheet.refused(0, &symbols) == Some(9)),
        (
            "the index of hex 80",
            sheet.take(0, &symbols) == Err(TakeRefusal::Symbol(5)),
        ),
    ]
}

// Takes as many symbols as a sheet takes, and answers whether each take was performed.
fn fill(sheet: &mut Summed<Hard>) -> bool {
    let mut all_pass = true;
    for turn in 1..=16384usize {
        let taken = sheet.take(0, &[1; 64]);
        let total = turn.saturating_mul(64);
        all_pass = all_pass && taken == Ok(Taken { total });
    }
    all_pass
}

fn first_weight(sheet: &Summed<Hard>) -> u32 {
    match sheet.tally.as_slice() {
        [entry, ..] => entry.zero,
        [] => 0,
    }
}

// As many symbols as a sheet takes, then eight more, and eight after a wipe.
fn full_sheet(sheet: &mut Summed<Hard>) -> [Fact; 6] {
    let all_pass = fill(sheet);
    let count = sheet.sheet.count();
    let more = sheet.refused(0, &[1; 8]);
    let count_after = sheet.sheet.count();
    let weight = first_weight(sheet);
    let wiped = sheet.sheet.wipe(sheet.tally.as_mut_slice()).is_ok();
    let again = sheet.refused(0, &[1; 8]);
    [
        ("one of the takes", all_pass),
        ("the count", count == MOST_SYMBOLS),
        ("eight more", more == Some(10)),
        ("the count after it", count_after == MOST_SYMBOLS),
        ("the first entry", weight == 16384),
        ("eight after a wipe", wiped && again.is_none()),
    ]
}

fn family(rt: &HostRuntime, name: &'static str, facts: &[Fact]) -> io::Result<Outcome> {
    let mut family = Family::begin(name);
    family.facts(facts);
    family.end(rt)
}

// What is named of hex 80.
fn blocks(rt: &HostRuntime, frame: &Frame) -> anyhow::Result<Outcome> {
    let symbols = turned_block(frame);
    let symbols = symbols.as_slice();
    let output1 = symbols.get(..16).unwrap_or(symbols);
    let ties = ties(tell::<Hard>(frame, output1)?);
    let whole = whole_block(tell::<Hard>(frame, symbols)?);
    Ok(family(rt, "ties", &ties)?.with(family(rt, "a whole block", &whole)?))
}

fn sheets(rt: &HostRuntime) -> anyhow::Result<Outcome> {
    let edges = edges(&mut Summed::small(rt.alloc(), 64)?);
    let full = full_sheet(&mut Summed::small(rt.alloc(), 64)?);
    Ok(family(rt, "edges", &edges)?.with(family(rt, "a full sheet", &full)?))
}

pub(crate) fn run(rt: &HostRuntime) -> anyhow::Result<Outcome> {
    let frame = Frame::new(rt.alloc(), Sizes::of(1, 4), &ORDER_R)?;
    let named = blocks(rt, &frame)?;
    let soft = tell::<Soft>(&frame, &LEVELS)?;
    let worst = tell::<Worst>(&frame, &LEVELS)?;
    let levels = family(rt, "levels", &levels(soft, worst))?;
    Ok(named.with(levels).with(sheets(rt)?))
}

// The check field, encoding and direct reading: what they refuse, what they answer, and what they
// leave.
use crate::second::coder::{Coded, bits_of, buffer_of, message_of, octets_of};
use crate::second::division::check_bits;
use crate::second::family::{Case, Family, Outcome, differing};
use crate::second::heard::fits_of;
use crate::second::layout::sources;
use crate::second::pattern::{begins_with, is_marked, marked};
use crate::second::random::Random;
use crate::second::refusals::{CHECK_EDGES, Check, first, short, wrong_check, wrong_octets};
use crate::second::sizes::{CHECKS, ORDER_R, Sizes};
use block::check_field;
use code::{Order, Peeked, encode_report, peek_report};
use std::alloc::Global;
use std::io;

// Lengths of reports, of which the first and the last are none.
const OCTETS: [usize; 5] = [0, 1, 2, 512, 513];

// How far a buffer's length is from the least that serves: one less, just that, and one and nine
// more.
const LENGTHS: [usize; 4] = [0, 1, 2, 10];

fn length(needed: usize, more: usize) -> usize {
    needed.saturating_add(more).saturating_sub(1)
}

// What the check of a report should be answered: that of the second coder as a number, the highest
// term first, or a refusal.
fn due_check(heap: Global, report: &[u8], check: usize) -> Result<u32, u8> {
    if let Some(number) = first(&[wrong_octets(report.len()), wrong_check(check)]) {
        return Err(number);
    }
    let bits = bits_of(heap, report);
    let mut field = 0u32;
    for bit in check_bits(heap, bits.as_slice(), check).iter() {
        field = field.wrapping_mul(2).wrapping_add(u32::from(*bit));
    }
    Ok(field)
}

fn try_check(family: &mut Family, heap: Global, report: &[u8], check: usize) {
    let due = due_check(heap, report, check);
    let found = check_field(report, check).map_err(|refusal| refusal.number());
    let case = Case::of("a check", [report.len(), check, 0, 0]);
    family.case(case, differing(&[("the answer", found == due)]));
}

// The octets of the buffer of a report by the second coder, or none where the call is refused.
fn second_buffer(heap: Global, report: &[u8], check: usize, due: Option<u8>) -> Vec<u8> {
    if due.is_some() {
        return Vec::new(heap);
    }
    let sources = sources(heap, Sizes::of(report.len(), check).block, &ORDER_R);
    let bits = buffer_of(heap, report, check, sources.as_slice());
    octets_of(heap, bits.as_slice())
}

// Encodes a report into about so much room.
fn try_encode(family: &mut Family, heap: Global, report: &[u8], check: usize, more: usize) {
    let octets = report.len();
    let needed = Sizes::of(octets, check).round();
    let room = length(needed, more).min(3000);
    let due = first(&[
        wrong_octets(octets),
        wrong_check(check),
        short(room, needed),
    ]);
    let second = second_buffer(heap, report, check, due);
    let mut buffer = marked(heap, room);
    let found = encode_report(report, check, &Order::order_r(), buffer.as_mut_slice());
    let found = found.err().map(|refusal| refusal.number());
    let differs = differing(&[
        ("the refusal", found == due),
        (
            "the buffer",
            begins_with(buffer.as_slice(), second.as_slice()),
        ),
        ("what stays", is_marked(buffer.as_slice(), second.len())),
    ]);
    family.case(Case::of("encode", [octets, check, room, 0]), differs);
}

// What a direct reading should answer: what the second coder says of the check and the tail, or a
// refusal.
fn due_peek(heap: Global, received: &[u8], sizes: Sizes, room: usize) -> Result<Peeked, u8> {
    let few = Check {
        holds: received.len() < sizes.block,
        number: 5,
    };
    let due = first(&[
        wrong_octets(sizes.octets),
        wrong_check(sizes.check),
        few,
        short(room, sizes.octets),
    ]);
    if let Some(number) = due {
        return Err(number);
    }
    let fits = fits_of(heap, received, sizes);
    Ok(Peeked {
        check_fits: fits.check,
        tail_fits: fits.tail,
    })
}

// Reads octets directly into so much room.
fn try_peek(family: &mut Family, heap: Global, received: &[u8], sizes: Sizes, room: usize) {
    let due = due_peek(heap, received, sizes, room);
    let mut target = marked(heap, room);
    let found = peek_report(received, sizes.octets, sizes.check, target.as_mut_slice()).map_err(
        |refusal| refusal.number(),
    );
    let written = if due.is_ok() { sizes.octets } else { 0 };
    let report = received.get(..written).unwrap_or(received);
    let differs = differing(&[
        ("the answer", found == due),
        ("the report", begins_with(target.as_slice(), report)),
        ("what stays", is_marked(target.as_slice(), written)),
    ]);
    let numbers = [sizes.octets, sizes.check, received.len(), room];
    family.case(Case::of("peek", numbers), differs);
}

// Direct readings at the edges of both buffers.
fn try_peeks(family: &mut Family, heap: Global, random: &mut Random, sizes: Sizes) {
    for came in LENGTHS {
        let received = random.octets(heap, length(sizes.block, came).min(700));
        for more in LENGTHS {
            let room = length(sizes.octets, more);
            try_peek(family, heap, received.as_slice(), sizes, room);
        }
    }
}

// A block that came undamaged, or with one bit turned.
fn some_block(heap: Global, random: &mut Random, sizes: Sizes) -> Vec<u8> {
    let report = random.octets(heap, sizes.octets);
    let message = message_of(heap, report.as_slice(), sizes.check);
    let mut block = Coded::of(heap, message.as_slice()).inputs;
    let bits = block.len();
    if let Some(bit) = block.get_mut(random.below(bits.saturating_mul(2))) {
        *bit = !*bit;
    }
    octets_of(heap, block.as_slice())
}

fn try_blocks(family: &mut Family, heap: Global, random: &mut Random) {
    for turn in 0..400 {
        let sizes = Sizes::of(turn % 40 + 1, CHECKS[turn % 4]);
        let received = some_block(heap, random, sizes);
        try_peek(family, heap, received.as_slice(), sizes, sizes.octets);
    }
}

// A report with a check of so many bits.
fn try_size(family: &mut Family, heap: Global, random: &mut Random, report: &[u8], check: usize) {
    try_check(family, heap, report, check);
    for more in LENGTHS {
        try_encode(family, heap, report, check, more);
    }
    try_peeks(family, heap, random, Sizes::of(report.len(), check))
}

fn try_sizes(family: &mut Family, heap: Global, random: &mut Random) {
    for octets in OCTETS {
        let report = random.octets(heap, octets);
        for check in CHECK_EDGES {
            try_size(family, heap, random, report.as_slice(), check);
        }
    }
}

pub(crate) fn run(rt: &HostRuntime) -> io::Result<Outcome> {
    let mut family = Family::begin("refusals of coding");
    let mut random = Random(50);
    try_sizes(&mut family, rt.alloc(), &mut random);
    try_blocks(&mut family, rt.alloc(), &mut random);
    family.end(rt)
}

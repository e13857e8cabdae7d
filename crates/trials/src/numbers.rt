// Calls that are handed numbers alone: orders, payload lengths and back, and the making of a
// sender.
use crate::second::family::{Case, Family, Outcome, differing};
use crate::second::random::Random;
use crate::second::refusals::{CHECK_EDGES, Check, OCTETS, first, wrong_check, wrong_octets};
use crate::second::sizes::{ORDER_R, Sizes, shuffled};
use block::{back, plan};
use code::Order;
use sender::Sender;
use std::io;

// Rates about the edge of what a rate may be.
const RATES: [usize; 6] = [0, 1, 23, 24, 25, usize::MAX];

// Payload lengths, of which some have no report length at some rates.
const PAYLOADS: [usize; 12] = [0, 1, 2, 3, 4, 5, 6, 7, 2063, 2064, 2065, usize::MAX];

fn wrong_rate(k: usize) -> Check {
    Check {
        holds: k > 24,
        number: 3,
    }
}

fn try_plan(family: &mut Family, octets: usize, check: usize) {
    for k in RATES {
        let found = plan(octets, check, k).err().map(|refusal| refusal.number());
        let due = first(&[wrong_octets(octets), wrong_check(check), wrong_rate(k)]);
        let case = Case::of("plan", [octets, check, k, 0]);
        family.case(case, differing(&[("the refusal", found == due)]));
    }
}

fn try_sender(family: &mut Family, octets: usize, check: usize) {
    let found = Sender::new(octets, check)
        .err()
        .map(|refusal| refusal.number());
    let due = first(&[wrong_octets(octets), wrong_check(check)]);
    let case = Case::of("a sender", [octets, check, 0, 0]);
    family.case(case, differing(&[("the refusal", found == due)]));
}

// No report length has this payload length.
fn no_length(p: usize, check: usize, k: usize) -> Check {
    let mut holds = true;
    for octets in 1..513 {
        holds = holds && Sizes::of(octets, check).payload(k) != p;
    }
    Check { holds, number: 5 }
}

fn try_back(family: &mut Family, check: usize, k: usize) {
    for p in PAYLOADS {
        let found = back(p, check, k).err().map(|refusal| refusal.number());
        let due = first(&[wrong_check(check), wrong_rate(k), no_length(p, check, k)]);
        let case = Case::of("back", [p, check, k, 0]);
        family.case(case, differing(&[("the refusal", found == due)]));
    }
}

// An order of these numbers is made, or refused with 4.
fn try_order(family: &mut Family, numbers: &[u8], is_order: bool) {
    let found = Order::new(numbers).err().map(|refusal| refusal.number());
    let due = if is_order { None } else { Some(4) };
    let case = Case::of("an order", [numbers.len(), 0, 0, 0]);
    family.case(case, differing(&[("the refusal", found == due)]));
}

// Numbers that are no order: none, 24 that are equal, one too few and one too many.
fn try_others(family: &mut Family) {
    let mut longer = [24; 25];
    longer[..24].copy_from_slice(&ORDER_R);
    try_order(family, &[], false);
    try_order(family, &[0; 24], false);
    try_order(family, &ORDER_R[..23], false);
    try_order(family, &longer, false);
}

// Orders, and the same with one number turned to each other.
fn try_orders(family: &mut Family, random: &mut Random) {
    for _ in 0..100 {
        let columns = shuffled(random);
        try_order(family, &columns, true);
        let mut turned = columns;
        let at = random.below(24) % 24;
        turned[at] = turned[at]
            .wrapping_add(random.octet() % 255)
            .wrapping_add(1);
        try_order(family, &turned, false);
    }
}

fn try_check(family: &mut Family, check: usize) {
    for octets in OCTETS {
        try_plan(family, octets, check);
        try_sender(family, octets, check);
    }
    for k in RATES {
        try_back(family, check, k);
    }
}

pub(crate) fn run(rt: &HostRuntime) -> io::Result<Outcome> {
    let mut family = Family::begin("refusals of numbers");
    try_others(&mut family);
    try_orders(&mut family, &mut Random(40));
    for check in CHECK_EDGES {
        try_check(&mut family, check);
    }
    family.end(rt)
}

// Payload lengths and back, for every size and rate, against a reckoning by whole columns.
use crate::second::family::{Case, Family, Outcome, differing};
use crate::second::sizes::{CHECKS, Sizes};
use block::{back, plan};
use std::io;

// Every payload length, and some that are longer than any.
const PAYLOADS: usize = 2100;

// For each payload length the report length that has it, if any.
fn lengths(check: usize, k: usize) -> [Option<usize>; PAYLOADS] {
    let mut lengths = [None; PAYLOADS];
    for octets in 1..=512 {
        if let Some(length) = lengths.get_mut(Sizes::of(octets, check).payload(k)) {
            *length = Some(octets);
        }
    }
    lengths
}

// Every report length with its payload length.
fn try_plans(family: &mut Family, check: usize, k: usize) {
    for octets in 1..=512 {
        let due = Sizes::of(octets, check).payload(k);
        let is_due = plan(octets, check, k) == Ok(due);
        let case = Case::of("plan", [octets, check, k, 0]);
        family.case(case, differing(&[("the answer", is_due)]));
    }
}

// Every payload length back.
fn try_backs(family: &mut Family, check: usize, k: usize) {
    for (octets, length) in lengths(check, k).iter().enumerate() {
        let found = back(octets, check, k).map_err(|refusal| refusal.number());
        let is_due = found == length.ok_or(5);
        let case = Case::of("back", [octets, check, k, 0]);
        family.case(case, differing(&[("the answer", is_due)]));
    }
}

pub(crate) fn run(rt: &HostRuntime) -> io::Result<Outcome> {
    let mut family = Family::begin("payload lengths and back");
    for check in CHECKS {
        for k in 0..25 {
            try_plans(&mut family, check, k);
            try_backs(&mut family, check, k);
        }
    }
    family.end(rt)
}

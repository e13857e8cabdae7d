// The check by long division of a list of bits, the highest term first.
use std::alloc::Global;

// The exponents of the terms of the polynomial for a check of so many bits.
fn exponents(check: usize) -> &'static [usize] {
    match check {
        4 => &[4, 3, 2, 0],
        12 => &[12, 11, 3, 2, 1, 0],
        20 => &[20, 19, 6, 5, 3, 0],
        _ => &[28, 27, 6, 5, 3, 0],
    }
}

// Subtracts the polynomial, its highest term at bit `at`.
fn subtract(bits: &mut [bool], at: usize, check: usize) {
    for exponent in exponents(check) {
        let term = at.wrapping_add(check).wrapping_sub(*exponent);
        if let Some(bit) = bits.get_mut(term) {
            *bit = !*bit;
        }
    }
}

// Leaves the remainder in the last `check` bits.
fn divide(bits: &mut [bool], check: usize) {
    for at in 0..bits.len().saturating_sub(check) {
        if bits.get(at).copied().unwrap_or(false) {
            subtract(bits, at, check);
        }
    }
}

// The last `check` bits of what is left when the polynomial has been taken out of the bits as often
// as it goes.
fn remainder(heap: Global, mut bits: Vec<bool>, check: usize) -> Vec<bool> {
    divide(bits.as_mut_slice(), check);
    let quotient = bits.len().saturating_sub(check);
    bits.get(quotient..)
        .unwrap_or(&[])
        .to_vec(heap)
        .unwrap_or(Vec::new(heap))
}

// The check of a report's bits: they are followed by as many zeros as the check has bits, and
// divided.
pub(crate) fn check_bits(heap: Global, report: &[bool], check: usize) -> Vec<bool> {
    let mut bits = report.to_vec(heap).unwrap_or(Vec::new(heap));
    for _ in 0..check {
        let _pushed = bits.push(false);
    }
    remainder(heap, bits, check)
}

// Whether the polynomial divides the bits of report and check together.
pub(crate) fn divides(heap: Global, message: &[bool], check: usize) -> bool {
    let rest = remainder(heap, message.to_vec(heap).unwrap_or(Vec::new(heap)), check);
    !rest.contains(&true)
}

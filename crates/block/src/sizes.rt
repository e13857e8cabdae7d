// Permitted sizes: the lengths that follow from one, and the check of a report of that size.
ghost use Rattle.std.specs.Prelude.{◌≡◌, ◌+◌, ◌*◌, ◌%◌, ◌^◌, ◌<◌, ◌≤◌, [], ◌∷◌};
ghost use Rattle.std.specs.Prelude.{fold, if◌then◌else◌, Decides};
ghost use Rattle.block.specs.Bits.{bits_of};
ghost use Rattle.block.specs.Checks.{FrontFits, extended, polynomial, reduced, report_check};
ghost use Rattle.block.specs.Refusals.{Answers};
ghost use Rattle.block.specs.Sizes.{block_octets, check_permitted, payload, size_case, size_checks};

use crate::{bit_at, bit_of};
use thiserror::Error;

// Why no size can be made, and the number of each refusal.
#[derive(Clone, Copy, Debug, PartialEq, Error)]
pub enum SizeRefusal {
    #[error("a report has 1 to 512 octets")]
    Octets = 1,
    #[error("a check has 4, 12, 20 or 28 bits")]
    CheckLength = 2,
}

impl SizeRefusal {
    pub fn number(self) -> u8
        ensures { result ≡ (size_case self).number }
    {
        self as u8
    }
}

// A permitted size: the report's octets and the check's length in bits. The length is a number and
// no enum, since all but the polynomial reckon with it.
#[derive(Clone, Copy, Debug, PartialEq)]
pub struct Size {
    octets: usize,
    check: usize,
    ghost some: { 1 ≤ octets },
    ghost few: { octets ≤ 512 },
    ghost odd_half: { check % 8 ≡ 4 },
    ghost short: { check < 32 },
}

pub(crate) fn permits_check(check: usize) -> bool
    ensures { result ≡ check_permitted check }
{
    matches!(check, 4 | 12 | 20 | 28)
}

impl Size {
    pub fn new(octets: usize, check: usize) -> Result<Size, SizeRefusal>
        ensures { Answers (size_checks octets check) size_case
            (λ s. (s.octets ≡ octets) × (s.check ≡ check)) result }
    {
        if !(1..=512).contains(&octets) {
            return Err(SizeRefusal::Octets);
        }
        if !permits_check(check) {
            return Err(SizeRefusal::CheckLength);
        }
        Ok(Size { octets, check })
    }

    // T: the octets of the report.
    pub fn octets(self) -> usize
        ensures { result ≡ self.octets }
    {
        self.octets
    }

    // L: the bits of the check.
    pub fn check(self) -> usize
        ensures { result ≡ self.check }
    {
        self.check
    }

    // N: the octets of report, check and tail together.
    pub fn block_octets(self) -> usize
        ensures { result ≡ block_octets self.octets self.check }
    {
        (self.check + 4) / 8 + self.octets
    }

    // P: the octets of the first payload at rate 8 / (8 + k).
    pub(crate) fn payload_at(self, k: usize) -> usize
        requires { k ≤ 24 }
        ensures { result ≡ payload self.octets self.check k }
    {
        (self.block_octets() * (8 + k) + 7) / 8
    }
}

// The check of a report: the remainder of its bits, times x^L, by the polynomial of the check's
// length L.
impl Size {
    fn polynomial(self) -> u32
        ensures { result ≡ polynomial self.check }
    {
        match self.check {
            4 => 0b1_1101,
            12 => 0b1_1000_0000_1111,
            20 => 0b1_1000_0000_0000_0110_1001,
            _ => 0b1_1000_0000_0000_0000_0000_0110_1001,
        }
    }

    // The term x^L where the bit is set.
    fn incoming(self, bit: bool) -> u32
        ensures { result ≡ (if bit then 2 ^ self.check else 0) }
    {
        u32::from(bit) << self.check
    }

    fn reduce(self, p: u32) -> u32
        ensures { result ≡ reduced self.check p }
    {
        if bit_of(p, self.check) {
            p ^ self.polynomial()
        } else {
            p
        }
    }

    // The check once one more bit follows those whose check is `r`.
    fn extend(self, r: u32, bit: bool) -> u32
        requires { r < 2 ^ self.check }
        ensures value { result ≡ extended self.check r bit }
        ensures below { result < 2 ^ self.check }
    {
        self.reduce((2 * r) ^ self.incoming(bit))
    }

    // The check once the eight bits of an octet follow those whose check is `r`. A `for` over
    // positions here and below: the closure of a fold would repeat the clauses of what it calls.
    fn extend_octet(self, r: u32, octet: u8) -> u32
        requires { r < 2 ^ self.check }
        ensures value { result ≡ fold (extended self.check) r (bits_of (octet ∷ []) 8) }
        ensures below { result < 2 ^ self.check }
    {
        let mut r = r;
        for i in 0..8 {
            r = self.extend(r, bit_of(u32::from(octet), i));
        }
        r
    }

    // The check of the report at the front of `octets`; what is missing there counts as 0.
    pub fn check_over(self, octets: &[u8]) -> u32
        ensures { result ≡ report_check octets.now self.octets self.check }
    {
        let mut r = 0;
        for b in 0..self.octets {
            r = self.extend_octet(r, octets.get(b).copied().unwrap_or(0));
        }
        r
    }

    // Whether the check behind the report at the front of `octets` is that report's own.
    pub fn check_fits(self, octets: &[u8]) -> bool
        ensures { Decides result (FrontFits octets.now self.octets self.check) }
    {
        let field = self.check_over(octets);
        (0..self.check).all(|i| {
            bit_at(octets, 8 * self.octets + i) == bit_of(field, self.check - 1 - i)
        })
    }
}

// Octets as bits, bit 1 of each octet first.
ghost use Rattle.std.specs.Prelude.{◌≡◌, false, slice_index_or};
ghost use Rattle.block.specs.Bits.{bit, bit_at, octet_of};

// Bit `i` of a number, of value 2^i.
pub fn bit_of(x: u32, i: usize) -> bool
    ensures { result ≡ bit i x }
{
    if i >= 32 {
        return false;
    }
    (x >> i) % 2 == 1
}

// Bit `p` of a row of octets; behind its end every bit is 0.
pub fn bit_at(octets: &[u8], p: usize) -> bool
    ensures { result ≡ bit_at octets.now p }
{
    octets
        .get(p / 8)
        .is_some_and(|octet| bit_of(u32::from(*octet), p % 8))
}

// The octet of eight bits, bit 1 first.
pub fn octet(bits: [bool; 8]) -> u8
    ensures { result ≡ octet_of (λ i. slice_index_or bits i false) }
{
    // Term by term, as the octet is defined, and so with no invariant.
    u8::from(bits[0])
        + 2 * u8::from(bits[1])
        + 4 * u8::from(bits[2])
        + 8 * u8::from(bits[3])
        + 16 * u8::from(bits[4])
        + 32 * u8::from(bits[5])
        + 64 * u8::from(bits[6])
        + 128 * u8::from(bits[7])
}

// Reading a report directly from output 1, with no search.
ghost use Rattle.std.specs.Prelude.{◌≡◌, ◌^◌, ◌<◌, Decides};
ghost use Rattle.block.specs.Bits.{bits_of};
ghost use Rattle.code.specs.Calls.{Peeks, TailFits, peek_case};
ghost use Rattle.code.specs.Register.{after, cells, cleared};

use crate::Register;
use block::{Size, SizeRefusal, bit_at};
use thiserror::Error;

// Why a report is not read directly.
#[derive(Clone, Copy, Debug, PartialEq, Error)]
pub enum PeekRefusal {
    #[error("{0}")]
    Size(SizeRefusal),
    // 5
    #[error("under N octets came")]
    Received,
    // 6
    #[error("the target has under T octets")]
    Target,
}

// What a direct reading tells of the octets that came.
#[derive(Clone, Copy, Debug, PartialEq)]
pub struct Peeked {
    pub check_fits: bool,
    pub tail_fits: bool,
}

impl PeekRefusal {
    pub fn number(self) -> u8
        ensures { result ≡ (peek_case self).number }
    {
        // A cast gives no number here, since a refusal for the size carries its own.
        match self {
            PeekRefusal::Size(refusal) => refusal.number(),
            PeekRefusal::Received => 5,
            PeekRefusal::Target => 6,
        }
    }
}

// Runs a new register over the first bits that came. They end within an octet, so no slice has just
// them.
fn run_bits(received: &[u8], bits: usize, register: &mut Register)
    requires { cells register.old ≡ cleared }
    ensures { cells register.new ≡ after cleared (bits_of received.now bits) }
{
    // By position, as `bit_at` is asked: an iterator over bits would only wrap this range.
    for t in 0..bits {
        let _ = register.push(bit_at(received, t));
    }
}

// Whether the four bits behind the first `bits` are the tail that belongs to them; `bits` as above.
fn tail_fits(received: &[u8], bits: usize) -> bool
    requires { bits < 2 ^ 32 }
    ensures { Decides result (TailFits received.now bits) }
{
    let mut register = Register::open();
    run_bits(received, bits, &mut register);
    let tail = register.close();
    (0..4).all(|i| bit_at(received, bits + i) == tail[i].v1)
}

// Writes the report's octets as they came, and tells whether check and tail fit. T and L come as
// numbers, since the call itself refuses what is no size.
pub fn peek_report(
    received: &[u8],
    octets: usize,
    check: usize,
    target: &mut [u8],
) -> Result<Peeked, PeekRefusal>
    ensures { Peeks received.now octets check target.old target.new result }
{
    let size = Size::new(octets, check).map_err(PeekRefusal::Size)?;
    if received.len() < size.block_octets() {
        return Err(PeekRefusal::Received);
    }
    if target.len() < octets {
        return Err(PeekRefusal::Target);
    }
    target[..octets].copy_from_slice(&received[..octets]);
    Ok(Peeked {
        check_fits: size.check_fits(received),
        tail_fits: tail_fits(received, 8 * octets + check),
    })
}

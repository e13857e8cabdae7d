// The theorem on an undamaged payload, with one that is sent and heard by the calls themselves.
ghost use Rattle.std.specs.Prelude.{◌≡◌, ◌≤◌, take};
ghost use Rattle.nearest.specs.Undamaged.{DecodesWhatWasSent, MakesUndamaged, SentInAll, heard};

use crate::{ShortRun, nearest_message};
use block::{PlanRefusal, bit_at, plan};
use code::{Order, encode_report};
use search::{Entry, Scratch};
use sender::{Passage, Sender};
use std::array;
use weighing::hard::Hard;

// The first octets of a buffer, sent in one confirmed passage, and zeros behind them.
fn send(buffer: &[u8; 8], count: usize) -> [u8; 8]
    requires some { 1 ≤ count }
    requires within { count ≤ 8 }
    ensures { SentInAll 1 4 buffer.now count (take count result) }
{
    let mut target = [0; 8];
    let mut sender = Sender::new(1, 4).unwrap();
    let mut passage = Passage::begin(sender.size(), &mut sender.cursor);
    passage.copy(buffer, &mut target, count).unwrap();
    passage.confirm();
    target
}

// Each bit of eight octets as one symbol.
fn hear(octets: &[u8; 8]) -> [u8; 64]
    ensures { result ≡ heard octets.now }
{
    array::from_fn(|p| u8::from(bit_at(octets, p)))
}

// The theorem on an undamaged payload: taken by the hard reading onto a new sheet of its shape, the
// first payload that a sender sends of an encoded report, at any rate, decodes to the message sent,
// with weight 0.
// The call itself tries it on a report of one octet with a check of four bits in order R, in the
// buffers that it is lent; what it sends to, and what the decode is lent beside them, is its own.
pub fn undamaged_payload(
    report: u8,
    k: usize,
    buffer: &mut [u8; 8],
    tally: &mut [Entry<u32>; 64],
    target: &mut [u8; 2],
) -> Result<ShortRun<Hard>, PlanRefusal>
    ensures theorem { DecodesWhatWasSent Hard }
    ensures run { MakesUndamaged Hard report k buffer.old buffer.new tally.old tally.new
        target.old target.new result }
{
    let octets = plan(1, 4, k)?;
    encode_report(&[report], 4, &Order::order_r(), buffer).unwrap();
    let symbols = hear(&send(buffer, octets));
    let heard = &symbols[..8 * octets];
    let mut scratch = Scratch {
        survivors: &mut [0; 16],
        paths: &mut [None; 32],
    };
    Ok(nearest_message::<Hard>(tally, 0, heard, target, &mut scratch).unwrap())
}

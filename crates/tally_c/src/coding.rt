// Encoding a report, and handing its buffer on.
ghost use Rattle.code.specs.Calls.{encode_case};
ghost use Rattle.sender.specs.Passages.{passage_case};
ghost use Rattle.tally_c.specs.Coding.{Sends, TellsEncoded, TellsSent};
ghost use Rattle.tally_c.specs.Numbers.{Numbers};

use block::Size;
use code::{EncodeRefusal, Order, encode_report};
use sender::{Passage, PassageRefusal};

// The number of an encode's refusal, 0 where there is none.
fn encode_number(encoded: Result<(), EncodeRefusal>) -> u8
    ensures { Numbers encode_case encoded result }
{
    match encoded {
        Ok(()) => 0,
        Err(refusal) => refusal.number(),
    }
}

// Encodes a report into the first 4 * N octets of the buffer. Answers the number of the refusal, 0
// where there is none.
#[unsafe(no_mangle)]
pub extern "C" fn tally_encode(columns: &[u8], report: &[u8], check: usize, buffer: &mut [u8]) -> u8
    ensures { TellsEncoded columns.now report.now check buffer.old buffer.new result }
{
    match Order::new(columns) {
        Ok(order) => encode_number(encode_report(report, check, &order, buffer)),
        Err(refusal) => refusal.number(),
    }
}

// Copies the next octets in a passage that is confirmed. A refused copy leaves the cursor.
fn send(
    size: Size,
    cursor: &mut usize,
    buffer: &[u8],
    target: &mut [u8],
    count: usize,
) -> Result<(), PassageRefusal>
    ensures { Sends size.octets size.check cursor.old cursor.new
        buffer.now target.old target.new count result }
{
    let mut passage = Passage::begin(size, cursor);
    passage.copy(buffer, target, count)?;
    passage.confirm();
    Ok(())
}

// The number of a passage's refusal, 0 where there is none.
fn passage_number(sent: Result<(), PassageRefusal>) -> u8
    ensures { Numbers passage_case sent result }
{
    match sent {
        Ok(()) => 0,
        Err(refusal) => refusal.number(),
    }
}

// The next `count` octets of a report's buffer, round after round, from the cursor on, which then
// stands behind them. Answers the number of the refusal, 0 where there is none.
#[unsafe(no_mangle)]
pub extern "C" fn tally_payload(
    octets: usize,
    check: usize,
    cursor: &mut usize,
    buffer: &[u8],
    target: &mut [u8],
    count: usize,
) -> u8
    ensures { TellsSent octets check cursor.old cursor.new
        buffer.now target.old target.new count result }
{
    match Size::new(octets, check) {
        Ok(size) => passage_number(send(size, cursor, buffer, target, count)),
        Err(refusal) => refusal.number(),
    }
}

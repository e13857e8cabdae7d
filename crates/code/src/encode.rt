// Encoding a report into the caller's buffer.
ghost use Rattle.std.specs.Prelude.{◌≡◌, ◌*◌, length};
ghost use Rattle.block.specs.Sizes.{block_octets};
ghost use Rattle.code.specs.Calls.{Encodes, encode_case, encoded_as};
ghost use Rattle.code.specs.Shapes.{shape_with};

use crate::Order;
use crate::buffer::{CodedBlock, fill_band};
use crate::message::Message;
use crate::rows::Row;
use block::{MOST_BLOCK_OCTETS, Size, SizeRefusal};
use thiserror::Error;

// Why a report is not encoded.
#[derive(Clone, Copy, Debug, PartialEq, Error)]
pub enum EncodeRefusal {
    #[error("{0}")]
    Size(SizeRefusal),
    // 6
    #[error("the buffer has under 4 * N octets")]
    Buffer,
}

impl EncodeRefusal {
    pub fn number(self) -> u8
        ensures { result ≡ (encode_case self).number }
    {
        // A cast gives no number here, since a refusal for the size carries its own.
        match self {
            EncodeRefusal::Size(refusal) => refusal.number(),
            EncodeRefusal::Buffer => 6,
        }
    }
}

// Encodes a report into a buffer of 4 * N octets.
fn encode_block(size: Size, report: &[u8], order: &Order, buffer: &mut [u8])
    requires { length buffer.old ≡ 4 * block_octets size.octets size.check }
    ensures { buffer.new ≡ encoded_as (shape_with size order.now) report.now }
{
    let n = size.block_octets();
    let mut rows = [Row::default(); MOST_BLOCK_OCTETS];
    let rows = &mut rows[..n];
    Message::new(size, report).code(rows);
    let mut v2 = [0; MOST_BLOCK_OCTETS];
    let mut v3 = [0; MOST_BLOCK_OCTETS];
    let mut v4 = [0; MOST_BLOCK_OCTETS];
    // the rows of the block alone, so that a short report is not charged for the longest one's
    fill_band(rows, 2, &mut v2[..n]);
    fill_band(rows, 3, &mut v3[..n]);
    fill_band(rows, 4, &mut v4[..n]);
    let block = CodedBlock {
        order,
        n,
        rows,
        v2: &v2[..n],
        v3: &v3[..n],
        v4: &v4[..n],
    };
    block.fill(buffer);
}

// Encodes a report into the first 4 * N octets of the buffer.
pub fn encode_report(
    report: &[u8],
    check: usize,
    order: &Order,
    buffer: &mut [u8],
) -> Result<(), EncodeRefusal>
    ensures { Encodes report.now check order.now.columns buffer.old buffer.new result }
{
    let size = Size::new(report.len(), check).map_err(EncodeRefusal::Size)?;
    let room = 4 * size.block_octets();
    if buffer.len() < room {
        return Err(EncodeRefusal::Buffer);
    }
    encode_block(size, report, order, &mut buffer[..room]);
    Ok(())
}

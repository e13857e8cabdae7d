// Making a sender, and where it stands.
ghost use Rattle.std.specs.Prelude.{◌≡◌, ◌%◌};
ghost use Rattle.sender.specs.Passages.{MakesSender, round_of};

use block::{Size, SizeRefusal};

// What is sent of one block: its size, and the octet of the buffer that comes next.
// The cursor is a plain number that a passage borrows. It is read modulo 4 * N, so every number is
// a standing.
#[derive(Debug, PartialEq, Drop)]
pub struct Sender {
    size: Size,
    pub cursor: usize,
}

impl Sender {
    // A sender for the block of a report of T octets with a check of L bits. The two come as
    // numbers, since the call itself refuses what is no size.
    pub fn new(octets: usize, check: usize) -> Result<Sender, SizeRefusal>
        ensures { MakesSender octets check result }
    {
        let size = Size::new(octets, check)?;
        Ok(Sender { size, cursor: 0 })
    }

    pub fn size(&self) -> Size
        ensures { result ≡ self.now.size }
    {
        self.size
    }

    // The octet of the buffer that the next passage begins at.
    pub fn standing(&self) -> usize
        ensures { result ≡ self.now.cursor % round_of self.now.size.octets self.now.size.check }
    {
        self.cursor % (4 * self.size.block_octets())
    }
}

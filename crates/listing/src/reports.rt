// The report that a decode named.
ghost use Rattle.std.specs.Prelude.{◌<◌};
ghost use Rattle.block.specs.Sizes.{most_block_octets};

use crate::hex::Hex;
use block::MOST_BLOCK_OCTETS;
use std::fmt;

// The block as the decode wrote it: it begins with so many octets of the report, behind which stand
// check and tail.
#[derive(Clone, Copy)]
pub struct Report {
    pub(crate) block: [u8; MOST_BLOCK_OCTETS],
    pub(crate) octets: usize,
    ghost few: { octets < most_block_octets },
}

impl Report {
    ghost use Rattle.std.specs.Prelude.{◌≡◌};
    ghost use Rattle.listing.specs.Lines.{report_octets};

    // The report's octets.
    pub fn octets(&self) -> &[u8]
        ensures { result.now ≡ report_octets self.now }
    {
        &self.block[..self.octets]
    }
}

impl fmt::Display for Report {
    ghost use Rattle.std.specs.Prelude.{Some};
    ghost use Rattle.listing.specs.Lines.{hex, report_octets};

    ghost output = { λ report. Some (hex (report_octets report)) };

    fn fmt<W: fmt::Write>(&self, f: &mut fmt::Formatter<W>) -> fmt::Result {
        for octet in self.octets() {
            f.write(Hex(*octet))?;
        }
        Ok(())
    }
}

// Writing a listing as text.
ghost use Rattle.std.specs.Prelude.{◌≤◌, length};
ghost use Rattle.listing.specs.Buffers.{contents};
ghost use Rattle.listing.specs.Whole.{WritesByLetter, WritesListing};

use crate::listings::first_stage;
use crate::telling::Progress;
use crate::{Buffers, Lettered};
use search::Entry;
use std::fmt;
use std::io::{self, Write};
use weighing::hard::Hard;
use weighing::soft::Soft;
use weighing::worst::Worst;

// What `write_listing` does, over buffers that are lent by themselves.
fn write_over<R: Lettered, O: Write>(
    capture: &[u8],
    tally: &mut [Entry<R::Value>],
    paths: &mut [Option<R::Value>],
    output: &mut O,
) -> io::Result<bool>
where
    R::Value: fmt::Display,
    requires { 32 ≤ length paths.old }
    ensures { WritesListing R.Reading.alphabet R.Weighing.scale R.LETTER capture.now
        (record { tally = tally.old; paths = paths.old })
        (record { tally = tally.new; paths = paths.new })
        R.Value.Display.output (O.contents output.old) (O.contents output.new) result }
{
    let Some(stage) = first_stage(capture, R::LETTER) else {
        return Ok(false);
    };
    let mut progress = Progress::<R>::at_start(capture, stage);
    while let Some(line) = progress.next_line(tally, paths) {
        writeln!(output, "{line}")?;
    }
    Ok(true)
}

// Writes the listing of a capture by a reading, each line with a newline, and answers true; answers
// false, and writes nothing, where the capture begins with the letter of another. The rest is as
// for `list`.
pub fn write_listing<R: Lettered, O: Write>(
    capture: &[u8],
    buffers: Buffers<'_, R::Value>,
    output: &mut O,
) -> io::Result<bool>
where
    R::Value: fmt::Display,
    ensures { WritesListing R.Reading.alphabet R.Weighing.scale R.LETTER capture.now
        (contents buffers.entry)
        (record { tally = buffers.exit.0.now; paths = buffers.exit.1.0.now })
        R.Value.Display.output (O.contents output.old) (O.contents output.new) result }
{
    let Buffers { tally, paths } = buffers;
    write_over::<R, O>(capture, tally, paths, output)
}

// Writes the listing of a capture by the reading that its letter names; of one that is too long or
// has no known letter, that it is so. The hard and the soft reading have one kind of weights and
// so one tally, and the worst has another.
pub fn write_by_letter<O: Write>(
    capture: &[u8],
    sums: &mut [Entry<u32>],
    largest: &mut [Entry<u8>],
    output: &mut O,
) -> io::Result<()>
    ensures { WritesByLetter capture.now (O.contents output.old) (O.contents output.new) result
        sums.old sums.new largest.old largest.new }
{
    let hard = Buffers {
        tally: &mut *sums,
        paths: &mut [None; 32],
    };
    if write_listing::<Hard, O>(capture, hard, output)? {
        return Ok(());
    }
    let soft = Buffers {
        tally: sums,
        paths: &mut [None; 32],
    };
    if write_listing::<Soft, O>(capture, soft, output)? {
        return Ok(());
    }
    // it is the last one's
    let worst = Buffers {
        tally: largest,
        paths: &mut [None; 32],
    };
    write_listing::<Worst, O>(capture, worst, output)?;
    Ok(())
}

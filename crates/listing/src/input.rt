// The listing of what is read from an input.
ghost use Rattle.std.specs.Prelude.{◌≢◌, IfErr, IfOk, IfSome, OnErr, OnOk, length};
ghost use Rattle.std.specs.Io.KnownBytes.{Keeps};
ghost use Rattle.std.specs.IoError.{error_kind};
ghost use Rattle.listing.specs.Inputs.{FailsToFill, FailsToList, Fills, ListsInput, ListsWhatCame};
ghost use Rattle.listing.specs.Inputs.{ReadsOn};

use crate::{MOST_CAPTURE_OCTETS, PLACES, write_by_letter};
use search::Entry;
use std::io::{self, ErrorKind, Read, Write};

// One octet more than a capture may have, so that one that is too long is seen to be.
const INPUT_OCTETS: usize = MOST_CAPTURE_OCTETS + 1;

// One read. It is tried again where it is interrupted, up to 2^64 - 1 tries, as std's own readers
// do.
fn read_on<I: Read>(input: &mut I, buffer: &mut [u8]) -> io::Result<usize>
    ensures reads { IfOk result
        (ReadsOn (I.remaining input.old) (I.remaining input.new) buffer.new) }
    ensures keeps { OnErr result (Keeps (I.remaining input.old) (I.remaining input.new)) }
    ensures retried { IfErr result (λ e. error_kind e ≢ ErrorKind.Interrupted) }
{
    for _ in 0..u64::MAX {
        match input.read(buffer) {
            Ok(count) => return Ok(count),
            Err(error) if error.kind() == ErrorKind::Interrupted => {}
            Err(error) => return Err(error),
        }
    }
    Err(io::Error::from(ErrorKind::TimedOut))
}

// Fills the buffer with what comes, up to the end of the input or of the buffer; answers how many
// octets came.
fn fill<I: Read>(input: &mut I, buffer: &mut [u8]) -> io::Result<usize>
    ensures fills { IfOk result
        (Fills (I.remaining input.old) (I.remaining input.new) buffer.new) }
    ensures fails { IfErr result (λ e. FailsToFill (length buffer.new)
        (I.remaining input.old) (I.remaining input.new) (error_kind e)) }
{
    let mut filled = 0;
    while filled < buffer.len() {
        let count = read_on(input, &mut buffer[filled..])?;
        if count == 0 {
            break;
        }
        filled += count;
    }
    Ok(filled)
}

// Writes the listing of the capture that an input holds, over tallies of 1,792 places, and flushes
// the output. It reads up to the input's end, or 32,769 octets: one of so many octets is too long,
// whatever comes behind. A read that is interrupted is tried again, up to 2^64 - 1 tries; any other
// error of the input is answered, with nothing written, and each of the output.
pub fn list_input<I: Read, O: Write>(input: &mut I, output: &mut O) -> io::Result<()>
    ensures takes { OnOk result (ListsWhatCame (I.remaining input.old) (I.remaining input.new)
        (O.contents output.old) (O.contents output.new)) }
    ensures fails { IfErr result (λ e. FailsToList (I.remaining input.old) (I.remaining input.new)
        (O.contents output.old) (O.contents output.new) (error_kind e)) }
    ensures lists { OnOk result (IfSome (I.remaining input.old)
        (λ capture. ListsInput capture (O.contents output.old) (O.contents output.new))) }
{
    let mut octets = [0; INPUT_OCTETS];
    let filled = fill(input, &mut octets)?;
    write_by_letter(
        &octets[..filled],
        &mut [Entry { zero: 0, one: 0 }; PLACES],
        &mut [Entry { zero: 0, one: 0 }; PLACES],
        output,
    )?;
    output.flush()
}

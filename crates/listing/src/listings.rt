// The entry call.
ghost use Rattle.std.specs.Prelude.{◌≡◌, ◌≤◌, length};
ghost use Rattle.listing.specs.Buffers.{contents};
ghost use Rattle.listing.specs.Captures.{most_capture_octets};
ghost use Rattle.listing.specs.Format.{ReadsTheFormat};
ghost use Rattle.listing.specs.Telling.{IsFirstStage};
ghost use Rattle.listing.specs.Whole.{HoldsLoans, ListsCapture, OneListing};

use crate::letters::{Lettered, known_letters};
use crate::telling::{ByLetter, Lines, Progress, Stage};
use crate::{Buffers, MOST_CAPTURE_OCTETS};

// How the listing of a capture begins, by the reading with this letter; none where it is another
// reading's.
pub(crate) fn first_stage(capture: &[u8], letter: u8) -> Option<Stage>
    ensures { IsFirstStage letter capture.now result }
{
    if capture.len() > MOST_CAPTURE_OCTETS {
        return Some(Stage::TooLong);
    }
    match capture.first() {
        Some(first) if *first == letter => Some(Stage::Reading),
        Some(first) if known_letters().contains(first) => None,
        _ => Some(Stage::NoLetter),
    }
}

// What is read of a capture: nothing of one that is too long.
pub(crate) fn readable(capture: &[u8]) -> &[u8]
    ensures few { length result.now ≤ most_capture_octets }
    ensures whole { length capture.now ≤ most_capture_octets → result.now ≡ capture.now }
{
    if capture.len() > MOST_CAPTURE_OCTETS {
        &[]
    } else {
        capture
    }
}

// The lines of a capture by a reading, unless it begins with the letter of another. Sheets are
// opened over the tally, which refuses an opening where it has under 32 * N entries. After any
// number of lines each entry holds what the sheet that was opened last of those with its place has
// taken, and else what it held before; the path weights hold what they held before, up to the first
// decode.
pub fn list<'a, R: Lettered>(capture: &'a [u8], buffers: Buffers<'a, R::Value>) -> ByLetter<'a, R>
    ensures lists { ListsCapture R.Reading.alphabet R.LETTER capture.now (contents buffers.entry)
        ⟦<Lines<'a, R> as Iterator>⟧.next_gives result }
    ensures same { HoldsLoans buffers.entry result }
    ensures one { OneListing R.Reading.alphabet R.Weighing.scale }
    ensures format { ReadsTheFormat }
{
    let Some(stage) = first_stage(capture, R::LETTER) else {
        return ByLetter::OfAnother(buffers);
    };
    let Buffers { tally, paths } = buffers;
    ByLetter::Lines(Lines {
        progress: Progress::at_start(capture, stage),
        tally,
        paths,
    })
}

// The theorem on runs, with a short run by the calls themselves.
ghost use Rattle.search.specs.Scratch.{SameLoans, contents};
ghost use Rattle.nearest.specs.ShortRuns.{MakesShortRun, loans};
ghost use Rattle.nearest.specs.Whole.{NearestMessage};

use code::Order;
use search::{Entry, FindRefusal, Scratch};
use sheet::{Decoded, OpenRefusal, Sheet, TakeRefusal, Taken};
use weighing::Reading;

// What a short run leaves: the sheet, and what its take and its decode answered.
#[derive(Drop)]
pub struct ShortRun<R: Reading> {
    pub sheet: Sheet<R>,
    pub taken: Result<Taken, TakeRefusal>,
    pub decoded: Result<Decoded<R::Value>, FindRefusal>,
}

// The theorem on runs: each tally is its book's, each decode names a nearest message by the book
// with its exact weight, the weight does not fall without a wipe, and confirmed octets are the
// buffer's in rounds.
// The call itself makes a short run, so that there is one for the theorem to speak of: it opens a
// sheet for one octet and a check of four bits in order R, takes octets from octet `start` on, and
// decodes into whatever it is lent.
pub fn nearest_message<R: Reading>(
    tally: &mut [Entry<R::Value>],
    start: usize,
    octets: &[u8],
    target: &mut [u8],
    scratch: &mut Scratch<'_, R::Value>,
) -> Result<ShortRun<R>, OpenRefusal>
    ensures theorem { NearestMessage R.Weighing R.Reading.alphabet }
    ensures run { MakesShortRun R.Weighing R.Reading.alphabet start octets.now
        (loans tally.old target.old (contents scratch.old))
        (loans tally.new target.new (contents scratch.new)) result }
    ensures loans { SameLoans scratch.old scratch.new }
{
    let mut sheet = Sheet::<R>::open(1, 4, Order::order_r(), tally)?;
    let taken = sheet.take(tally, start, octets);
    let decoded = sheet.decode(tally, target, scratch);
    Ok(ShortRun {
        sheet,
        taken,
        decoded,
    })
}

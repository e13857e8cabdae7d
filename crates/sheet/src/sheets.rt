// A sheet: opening it, taking symbols onto it, decoding what was taken, and wiping it.
ghost use Rattle.std.specs.Prelude.{◌≤◌};
ghost use Rattle.sheet.specs.Books.{most_symbols};

use crate::entries::{clear, first_unlawful, lay};
use crate::{Decoded, OpenRefusal, TakeRefusal, Taken, Verdict, WipeRefusal};
use block::Size;
use code::{Order, Shape};
use search::{Entry, FindRefusal, Scratch, find_nearest};
use std::marker::PhantomData;
use weighing::{Reading, Weighing};

// A sheet takes at most this many symbols between two wipes.
const MOST_SYMBOLS: usize = 1048576;

// An open sheet: the shape of the block, and how many symbols were taken since the opening or the
// last wipe. The entries stand in a tally that the caller lends to each call.
#[derive(Drop)]
pub struct Sheet<W: Weighing> {
    shape: Shape,
    count: usize,
    weighing: PhantomData<W>,
    ghost few: { count ≤ most_symbols },
}

impl<W: Weighing> Sheet<W> {
    ghost use Rattle.std.specs.Prelude.{◌≡◌};
    ghost use Rattle.code.specs.Shapes.{block_length, places};
    ghost use Rattle.search.specs.Scratch.{SameLoans, contents};
    ghost use Rattle.sheet.specs.Calls.{Decodes, Opens, Wipes, shape_of_sheet};

    // Opens a sheet for reports of T octets with a check of L bits, and clears the entries of its
    // places in the tally. T and L come as numbers, since the call itself refuses what is no size.
    pub fn open(
        octets: usize,
        check: usize,
        order: Order,
        tally: &mut [Entry<W::Value>],
    ) -> Result<Sheet<W>, OpenRefusal>
        ensures { Opens (record { octets = octets; check = check; order = order.columns })
            tally.old tally.new result }
    {
        let size = Size::new(octets, check).map_err(OpenRefusal::Size)?;
        let places = 32 * size.block_octets();
        if tally.len() < places {
            return Err(OpenRefusal::Tally);
        }
        clear::<W>(&mut tally[..places]);
        Ok(Sheet {
            shape: Shape { size, order },
            count: 0,
            weighing: PhantomData,
        })
    }

    // T: the octets of the report.
    pub fn octets(&self) -> usize
        ensures { result ≡ (shape_of_sheet self.now).octets }
    {
        self.shape.size.octets()
    }

    // L: the bits of the check.
    pub fn check(&self) -> usize
        ensures { result ≡ (shape_of_sheet self.now).check }
    {
        self.shape.size.check()
    }

    // N: the octets of the block.
    pub fn block_octets(&self) -> usize
        ensures { result ≡ block_length (shape_of_sheet self.now) }
    {
        self.shape.size.block_octets()
    }

    // The places of the block: so many entries of a tally are the sheet's.
    fn places(&self) -> usize
        ensures { result ≡ places (shape_of_sheet self.now) }
    {
        32 * self.block_octets()
    }

    // How many symbols were taken since the opening or the last wipe.
    pub fn count(&self) -> usize
        ensures { result ≡ self.now.count }
    {
        self.count
    }

    // Names the nearest message by all that was taken. The sheet and its tally stay as they are.
    pub fn decode(
        &self,
        tally: &[Entry<W::Value>],
        target: &mut [u8],
        scratch: &mut Scratch<'_, W::Value>,
    ) -> Result<Decoded<W::Value>, FindRefusal>
        ensures does { Decodes self.now tally.now target.old target.new
            (contents scratch.old) (contents scratch.new) result }
        ensures loans { SameLoans scratch.old scratch.new }
    {
        let found = find_nearest::<W>(&self.shape, tally, target, scratch)?;
        Ok(Decoded {
            weight: found.weight,
            verdict: Verdict::of(found.check_fits),
        })
    }

    // Forgets all that was taken: the entries of its places and the count are zero again.
    pub fn wipe(&mut self, tally: &mut [Entry<W::Value>]) -> Result<(), WipeRefusal>
        ensures { Wipes self.old self.new tally.old tally.new result }
    {
        if tally.len() < self.places() {
            return Err(WipeRefusal::Tally);
        }
        clear::<W>(&mut tally[..self.places()]);
        self.count = 0;
        Ok(())
    }
}

impl<R: Reading> Sheet<R> {
    ghost use Rattle.std.specs.Prelude.{◌≡◌, length};
    ghost use Rattle.sheet.specs.Calls.{Takes, shape_of_sheet};
    ghost use Rattle.sheet.specs.Laying.{Admits};

    // Whether the sheet takes these octets, with a tally of so many entries. Nothing is written
    // yet.
    fn admit(&self, entries: usize, start: usize, octets: &[u8]) -> Result<(), TakeRefusal>
        ensures { Admits R.Reading.alphabet self.now entries start octets.now result }
    {
        let n = self.block_octets();
        if entries < 32 * n {
            return Err(TakeRefusal::Tally);
        }
        if start >= 4 * n {
            return Err(TakeRefusal::Start);
        }
        if octets.is_empty() || octets.len() % 8 != 0 || octets.len() > 32 * n {
            return Err(TakeRefusal::Count);
        }
        if self.count + octets.len() > MOST_SYMBOLS {
            return Err(TakeRefusal::Full);
        }
        first_unlawful::<R>(octets).map_or(Ok(()), |index| Err(TakeRefusal::Symbol(index)))
    }

    // Takes symbols, one in each octet, and lays them from octet `start` of the report's buffer on.
    // Start and octets are handed as the book has them, and the tally is lent by itself.
    pub fn take(
        &mut self,
        tally: &mut [Entry<R::Value>],
        start: usize,
        octets: &[u8],
    ) -> Result<Taken, TakeRefusal>
        ensures { Takes R.Reading.alphabet self.old self.new tally.old tally.new
            start octets.now result }
    {
        self.admit(tally.len(), start, octets)?;
        lay::<R>(&mut tally[..self.places()], 8 * start, octets);
        self.count += octets.len();
        Ok(Taken { total: self.count })
    }
}

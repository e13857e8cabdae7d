// Carrying out the acts of a record.
ghost use Rattle.std.specs.Prelude.{◌≤◌, length};

use crate::acts::Act;
use crate::layouts::Layout;
use crate::{Fault, Line, Report};
use block::{MOST_BLOCK_OCTETS, MOST_STEPS};
use code::Order;
use search::{Entry, Scratch};
use sheet::Sheet;
use weighing::{Reading, Weighing};

// What an act answers: its line, if it has one, or the fault that stops its record.
type Answer<V> = Result<Option<Line<V>>, Fault>;

// The sheet in force, and the octet at which a take with no start field begins. The buffers that
// the acts are carried out on are lent to each call.
#[derive(Drop)]
pub(crate) struct Workspace<W: Weighing> {
    pub(crate) sheet: Option<Sheet<W>>,
    pub(crate) next_start: usize,
}

impl<W: Weighing> Workspace<W> {
    ghost use Rattle.std.specs.Prelude.{◌≡◌, None};

    // No sheet is in force.
    pub(crate) fn closed() -> Workspace<W>
        ensures { result.sheet ≡ None }
    {
        Workspace {
            sheet: None,
            next_start: 0,
        }
    }
}

impl<R: Reading> Workspace<R> {
    ghost use Rattle.std.specs.Prelude.{ℕ, List, Option};
    ghost use Rattle.listing.specs.Carrying.{CarriesOut, HasRoom, bench};
    ghost use Rattle.listing.specs.Captures.{a_decode, a_take, a_wipe, act_of, an_open};
    ghost use Rattle.listing.specs.Captures.{most_field_place};

    // Opens a sheet. A refused one leaves the sheet in force.
    fn open(
        &mut self,
        tally: &mut [Entry<R::Value>],
        at: Layout,
        octets: usize,
        check: usize,
    ) -> Answer<R::Value>
        requires { HasRoom self.old tally.old }
        ensures does { (paths : List (Option R.Value))
            → CarriesOut R.Reading.alphabet at (an_open octets check)
            (bench self.old tally.old paths) (bench self.new tally.new paths) result }
        ensures room { HasRoom self.new tally.new }
    {
        match Sheet::open(octets, check, Order::order_r(), tally) {
            Ok(sheet) => {
                self.sheet = Some(sheet);
                self.next_start = 0;
                Ok(None)
            }
            Err(refusal) => Err(Fault::of_open(at, refusal)),
        }
    }

    // Takes symbols from octet `start` on, or from where the last take ended.
    fn take(
        &mut self,
        tally: &mut [Entry<R::Value>],
        at: Layout,
        start: Option<usize>,
        symbols: &[u8],
    ) -> Answer<R::Value>
        requires symbols { at.symbols ≤ most_field_place }
        requires room { HasRoom self.old tally.old }
        ensures does { (paths : List (Option R.Value))
            → CarriesOut R.Reading.alphabet at (a_take start symbols.now)
            (bench self.old tally.old paths) (bench self.new tally.new paths) result }
        ensures room { HasRoom self.new tally.new }
    {
        let Some(sheet) = &mut self.sheet else {
            return Err(Fault::NoSheet { place: at.map });
        };
        let start = start.unwrap_or(self.next_start);
        match sheet.take(tally, start, symbols) {
            Ok(_) => {
                self.next_start = (start + symbols.len() / 8) % (4 * sheet.block_octets());
                Ok(None)
            }
            Err(refusal) => Err(Fault::of_take(at, refusal)),
        }
    }

    // Names the nearest message. The path weights are lent, since generic code cannot make an array
    // of weights.
    fn decode(
        &self,
        tally: &[Entry<R::Value>],
        paths: &mut [Option<R::Value>],
        at: Layout,
    ) -> Answer<R::Value>
        requires room { HasRoom self.now tally.now }
        requires states { 32 ≤ length paths.old }
        ensures { CarriesOut R.Reading.alphabet at a_decode
            (bench self.now tally.now paths.old) (bench self.now tally.now paths.new) result }
    {
        let Some(sheet) = &self.sheet else {
            return Err(Fault::NoSheet { place: at.map });
        };
        let mut block = [0; MOST_BLOCK_OCTETS];
        let mut survivors = [0; MOST_STEPS];
        let mut scratch = Scratch {
            survivors: &mut survivors,
            paths: &mut paths[..32],
        };
        let decoded = sheet.decode(tally, &mut block, &mut scratch).unwrap();
        Ok(Some(Line::Decode {
            record: at.record_number,
            weight: decoded.weight,
            verdict: decoded.verdict,
            report: Report {
                block,
                octets: sheet.octets(),
            },
        }))
    }

    // Wipes the sheet.
    fn wipe(&mut self, tally: &mut [Entry<R::Value>], at: Layout) -> Answer<R::Value>
        requires { HasRoom self.old tally.old }
        ensures does { (paths : List (Option R.Value)) → CarriesOut R.Reading.alphabet at a_wipe
            (bench self.old tally.old paths) (bench self.new tally.new paths) result }
        ensures room { HasRoom self.new tally.new }
    {
        let Some(sheet) = &mut self.sheet else {
            return Err(Fault::NoSheet { place: at.map });
        };
        sheet.wipe(tally).unwrap();
        self.next_start = 0;
        Ok(None)
    }

    // Carries out an act of the record with this layout.
    pub(crate) fn perform(
        &mut self,
        tally: &mut [Entry<R::Value>],
        paths: &mut [Option<R::Value>],
        at: Layout,
        act: Act<'_>,
    ) -> Answer<R::Value>
        requires symbols { at.symbols ≤ most_field_place }
        requires room { HasRoom self.old tally.old }
        requires states { 32 ≤ length paths.old }
        ensures does { CarriesOut R.Reading.alphabet at (act_of act.entry)
            (bench self.old tally.old paths.old) (bench self.new tally.new paths.new) result }
        ensures room { HasRoom self.new tally.new }
    {
        match act {
            Act::Open { octets, check } => self.open(tally, at, octets, check),
            Act::Take { start, symbols } => self.take(tally, at, start, symbols),
            Act::Decode => self.decode(tally, paths, at),
            Act::Wipe => self.wipe(tally, at),
        }
    }
}

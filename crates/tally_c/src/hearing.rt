// Naming the nearest message in one call: a sheet is opened, takes what came, and decodes.
ghost use Rattle.std.specs.Prelude.{◌≡◌};
ghost use Rattle.weighing.specs.Hard.{hard_alphabet};
ghost use Rattle.weighing.specs.Levels.{level_alphabet};
ghost use Rattle.weighing.specs.Scales.{counted, largest};
ghost use Rattle.search.specs.Scratch.{contents};
ghost use Rattle.tally_c.specs.Hearing.{Hears, ShowsHeard, TellsHeard};

use crate::TallyHeard;
use crate::refusals::HearRefusal;
use block::{MOST_PLACES, MOST_STEPS};
use code::Order;
use search::{Entry, Scratch};
use sheet::{Decoded, Sheet, Verdict};
use weighing::Reading;
use weighing::hard::Hard;
use weighing::soft::Soft;
use weighing::worst::Worst;

// Opens a sheet over the tally, takes the symbols from octet `start` on, and names the nearest
// message in the target. Tally and scratch are lent, since generic code can make no array that it
// may lend on.
fn hear<R: Reading>(
    columns: &[u8],
    octets: usize,
    check: usize,
    start: usize,
    symbols: &[u8],
    target: &mut [u8],
    tally: &mut [Entry<R::Value>],
    scratch: &mut Scratch<'_, R::Value>,
) -> Result<Decoded<R::Value>, HearRefusal>
    ensures { Hears R.Reading.alphabet R.Weighing.scale
        (record { octets = octets; check = check; order = columns.now })
        start symbols.now tally.old (contents scratch.old) target.old target.new result }
{
    let order = Order::new(columns).map_err(HearRefusal::Order)?;
    let mut sheet = Sheet::<R>::open(octets, check, order, tally).map_err(HearRefusal::Open)?;
    sheet
        .take(tally, start, symbols)
        .map_err(HearRefusal::Take)?;
    sheet
        .decode(tally, target, scratch)
        .map_err(HearRefusal::Find)
}

// What was heard as C is handed it.
fn shown(heard: Result<Decoded<u32>, HearRefusal>) -> TallyHeard
    ensures { ShowsHeard heard result }
{
    match heard {
        Ok(decoded) => TallyHeard {
            index: 0,
            weight: decoded.weight,
            refusal: 0,
            check_fits: decoded.verdict == Verdict::Fits,
        },
        Err(refusal) => TallyHeard {
            index: refusal.index(),
            weight: 0,
            refusal: refusal.number(),
            check_fits: false,
        },
    }
}

// By the hard reading.
#[unsafe(no_mangle)]
pub extern "C" fn tally_hear_hard(
    columns: &[u8],
    octets: usize,
    check: usize,
    start: usize,
    symbols: &[u8],
    target: &mut [u8],
) -> TallyHeard
    ensures { TellsHeard hard_alphabet counted
        (record { octets = octets; check = check; order = columns.now })
        start symbols.now target.old target.new result }
{
    let mut tally = [Entry { zero: 0, one: 0 }; MOST_PLACES];
    let mut scratch = Scratch {
        survivors: &mut [0; MOST_STEPS],
        paths: &mut [None; 32],
    };
    shown(hear::<Hard>(
        columns,
        octets,
        check,
        start,
        symbols,
        target,
        &mut tally,
        &mut scratch,
    ))
}

// By the soft reading.
#[unsafe(no_mangle)]
pub extern "C" fn tally_hear_soft(
    columns: &[u8],
    octets: usize,
    check: usize,
    start: usize,
    symbols: &[u8],
    target: &mut [u8],
) -> TallyHeard
    ensures { TellsHeard level_alphabet counted
        (record { octets = octets; check = check; order = columns.now })
        start symbols.now target.old target.new result }
{
    let mut tally = [Entry { zero: 0, one: 0 }; MOST_PLACES];
    let mut scratch = Scratch {
        survivors: &mut [0; MOST_STEPS],
        paths: &mut [None; 32],
    };
    shown(hear::<Soft>(
        columns,
        octets,
        check,
        start,
        symbols,
        target,
        &mut tally,
        &mut scratch,
    ))
}

// By the worst reading, whose weights have one octet.
#[unsafe(no_mangle)]
pub extern "C" fn tally_hear_worst(
    columns: &[u8],
    octets: usize,
    check: usize,
    start: usize,
    symbols: &[u8],
    target: &mut [u8],
) -> TallyHeard
    ensures { TellsHeard level_alphabet largest
        (record { octets = octets; check = check; order = columns.now })
        start symbols.now target.old target.new result }
{
    let mut tally = [Entry { zero: 0, one: 0 }; MOST_PLACES];
    let mut scratch = Scratch {
        survivors: &mut [0; MOST_STEPS],
        paths: &mut [None; 32],
    };
    shown(widened(hear::<Worst>(
        columns,
        octets,
        check,
        start,
        symbols,
        target,
        &mut tally,
        &mut scratch,
    )))
}

// A weight of one octet as a number of 32 bits.
fn widened(heard: Result<Decoded<u8>, HearRefusal>) -> Result<Decoded<u32>, HearRefusal>
    ensures { result ≡ heard }
{
    match heard {
        Ok(decoded) => Ok(Decoded {
            weight: u32::from(decoded.weight),
            verdict: decoded.verdict,
        }),
        Err(refusal) => Err(refusal),
    }
}

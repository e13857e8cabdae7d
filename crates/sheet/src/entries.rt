// The entries of a tally: clearing them, and laying symbols on them.
ghost use Rattle.std.specs.Prelude.{◌≡◌, ℕ, ◌+◌, ◌<◌, ◌≤◌, Bool, length};
ghost use Rattle.search.specs.Weights.{entry_sums};
ghost use Rattle.sheet.specs.Books.{unlawful};
ghost use Rattle.sheet.specs.Laying.{LaysOctet, LaysOn};

use search::Entry;
use weighing::{Reading, Weighing};

// Sets the entries of all places to zero.
pub(crate) fn clear<W: Weighing>(places: &mut [Entry<W::Value>])
    ensures { (p : ℕ) (b : Bool) → p < length places.old
        → entry_sums W.scale places.new p b ≡ W.scale.zero }
{
    places.fill_with(|| Entry {
        zero: W::zero(),
        one: W::zero(),
    });
}

// The index of the first octet that is no symbol.
pub(crate) fn first_unlawful<R: Reading>(octets: &[u8]) -> Option<usize>
    ensures { result ≡ unlawful R.Reading.alphabet octets.now }
{
    for (i, octet) in octets.iter().enumerate() {
        if R::read(*octet).is_none() {
            return Some(i);
        }
    }
    None
}

// Adds what an octet's symbol weighs behind an entry, if it is one.
fn lay_octet<R: Reading>(entry: &mut Entry<R::Value>, octet: u8)
    ensures { LaysOctet R.Reading.alphabet R.Weighing.scale octet entry.old entry.new }
{
    if let Some(symbol) = R::read(octet) {
        entry.zero = R::sum(entry.zero, R::cost(symbol, false));
        entry.one = R::sum(entry.one, R::cost(symbol, true));
    }
}

// Lays the symbols that octets read as on a row of places, from place `first` on.
fn lay_row<R: Reading>(places: &mut [Entry<R::Value>], first: usize, octets: &[u8])
    requires { first + length octets.now ≤ length places.old }
    ensures { LaysOn R.Reading.alphabet R.Weighing.scale first octets.now places.old places.new }
{
    for (i, octet) in octets.iter().enumerate() {
        lay_octet::<R>(&mut places[first + i], *octet);
    }
}

// Lays the symbols that octets read as on places, from place `first` on: behind the last place
// comes the first. There are at most as many octets as places, so they go in two rows.
pub(crate) fn lay<R: Reading>(places: &mut [Entry<R::Value>], first: usize, octets: &[u8])
    requires { (first < length places.old) × (length octets.now ≤ length places.old) }
    ensures { LaysOn R.Reading.alphabet R.Weighing.scale first octets.now places.old places.new }
{
    let (ahead, over) = octets.split_at(octets.len().min(places.len() - first));
    lay_row::<R>(places, first, ahead);
    lay_row::<R>(places, 0, over);
}

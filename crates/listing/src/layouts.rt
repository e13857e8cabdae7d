// Where the fields of a record stand.
use crate::Fault;
use crate::captures::{Map, number};

// A record's number, counted from 1; where its fields begin: the map, T, L, the start, the count
// and the symbols; and where the next record begins. An absent field has the place at which it
// would begin.
#[derive(Clone, Copy)]
pub(crate) struct Layout {
    pub(crate) record_number: usize,
    pub(crate) map: usize,
    pub(crate) octets: usize,
    pub(crate) check: usize,
    pub(crate) start: usize,
    pub(crate) count: usize,
    pub(crate) symbols: usize,
    pub(crate) end: usize,
}

impl Layout {
    ghost use Rattle.std.specs.Prelude.{◌≡◌, ◌<◌, ◌≤◌};
    ghost use Rattle.listing.specs.Captures.{layout, letter_layout, most_capture_octets};
    ghost use Rattle.listing.specs.Faults.{Reads};

    // Before the first record, where only the letter stands.
    pub(crate) fn letter() -> Layout
        ensures { result ≡ letter_layout }
    {
        Layout {
            record_number: 0,
            map: 0,
            octets: 0,
            check: 0,
            start: 0,
            count: 0,
            symbols: 0,
            end: 1,
        }
    }

    // The layout of the record with this number, at this place.
    fn of(capture: &[u8], record_number: usize, place: usize) -> Layout
        requires { place ≤ most_capture_octets }
        ensures { result ≡ layout capture.now record_number place }
    {
        let map = Map::at(capture, place);
        let start = place + 1 + if map.has_size() { 3 } else { 0 };
        let count = start + if map.has_start() { 2 } else { 0 };
        let symbols = count + 2;
        Layout {
            record_number,
            map: place,
            octets: place + 1,
            check: place + 3,
            start,
            count,
            symbols,
            end: if map.has_symbols() {
                symbols + number(capture, count)
            } else {
                start
            },
        }
    }

    // The layout of the record behind this one, if that is read: its map is tested first, and then
    // whether it is cut short.
    pub(crate) fn read_next(self, capture: &[u8]) -> Result<Layout, Fault>
        requires end { self.end ≤ most_capture_octets }
        requires counted { self.record_number < self.end }
        ensures { Reads capture.now self result }
    {
        let place = self.end;
        if Map::at(capture, place).is_unknown() {
            return Err(Fault::Unknown { place });
        }
        let at = Layout::of(capture, self.record_number + 1, place);
        if at.end > capture.len() {
            return Err(Fault::CutShort { place });
        }
        Ok(at)
    }
}

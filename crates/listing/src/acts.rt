// The acts of a record.
use crate::captures::{Map, number, octet};
use crate::layouts::Layout;

// An act that a record asks for. A take borrows its symbols from the capture, so that none is
// copied.
#[derive(Clone, Copy)]
pub(crate) enum Act<'a> {
    Open {
        octets: usize,
        check: usize,
    },
    Take {
        // none where the record has no start field
        start: Option<usize>,
        symbols: &'a [u8],
    },
    Decode,
    Wipe,
}

// The acts of a record that are still to be carried out.
#[derive(Clone, Copy)]
pub(crate) struct Acts<'a> {
    open: Option<Act<'a>>,
    take: Option<Act<'a>>,
    decode: Option<Act<'a>>,
    wipe: Option<Act<'a>>,
}

impl<'a> Acts<'a> {
    ghost use Rattle.std.specs.Prelude.{◌≡◌, ◌≤◌, length, MatchOption, [], ◌∷◌};
    ghost use Rattle.listing.specs.Captures.{act_of, acts, acts_left, layout};
    ghost use Rattle.listing.specs.Captures.{most_capture_octets};

    // No acts.
    pub(crate) fn none() -> Acts<'a>
        ensures { acts_left result ≡ [] }
    {
        Acts {
            open: None,
            take: None,
            decode: None,
            wipe: None,
        }
    }

    // The acts of the record with this layout.
    pub(crate) fn of(capture: &'a [u8], at: Layout) -> Acts<'a>
        requires place { at.map ≤ most_capture_octets }
        requires layout { at ≡ layout capture.now at.record_number at.map }
        requires whole { at.end ≤ length capture.now }
        ensures { acts_left result ≡ acts capture.now at }
    {
        let map = Map::at(capture, at.map);
        // not `then`: what the record's layout says is not known in a closure
        let open = if map.has_size() {
            Some(Act::Open {
                octets: number(capture, at.octets),
                check: usize::from(octet(capture, at.check)),
            })
        } else {
            None
        };
        let start = if map.has_start() {
            Some(number(capture, at.start))
        } else {
            None
        };
        let take = if map.has_symbols() {
            Some(Act::Take {
                start,
                symbols: &capture[at.symbols..at.end],
            })
        } else {
            None
        };
        Acts {
            open,
            take,
            decode: map.has_decode().then_some(Act::Decode),
            wipe: map.has_wipe().then_some(Act::Wipe),
        }
    }

    // The next act, which is then no longer to be carried out.
    pub(crate) fn next(&mut self) -> Option<Act<'a>>
        ensures { MatchOption result ((acts_left self.old ≡ []) × (acts_left self.new ≡ []))
            (λ act. acts_left self.old ≡ act_of act ∷ acts_left self.new) }
    {
        if self.open.is_some() {
            return self.open.take();
        }
        if self.take.is_some() {
            return self.take.take();
        }
        if self.decode.is_some() {
            return self.decode.take();
        }
        self.wipe.take()
    }
}

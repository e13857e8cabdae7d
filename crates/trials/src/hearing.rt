// A sheet with its tally and what a decode is lent, and beside it the second decoder's book of the
// same takes.
use crate::frame::Frame;
use crate::lent::{Lengths, Lent};
use crate::second::book::Book;
use crate::second::family::{Fact, differing};
use crate::second::heard::{Found, Heard};
use crate::summed::Summed;
use crate::tried::Tried;
use sheet::{OpenRefusal, Taken, Verdict};

#[derive(Drop)]
pub(crate) struct Hearing<'a, R: Tried> {
    pub(crate) frame: &'a Frame,
    summed: Summed<R>,
    lent: Lent<R>,
    book: Book,
}

// What a decode answered. A refused one names a weight that no message has.
#[derive(Clone, Copy)]
pub(crate) struct Named {
    pub(crate) weight: u64,
    pub(crate) check_fits: bool,
}

// A decode that was compared with the second decoder: what it answered, and in what it differs, if
// in anything.
#[derive(Clone, Copy)]
pub(crate) struct Compared {
    pub(crate) named: Named,
    pub(crate) differs: Option<&'static str>,
}

// What the second search should have found, where the weight answered is this one. Its own message
// has to weigh what it says.
fn search_facts(found: Option<Found>, weight: u64) -> [Fact; 3] {
    match found {
        Some(found) => [
            ("the least weight", found.weight == weight),
            ("the tail of the second search", found.judged.fits.tail),
            (
                "the weight of the second search",
                found.judged.weight == found.weight,
            ),
        ],
        None => [("the end of the second search", false); 3],
    }
}

impl<'a, R: Tried> Hearing<'a, R> {
    pub(crate) fn open(frame: &'a Frame) -> Result<Hearing<'a, R>, OpenRefusal> {
        let heap = frame.heap;
        let sizes = frame.sizes;
        Ok(Hearing {
            frame,
            summed: Summed::open(heap, sizes, frame.order, sizes.places())?,
            lent: Lent::marked(heap, Lengths::needed(sizes)),
            book: Book::new(heap, R::kind(), sizes.places()),
        })
    }

    // Takes symbols on the sheet and in the book, and answers whether the take was performed and
    // both have the same count.
    pub(crate) fn take(&mut self, start: usize, octets: &[u8]) -> bool {
        let taken = self.summed.take(start, octets);
        self.book.note(start, octets);
        let total = self.book.count;
        taken == Ok(Taken { total })
    }

    // Answers whether the wipe was performed.
    pub(crate) fn wipe(&mut self) -> bool {
        self.book.wipe();
        let tally = self.summed.tally.as_mut_slice();
        self.summed.sheet.wipe(tally).is_ok()
    }

    pub(crate) fn decode(&mut self) -> Named {
        match self
            .lent
            .decode(&self.summed.sheet, self.summed.tally.as_slice())
        {
            Ok(decoded) => Named {
                weight: R::number(decoded.weight),
                check_fits: decoded.verdict == Verdict::Fits,
            },
            Err(_) => Named {
                weight: u64::MAX,
                check_fits: false,
            },
        }
    }

    // The octets that the last decode named.
    pub(crate) fn octets(&self) -> &[u8] {
        self.lent.target.as_slice()
    }

    // What the second decoder makes of the book.
    pub(crate) fn heard(&self) -> Heard {
        let sums = self.book.sums();
        Heard::of(
            self.frame.heap,
            R::kind(),
            self.frame.sizes,
            sums.as_slice(),
            self.frame.sources.as_slice(),
        )
    }

    // Whether each entry of the tally is the book's sums.
    fn tally_is_due(&self) -> bool {
        self.summed.has_sums(self.book.sums().as_slice())
    }

    // In what the last decode differs from what the second decoder makes of it.
    fn compare(&self, named: Named) -> Option<&'static str> {
        let heard = self.heard();
        let judged = heard.judge(self.octets());
        let found = heard.find();
        differing(&[
            ("the tail", judged.fits.tail),
            (
                "the weight of the message named",
                judged.weight == named.weight,
            ),
            (
                "the verdict on the check",
                judged.fits.check == named.check_fits,
            ),
        ])
        .or(differing(&search_facts(found, named.weight)))
    }

    // Decodes, and compares the tally and all that is answered with the second decoder.
    pub(crate) fn compared(&mut self) -> Compared {
        let tally = self.tally_is_due();
        let named = self.decode();
        let differs = differing(&[("the tally", tally)]).or(self.compare(named));
        Compared { named, differs }
    }
}

// A sheet with its tally.
use crate::lent::marked_tally;
use crate::second::book::Sums;
use crate::second::sizes::Sizes;
use crate::tried::Tried;
use code::Order;
use search::Entry;
use sheet::{OpenRefusal, Sheet, TakeRefusal, Taken};
use std::alloc::Global;

#[derive(Drop)]
pub(crate) struct Summed<R: Tried> {
    heap: Global,
    pub(crate) sheet: Sheet<R>,
    pub(crate) tally: Vec<Entry<R::Value>>,
}

// The number of a refusal, if it is one.
pub(crate) fn number(found: Result<Taken, TakeRefusal>) -> Option<u8> {
    match found {
        Ok(_) => None,
        Err(refusal) => Some(refusal.number()),
    }
}

impl<R: Tried> Summed<R> {
    // A sheet over a tally with so many entries.
    pub(crate) fn open(
        heap: Global,
        sizes: Sizes,
        order: Order,
        entries: usize,
    ) -> Result<Summed<R>, OpenRefusal> {
        let mut tally = marked_tally::<R>(heap, entries);
        let sheet = Sheet::<R>::open(sizes.octets, sizes.check, order, tally.as_mut_slice())?;
        Ok(Summed { heap, sheet, tally })
    }

    // A sheet for reports of one octet with a check of four bits, in order R.
    pub(crate) fn small(heap: Global, entries: usize) -> Result<Summed<R>, OpenRefusal> {
        Summed::open(heap, Sizes::of(1, 4), Order::order_r(), entries)
    }

    pub(crate) fn take(&mut self, start: usize, octets: &[u8]) -> Result<Taken, TakeRefusal> {
        self.sheet.take(self.tally.as_mut_slice(), start, octets)
    }

    // The number with which a take is refused, if it is.
    pub(crate) fn refused(&mut self, start: usize, octets: &[u8]) -> Option<u8> {
        number(self.take(start, octets))
    }

    // The sums that the tally holds.
    pub(crate) fn sums(&self) -> Vec<Sums> {
        let mut sums = Vec::new(self.heap);
        for entry in self.tally.as_slice() {
            let _pushed = sums.push(Sums {
                zero: R::number(entry.zero),
                one: R::number(entry.one),
            });
        }
        sums
    }

    // Whether the tally holds these sums.
    pub(crate) fn has_sums(&self, sums: &[Sums]) -> bool {
        if self.tally.len() != sums.len() {
            return false;
        }
        for (entry, sums) in self.tally.iter().zip(sums) {
            if R::number(entry.zero) != sums.zero || R::number(entry.one) != sums.one {
                return false;
            }
        }
        true
    }
}

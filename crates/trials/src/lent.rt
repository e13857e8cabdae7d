// The buffers of a sheet and of a decode, filled with a pattern, to see afterwards what was
// written.
use crate::second::pattern::{is_marked, mark, marked};
use crate::second::sizes::Sizes;
use crate::tried::Tried;
use search::{Entry, FindRefusal, Scratch};
use sheet::{Decoded, Sheet};
use std::alloc::Global;

// The lengths of what a decode is lent.
#[derive(Clone, Copy)]
pub(crate) struct Lengths {
    pub(crate) tally: usize,
    pub(crate) target: usize,
    pub(crate) survivors: usize,
    pub(crate) paths: usize,
}

impl Lengths {
    // Just enough.
    pub(crate) fn needed(sizes: Sizes) -> Lengths {
        Lengths {
            tally: sizes.places(),
            target: sizes.block,
            survivors: sizes.block.saturating_mul(8),
            paths: 32,
        }
    }

    pub(crate) fn none() -> Lengths {
        Lengths {
            tally: 0,
            target: 0,
            survivors: 0,
            paths: 0,
        }
    }

    pub(crate) fn numbers(self) -> [usize; 4] {
        [self.tally, self.target, self.survivors, self.paths]
    }

    pub(crate) fn is_short_of(self, needed: Lengths) -> bool {
        self.tally < needed.tally
            || self.target < needed.target
            || self.survivors < needed.survivors
            || self.paths < needed.paths
    }
}

fn marked_entry<R: Tried>(index: usize) -> Entry<R::Value> {
    Entry {
        zero: R::weight(mark(index)),
        one: R::weight(mark(index.wrapping_add(7))),
    }
}

pub(crate) fn marked_tally<R: Tried>(heap: Global, length: usize) -> Vec<Entry<R::Value>> {
    let mut tally = Vec::new(heap);
    for index in 0..length {
        let _pushed = tally.push(marked_entry::<R>(index));
    }
    tally
}

fn is_marked_entry<R: Tried>(entry: Entry<R::Value>, index: usize) -> bool {
    R::number(entry.zero) == u64::from(mark(index))
        && R::number(entry.one) == u64::from(mark(index.wrapping_add(7)))
}

// Whether the entries from an index on are still the pattern.
pub(crate) fn is_marked_tally<R: Tried>(tally: &[Entry<R::Value>], from: usize) -> bool {
    for (index, entry) in tally.iter().enumerate() {
        if index >= from && !is_marked_entry::<R>(*entry, index) {
            return false;
        }
    }
    true
}

// Whether the entries before an index are zero.
pub(crate) fn is_zero_tally<R: Tried>(tally: &[Entry<R::Value>], until: usize) -> bool {
    for (index, entry) in tally.iter().enumerate() {
        if index < until && (R::number(entry.zero) != 0 || R::number(entry.one) != 0) {
            return false;
        }
    }
    true
}

fn marked_words(heap: Global, length: usize) -> Vec<u16> {
    let mut words = Vec::new(heap);
    for index in 0..length {
        let _pushed = words.push(u16::from(mark(index)));
    }
    words
}

fn is_marked_words(words: &[u16], from: usize) -> bool {
    for (index, word) in words.iter().enumerate() {
        if index >= from && *word != u16::from(mark(index)) {
            return false;
        }
    }
    true
}

// Path weights, of which each third is absent.
fn marked_path<R: Tried>(index: usize) -> Option<R::Value> {
    if index % 3 == 0 {
        None
    } else {
        Some(R::weight(mark(index)))
    }
}

fn marked_paths<R: Tried>(heap: Global, length: usize) -> Vec<Option<R::Value>> {
    let mut paths = Vec::new(heap);
    for index in 0..length {
        let _pushed = paths.push(marked_path::<R>(index));
    }
    paths
}

fn is_marked_path<R: Tried>(path: Option<R::Value>, index: usize) -> bool {
    match path {
        None => index % 3 == 0,
        Some(weight) => index % 3 != 0 && R::number(weight) == u64::from(mark(index)),
    }
}

fn is_marked_paths<R: Tried>(paths: &[Option<R::Value>], from: usize) -> bool {
    for (index, path) in paths.iter().enumerate() {
        if index >= from && !is_marked_path::<R>(*path, index) {
            return false;
        }
    }
    true
}

// What a decode may write, beside the octets of its target.
#[derive(Drop)]
pub(crate) struct Lent<R: Tried> {
    pub(crate) target: Vec<u8>,
    survivors: Vec<u16>,
    paths: Vec<Option<R::Value>>,
}

impl<R: Tried> Lent<R> {
    pub(crate) fn marked(heap: Global, lengths: Lengths) -> Lent<R> {
        Lent {
            target: marked(heap, lengths.target),
            survivors: marked_words(heap, lengths.survivors),
            paths: marked_paths::<R>(heap, lengths.paths),
        }
    }

    pub(crate) fn decode(
        &mut self,
        sheet: &Sheet<R>,
        tally: &[Entry<R::Value>],
    ) -> Result<Decoded<R::Value>, FindRefusal> {
        let mut scratch = Scratch {
            survivors: self.survivors.as_mut_slice(),
            paths: self.paths.as_mut_slice(),
        };
        sheet.decode(tally, self.target.as_mut_slice(), &mut scratch)
    }

    // Whether what lies behind these lengths is still the pattern: the target, the survivors and
    // the path weights.
    pub(crate) fn stay(&self, from: Lengths) -> [bool; 3] {
        [
            is_marked(self.target.as_slice(), from.target),
            is_marked_words(self.survivors.as_slice(), from.survivors),
            is_marked_paths::<R>(self.paths.as_slice(), from.paths),
        ]
    }
}

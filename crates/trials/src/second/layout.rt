// The buffer as a list that names, for each place in turn, the output bit that stands there.
use std::alloc::Global;

// An output bit of a block: its step, and which of the step's four outputs it is, counted from 0.
#[derive(Clone, Copy)]
pub(crate) struct Source {
    pub(crate) step: usize,
    pub(crate) output: usize,
}

// Lists a column: its steps stand below one another in rows of eight.
fn list_column(sources: &mut Vec<Source>, steps: &[usize], column: u8) {
    let output = usize::from(column / 8 + 1);
    for row in steps.chunks(8) {
        if let Some(step) = row.get(usize::from(column % 8)) {
            let step = *step;
            let _pushed = sources.push(Source { step, output });
        }
    }
}

// All places of a block of so many octets: output 1 of each step, and then the columns in their
// order.
pub(crate) fn sources(heap: Global, block: usize, columns: &[u8]) -> Vec<Source> {
    let steps: Vec<usize> = (0..block.saturating_mul(8))
        .collect(heap)
        .unwrap_or(Vec::new(heap));
    let mut sources = Vec::new(heap);
    for step in steps.iter() {
        let step = *step;
        let _pushed = sources.push(Source { step, output: 0 });
    }
    for column in columns {
        list_column(&mut sources, steps.as_slice(), *column);
    }
    sources
}

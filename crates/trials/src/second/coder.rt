// Coding by lists of bits.
use crate::second::division::check_bits;
use crate::second::layout::Source;
use crate::second::register::Cells;
use std::alloc::Global;

const VALUES: [u8; 8] = [1, 2, 4, 8, 16, 32, 64, 128];

// The bits of octets, the lowest of each first.
pub(crate) fn bits_of(heap: Global, octets: &[u8]) -> Vec<bool> {
    let mut bits = Vec::new(heap);
    for octet in octets {
        for value in VALUES {
            let _pushed = bits.push(octet & value != 0);
        }
    }
    bits
}

fn octet_of(bits: &[bool]) -> u8 {
    let mut octet = 0;
    for (bit, value) in bits.iter().zip(VALUES) {
        if *bit {
            octet |= value;
        }
    }
    octet
}

// Octets of bits, the lowest of each first.
pub(crate) fn octets_of(heap: Global, bits: &[bool]) -> Vec<u8> {
    bits.chunks(8)
        .map(octet_of)
        .collect(heap)
        .unwrap_or(Vec::new(heap))
}

// A message's bits: the report's and those of its check.
pub(crate) fn message_of(heap: Global, report: &[u8], check: usize) -> Vec<bool> {
    let mut bits = bits_of(heap, report);
    let field = check_bits(heap, bits.as_slice(), check);
    let _extended = bits.extend_from_slice(field.as_slice());
    bits
}

// A coded message: what went into the register, the tail with it, and the four outputs of each
// step.
#[derive(Drop)]
pub(crate) struct Coded {
    pub(crate) inputs: Vec<bool>,
    pub(crate) outputs: Vec<[bool; 4]>,
    cells: Cells,
}

impl Coded {
    fn feed(&mut self, input: bool) {
        let _pushed = self.inputs.push(input);
        let _pushed = self.outputs.push(self.cells.outputs(input));
        self.cells = self.cells.after(input);
    }

    // Codes a message, and then the four bits of its tail, each the feedback of its moment.
    pub(crate) fn of(heap: Global, message: &[bool]) -> Coded {
        let mut coded = Coded {
            inputs: Vec::new(heap),
            outputs: Vec::new(heap),
            cells: Cells::cleared(),
        };
        for bit in message {
            coded.feed(*bit);
        }
        for _ in 0..4 {
            let tail = coded.cells.feedback();
            coded.feed(tail);
        }
        coded
    }

    fn bit(&self, source: Source) -> bool {
        match self.outputs.get(source.step) {
            Some(outputs) => outputs.get(source.output) == Some(&true),
            None => false,
        }
    }

    // The bits of the buffer, as the list of its places has it.
    pub(crate) fn buffer(&self, heap: Global, sources: &[Source]) -> Vec<bool> {
        let mut bits = Vec::new(heap);
        for source in sources {
            let _pushed = bits.push(self.bit(*source));
        }
        bits
    }
}

// The bits of the buffer of a report.
pub(crate) fn buffer_of(
    heap: Global,
    report: &[u8],
    check: usize,
    sources: &[Source],
) -> Vec<bool> {
    let message = message_of(heap, report, check);
    Coded::of(heap, message.as_slice()).buffer(heap, sources)
}

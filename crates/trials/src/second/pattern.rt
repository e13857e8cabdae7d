// Octets filled with a pattern, to see afterwards what was written.
use std::alloc::Global;

// An octet that goes by its index.
pub(crate) fn mark(index: usize) -> u8 {
    (index % 113) as u8 + 60
}

pub(crate) fn marked(heap: Global, length: usize) -> Vec<u8> {
    (0..length)
        .map(mark)
        .collect(heap)
        .unwrap_or(Vec::new(heap))
}

// Whether the octets from an index on are still the pattern.
pub(crate) fn is_marked(octets: &[u8], from: usize) -> bool {
    for (index, octet) in octets.iter().enumerate() {
        if index >= from && *octet != mark(index) {
            return false;
        }
    }
    true
}

// Whether the octets before an index are these.
pub(crate) fn begins_with(octets: &[u8], due: &[u8]) -> bool {
    octets.get(..due.len()) == Some(due)
}

// Reports that look like chance, and their coded buffers.
use crate::noise::Noise;
use block::Size;
use code::{Order, encode_report};
use std::alloc::{AllocError, Global};

// The length of the check, in bits.
pub(crate) const CHECK: usize = 28;

// A report of so many octets.
pub(crate) fn report(
    heap: Global,
    noise: &mut Noise,
    octets: usize,
) -> Result<Vec<u8>, AllocError> {
    let mut report = vec![in heap; 0u8; octets]?;
    for octet in report.iter_mut() {
        *octet = noise.next();
    }
    Ok(report)
}

// The buffer of a report, in order R.
pub(crate) fn coded(heap: Global, size: Size, report: &[u8]) -> anyhow::Result<Vec<u8>> {
    let mut buffer = vec![in heap; 0u8; 4 * size.block_octets()]?;
    encode_report(
        report,
        size.check(),
        &Order::order_r(),
        buffer.as_mut_slice(),
    )?;
    Ok(buffer)
}

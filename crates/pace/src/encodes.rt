// Encodes of eighty reports of the longest kind.
use crate::Effort;
use crate::blocks::{CHECK, report};
use crate::noise::Noise;
use block::Size;
use code::{Order, encode_report};
use std::alloc::Global;
use std::time::Instant;

const REPORTS: usize = 80;

const OCTETS: usize = 512;

// Eighty reports, and the buffer that each is encoded into.
#[derive(Drop)]
struct Batch {
    reports: Vec<Vec<u8>>,
    order: Order,
    buffer: Vec<u8>,
}

// A sum of octets in which each has its place.
fn digest(sum: u32, octets: &[u8]) -> u32 {
    octets.iter().fold(sum, |sum, octet| {
        (sum ^ u32::from(*octet)).wrapping_mul(16777619)
    })
}

impl Batch {
    fn begin(heap: Global) -> anyhow::Result<Batch> {
        let mut noise = Noise::begin();
        let mut reports = Vec::new(heap);
        for _ in 0..REPORTS {
            reports.push(report(heap, &mut noise, OCTETS)?)?;
        }
        let size = Size::new(OCTETS, CHECK)?;
        Ok(Batch {
            reports,
            order: Order::order_r(),
            buffer: vec![in heap; 0u8; 4 * size.block_octets()]?,
        })
    }

    // A digest of all buffers, one behind the other.
    fn digest(&mut self) -> anyhow::Result<u32> {
        let mut sum = 2166136261;
        for report in self.reports.iter() {
            encode_report(
                report.as_slice(),
                CHECK,
                &self.order,
                self.buffer.as_mut_slice(),
            )?;
            sum = digest(sum, self.buffer.as_slice());
        }
        Ok(sum)
    }

    // Encodes all reports; answers a sum of the buffers' last octets, so that none is left out.
    fn encode(&mut self) -> anyhow::Result<u32> {
        let mut sum = 0u32;
        for report in self.reports.iter() {
            encode_report(
                report.as_slice(),
                CHECK,
                &self.order,
                self.buffer.as_mut_slice(),
            )?;
            let last = self.buffer.last().copied().unwrap_or(0);
            sum = sum.wrapping_add(u32::from(last));
        }
        Ok(sum)
    }

    // Tells how long it takes to encode all reports so many times.
    fn time(&mut self, rt: &HostRuntime, batches: u32) -> anyhow::Result<()> {
        let mut sum = 0u32;
        let start = Instant::now(rt)?;
        for _ in 0..batches {
            sum = sum.wrapping_add(self.encode()?);
        }
        let nanoseconds = start.elapsed(rt)?.as_nanos();
        eprintln!(rt; "encode - {OCTETS} {batches} {nanoseconds} {sum}")?;
        Ok(())
    }
}

// Tells a digest of the encoded reports, and times their encoding.
pub(crate) fn time_encodes(rt: &HostRuntime, effort: Effort) -> anyhow::Result<()> {
    let mut batch = Batch::begin(rt.alloc())?;
    println!(rt; "encode {:08x}", batch.digest()?)?;
    for _ in 0..effort.rounds {
        batch.time(rt, effort.batches)?;
    }
    Ok(())
}

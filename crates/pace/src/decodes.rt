// Decodes of one report, of which each symbol was taken once.
use crate::Effort;
use crate::blocks::{CHECK, coded, report};
use crate::noise::{Noise, Noted};
use block::{Size, bit_of};
use code::Order;
use search::{Entry, Scratch};
use sheet::{Decoded, Sheet, Verdict};
use std::alloc::{AllocError, Global};
use std::fmt;
use std::time::Instant;

// One symbol for each bit of the buffer.
fn heard<R: Noted>(heap: Global, noise: &mut Noise, buffer: &[u8]) -> Result<Vec<u8>, AllocError> {
    let mut symbols = Vec::new(heap);
    for octet in buffer {
        for i in 0..8 {
            symbols.push(R::note(noise, bit_of(u32::from(*octet), i)))?;
        }
    }
    Ok(symbols)
}

// A sheet with its tally, the symbols that it takes, and what its decodes are lent.
#[derive(Drop)]
struct Receiver<R: Noted> {
    symbols: Vec<u8>,
    sheet: Sheet<R>,
    tally: Vec<Entry<R::Value>>,
    target: Vec<u8>,
    survivors: Vec<u16>,
    paths: Vec<Option<R::Value>>,
}

impl<R: Noted> Receiver<R> {
    // Takes the whole buffer of a new report, as it is heard.
    fn open(heap: Global, octets: usize) -> anyhow::Result<Receiver<R>> {
        let mut noise = Noise::begin();
        let size = Size::new(octets, CHECK)?;
        let n = size.block_octets();
        let report = report(heap, &mut noise, octets)?;
        let buffer = coded(heap, size, report.as_slice())?;
        let symbols = heard::<R>(heap, &mut noise, buffer.as_slice())?;
        let empty = Entry {
            zero: R::zero(),
            one: R::zero(),
        };
        let mut tally = vec![in heap; empty; 32 * n]?;
        let mut sheet = Sheet::<R>::open(octets, CHECK, Order::order_r(), tally.as_mut_slice())?;
        sheet.take(tally.as_mut_slice(), 0, symbols.as_slice())?;
        Ok(Receiver {
            symbols,
            sheet,
            tally,
            target: vec![in heap; 0u8; n]?,
            survivors: vec![in heap; 0u16; 8 * n]?,
            paths: vec![in heap; None; 32]?,
        })
    }

    // Forgets all symbols and takes them anew; answers their number.
    fn take(&mut self) -> anyhow::Result<usize> {
        self.sheet.wipe(self.tally.as_mut_slice())?;
        let taken = self
            .sheet
            .take(self.tally.as_mut_slice(), 0, self.symbols.as_slice())?;
        Ok(taken.total)
    }

    fn decode(&mut self) -> anyhow::Result<Decoded<R::Value>> {
        let mut scratch = Scratch {
            survivors: self.survivors.as_mut_slice(),
            paths: self.paths.as_mut_slice(),
        };
        let target = self.target.as_mut_slice();
        Ok(
            self.sheet
                .decode(self.tally.as_slice(), target, &mut scratch)?,
        )
    }
}

impl<R: Noted> Receiver<R>
where
    R::Value: fmt::Display,
{
    // Tells what a decode names.
    fn tell(&mut self, rt: &HostRuntime) -> anyhow::Result<()> {
        let decoded = self.decode()?;
        let octets = self.sheet.octets();
        let named = hex::encode(rt.alloc(), self.target.as_slice())?;
        println!(rt;
            "{} {octets} {} {} {named}",
            R::NAME,
            decoded.weight,
            decoded.verdict == Verdict::Fits
        )?;
        Ok(())
    }

    // Tells how long so many decodes take together. The sum of their weights is told too, so that
    // none is left out.
    fn time_decode(&mut self, rt: &HostRuntime, times: usize) -> anyhow::Result<()> {
        let mut sum = R::zero();
        let start = Instant::now(rt)?;
        for _ in 0..times {
            sum = R::sum(sum, self.decode()?.weight);
        }
        let nanoseconds = start.elapsed(rt)?.as_nanos();
        let octets = self.sheet.octets();
        eprintln!(rt; "decode {} {octets} {times} {nanoseconds} {sum}", R::NAME)?;
        Ok(())
    }

    // Tells the same of so many wipes and takes of all symbols.
    fn time_take(&mut self, rt: &HostRuntime, times: usize) -> anyhow::Result<()> {
        let mut sum = 0usize;
        let start = Instant::now(rt)?;
        for _ in 0..times {
            sum = sum.wrapping_add(self.take()?);
        }
        let nanoseconds = start.elapsed(rt)?.as_nanos();
        let octets = self.sheet.octets();
        eprintln!(rt; "take {} {octets} {times} {nanoseconds} {sum}", R::NAME)?;
        Ok(())
    }
}

// Tells what is named of a report of so many octets, and times its decodes and its takes.
pub(crate) fn time_decodes<R: Noted>(
    rt: &HostRuntime,
    octets: usize,
    effort: Effort,
) -> anyhow::Result<()>
where
    R::Value: fmt::Display,
{
    let mut receiver = Receiver::<R>::open(rt.alloc(), octets)?;
    receiver.tell(rt)?;
    let times = effort.steps / (8 * receiver.sheet.block_octets()) + 1;
    for _ in 0..effort.rounds {
        receiver.time_decode(rt, times)?;
        receiver.time_take(rt, times)?;
    }
    Ok(())
}

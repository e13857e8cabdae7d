// The receiving side: what arrives is taken onto a sheet and decoded until the check fits. One text
// for every reading.
use crate::channel::{Noise, Noted};
use crate::sending::{Ending, Report, Sending};
use crate::text::Text;
use code::Order;
use search::{Entry, Scratch};
use sheet::{Decoded, Sheet, Verdict};
use std::fmt;

// How many octets are asked for where the check does not fit yet, and how often at most.
const MORE: usize = 16;

const ROUNDS: usize = 12;

// The two sides of one report: its sending; and the sheet with its tally, and what a decode is
// lent.
#[derive(Drop)]
struct Sides<'a, R: Noted> {
    sending: Sending<'a>,
    noise: Noise,
    sheet: Sheet<R>,
    tally: Vec<Entry<R::Value>>,
    target: Vec<u8>,
    survivors: Vec<u16>,
    paths: Vec<Option<R::Value>>,
}

impl<'a, R: Noted> Sides<'a, R>
where
    R::Value: fmt::Display,
{
    fn open(rt: &'a HostRuntime, report: &'a Report) -> anyhow::Result<Sides<'a, R>> {
        let heap = rt.alloc();
        let size = report.size;
        let n = size.block_octets();
        let empty = Entry {
            zero: R::zero(),
            one: R::zero(),
        };
        let mut tally = vec![in heap; empty; 32 * n]?;
        let sheet = Sheet::<R>::open(
            size.octets(),
            size.check(),
            Order::order_r(),
            tally.as_mut_slice(),
        )?;
        Ok(Sides {
            sending: Sending::begin(rt, report)?,
            noise: Noise(7),
            sheet,
            tally,
            target: vec![in heap; 0u8; n]?,
            survivors: vec![in heap; 0u16; 8 * n]?,
            paths: vec![in heap; None; 32]?,
        })
    }

    // Takes octets that were sent from octet `start` on, as they arrive.
    fn take(&mut self, start: usize, octets: &[u8]) -> anyhow::Result<()> {
        let heard = self.noise.hear::<R>(self.sending.rt.alloc(), octets)?;
        let count = heard.symbols.len();
        println!(self.sending.rt;
            "  The channel carries {count} bits: it turns {} and mutes {}.",
            heard.turned, heard.muted
        )?;
        match self
            .sheet
            .take(self.tally.as_mut_slice(), start, heard.symbols.as_slice())
        {
            Ok(taken) => println!(self.sending.rt;
                "  They are taken from octet {start} on: {} symbols in all.",
                taken.total
            )?,
            Err(refusal) => println!(self.sending.rt;
                "  The take is refused with {}.",
                refusal.number()
            )?,
        }
        Ok(())
    }

    // Asks for more octets and takes what arrives of them.
    fn ask_more(&mut self) -> anyhow::Result<()> {
        let count = MORE.min(self.sending.report.buffer.len());
        println!(self.sending.rt;
            "  The check does not fit, so {count} more octets are asked for."
        )?;
        let start = self.sending.standing();
        let more = self.sending.pass(count, Ending::Confirmed)?;
        self.take(start, more.as_slice())
    }

    // Decodes, and answers whether the check fits.
    fn decode(&mut self) -> anyhow::Result<bool> {
        let mut scratch = Scratch {
            survivors: self.survivors.as_mut_slice(),
            paths: self.paths.as_mut_slice(),
        };
        let target = self.target.as_mut_slice();
        match self
            .sheet
            .decode(self.tally.as_slice(), target, &mut scratch)
        {
            Ok(decoded) => {
                self.tell(&decoded)?;
                Ok(decoded.verdict == Verdict::Fits)
            }
            Err(_) => {
                println!(self.sending.rt; "  The decode is refused.")?;
                Ok(false)
            }
        }
    }

    // The message that was named, its weight, and the verdict on it.
    fn tell(&self, decoded: &Decoded<R::Value>) -> anyhow::Result<()> {
        let named = self.target.as_slice();
        let text = Text(&named[..self.sheet.octets().min(named.len())]);
        let weight = decoded.weight;
        let verdict = match decoded.verdict {
            Verdict::Fits => "fits",
            Verdict::DoesNotFit => "does not fit",
        };
        println!(self.sending.rt;
            "  The nearest message is \"{text}\": its weight is {weight}, and its check {verdict}."
        )?;
        Ok(())
    }

    // Decodes, and again after each further octets, until the check fits; answers whether it does.
    fn decode_until_fit(&mut self) -> anyhow::Result<bool> {
        for _ in 0..ROUNDS {
            if self.decode()? {
                return Ok(true);
            }
            self.ask_more()?;
        }
        self.decode()
    }

    fn wipe(&mut self) -> anyhow::Result<()> {
        match self.sheet.wipe(self.tally.as_mut_slice()) {
            Ok(()) => println!(self.sending.rt;
                "  The sheet is wiped, and counts {} symbols.",
                self.sheet.count()
            )?,
            Err(refusal) => println!(self.sending.rt;
                "  The wipe is refused with {}.",
                refusal.number()
            )?,
        }
        Ok(())
    }
}

// One report is sent, heard and decoded by a reading, until its check fits.
pub(crate) fn hear_report<R: Noted>(
    rt: &HostRuntime,
    report: &Report,
    k: usize,
) -> anyhow::Result<()>
where
    R::Value: fmt::Display,
{
    let mut sides = Sides::<R>::open(rt, report)?;
    let first = sides.sending.first(k)?;
    sides.take(0, first.as_slice())?;
    if !sides.decode_until_fit()? {
        println!(rt; "  The check still does not fit, and no more is asked for.")?;
    }
    sides.wipe()
}

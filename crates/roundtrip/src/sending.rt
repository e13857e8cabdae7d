// The sending side: a report is encoded, and its buffer is sent in passages.
use block::{Size, plan};
use code::{Order, encode_report};
use sender::{Passage, Sender};
use std::alloc::Global;
use std::fmt;

// A report, coded.
#[derive(Drop)]
pub(crate) struct Report {
    pub(crate) size: Size,
    field: u32,
    pub(crate) buffer: Vec<u8>,
}

impl Report {
    pub(crate) fn encode(
        heap: Global,
        text: &str,
        check: usize,
        order: &Order,
    ) -> anyhow::Result<Report> {
        let octets = text.as_bytes();
        let size = Size::new(octets.len(), check)?;
        let field = size.check_over(octets);
        let mut buffer = vec![in heap; 0u8; 4 * size.block_octets()]?;
        encode_report(octets, check, order, buffer.as_mut_slice())?;
        Ok(Report {
            size,
            field,
            buffer,
        })
    }

    // Sizes, check and buffer in plain words.
    pub(crate) fn tell(&self, rt: &HostRuntime) -> anyhow::Result<()> {
        let octets = self.size.octets();
        let check = self.size.check();
        let block = self.size.block_octets();
        let field = self.field;
        println!(rt;
            "The report has {octets} octets; with a check of {check} bits and the tail \
             its block has {block}."
        )?;
        println!(rt; "The check field is {field:012b}.")?;
        let coded = self.buffer.len();
        let buffer = hex::encode(rt.alloc(), self.buffer.as_slice())?;
        println!(rt; "It is encoded to a buffer of {coded} octets: {buffer}")?;
        Ok(())
    }
}

// How a passage ends.
#[derive(Clone, Copy)]
pub(crate) enum Ending {
    Confirmed,
    GivenUp,
}

impl Ending {
    fn end(self, passage: Passage<'_>) {
        match self {
            Ending::Confirmed => passage.confirm(),
            Ending::GivenUp => passage.give_up(),
        }
    }
}

impl fmt::Display for Ending {
    fn fmt<W: fmt::Write>(&self, f: &mut fmt::Formatter<W>) -> fmt::Result {
        f.write_str(match self {
            Ending::Confirmed => "confirmed",
            Ending::GivenUp => "given up",
        })
    }
}

// A report that is being sent.
#[derive(Drop)]
pub(crate) struct Sending<'a> {
    pub(crate) rt: &'a HostRuntime,
    pub(crate) report: &'a Report,
    sender: Sender,
}

impl<'a> Sending<'a> {
    pub(crate) fn begin(rt: &'a HostRuntime, report: &'a Report) -> anyhow::Result<Sending<'a>> {
        let sender = Sender::new(report.size.octets(), report.size.check())?;
        Ok(Sending { rt, report, sender })
    }

    // The octet that the next passage begins at.
    pub(crate) fn standing(&self) -> usize {
        self.sender.standing()
    }

    // Sends the first payload at rate 8 / (8 + k): once given up, and then confirmed.
    pub(crate) fn first(&mut self, k: usize) -> anyhow::Result<Vec<u8>> {
        let size = self.report.size;
        let count = plan(size.octets(), size.check(), k)?;
        println!(self.rt;
            "  At rate 8/{} the first payload has {count} octets.",
            8 + k
        )?;
        let _lost = self.pass(count, Ending::GivenUp)?;
        self.pass(count, Ending::Confirmed)
    }

    // Copies octets in a passage that ends so, and shows where the sender stood and where it
    // stands.
    pub(crate) fn pass(&mut self, count: usize, ending: Ending) -> anyhow::Result<Vec<u8>> {
        let rt = self.rt;
        let before = self.standing();
        let mut target = vec![in rt.alloc(); 0u8; count]?;
        let mut passage = Passage::begin(self.sender.size(), &mut self.sender.cursor);
        let copied = passage.copy(self.report.buffer.as_slice(), target.as_mut_slice(), count);
        ending.end(passage);
        copied?;
        let after = self.standing();
        println!(rt;
            "  A passage of {count} octets is copied and {ending}: \
             the sender stood at octet {before} and stands at {after}."
        )?;
        Ok(target)
    }
}

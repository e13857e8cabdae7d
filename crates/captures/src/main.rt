// Lists many captures: each line of standard input has a name, a colon and the capture's octets in
// hex.
#![tactic(auto)]

use anyhow::Context;
use listing::list_input;
use std::alloc::Global;
use std::io::{self, BufRead, BufReader, BufWriter, Write};

// The octets of a capture: each word is an octet in hex, or an octet, a star and how often it
// stands there.
fn octets(heap: Global, words: &str) -> anyhow::Result<Vec<u8>> {
    let mut octets = Vec::new(heap);
    for word in words.split_whitespace() {
        let (digits, times) = word.split_once('*').unwrap_or((word, "1"));
        let octet = u8::from_str_radix(digits, 16)?;
        for _ in 0..times.parse::<u32>()? {
            octets.push(octet)?;
        }
    }
    Ok(octets)
}

// Writes the name of each capture and its listing.
fn main(rt: HostRuntime) -> anyhow::Result<()> {
    let mut output = BufWriter::new(rt.alloc(), io::writer(&rt))?;
    for line in BufReader::new(rt.alloc(), rt.reader())?.lines(rt.alloc()) {
        let line = line?;
        let (name, words) = line
            .split_once(':')
            .context("a line has a name, a colon and octets")?;
        let capture = octets(rt.alloc(), words)?;
        writeln!(output, "{name}:")?;
        list_input(&mut capture.as_slice(), &mut output)?;
    }
    output.flush()?;
    Ok(())
}

// Reads a capture from standard input and prints its listing.
#![tactic(auto)]

use listing::list_input;
use std::io::{self, BufWriter};

fn main(rt: HostRuntime) -> io::Result<()> {
    let mut output = BufWriter::new(rt.alloc(), io::writer(&rt))?;
    list_input(&mut rt.stdin(), &mut output)
}

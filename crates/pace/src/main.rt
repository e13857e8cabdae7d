// Times decode and encode. What they answer goes to standard output, and is the same in each run;
// the times go to standard error.
#![tactic(auto)]

mod blocks;
mod decodes;
mod encodes;
mod noise;

use decodes::time_decodes;
use encodes::time_encodes;
use std::env;
use weighing::hard::Hard;
use weighing::soft::Soft;

// The lengths of the reports that are decoded, in octets.
const LENGTHS: [usize; 4] = [1, 20, 54, 512];

// How much is timed: so many rounds, and in each at least so many steps of decoding and so many
// batches of encoding.
#[derive(Clone, Copy)]
pub(crate) struct Effort {
    pub(crate) rounds: u32,
    pub(crate) steps: usize,
    pub(crate) batches: u32,
}

// The effort that the three arguments tell; without them it is the least.
fn read_effort(rt: &HostRuntime) -> anyhow::Result<Effort> {
    let mut words = env::args(rt)?.skip(1);
    let mut number = || -> anyhow::Result<u32> {
        Ok(match words.next() {
            Some(word) => word.parse()?,
            None => 1,
        })
    };
    Ok(Effort {
        rounds: number()?,
        steps: number()? as usize,
        batches: number()?,
    })
}

fn main(rt: HostRuntime) -> anyhow::Result<()> {
    let effort = read_effort(&rt)?;
    for octets in LENGTHS {
        time_decodes::<Hard>(&rt, octets, effort)?;
        time_decodes::<Soft>(&rt, octets, effort)?;
    }
    time_encodes(&rt, effort)
}

// Tries the calls by which a report is planned, coded, sent, read directly, taken and decoded
// against a second coder and decoder that were written another way. docs/trials.md says which.
#![tactic(auto)]

mod blocks;
mod channel;
mod coding;
mod copying;
mod decoding;
mod figures;
mod frame;
mod hearing;
mod lent;
mod numbers;
mod opening;
mod plans;
mod second;
mod senders;
mod small;
mod summed;
mod symbols;
mod taking;
mod trial;
mod tried;

use crate::second::family::Outcome;
use anyhow::ensure;

fn decodes(rt: &HostRuntime) -> anyhow::Result<Outcome> {
    Ok(
        figures::run(rt)?
            .with(symbols::run(rt)?)
            .with(blocks::run(rt)?)
            .with(small::run(rt)?),
    )
}

fn sendings(rt: &HostRuntime) -> anyhow::Result<Outcome> {
    Ok(plans::run(rt)?.with(senders::run(rt)?))
}

// What is refused of the calls that plan, code and send.
fn refusals_of_coding(rt: &HostRuntime) -> anyhow::Result<Outcome> {
    Ok(
        numbers::run(rt)?
            .with(coding::run(rt)?)
            .with(copying::run(rt)?),
    )
}

// What is refused of the calls of sheets.
fn refusals_of_sheets(rt: &HostRuntime) -> anyhow::Result<Outcome> {
    Ok(
        opening::run(rt)?
            .with(taking::run(rt)?)
            .with(decoding::run(rt)?),
    )
}

fn main(rt: HostRuntime) -> anyhow::Result<()> {
    let tried = decodes(&rt)?.with(sendings(&rt)?);
    let refused = refusals_of_coding(&rt)?.with(refusals_of_sheets(&rt)?);
    let outcome = tried.with(refused);
    println!(rt; "in all: {outcome}")?;
    ensure!(outcome.differ == 0, "some cases differ");
    Ok(())
}

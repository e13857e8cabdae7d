// One report from beginning to end: encoded, sent, heard through a bad channel, and decoded.
#![tactic(auto)]

mod channel;
mod hearing;
mod sending;
mod text;

use code::Order;
use hearing::hear_report;
use sending::Report;
use std::env;
use weighing::hard::Hard;
use weighing::soft::Soft;
use weighing::worst::Worst;

// The report that is sent where no argument gives another.
const DEFAULT: &str = "lamp 7: 81% charged, dimmer ok";

// The length of the check, in bits.
const CHECK: usize = 12;

// The first payload is sent at rate 8 / (8 + RATE).
const RATE: usize = 2;

fn run(rt: &HostRuntime, text: &str) -> anyhow::Result<()> {
    println!(rt; "The report is \"{text}\".")?;
    let report = Report::encode(rt.alloc(), text, CHECK, &Order::order_r())?;
    report.tell(rt)?;
    println!(rt; "The hard reading: each bit is heard as 0, 1 or missing.")?;
    hear_report::<Hard>(rt, &report, RATE)?;
    println!(rt;
        "The soft reading: each bit is heard with a level, and contradicted levels add up."
    )?;
    hear_report::<Soft>(rt, &report, RATE)?;
    println!(rt; "The worst reading: the same levels, and the loudest contradiction counts.")?;
    hear_report::<Worst>(rt, &report, RATE)
}

fn main(rt: HostRuntime) -> anyhow::Result<()> {
    let text = env::args(&rt)?.nth(1);
    run(&rt, text.as_deref().unwrap_or(DEFAULT))
}

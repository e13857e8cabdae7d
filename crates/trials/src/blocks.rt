// Random blocks: every length of a report with every length of a check, at all rates and by all
// readings.
use crate::frame::Frame;
use crate::hearing::Hearing;
use crate::second::family::{Family, Outcome, differing};
use crate::second::random::Random;
use crate::second::sizes::{CHECKS, Sizes};
use crate::trial::Trial;
use crate::tried::Tried;
use std::alloc::Global;
use weighing::hard::Hard;
use weighing::soft::Soft;
use weighing::worst::Worst;

// Sends a report, and compares what its decode answers, also with the least of all messages where
// there are few.
fn hear<R: Tried>(
    hearing: &mut Hearing<'_, R>,
    random: &mut Random,
    trial: Trial,
    are_few: bool,
) -> Option<&'static str> {
    let differs = trial.hear(hearing, random);
    let compared = hearing.compared();
    let least = if are_few {
        hearing.heard().least().weight
    } else {
        compared.named.weight
    };
    let is_least = least == compared.named.weight;
    differs.or(compared.differs).or(differing(&[("the least weight of all messages", is_least)]))
}

// A block of this frame, heard by one reading.
pub(crate) fn try_block<R: Tried>(
    family: &mut Family,
    frame: &Frame,
    random: &mut Random,
    k: usize,
    are_few: bool,
) -> anyhow::Result<()> {
    let trial = Trial::draw(random, k);
    let mut hearing = Hearing::<R>::open(frame)?;
    let differs = hear(&mut hearing, random, trial, are_few);
    family.case(trial.case(frame.sizes, R::kind()), differs);
    Ok(())
}

// The rates take turns, and with each round of them the readings.
fn try_turn(
    family: &mut Family,
    heap: Global,
    random: &mut Random,
    sizes: Sizes,
    turn: usize,
) -> anyhow::Result<()> {
    let frame = Frame::draw(heap, random, sizes)?;
    let k = turn % 25;
    match turn / 25 % 3 {
        0 => try_block::<Hard>(family, &frame, random, k, false),
        1 => try_block::<Soft>(family, &frame, random, k, false),
        _ => try_block::<Worst>(family, &frame, random, k, false),
    }
}

pub(crate) fn run(rt: &HostRuntime) -> anyhow::Result<Outcome> {
    let mut family = Family::begin("random blocks");
    let mut random = Random(20);
    let mut turn = 0usize;
    for octets in 1..=512 {
        for check in CHECKS {
            let sizes = Sizes::of(octets, check);
            try_turn(&mut family, rt.alloc(), &mut random, sizes, turn)?;
            turn = turn.wrapping_add(1);
        }
    }
    Ok(family.end(rt)?)
}

// Small sizes: the least weight is sought among all messages that there are.
use crate::blocks::try_block;
use crate::frame::Frame;
use crate::second::family::{Family, Outcome};
use crate::second::random::Random;
use crate::second::sizes::Sizes;
use crate::tried::Tried;
use std::alloc::Global;
use weighing::hard::Hard;
use weighing::soft::Soft;
use weighing::worst::Worst;

// So many blocks of a size.
fn try_size<R: Tried>(
    family: &mut Family,
    heap: Global,
    random: &mut Random,
    sizes: Sizes,
    blocks: usize,
) -> anyhow::Result<()> {
    for turn in 0..blocks {
        let frame = Frame::draw(heap, random, sizes)?;
        try_block::<R>(family, &frame, random, turn % 25, true)?;
    }
    Ok(())
}

// 4,096 messages for each block of the least size, and 1,048,576 for those of the two next.
fn try_reading<R: Tried>(
    family: &mut Family,
    heap: Global,
    random: &mut Random,
) -> anyhow::Result<()> {
    try_size::<R>(family, heap, random, Sizes::of(1, 4), 50)?;
    try_size::<R>(family, heap, random, Sizes::of(1, 12), 1)?;
    try_size::<R>(family, heap, random, Sizes::of(2, 4), 1)
}

pub(crate) fn run(rt: &HostRuntime) -> anyhow::Result<Outcome> {
    let mut family = Family::begin("all messages of small sizes");
    let mut random = Random(30);
    try_reading::<Hard>(&mut family, rt.alloc(), &mut random)?;
    try_reading::<Soft>(&mut family, rt.alloc(), &mut random)?;
    try_reading::<Worst>(&mut family, rt.alloc(), &mut random)?;
    Ok(family.end(rt)?)
}

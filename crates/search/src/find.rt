// The search as a whole, over buffers that the caller lends.
ghost use Rattle.code.specs.Shapes.{shape_of};
ghost use Rattle.search.specs.Found.{Finds};
ghost use Rattle.search.specs.Scratch.{SameLoans, contents, scratch_of};

use crate::blocks::Block;
use crate::traceback::trace_back;
use crate::{Entry, FindRefusal, Found, Scratch};
use code::Shape;
use weighing::Weighing;

// Finds the nearest message over the loans one by one, since of a part of a loan behind a field no
// proof knows what is written.
fn find_over<W: Weighing>(
    shape: &Shape,
    tally: &[Entry<W::Value>],
    target: &mut [u8],
    survivors: &mut [u16],
    paths: &mut [Option<W::Value>],
) -> Result<Found<W::Value>, FindRefusal>
    ensures { Finds W.scale (shape_of shape.now) tally.now target.old target.new
        (scratch_of survivors.old paths.old) (scratch_of survivors.new paths.new) result }
{
    let n = shape.size.block_octets();
    if tally.len() < 32 * n || target.len() < n || survivors.len() < 8 * n || paths.len() < 32 {
        return Err(FindRefusal::Short);
    }
    let block = Block::<W>::new(shape, tally);
    let words = &mut survivors[..8 * n];
    let weight = block.lightest_path(words, &mut paths[..32]);
    trace_back(words, &mut target[..n]);
    Ok(Found {
        weight,
        check_fits: shape.size.check_fits(target),
    })
}

// Names the nearest message by the entries of a tally: writes it and its tail, and answers its
// weight and whether its check fits.
pub fn find_nearest<W: Weighing>(
    shape: &Shape,
    tally: &[Entry<W::Value>],
    target: &mut [u8],
    scratch: &mut Scratch<'_, W::Value>,
) -> Result<Found<W::Value>, FindRefusal>
    ensures does { Finds W.scale (shape_of shape.now) tally.now target.old target.new
        (contents scratch.old) (contents scratch.new) result }
    ensures loans { SameLoans scratch.old scratch.new }
{
    find_over::<W>(shape, tally, target, scratch.survivors, scratch.paths)
}

// A block and its entries: the branch weights of each step, and the forward pass over them.
ghost use Rattle.std.specs.Prelude.{◌≡◌, ◌+◌, ◌*◌, ◌<◌, ◌≤◌, length};
ghost use Rattle.block.specs.Sizes.{most_block_octets};
ghost use Rattle.code.specs.Columns.{index_of};
ghost use Rattle.search.specs.Places.{ColumnPlaces, WithinBuffer};

use crate::Entry;
use crate::branches::{StepEntries, branch_weights};
use crate::quads::Sixteen;
use crate::select::Selected;
use crate::trellis_step::TrellisStep;
use crate::warm_up::{PathWeights, WARM_UP_STEPS, WarmUpStep, begin, reached};
use code::{Order, Shape};
use std::{array, mem};
use weighing::Weighing;

// The place of the first row of column `a`, in a block of `n` octets.
#[tactic(auto, using(crate::proofs::Placing::column_ends))]
fn column_place(order: &Order, n: usize, a: usize) -> usize
    requires { (n ≤ most_block_octets) × (a < 24) }
    ensures is { result ≡ 8 * n + n * index_of a order.now.columns }
    ensures within { result + n ≤ 32 * n }
{
    8 * n + n * order.index_of(a as u8)
}

// The place of each column's first row.
fn column_places(order: &Order, n: usize) -> [usize; 24]
    requires { n ≤ most_block_octets }
    ensures begin { ColumnPlaces order.now.columns n result }
    ensures end { WithinBuffer n result }
{
    array::from_fn(|a| column_place(order, n, a))
}

// A block of `n` octets with the entries of its places; `columns` is the place of each column's
// first row. `n` stands beside the tally, since each place is reckoned from it, and since the tally
// may be longer.
#[derive(Drop)]
pub(crate) struct Block<'a, W: Weighing> {
    order: &'a Order,
    n: usize,
    columns: [usize; 24],
    tally: &'a [Entry<W::Value>],
    ghost some: { 1 ≤ n },
    ghost begin: { ColumnPlaces order.now.columns n columns },
    ghost end: { WithinBuffer n columns },
    ghost room: { 32 * n ≤ length tally.now },
}

impl<'a, W: Weighing> Block<'a, W> {
    ghost use Rattle.std.specs.Prelude.{Bool};
    ghost use Rattle.std.specs.Option.{option_map};
    ghost use Rattle.code.specs.Places.{place_of};
    ghost use Rattle.code.specs.Shapes.{block_length, places, shape_of};
    ghost use Rattle.search.specs.Blocks.{Advances, BestIn, LightestIn, TracesNearest};
    ghost use Rattle.search.specs.Blocks.{WeighsBranches, sums_in};
    ghost use Rattle.search.specs.Branches.{entries_weight};
    ghost use Rattle.search.specs.Paths.{path_meaning};
    ghost use Rattle.search.specs.Quads.{branch_meaning, reached_meaning};
    ghost use Rattle.search.specs.Weights.{side};

    pub(crate) fn new(shape: &'a Shape, tally: &'a [Entry<W::Value>]) -> Block<'a, W>
        requires { places (shape_of shape.now) ≤ length tally.now }
        ensures n { result.n ≡ block_length (shape_of shape.now) }
        ensures order { result.order.now ≡ shape.now.order }
        ensures tally { result.tally.now ≡ tally.now }
    {
        let n = shape.size.block_octets();
        Block {
            order: &shape.order,
            n,
            columns: column_places(&shape.order, n),
            tally,
        }
    }

    // The place of output 2, 3 or 4 of step `t`: `band` is 0, 1 or 2, a number since columns are
    // reckoned from it. That `t` is a step of the block stays a clause of each call: a type for it
    // would have to hold the block.
    #[tactic(auto, using(crate::proofs::Placing::output_place))]
    fn output_place(&self, band: usize, t: usize) -> usize
        requires { (band < 3) × (t < 8 * self.now.n) }
        ensures is { result ≡ place_of self.now.order.now.columns self.now.n (band + 2) t }
        ensures within { result < 32 * self.now.n }
    {
        self.columns[8 * band + (t & 7)] + (t >> 3)
    }

    #[tactic(auto, unfolding(crate::specs::Weights::entry_sums))]
    fn entry_at(&self, place: usize) -> Entry<W::Value>
        requires { place < 32 * self.now.n }
        ensures { (b : Bool) → W.scale.mean (side b result) ≡ sums_in self.now place b }
    {
        self.tally[place]
    }

    // The entries of the outputs of step `t`.
    #[tactic(auto, unfolding(crate::specs::Weights::part, code::specs::Places::place_of))]
    fn entries_at(&self, t: usize) -> StepEntries<W::Value>
        requires { t < 8 * self.now.n }
        ensures { WeighsBranches self.now t (entries_weight W.scale result) }
    {
        StepEntries {
            v1: self.entry_at(t),
            v2: self.entry_at(self.output_place(0, t)),
            v3: self.entry_at(self.output_place(1, t)),
            v4: self.entry_at(self.output_place(2, t)),
        }
    }

    // The weight of each branch of step `t` by its outputs.
    fn branch_weights_at(&self, t: usize) -> Sixteen<W::Value>
        requires { t < 8 * self.now.n }
        ensures { WeighsBranches self.now t (branch_meaning W.scale result) }
    {
        branch_weights::<W>(self.entries_at(t))
    }

    // Step `t` of the warm-up: from the path weights `old` to `new`; answers its word of survivors.
    fn advance_warm_up(
        &self,
        t: usize,
        old: &PathWeights<W::Value>,
        new: &mut PathWeights<W::Value>,
    ) -> u16
        requires { t < 8 * self.now.n }
        ensures { Advances self.now t (path_meaning W.scale old.now) (path_meaning W.scale new.new)
            result }
    {
        let step = WarmUpStep::<W> {
            branches: self.branch_weights_at(t),
            paths: old,
        };
        step.select(new)
    }

    // Runs through the warm-up, a step for each word of survivors, and answers the path weights
    // after it. The two halves take turns to hold the old and the new path weights.
    fn warm_up<'p>(
        &self,
        survivors: &mut [u16],
        even: &'p mut PathWeights<W::Value>,
        odd: &'p mut PathWeights<W::Value>,
    ) -> &'p PathWeights<W::Value>
        requires { length survivors.old ≤ 8 * self.now.n }
        ensures { BestIn self.now survivors.new (path_meaning W.scale result.now)
            (length survivors.new) }
    {
        begin::<W>(even);
        let (mut old, mut new) = (even, odd);
        for (t, word) in survivors.iter_mut().enumerate() {
            *word = self.advance_warm_up(t, old, new);
            mem::swap(&mut old, &mut new);
        }
        old
    }

    // Step `t` from the path weights `old`.
    #[inline(always)]
    fn advance(&self, t: usize, old: Sixteen<W::Value>) -> Selected<Sixteen<W::Value>>
        requires { t < 8 * self.now.n }
        ensures { Advances self.now t (reached_meaning W.scale old)
            (reached_meaning W.scale result.weights)
            result.word }
    {
        let step = TrellisStep::<W> {
            branches: self.branch_weights_at(t),
            paths: old,
        };
        step.select()
    }

    // Runs through the steps after the warm-up, and answers the path weights at the end.
    fn advance_on(&self, survivors: &mut [u16], paths: Sixteen<W::Value>) -> Sixteen<W::Value>
        requires within { (4 ≤ length survivors.old) × (length survivors.old ≤ 8 * self.now.n) }
        requires best { BestIn self.now survivors.old (reached_meaning W.scale paths) 4 }
        ensures { BestIn self.now survivors.new (reached_meaning W.scale result)
            (length survivors.new) }
    {
        let mut paths = paths;
        // by index, since in a loop over a `skip` no invariant can name the words
        for t in WARM_UP_STEPS..survivors.len() {
            let selected = self.advance(t, paths);
            survivors[t] = selected.word;
            paths = selected.weights;
        }
        paths
    }

    // The forward pass: the lightest path to each state, a step for each word of survivors. Answers
    // the path weight of state 0 after them.
    fn forward(
        &self,
        survivors: &mut [u16],
        even: &mut PathWeights<W::Value>,
        odd: &mut PathWeights<W::Value>,
    ) -> Option<W::Value>
        requires { length survivors.old ≤ 8 * self.now.n }
        ensures { LightestIn self.now survivors.new (length survivors.new) 0
            (option_map W.scale.mean result) }
    {
        let warm_up = survivors.len().min(WARM_UP_STEPS);
        let paths = self.warm_up(&mut survivors[..warm_up], even, odd);
        if warm_up < WARM_UP_STEPS {
            return paths[0];
        }
        let paths = self.advance_on(survivors, reached(paths));
        Some(paths.zero.zero)
    }

    // Runs through all steps, and answers the weight of the lightest path that ends in state 0,
    // which the survivors give.
    #[tactic(auto, using(crate::proofs::Finish::reached))]
    pub(crate) fn lightest_path(
        &self,
        survivors: &mut [u16],
        paths: &mut [Option<W::Value>],
    ) -> W::Value
        requires { (length survivors.old ≡ 8 * self.now.n) × (32 ≤ length paths.old) }
        ensures { TracesNearest self.now survivors.new (W.scale.mean result) }
    {
        let (even, rest) = paths.split_first_chunk_mut().unwrap();
        let (odd, _) = rest.split_first_chunk_mut().unwrap();
        // after four steps each state is reached
        self.forward(survivors, even, odd).unwrap()
    }
}

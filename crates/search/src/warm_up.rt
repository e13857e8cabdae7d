// The warm-up: the first four steps, before which a state may still be unreached.
ghost use Rattle.std.specs.Prelude.{◌≡◌, ℕ, ◌<◌, ◌≤◌, Bool, List, Some, IsSome, MatchBool, length};
ghost use Rattle.std.specs.Option.{option_map};
ghost use Rattle.code.specs.Register.{Cells, state_of};
ghost use Rattle.search.specs.Paths.{AllReached, Best, Lighter, four_cells, path_at, path_meaning};
ghost use Rattle.search.specs.Quads.{at_cells, quad_at};
ghost use Rattle.search.specs.Weights.{Sums};

use crate::quads::{Quad, Sixteen};
use crate::select::Survivor;
use crate::state::State;
use weighing::Weighing;

// After so many steps each state is reached.
pub(crate) const WARM_UP_STEPS: usize = 4;

// The path weights of the sixteen states.
pub(crate) type PathWeights<V> = [Option<V>; 16];

// Before the first step only state 0 is reached, with weight zero.
pub(crate) fn begin<W: Weighing>(paths: &mut PathWeights<W::Value>)
    ensures { (order : List ℕ) (n : ℕ) (sums : Sums W.scale) (survivors : List ℕ)
        → Best W.scale order n sums survivors (path_meaning W.scale paths.new) 0 }
{
    paths.fill(None);
    paths[0] = Some(W::zero());
}

// Whether the second path weight is the lighter; one that is absent is heavier than every other.
fn is_lighter<W: Weighing>(first: Option<W::Value>, second: Option<W::Value>) -> bool
    ensures { MatchBool result
        (Lighter W.scale (option_map W.scale.mean second) (option_map W.scale.mean first))
        (Lighter W.scale (option_map W.scale.mean first) (option_map W.scale.mean second)) }
{
    match (first, second) {
        (_, None) => false,
        (None, Some(_)) => true,
        (Some(a), Some(b)) => !W::at_most(a, b),
    }
}

// A step of the warm-up: its branch weights, and the path weights of the sixteen states before it.
// These are a slice, since of an array behind a field no proof knows the length.
#[derive(Drop)]
pub(crate) struct WarmUpStep<'a, W: Weighing> {
    pub(crate) branches: Sixteen<W::Value>,
    pub(crate) paths: &'a [Option<W::Value>],
    ghost states: { 16 ≤ length paths.now },
}

impl<W: Weighing> WarmUpStep<'_, W> {
    ghost use Rattle.block.specs.Bits.{bit};
    ghost use Rattle.search.specs.Steps.{Survives, through, warm_up_step_of};

    // The path weight that comes to a state through one of its predecessors.
    #[tactic(auto, unfolding(crate::specs::Steps::through))]
    fn weight_through(&self, odd: bool, state: State) -> Option<W::Value>
        ensures { option_map W.scale.mean result
            ≡ through (warm_up_step_of self.now) odd state.number }
    {
        let from = state.predecessor(odd);
        let weight = self.paths[from.number as usize]?;
        let outputs = state.outputs_from(from);
        Some(W::sum(weight, self.branches.of_outputs(outputs)))
    }

    // The lighter of the two paths that come to a state.
    fn select_at(&self, state: State) -> Survivor<Option<W::Value>>
        ensures { Survives (warm_up_step_of self.now)
            (option_map W.scale.mean result.weight) result.odd state.number }
    {
        let even = self.weight_through(false, state);
        let odd = self.weight_through(true, state);
        if is_lighter::<W>(even, odd) {
            Survivor {
                weight: odd,
                odd: true,
            }
        } else {
            Survivor {
                weight: even,
                odd: false,
            }
        }
    }

    // Selects at each state, and answers the word of survivors: bit k names the predecessor of
    // state k.
    pub(crate) fn select(&self, new: &mut PathWeights<W::Value>) -> u16
        ensures { (k : ℕ) → k < 16
            → Survives (warm_up_step_of self.now) (path_meaning W.scale new.new k)
            (bit k result) k }
    {
        let mut word = 0;
        for (number, weight) in new.iter_mut().enumerate() {
            let survivor = self.select_at(State {
                number: number as u8,
            });
            *weight = survivor.weight;
            word |= (survivor.odd as u16) << number;
        }
        word
    }
}

// The path weight of a state that is reached.
fn reached_at<V: Copy>(paths: &PathWeights<V>, state: State) -> V
    requires { IsSome (path_at paths.now state.number) }
    ensures { path_at paths.now state.number ≡ Some result }
{
    paths[state.number as usize].unwrap()
}

// The path weights of the four states whose first cells are these.
fn reached_row<V: Copy>(paths: &PathWeights<V>, m1: bool, m2: bool) -> Quad<V>
    requires { AllReached paths.now }
    ensures { (m3 m4 : Bool) → path_at paths.now (state_of (four_cells m1 m2 m3 m4))
        ≡ Some (quad_at m3 m4 result) }
{
    Quad {
        zero: reached_at(paths, State::of_cells(m1, m2, false, false)),
        one: reached_at(paths, State::of_cells(m1, m2, false, true)),
        two: reached_at(paths, State::of_cells(m1, m2, true, false)),
        three: reached_at(paths, State::of_cells(m1, m2, true, true)),
    }
}

// The path weights of the sixteen states, once each is reached.
pub(crate) fn reached<V: Copy>(paths: &PathWeights<V>) -> Sixteen<V>
    requires { AllReached paths.now }
    ensures { (m : Cells) → path_at paths.now (state_of m) ≡ Some (at_cells result m) }
{
    Quad {
        zero: reached_row(paths, false, false),
        one: reached_row(paths, false, true),
        two: reached_row(paths, true, false),
        three: reached_row(paths, true, true),
    }
}

// Add, compare, select: a step of the trellis before which every state is reached.
ghost use Rattle.std.specs.Prelude.{◌≡◌, ◌+◌, ◌*◌, ◌<◌, Bool};
ghost use Rattle.block.specs.Bits.{bit, value};
ghost use Rattle.code.specs.Register.{Cells, state_of};
ghost use Rattle.search.specs.Quads.{quad_at};

use crate::quads::{Quad, Sixteen};
use crate::select::{Selected, Survivor};
use crate::state::State;
use weighing::Weighing;

// The survivors' bits of four states in a row.
fn row_word(odd: Quad<bool>) -> u16
    ensures bits { (m3 m4 : Bool) → bit (2 * value m3 + value m4) result ≡ quad_at m3 m4 odd }
    ensures small { result < 16 }
{
    odd.zero as u16 + 2 * (odd.one as u16) + 4 * (odd.two as u16) + 8 * (odd.three as u16)
}

// The word of survivors, by the bits of its four rows.
fn whole_word(rows: Quad<u16>) -> u16
    requires { (rows.zero < 16) × (rows.one < 16) × (rows.two < 16) × (rows.three < 16) }
    ensures { (m : Cells) → bit (state_of m) result
        ≡ bit (2 * value m.m3 + value m.m4) (quad_at m.m1 m.m2 rows) }
{
    rows.zero + 16 * rows.one + 256 * rows.two + 4096 * rows.three
}

// One step of the trellis: its branch weights, and the path weights of the sixteen states before
// it. The selections are written out and inlined, so that the compiler folds what is fixed for each
// state; a loop over the states it leaves as it is.
#[derive(Drop)]
pub(crate) struct TrellisStep<W: Weighing> {
    pub(crate) branches: Sixteen<W::Value>,
    pub(crate) paths: Sixteen<W::Value>,
}

impl<W: Weighing> TrellisStep<W> {
    ghost use Rattle.std.specs.Prelude.{Some};
    ghost use Rattle.search.specs.Paths.{four_cells};
    ghost use Rattle.search.specs.Quads.{at_cells};
    ghost use Rattle.search.specs.Steps.{Survives, trellis_step_of, through};

    // The path weight that comes to a state through one of its predecessors.
    #[inline(always)]
    #[tactic(auto, unfolding(crate::specs::Steps::through))]
    fn weight_through(&self, odd: bool, state: State) -> W::Value
        ensures { Some (W.scale.mean result)
            ≡ through (trellis_step_of W.scale self.now) odd state.number }
    {
        let from = state.predecessor(odd);
        let outputs = state.outputs_from(from);
        W::sum(self.paths.of_state(from), self.branches.of_outputs(outputs))
    }

    // The lighter of the two paths that come to a state.
    #[inline(always)]
    fn select_at(&self, state: State) -> Survivor<W::Value>
        ensures { Survives (trellis_step_of W.scale self.now)
            (Some (W.scale.mean result.weight)) result.odd state.number }
    {
        let even = self.weight_through(false, state);
        let odd = self.weight_through(true, state);
        if W::at_most(even, odd) {
            Survivor {
                weight: even,
                odd: false,
            }
        } else {
            Survivor {
                weight: odd,
                odd: true,
            }
        }
    }

    // Selects at the four states whose first cells are these.
    #[inline(always)]
    fn select_row(&self, m1: bool, m2: bool) -> Selected<Quad<W::Value>>
        ensures each { (m3 m4 : Bool)
            → Survives (trellis_step_of W.scale self.now)
            (Some (W.scale.mean (quad_at m3 m4 result.weights)))
            (bit (2 * value m3 + value m4) result.word) (state_of (four_cells m1 m2 m3 m4)) }
        ensures small { result.word < 16 }
    {
        let zero = self.select_at(State::of_cells(m1, m2, false, false));
        let one = self.select_at(State::of_cells(m1, m2, false, true));
        let two = self.select_at(State::of_cells(m1, m2, true, false));
        let three = self.select_at(State::of_cells(m1, m2, true, true));
        Selected {
            weights: Quad {
                zero: zero.weight,
                one: one.weight,
                two: two.weight,
                three: three.weight,
            },
            word: row_word(Quad {
                zero: zero.odd,
                one: one.odd,
                two: two.odd,
                three: three.odd,
            }),
        }
    }

    // Selects at each state. Bit k of the word of survivors names the predecessor of state k.
    #[inline(always)]
    pub(crate) fn select(&self) -> Selected<Sixteen<W::Value>>
        ensures { (m : Cells)
            → Survives (trellis_step_of W.scale self.now)
            (Some (W.scale.mean (at_cells result.weights m))) (bit (state_of m) result.word)
            (state_of m) }
    {
        let zero = self.select_row(false, false);
        let one = self.select_row(false, true);
        let two = self.select_row(true, false);
        let three = self.select_row(true, true);
        Selected {
            weights: Quad {
                zero: zero.weights,
                one: one.weights,
                two: two.weights,
                three: three.weights,
            },
            word: whole_word(Quad {
                zero: zero.word,
                one: one.word,
                two: two.word,
                three: three.word,
            }),
        }
    }
}

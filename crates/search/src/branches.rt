// The branch weights of a step, from the entries of its outputs.
ghost use Rattle.std.specs.Prelude.{◌≡◌, Bool};
ghost use Rattle.code.specs.declared.registers.Outputs.{Outputs};
ghost use Rattle.search.specs.Branches.{entries_weight};
ghost use Rattle.search.specs.Quads.{branch_meaning, quad_at};
ghost use Rattle.search.specs.Weights.{side};

use crate::Entry;
use crate::quads::{Quad, Sixteen};
use weighing::Weighing;

// The entries of the four outputs of one step.
#[derive(Clone, Copy, Drop)]
pub(crate) struct StepEntries<V> {
    pub(crate) v1: Entry<V>,
    pub(crate) v2: Entry<V>,
    pub(crate) v3: Entry<V>,
    pub(crate) v4: Entry<V>,
}

// What outputs 3 and 4 add behind a weight.
fn sums_behind<W: Weighing>(
    weight: W::Value,
    v3: Entry<W::Value>,
    v4: Entry<W::Value>,
) -> Quad<W::Value>
    ensures { (b c : Bool) → W.scale.mean (quad_at b c result)
        ≡ W.scale.plus (W.scale.plus (W.scale.mean weight) (W.scale.mean (side b v3)))
        (W.scale.mean (side c v4)) }
{
    let zero = W::sum(weight, v3.zero);
    let one = W::sum(weight, v3.one);
    Quad {
        zero: W::sum(zero, v4.zero),
        one: W::sum(zero, v4.one),
        two: W::sum(one, v4.zero),
        three: W::sum(one, v4.one),
    }
}

// The weight of each branch of a step by its outputs. What begins alike is summed once.
pub(crate) fn branch_weights<W: Weighing>(entries: StepEntries<W::Value>) -> Sixteen<W::Value>
    ensures { (v : Outputs) → branch_meaning W.scale result v ≡ entries_weight W.scale entries v }
{
    let StepEntries { v1, v2, v3, v4 } = entries;
    Quad {
        zero: sums_behind::<W>(W::sum(v1.zero, v2.zero), v3, v4),
        one: sums_behind::<W>(W::sum(v1.zero, v2.one), v3, v4),
        two: sums_behind::<W>(W::sum(v1.one, v2.zero), v3, v4),
        three: sums_behind::<W>(W::sum(v1.one, v2.one), v3, v4),
    }
}

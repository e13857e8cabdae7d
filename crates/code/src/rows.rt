// The register's steps at the eight bits of an octet, all at once.
ghost use Rattle.std.specs.Prelude.{◌≡◌, ◌<◌};
ghost use Rattle.code.specs.Rows.{came, steps_row};

use crate::Outputs;
use block::octet;
use std::array;

// What the register answers to the eight bits of an octet: bit i of each output is that of the step
// of bit i.
#[derive(Clone, Copy, Default)]
pub(crate) struct Row {
    pub(crate) v1: u8,
    pub(crate) v2: u8,
    pub(crate) v3: u8,
    pub(crate) v4: u8,
}

impl Row {
    // The row of eight steps.
    pub(crate) fn of_steps(steps: &[Outputs; 8]) -> Row
        ensures { result ≡ steps_row steps.now 0 }
    {
        Row {
            v1: octet(array::from_fn(|i| steps[i].v1)),
            v2: octet(array::from_fn(|i| steps[i].v2)),
            v3: octet(array::from_fn(|i| steps[i].v3)),
            v4: octet(array::from_fn(|i| steps[i].v4)),
        }
    }
}

// What comes into m1 at the eight steps of an octet from a state: bit i at step i. Each is the
// octet's own bit with what came in one, two and four steps before. What the state holds of that is
// added first, and the rest by doubling.
pub(crate) fn fed(state: u8, octet: u8) -> u8
    requires { state < 16 }
    ensures { result ≡ came state octet }
{
    let state = u16::from(state);
    let fed = u16::from(octet) ^ state ^ (state / 4) ^ (state / 8);
    let fed = (fed ^ (2 * fed) ^ (4 * fed) ^ (16 * fed)) % 256;
    let fed = (fed ^ (4 * fed) ^ (16 * fed)) % 256;
    ((fed ^ (16 * fed)) % 256) as u8
}

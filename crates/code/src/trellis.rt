// The 32 steps that the register can make, looked up.
ghost use Rattle.std.specs.Prelude.{◌≡◌, ◌<◌, true};
ghost use Rattle.code.specs.Register.{cells_of, feedback as feed, follows_rule, next, outputs};
ghost use Rattle.code.specs.Register.{state_of};

use crate::Outputs;
use crate::table::TRELLIS;
use block::bit_of;

// One step of the register: what it answers, and the state that it leads to.
#[derive(Clone, Copy, Debug, PartialEq)]
pub struct Step {
    pub outputs: Outputs,
    pub next: u8,
}

// The step from a state at a bit, from a table that follows the register's rule.
fn step_of(table: &[Step; 32], state: u8, bit: bool) -> Step
    requires { (follows_rule table.now ≡ true) × (state < 16) }
    ensures outputs { result.outputs ≡ outputs (cells_of state) bit }
    ensures next { result.next ≡ state_of (next (cells_of state) bit) }
{
    table[2 * state as usize + bit as usize]
}

// The register's step from a state, which is its low four bits, at a bit.
pub fn step_from(state: u8, bit: bool) -> Step
    ensures outputs { result.outputs ≡ outputs (cells_of state) bit }
    ensures next { result.next ≡ state_of (next (cells_of state) bit) }
{
    step_of(&TRELLIS, state % 16, bit)
}

// The feedback of a state, which is its low four bits.
pub fn feedback(state: u8) -> bool
    ensures { result ≡ feed (cells_of state) }
{
    let state = u32::from(state);
    bit_of(state, 0) ^ (bit_of(state, 2) ^ bit_of(state, 3))
}

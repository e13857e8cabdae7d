// A state of the register, and the steps that lead to it.
ghost use Rattle.std.specs.Prelude.{◌≡◌, ◌<◌};
ghost use Rattle.code.specs.Register.{cells_of, outputs, state_of};
ghost use Rattle.search.specs.Paths.{four_cells, input, predecessor};

use block::bit_of;
use code::{Outputs, feedback, step_from};

// A state by its number.
#[derive(Clone, Copy)]
pub(crate) struct State {
    pub(crate) number: u8,
    ghost small: { number < 16 },
}

impl State {
    // The state in which each block begins and ends.
    pub(crate) fn zero() -> State
        ensures { result.number ≡ 0 }
    {
        State { number: 0 }
    }

    // The state of these cells.
    pub(crate) fn of_cells(m1: bool, m2: bool, m3: bool, m4: bool) -> State
        ensures { result.number ≡ state_of (four_cells m1 m2 m3 m4) }
    {
        State {
            number: 8 * m1 as u8 + 4 * m2 as u8 + 2 * m3 as u8 + m4 as u8,
        }
    }

    // The even or the odd predecessor.
    #[tactic(auto, unfolding(crate::specs::Paths::predecessor))]
    pub(crate) fn predecessor(self, odd: bool) -> State
        ensures { result.number ≡ predecessor odd self.number }
    {
        State {
            number: 2 * self.number % 16 + odd as u8,
        }
    }

    // The bit that leads here from a predecessor.
    #[tactic(auto, unfolding(crate::specs::Paths::input))]
    pub(crate) fn input_from(self, from: State) -> bool
        ensures { result ≡ input from.number self.number }
    {
        bit_of(self.number as u32, 3) ^ feedback(from.number)
    }

    // What the step from a predecessor puts out.
    pub(crate) fn outputs_from(self, from: State) -> Outputs
        ensures { result ≡ outputs (cells_of from.number) (input from.number self.number) }
    {
        step_from(from.number, self.input_from(from)).outputs
    }
}

// A value for each number of two bits, and of four. Inlined, so that the compiler folds bits that
// are fixed.
ghost use Rattle.std.specs.Prelude.{◌≡◌};
ghost use Rattle.code.specs.Register.{cells_of};

use crate::state::State;
use block::bit_of;
use code::Outputs;

// A value for each number of two bits.
#[derive(Clone, Copy, Drop)]
pub(crate) struct Quad<T> {
    pub(crate) zero: T,
    pub(crate) one: T,
    pub(crate) two: T,
    pub(crate) three: T,
}

// A value for each number of four bits: for each state, or for each row of outputs. It is no array,
// since an array of a type parameter would ask each caller that it fits in memory.
pub(crate) type Sixteen<T> = Quad<Quad<T>>;

impl<T: Copy> Quad<T> {
    ghost use Rattle.search.specs.Quads.{quad_at};

    // The value for the number of these two bits.
    #[inline(always)]
    pub(crate) fn at(self, high: bool, low: bool) -> T
        ensures { result ≡ quad_at high low self }
    {
        match (high, low) {
            (false, false) => self.zero,
            (false, true) => self.one,
            (true, false) => self.two,
            (true, true) => self.three,
        }
    }
}

impl<T: Copy> Quad<Quad<T>> {
    ghost use Rattle.search.specs.Quads.{at_cells, at_outputs};

    // A state's value.
    #[inline(always)]
    pub(crate) fn of_state(self, state: State) -> T
        ensures { result ≡ at_cells self (cells_of state.number) }
    {
        let number = u32::from(state.number);
        self.at(bit_of(number, 3), bit_of(number, 2))
            .at(bit_of(number, 1), bit_of(number, 0))
    }

    // The value for a row of outputs.
    #[inline(always)]
    pub(crate) fn of_outputs(self, outputs: Outputs) -> T
        ensures { result ≡ at_outputs self outputs }
    {
        self.at(outputs.v1, outputs.v2).at(outputs.v3, outputs.v4)
    }
}

// The shift register: it is opened, takes bits one by one or by the octet, and is closed.
ghost use Rattle.std.specs.Prelude.{◌≡◌, ◌<◌};

use crate::rows::{Row, fed};
use crate::trellis::{feedback, step_from};

// What the register answers to one bit: the outputs 1 to 4.
#[derive(Clone, Copy, Debug, Default, PartialEq)]
pub struct Outputs {
    pub v1: bool,
    pub v2: bool,
    pub v3: bool,
    pub v4: bool,
}

// An open shift register. It cannot be let go: closing it yields the tail, and no bit can follow
// that.
pub struct Register {
    state: u8,
    ghost cells: { state < 16 },
}

impl Register {
    ghost use Rattle.code.specs.Register.{after, cells, cleared, feedback as feed, next, outputs};
    ghost use Rattle.code.specs.Register.{tail, trace};
    ghost use Rattle.code.specs.Rows.{octet_bits, steps_row};

    pub fn open() -> Register
        ensures { cells result ≡ cleared }
    {
        Register { state: 0 }
    }

    // Takes one bit and answers the four outputs.
    pub fn push(&mut self, bit: bool) -> Outputs
        ensures answer { result ≡ outputs (cells self.old) bit }
        ensures after { cells self.new ≡ next (cells self.old) bit }
    {
        let step = step_from(self.state, bit);
        self.state = step.next;
        step.outputs
    }

    fn push_feedback(&mut self) -> Outputs
        ensures answer { result ≡ outputs (cells self.old) (feed (cells self.old)) }
        ensures after { cells self.new ≡ next (cells self.old) (feed (cells self.old)) }
    {
        let bit = feedback(self.state);
        self.push(bit)
    }

    // Feeds the four tail bits, after which every cell is 0, and answers their outputs. The
    // register is spent.
    pub fn close(mut self) -> [Outputs; 4]
        ensures answer { result ≡ trace (cells self) (tail (cells self)) }
        ensures clears { after (cells self) (tail (cells self)) ≡ cleared }
    {
        // Written out, since a closure that pushes would hide that each call finds another state.
        let outputs = [
            self.push_feedback(),
            self.push_feedback(),
            self.push_feedback(),
            self.push_feedback(),
        ];
        let Register { state: _ } = self;
        outputs
    }

    // Takes the bits of an octet, bit 1 first, and answers the outputs of the eight steps.
    pub(crate) fn push_octet(&mut self, octet: u8) -> Row
        ensures answer { result ≡ steps_row (trace (cells self.old) (octet_bits octet)) 0 }
        ensures after { cells self.new ≡ after (cells self.old) (octet_bits octet) }
    {
        // m1, m2, m3 and m4 at step i are bits i + 3 to i of this
        let word = u16::from(self.state) + 16 * u16::from(fed(self.state, octet));
        self.state = (word / 256) as u8;
        Row {
            v1: octet,
            v2: octet ^ (((word / 2) ^ (word / 4) ^ (word / 8)) % 256) as u8,
            v3: octet ^ (((word / 2) ^ (word / 8)) % 256) as u8,
            v4: octet ^ (((word / 2) ^ (word / 4)) % 256) as u8,
        }
    }
}

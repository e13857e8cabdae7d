// The register as four cells, each step by the rule.

#[derive(Clone, Copy, PartialEq)]
pub(crate) struct Cells {
    m1: bool,
    m2: bool,
    m3: bool,
    m4: bool,
}

impl Cells {
    pub(crate) fn cleared() -> Cells {
        Cells {
            m1: false,
            m2: false,
            m3: false,
            m4: false,
        }
    }

    pub(crate) fn feedback(self) -> bool {
        self.m4 ^ self.m2 ^ self.m1
    }

    // The outputs 1 to 4 at an input bit.
    pub(crate) fn outputs(self, input: bool) -> [bool; 4] {
        [
            input,
            self.m3 ^ self.m2 ^ self.m1 ^ input,
            self.m3 ^ self.m1 ^ input,
            self.m3 ^ self.m2 ^ input,
        ]
    }

    // The cells after an input bit.
    pub(crate) fn after(self, input: bool) -> Cells {
        Cells {
            m1: input ^ self.feedback(),
            m2: self.m1,
            m3: self.m2,
            m4: self.m3,
        }
    }
}

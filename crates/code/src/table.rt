// The 32 steps of the register, written out.
use crate::{Outputs, Step};

// The steps of the register: entry 2 * state + bit is the step from that state at that bit.
pub(crate) const TRELLIS: [Step; 32] = [
    Step {
        outputs: Outputs {
            v1: false,
            v2: false,
            v3: false,
            v4: false,
        },
        next: 0,
    },
    Step {
        outputs: Outputs {
            v1: true,
            v2: true,
            v3: true,
            v4: true,
        },
        next: 8,
    },
    Step {
        outputs: Outputs {
            v1: false,
            v2: false,
            v3: false,
            v4: false,
        },
        next: 8,
    },
    Step {
        outputs: Outputs {
            v1: true,
            v2: true,
            v3: true,
            v4: true,
        },
        next: 0,
    },
    Step {
        outputs: Outputs {
            v1: false,
            v2: true,
            v3: true,
            v4: true,
        },
        next: 1,
    },
    Step {
        outputs: Outputs {
            v1: true,
            v2: false,
            v3: false,
            v4: false,
        },
        next: 9,
    },
    Step {
        outputs: Outputs {
            v1: false,
            v2: true,
            v3: true,
            v4: true,
        },
        next: 9,
    },
    Step {
        outputs: Outputs {
            v1: true,
            v2: false,
            v3: false,
            v4: false,
        },
        next: 1,
    },
    Step {
        outputs: Outputs {
            v1: false,
            v2: true,
            v3: false,
            v4: true,
        },
        next: 10,
    },
    Step {
        outputs: Outputs {
            v1: true,
            v2: false,
            v3: true,
            v4: false,
        },
        next: 2,
    },
    Step {
        outputs: Outputs {
            v1: false,
            v2: true,
            v3: false,
            v4: true,
        },
        next: 2,
    },
    Step {
        outputs: Outputs {
            v1: true,
            v2: false,
            v3: true,
            v4: false,
        },
        next: 10,
    },
    Step {
        outputs: Outputs {
            v1: false,
            v2: false,
            v3: true,
            v4: false,
        },
        next: 11,
    },
    Step {
        outputs: Outputs {
            v1: true,
            v2: true,
            v3: false,
            v4: true,
        },
        next: 3,
    },
    Step {
        outputs: Outputs {
            v1: false,
            v2: false,
            v3: true,
            v4: false,
        },
        next: 3,
    },
    Step {
        outputs: Outputs {
            v1: true,
            v2: true,
            v3: false,
            v4: true,
        },
        next: 11,
    },
    Step {
        outputs: Outputs {
            v1: false,
            v2: true,
            v3: true,
            v4: false,
        },
        next: 12,
    },
    Step {
        outputs: Outputs {
            v1: true,
            v2: false,
            v3: false,
            v4: true,
        },
        next: 4,
    },
    Step {
        outputs: Outputs {
            v1: false,
            v2: true,
            v3: true,
            v4: false,
        },
        next: 4,
    },
    Step {
        outputs: Outputs {
            v1: true,
            v2: false,
            v3: false,
            v4: true,
        },
        next: 12,
    },
    Step {
        outputs: Outputs {
            v1: false,
            v2: false,
            v3: false,
            v4: true,
        },
        next: 13,
    },
    Step {
        outputs: Outputs {
            v1: true,
            v2: true,
            v3: true,
            v4: false,
        },
        next: 5,
    },
    Step {
        outputs: Outputs {
            v1: false,
            v2: false,
            v3: false,
            v4: true,
        },
        next: 5,
    },
    Step {
        outputs: Outputs {
            v1: true,
            v2: true,
            v3: true,
            v4: false,
        },
        next: 13,
    },
    Step {
        outputs: Outputs {
            v1: false,
            v2: false,
            v3: true,
            v4: true,
        },
        next: 6,
    },
    Step {
        outputs: Outputs {
            v1: true,
            v2: true,
            v3: false,
            v4: false,
        },
        next: 14,
    },
    Step {
        outputs: Outputs {
            v1: false,
            v2: false,
            v3: true,
            v4: true,
        },
        next: 14,
    },
    Step {
        outputs: Outputs {
            v1: true,
            v2: true,
            v3: false,
            v4: false,
        },
        next: 6,
    },
    Step {
        outputs: Outputs {
            v1: false,
            v2: true,
            v3: false,
            v4: false,
        },
        next: 7,
    },
    Step {
        outputs: Outputs {
            v1: true,
            v2: false,
            v3: true,
            v4: true,
        },
        next: 15,
    },
    Step {
        outputs: Outputs {
            v1: false,
            v2: true,
            v3: false,
            v4: false,
        },
        next: 15,
    },
    Step {
        outputs: Outputs {
            v1: true,
            v2: false,
            v3: true,
            v4: true,
        },
        next: 7,
    },
];

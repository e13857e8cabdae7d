// The worked figures of the rules as one table, and the statement that the rules give each of them.
#![tactic(auto)]

mod table;

use code::Outputs;
pub use table::worked_figures;

// A worked figure: what is asked, and what comes of it. A report that is handed has one octet, and
// buffers are in order R.
#[derive(Clone, Copy, Debug, PartialEq)]
pub enum Figure {
    // a bit for a new register, and the outputs of its step and of the four tail steps
    Closing {
        bit: bool,
        outputs: [Outputs; 5],
    },
    // a report, L, and the check field
    Check {
        report: u8,
        check: usize,
        field: u32,
    },
    // a report, L, and the buffer
    Buffer {
        report: u8,
        check: usize,
        buffer: [u8; 8],
    },
    // a report, L, how many octets three passages copy that are confirmed, and the last three
    // octets of all that they copy
    Passages {
        report: u8,
        check: usize,
        counts: [usize; 3],
        last: [u8; 3],
    },
    // T, L, k, and P
    Payload {
        octets: usize,
        check: usize,
        k: usize,
        payload: usize,
    },
    // P, L, k, and T
    Back {
        payload: usize,
        check: usize,
        k: usize,
        octets: usize,
    },
    // P, L, k, and the number of the refusal
    BackRefused {
        payload: usize,
        check: usize,
        k: usize,
        refusal: u8,
    },
}

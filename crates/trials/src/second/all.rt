// The nearest messages of a small size by trying every message there is.
use crate::second::nearest::{StepSums, weigh};
use crate::second::readings::Kind;
use crate::second::register::Cells;

// The least weight of all messages, how many messages have it, and the first of them as a number,
// bit 0 first.
#[derive(Clone, Copy)]
pub(crate) struct Least {
    pub(crate) weight: u64,
    pub(crate) messages: u64,
    pub(crate) first: u64,
}

// The weight of the message that a number's bits spell.
fn weight_of(kind: Kind, steps: &[StepSums], number: u64) -> u64 {
    let message = steps.len().saturating_sub(4);
    let mut cells = Cells::cleared();
    let mut weight = 0;
    let mut left = number;
    for (t, step) in steps.iter().enumerate() {
        let bit = if t < message {
            left % 2 == 1
        } else {
            cells.feedback()
        };
        weight = weigh(kind, weight, step, cells.outputs(bit));
        cells = cells.after(bit);
        left /= 2;
    }
    weight
}

// Weighs every message of so many bits, tail aside.
pub(crate) fn least_of_all(kind: Kind, steps: &[StepSums]) -> Least {
    let mut least = Least {
        weight: u64::MAX,
        messages: 0,
        first: 0,
    };
    let bits = u32::try_from(steps.len().saturating_sub(4)).unwrap_or(64);
    let messages = 1u64.checked_shl(bits).unwrap_or(0);
    for number in 0..messages {
        let weight = weight_of(kind, steps, number);
        if weight < least.weight {
            least = Least {
                weight,
                messages: 0,
                first: number,
            };
        }
        if weight == least.weight {
            least.messages = least.messages.saturating_add(1);
        }
    }
    least
}

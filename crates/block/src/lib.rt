// A coded report's block: its sizes, its octets as bits, and its check field.
#![tactic(auto)]

mod bits;
mod checks;
mod plans;
mod sizes;

pub use bits::{bit_at, bit_of, octet};
pub use checks::check_field;
pub use plans::{PlanRefusal, back, plan};
pub use sizes::{Size, SizeRefusal};

// The octets of the longest block, its steps, and the places of its buffer.
pub const MOST_BLOCK_OCTETS: usize = 516;

pub const MOST_STEPS: usize = 8 * MOST_BLOCK_OCTETS;

pub const MOST_PLACES: usize = 32 * MOST_BLOCK_OCTETS;

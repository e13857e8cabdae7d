// The listing of a capture: which records it has, which acts each asks for, and the lines that tell
// what comes of them.
#![tactic(auto)]

mod acts;
mod buffers;
mod captures;
mod faults;
mod hex;
mod input;
mod layouts;
mod letters;
mod lines;
mod listings;
mod reports;
mod telling;
mod workspaces;
mod writing;

pub use buffers::Buffers;
pub use faults::{Fault, Layer};
pub use input::list_input;
pub use letters::{Lettered, known_letters};
pub use lines::Line;
pub use listings::list;
pub use reports::Report;
pub use telling::{ByLetter, Lines};
pub use writing::{write_by_letter, write_listing};

// A capture has at most this many octets.
pub const MOST_CAPTURE_OCTETS: usize = 32768;

// The places of the tally that the programs keep, so that a block has up to 56 octets.
pub const PLACES: usize = 1792;

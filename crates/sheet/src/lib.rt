// A tally sheet lays all received symbols of one report on the places of its buffer, and names
// the nearest message.
#![tactic(auto)]

mod answers;
mod entries;
mod refusals;
mod sheets;

pub use answers::{Decoded, Taken, Verdict};
pub use refusals::{OpenRefusal, TakeRefusal, WipeRefusal};
pub use sheets::Sheet;

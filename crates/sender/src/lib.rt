// A sender hands a block's buffer on in pieces, round after round, and moves only by those that are
// confirmed.
#![tactic(auto)]

mod passages;
mod senders;
mod sendings;

pub use passages::{Passage, PassageRefusal};
pub use senders::Sender;
pub use sendings::{ShortSending, short_sending};

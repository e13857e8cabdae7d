// What holds of whole runs of sheets and senders, for every reading, and of an undamaged payload by
// the hard one.
#![tactic(auto)]

mod runs;
mod undamaged;

pub use runs::{ShortRun, nearest_message};
pub use undamaged::undamaged_payload;

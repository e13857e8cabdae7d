// The search for the nearest message over the entries of a tally, for any weighing. It knows no
// sheet.
#![tactic(auto)]

mod blocks;
mod branches;
mod find;
mod quads;
mod refusal;
mod scratch;
mod select;
mod state;
mod traceback;
mod trellis_step;
mod warm_up;

pub use find::find_nearest;
pub use refusal::FindRefusal;
pub use scratch::Scratch;

// The two weights of a place: what has come there weighs so much against bit 0, and so much against
// bit 1.
#[derive(Clone, Copy, Drop)]
pub struct Entry<V> {
    pub zero: V,
    pub one: V,
}

// What the search found: the weight of the nearest message, and whether that message's check fits.
#[derive(Clone, Copy, Drop)]
pub struct Found<V> {
    pub weight: V,
    pub check_fits: bool,
}

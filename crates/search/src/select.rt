// What is selected among the paths that come to a state.

// The survivor of a state: its path weight, and whether it came through the odd predecessor. The
// weight is an `Option` where a state may be unreached.
#[derive(Clone, Copy, Drop)]
pub(crate) struct Survivor<T> {
    pub(crate) weight: T,
    pub(crate) odd: bool,
}

// The path weights of the survivors of some states, and those states' bits of the word of
// survivors.
#[derive(Clone, Copy, Drop)]
pub(crate) struct Selected<T> {
    pub(crate) weights: T,
    pub(crate) word: u16,
}

// The buffers that a search is lent.

// Words of survivors, a word for each step and in it a bit for each state, and path weights. What
// stands in them before a search is nothing to it.
#[derive(Drop)]
pub struct Scratch<'a, V> {
    pub survivors: &'a mut [u16],
    pub paths: &'a mut [Option<V>],
}

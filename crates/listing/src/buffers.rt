// The buffers that a listing is lent.
ghost use Rattle.std.specs.Prelude.{◌≤◌, length};

use search::Entry;

// The tally over which sheets are opened, and the path weights of the decodes, 32 or more. What
// stands in them before is nothing to a listing.
#[derive(Drop)]
pub struct Buffers<'a, V> {
    pub tally: &'a mut [Entry<V>],
    pub paths: &'a mut [Option<V>],
    ghost states: { 32 ≤ length paths.now },
}

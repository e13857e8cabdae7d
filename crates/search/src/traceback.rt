// The traceback: the way back along the survivors, which gives the message.
ghost use Rattle.std.specs.Prelude.{◌≡◌, ◌*◌, false, length, slice_index_or};
ghost use Rattle.block.specs.Bits.{filled, octet_of};
ghost use Rattle.search.specs.Paths.{input, named_predecessor, survivor_start, traceback};

use crate::state::State;
use block::{bit_of, octet};

// Some steps of a traceback: what was read of them, a bit or an octet, and the state before them.
#[derive(Clone, Copy)]
struct Traceback<T> {
    read: T,
    state: State,
}

// The step that led to a state, by its word of survivors.
fn trace_step(word: u16, state: State) -> Traceback<bool>
    ensures state { result.state.number ≡ named_predecessor word state.number }
    ensures read { result.read ≡ input result.state.number state.number }
{
    let from = state.predecessor(bit_of(word as u32, state.number as usize));
    Traceback {
        read: state.input_from(from),
        state: from,
    }
}

// The eight steps that led to a state, by their words of survivors.
fn trace_octet(words: &[u16; 8], state: State) -> Traceback<u8>
    ensures read { result.read
        ≡ octet_of (λ i. slice_index_or (traceback words.now state.number) i false) }
    ensures state { result.state.number ≡ survivor_start words.now (length words.now) state.number }
{
    let mut bits = [false; 8];
    let mut state = state;
    // by index: after a loop over a reversed zip no proof knows what was written through it
    for i in (0..8).rev() {
        let back = trace_step(words[i], state);
        bits[i] = back.read;
        state = back.state;
    }
    Traceback {
        read: octet(bits),
        state,
    }
}

// Writes the bits of the path that ends in state 0.
pub(crate) fn trace_back(survivors: &[u16], target: &mut [u8])
    requires { length survivors.now ≡ 8 * length target.old }
    ensures { target.new ≡ filled (traceback survivors.now 0) (length target.old) }
{
    let (octets, _) = survivors.as_chunks();
    let mut state = State::zero();
    // by index, for the same reason
    for b in (0..target.len()).rev() {
        let back = trace_octet(&octets[b], state);
        target[b] = back.read;
        state = back.state;
    }
}

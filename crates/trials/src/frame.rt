// A size with a column order, for both coders.
use crate::second::layout::{Source, sources};
use crate::second::random::Random;
use crate::second::sizes::{ORDER_R, Sizes, backwards, shuffled};
use code::{Order, OrderRefusal};
use std::alloc::Global;

// A sheet takes at most so many symbols between two wipes.
pub(crate) const MOST_SYMBOLS: usize = 1_048_576;

// A size and an order, and where each output bit stands in the buffer.
#[derive(Drop)]
pub(crate) struct Frame {
    pub(crate) heap: Global,
    pub(crate) sizes: Sizes,
    pub(crate) order: Order,
    pub(crate) sources: Vec<Source>,
}

impl Frame {
    pub(crate) fn new(heap: Global, sizes: Sizes, columns: &[u8]) -> Result<Frame, OrderRefusal> {
        Ok(Frame {
            heap,
            sizes,
            order: Order::new(columns)?,
            sources: sources(heap, sizes.block, columns),
        })
    }

    // With order R, order R backwards, or some other order.
    pub(crate) fn draw(
        heap: Global,
        random: &mut Random,
        sizes: Sizes,
    ) -> Result<Frame, OrderRefusal> {
        let columns = match random.below(4) {
            0 => ORDER_R,
            1 => backwards(),
            _ => shuffled(random),
        };
        Frame::new(heap, sizes, &columns)
    }
}

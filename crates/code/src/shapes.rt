// The shape of a block.
use crate::Order;
use block::Size;

// What a block is like: how long its report and its check are, and the order of its columns.
#[derive(Clone, Copy, Debug)]
pub struct Shape {
    pub size: Size,
    pub order: Order,
}

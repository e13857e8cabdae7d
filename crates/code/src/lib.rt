// The convolutional code: its register, its columns, and a coded report's buffer.
#![tactic(auto)]

mod buffer;
mod encode;
mod message;
mod orders;
mod peek;
mod registers;
mod rows;
mod shapes;
mod table;
mod trellis;

pub use encode::{EncodeRefusal, encode_report};
pub use orders::{Order, OrderRefusal};
pub use peek::{PeekRefusal, Peeked, peek_report};
pub use registers::{Outputs, Register};
pub use shapes::Shape;
pub use trellis::{Step, feedback, step_from};

// Column orders.
ghost use Rattle.std.specs.Prelude.{◌≡◌, true};
ghost use Rattle.block.specs.Refusals.{Answers};
ghost use Rattle.code.specs.Columns.{all_below, count_of, each_once, follows_masks, index_of};
ghost use Rattle.code.specs.Columns.{is_order, order_r};

use thiserror::Error;

// Why no column order can be made, and the number of the refusal.
#[derive(Clone, Copy, Debug, PartialEq, Error)]
pub enum OrderRefusal {
    #[error("a column order lists 24 columns, each of 0 to 23 once")]
    Columns = 4,
}

impl OrderRefusal {
    ghost use Rattle.code.specs.Calls.{order_case};

    pub fn number(self) -> u8
        ensures { result ≡ (order_case self).number }
    {
        self as u8
    }
}

// The order in which the 24 columns fill the buffer behind output 1.
#[derive(Clone, Copy, Debug)]
pub struct Order {
    pub(crate) columns: [u8; 24],
    ghost each: { is_order columns ≡ true },
}

// How often `column` stands among the numbers. A loop, since the compiler compares many numbers at
// once in it, and one by one in a chain of `filter` and `count`.
fn count(numbers: &[u8], column: u8) -> usize
    ensures { result ≡ count_of column numbers.now }
{
    let mut n = 0;
    for number in numbers {
        if *number == column {
            n += 1;
        }
    }
    n
}

// Whether each of 0 to 23 stands among the numbers once.
fn lists_each_once(numbers: &[u8]) -> bool
    ensures { result ≡ each_once 24 numbers.now }
{
    (0..24).all(|column| count(numbers, column) == 1)
}

fn all_columns(numbers: &[u8]) -> bool
    ensures { result ≡ all_below 24 numbers.now }
{
    numbers.iter().all(|number| *number < 24)
}

fn is_order(numbers: &[u8; 24]) -> bool
    ensures { result ≡ is_order numbers.now }
{
    all_columns(numbers) && lists_each_once(numbers)
}

impl Order {
    ghost use Rattle.code.specs.Calls.{order_case, order_checks};

    const R: Order = Order {
        columns: [
            0, 4, 2, 6, 1, 5, 3, 7, 8, 12, 10, 14, 9, 13, 11, 15, 16, 20, 18, 22, 17, 21, 19, 23,
        ],
    };

    const S: Order = Order::R;

    // Order R.
    pub fn order_r() -> Order
        ensures { result.columns ≡ order_r }
    {
        Order::R
    }

    // Order S: each rate of the puncturing table keeps the first columns of this order. It turns
    // out to be order R.
    pub fn order_s() -> Order
        ensures masks { follows_masks result.columns ≡ true }
        ensures is { result.columns ≡ order_r }
    {
        Order::S
    }

    pub fn new(numbers: &[u8]) -> Result<Order, OrderRefusal>
        ensures { Answers (order_checks numbers.now) order_case
            (λ order. order.columns ≡ numbers.now) result }
    {
        match <[u8; 24]>::try_from(numbers) {
            Ok(columns) if is_order(&columns) => Ok(Order { columns }),
            _ => Err(OrderRefusal::Columns),
        }
    }

    // The index at which a column stands; behind the last where there is no such column. No
    // `Option`, since it is defined so, and each column of the 24 has one.
    pub fn index_of(&self, column: u8) -> usize
        ensures { result ≡ index_of column self.now.columns }
    {
        self.columns
            .iter()
            .position(|other| *other == column)
            .unwrap_or(24)
    }
}

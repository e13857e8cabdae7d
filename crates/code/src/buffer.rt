// A coded block, and the buffer that it fills.
ghost use Rattle.std.specs.Prelude.{◌≡◌, ◌+◌, ◌*◌, ◌/◌, ◌<◌, ◌≤◌, length, slice_index};
ghost use Rattle.block.specs.Bits.{bit, octet_of};
ghost use Rattle.block.specs.Sizes.{most_block_octets};
ghost use Rattle.code.specs.Rows.{IsBand, cell, row_output};

use crate::Order;
use crate::rows::Row;
use block::{bit_of, octet};
use std::array;

// The rows of a block of `n` octets, their outputs 2 to 4 each side by side, and the order of the
// columns that they fill. `n` stands beside them, since each place is reckoned from it, and since
// what lies behind the first `n` is no part of the block.
#[derive(Clone, Copy)]
pub(crate) struct CodedBlock<'a> {
    pub(crate) order: &'a Order,
    pub(crate) n: usize,
    pub(crate) rows: &'a [Row],
    pub(crate) v2: &'a [u8],
    pub(crate) v3: &'a [u8],
    pub(crate) v4: &'a [u8],
    ghost some: { 1 ≤ n },
    ghost short: { n ≤ most_block_octets },
    ghost whole: { n ≤ length rows.now },
    ghost two: { IsBand 2 n rows.now v2.now },
    ghost three: { IsBand 3 n rows.now v3.now },
    ghost four: { IsBand 4 n rows.now v4.now },
}

// Output 1, 2, 3 or 4 of a row. It goes by number, as what is said of a band does.
fn output_of(row: Row, number: usize) -> u8
    ensures { result ≡ row_output number row }
{
    match number {
        1 => row.v1,
        2 => row.v2,
        3 => row.v3,
        _ => row.v4,
    }
}

// Fills a band with output `number` of all rows, side by side.
pub(crate) fn fill_band(rows: &[Row], number: usize, band: &mut [u8])
    requires { length band.old ≡ length rows.now }
    ensures { IsBand number (length rows.now) rows.now band.new }
{
    for (b, octet) in band.iter_mut().enumerate() {
        *octet = output_of(rows[b], number);
    }
}

// The octet of bit `i` of eight octets, from octet `row` on.
fn column_octet(band: &[u8], i: usize, row: usize) -> u8
    requires { row + 8 ≤ length band.now }
    ensures { result ≡ octet_of (λ k. bit i (slice_index band.now (row + k))) }
{
    octet(array::from_fn(|k| bit_of(u32::from(band[row + k]), i)))
}

impl<'a> CodedBlock<'a> {
    ghost use Rattle.code.specs.Filling.{Filled, buffer_octet};

    // The octets of the output that a column belongs to.
    fn band(&self, column: usize) -> &'a [u8]
        ensures { IsBand (column / 8 + 2) self.now.n self.now.rows.now result.now }
    {
        match column / 8 {
            0 => self.v2,
            1 => self.v3,
            _ => self.v4,
        }
    }

    // The bit in a row of a column.
    fn cell(&self, column: usize, row: usize) -> bool
        requires { row < self.now.n }
        ensures { result ≡ cell self.now.rows.now column row }
    {
        bit_of(u32::from(self.band(column)[row]), column % 8)
    }

    // Octet `b` of the buffer, behind output 1: it may have bits of several columns.
    fn mixed_octet(&self, b: usize) -> u8
        requires { (self.now.n ≤ b) × (b < 4 * self.now.n) }
        ensures { result ≡ buffer_octet self.now b }
    {
        octet(array::from_fn(|i| {
            let q = 8 * b + i - 8 * self.n;
            self.cell(self.order.columns[q / self.n] as usize, q % self.n)
        }))
    }

    // Fills the octets of output 1.
    fn fill_own(&self, buffer: &mut [u8])
        requires { length buffer.old ≡ 4 * self.now.n }
        ensures { Filled self.now self.now.n buffer.new }
    {
        for b in 0..self.n {
            buffer[b] = self.rows[b].v1;
        }
    }

    // Fills octets that have bits of the column at `index` alone: from octet `start` on, up to
    // octet `end`. They have a loop of their own, which the compiler then keeps short.
    fn fill_whole(&self, index: usize, start: usize, end: usize, buffer: &mut [u8])
        requires within { (index < 24) × (start ≤ end) × (length buffer.old ≡ 4 * self.now.n) }
        requires first { 8 * self.now.n + self.now.n * index ≤ 8 * start }
        requires last { 8 * end ≤ 8 * self.now.n + self.now.n * (index + 1) }
        requires there { Filled self.now start buffer.old }
        ensures { Filled self.now end buffer.new }
    {
        let column = self.order.columns[index] as usize;
        let band = self.band(column);
        let place = 8 * self.n + self.n * index;
        for b in start..end {
            buffer[b] = column_octet(band, column % 8, 8 * b - place);
        }
    }

    // Fills the octets behind those that are there, as far as the column at `index` fills whole
    // ones.
    fn fill_column(&self, index: usize, buffer: &mut [u8])
        requires within { (index < 24) × (length buffer.old ≡ 4 * self.now.n) }
        requires there { Filled self.now (self.now.n + self.now.n * index / 8) buffer.old }
        ensures { Filled self.now (self.now.n + self.now.n * (index + 1) / 8) buffer.new }
    {
        let start = self.n + self.n * index / 8;
        let end = self.n + self.n * (index + 1) / 8;
        if start == end {
            return;
        }
        buffer[start] = self.mixed_octet(start);
        self.fill_whole(index, start + 1, end, buffer);
    }

    // Fills the 4 * N octets of a buffer.
    pub(crate) fn fill(&self, buffer: &mut [u8])
        requires { length buffer.old ≡ 4 * self.now.n }
        ensures { Filled self.now (4 * self.now.n) buffer.new }
    {
        self.fill_own(buffer);
        for index in 0..24 {
            self.fill_column(index, buffer);
        }
    }
}

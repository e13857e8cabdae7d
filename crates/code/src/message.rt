// The message that a report is coded as: its own bits, then those of its check.
ghost use Rattle.std.specs.Prelude.{◌≡◌, ℕ, ◌+◌, ◌*◌, ◌<◌, ◌≤◌, length};
ghost use Rattle.block.specs.Bits.{bit};
ghost use Rattle.block.specs.Checks.{report_check};
ghost use Rattle.block.specs.Sizes.{block_octets};
ghost use Rattle.code.specs.Register.{after, cells, cleared, trace};
ghost use Rattle.code.specs.Rows.{AreRows, steps_row};

use crate::rows::Row;
use crate::{Outputs, Register};
use block::{Size, bit_at, bit_of, octet};
use std::array;

// A report of this size, with its check field.
#[derive(Clone, Copy)]
pub(crate) struct Message<'a> {
    size: Size,
    report: &'a [u8],
    field: u32,
    ghost own: { field ≡ report_check report.now size.octets size.check },
}

impl<'a> Message<'a> {
    ghost use Rattle.code.specs.Messages.{bits_from, front_bits, message_bit, message_bits};
    ghost use Rattle.code.specs.Messages.{message_steps};

    pub(crate) fn new(size: Size, report: &'a [u8]) -> Message<'a>
        ensures size { result.size ≡ size }
        ensures report { result.report.now ≡ report.now }
    {
        Message {
            size,
            report,
            field: size.check_over(report),
        }
    }

    // Bit `t` of the message.
    fn bit(&self, t: usize) -> bool
        requires { t < message_bits self.now }
        ensures { result ≡ message_bit self.now t }
    {
        let own = 8 * self.size.octets();
        if t < own {
            bit_at(self.report, t)
        } else {
            bit_of(self.field, self.size.check() - 1 - (t - own))
        }
    }

    // Octet `b` of the message.
    fn octet(&self, b: usize) -> u8
        requires { 8 * b + 8 ≤ message_bits self.now }
        ensures { (i : ℕ) → i < 8 → bit i result ≡ message_bit self.now (8 * b + i) }
    {
        if b < self.size.octets() {
            self.report.get(b).copied().unwrap_or(0)
        } else {
            octet(array::from_fn(|i| self.bit(8 * b + i)))
        }
    }

    // Runs the register over the whole octets of the message, and notes their rows.
    fn run(&self, register: &mut Register, rows: &mut [Row])
        requires opened { cells register.old ≡ cleared }
        requires whole { 8 * length rows.old + 4 ≡ message_bits self.now }
        ensures rows { AreRows (message_steps self.now) (length rows.old) rows.new }
        ensures after { cells register.new
            ≡ after cleared (front_bits self.now (8 * length rows.old)) }
    {
        for (b, row) in rows.iter_mut().enumerate() {
            *row = register.push_octet(self.octet(b));
        }
    }

    // Runs the register over the message from bit `t` on, and notes each step's outputs.
    fn run_bits(&self, t: usize, register: &mut Register, steps: &mut [Outputs])
        requires { t + length steps.old ≡ message_bits self.now }
        ensures steps { steps.new
            ≡ trace (cells register.old) (bits_from self.now t (length steps.old)) }
        ensures after { cells register.new
            ≡ after (cells register.old) (bits_from self.now t (length steps.old)) }
    {
        for (i, step) in steps.iter_mut().enumerate() {
            *step = register.push(self.bit(t + i));
        }
    }

    // The row of the octet behind the first `b`: the last four bits of the message, and the tail.
    fn last_row(&self, b: usize, register: Register) -> Row
        requires whole { 8 * b + 4 ≡ message_bits self.now }
        requires stands { cells register ≡ after cleared (front_bits self.now (8 * b)) }
        ensures { result ≡ steps_row (message_steps self.now) b }
    {
        let mut register = register;
        let mut steps = [Outputs::default(); 8];
        let (own, tail) = steps.split_at_mut(4);
        self.run_bits(8 * b, &mut register, own);
        tail.copy_from_slice(&register.close());
        Row::of_steps(&steps)
    }

    // Notes the rows of the message's block.
    pub(crate) fn code(&self, rows: &mut [Row])
        requires { length rows.old ≡ block_octets self.now.size.octets self.now.size.check }
        ensures { AreRows (message_steps self.now)
            (block_octets self.now.size.octets self.now.size.check) rows.new }
    {
        let mut register = Register::open();
        let whole = self.size.octets() + self.size.check() / 8;
        self.run(&mut register, &mut rows[..whole]);
        rows[whole] = self.last_row(whole, register);
    }
}

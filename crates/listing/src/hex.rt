// Octets as text.
ghost use Rattle.std.specs.Prelude.{◌≡◌, ◌<◌, false, Some};
ghost use Rattle.std.specs.Fmt.{digit_glyph};
ghost use Rattle.listing.specs.Lines.{hex_octet};

use std::{fmt, str};

// The digit of lower-case hex for a number below 16.
fn hex_digit(number: u8) -> u8
    requires { number < 16 }
    ensures { result ≡ digit_glyph false number }
{
    if number < 10 {
        b'0' + number
    } else {
        b'a' + (number - 10)
    }
}

// An octet shown as two digits of hex.
#[derive(Clone, Copy)]
pub(crate) struct Hex(pub(crate) u8);

impl fmt::Display for Hex {
    ghost output = { λ shown. Some (hex_octet shown.0) };

    fn fmt<W: fmt::Write>(&self, f: &mut fmt::Formatter<W>) -> fmt::Result {
        let digits = [hex_digit(self.0 / 16), hex_digit(self.0 % 16)];
        f.write_str(str::from_utf8(&digits).map_err(|_| fmt::Error)?)
    }
}

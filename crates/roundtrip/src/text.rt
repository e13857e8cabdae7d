// Octets shown as text, with a dot for each that is no printable character; no derive knows that
// rule.
use std::fmt;

#[derive(Clone, Copy)]
pub(crate) struct Text<'a>(pub(crate) &'a [u8]);

impl<'a> fmt::Display for Text<'a> {
    fn fmt<W: fmt::Write>(&self, f: &mut fmt::Formatter<W>) -> fmt::Result {
        for octet in self.0 {
            f.write_char(match *octet {
                b' '..=b'~' => *octet as char,
                _ => '.',
            })?;
        }
        Ok(())
    }
}

// Hexadecimal digits in capitals, a fixed number of them.
ghost use Rattle.std.specs.Prelude.{◌≡◌, ◌<◌, true, Some, min};
ghost use Rattle.std.specs.Fmt.{digit_glyph};
ghost use Rattle.formats.specs.Bytes.{bytes_of};
ghost use Rattle.text.specs.Digits.{hex_byte, hex_text};

use std::fmt;

/// The lowest bytes of a number, at most its eight, as two digits each.
#[derive(Clone, Copy, PartialEq, Eq, Debug)]
pub struct Hex<const BYTES: usize>(pub u64);

// A byte as two digits.
#[derive(Clone, Copy)]
struct Pair(u8);

// A digit in capitals.
fn capital(digit: u8) -> char
    requires { digit < 16 }
    ensures value { result ≡ digit_glyph true digit }
    ensures ascii { result < 128 }
{
    char::from(b"0123456789ABCDEF"[usize::from(digit)])
}

impl fmt::Display for Pair {
    ghost output = { λ p. Some (hex_byte p.0) };

    fn fmt<W: fmt::Write>(&self, f: &mut fmt::Formatter<W>) -> fmt::Result {
        f.write_char(capital(self.0 / 16))?;
        f.write_char(capital(self.0 % 16))
    }
}

impl<const BYTES: usize> fmt::Display for Hex<BYTES> {
    ghost output = { λ h. Some (hex_text (bytes_of (min BYTES 8) h.0)) };

    fn fmt<W: fmt::Write>(&self, f: &mut fmt::Formatter<W>) -> fmt::Result {
        let bytes = self.0.to_be_bytes();
        for byte in &bytes[8usize.saturating_sub(BYTES)..] {
            write!(f, "{}", Pair(*byte))?;
        }
        Ok(())
    }
}

//! Octets in hexadecimal digits.

ghost use Rattle.std.specs.Prelude.{◌≡◌, ◌<◌, ◌∷◌, [], Some, slice_index};
ghost use Rattle.hex.specs.Hex.{encode_lower, lower_digits};

use std::fmt;

/// Octets as a text. Each prints as two hexadecimal digits in lower case.
#[derive(Clone, Copy, Debug, PartialEq, Eq)]
pub struct HexText<'a> {
    /// The octets.
    pub octets: &'a [u8],
}

impl fmt::Display for HexText<'_> {
    ghost output = { λ text. Some (encode_lower text.octets.now) };

    fn fmt<W: fmt::Write>(&self, f: &mut fmt::Formatter<W>) -> fmt::Result {
        for octet in self.octets {
            let high = digit(octet / 16);
            let low = digit(octet % 16);
            write!(f, "{high}{low}")?;
        }
        Ok(())
    }
}

/// The hexadecimal digit of a number below 16.
fn digit(number: u8) -> &'static str
    requires { number < 16 }
    ensures { result.now ≡ slice_index lower_digits number ∷ [] }
{
    match number {
        0 => "0",
        1 => "1",
        2 => "2",
        3 => "3",
        4 => "4",
        5 => "5",
        6 => "6",
        7 => "7",
        8 => "8",
        9 => "9",
        10 => "a",
        11 => "b",
        12 => "c",
        13 => "d",
        14 => "e",
        _ => "f",
    }
}

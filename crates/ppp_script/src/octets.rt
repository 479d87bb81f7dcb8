//! The octets of a line.

ghost use Rattle.std.specs.Prelude.{◌≡◌, IfOk, Some};
ghost use Rattle.hex.specs.Hex.{encode_lower};
ghost use Rattle.ppp_script.specs.Octets.{octets_in, IsOctets};

use crate::line_why::LineWhy;
use hex::FromHexError;
use ppp_text::HexText;
use std::alloc::{AllocError, Global};
use std::fmt;
use std::marker::Model;

/// The most octets of a line.
pub const MOST_OCTETS: usize = 65_536;

/// The octets of a line, 1 to 65,536. They are seen as their list, and print as hexadecimal digits in lower case.
#[derive(Debug, Drop)]
pub struct Octets {
    octets: Vec<u8>,
}

impl Model for Octets {
    ghost use Rattle.std.specs.Prelude.{ℕ, List};

    ghost Value = { List ℕ };

    ghost use Rattle.ppp_script.specs.Octets.{IsOctets};

    ghost view = { λ o. o.octets.items };

    ghost invariant = { λ o. IsOctets o.octets.items };
}

impl Octets {
    /// The octets.
    pub fn octets(&self) -> &[u8]
        ensures octets { result.now ≡ self.now }
        ensures within { IsOctets self.now }
    {
        self.octets.as_slice()
    }

    /// Reads a field of hexadecimal digits of either case, two for each octet.
    #[tactic(auto, unfolding(crate::specs::Octets::octets_in))]
    pub(crate) fn read(alloc: Global, field: &[u8]) -> Result<Result<Octets, LineWhy>, AllocError>
        ensures value { IfOk result (λ read. read ≡ octets_in field.now) }
        ensures within { IfOk result (λ read. IfOk read IsOctets) }
    {
        match hex::decode(alloc, field) {
            Ok(octets) if 1 <= octets.len() && octets.len() <= MOST_OCTETS => {
                Ok(Ok(Octets { octets }))
            }
            Err(FromHexError::OutOfMemory) => Err(AllocError),
            _ => Ok(Err(LineWhy::Event)),
        }
    }
}

impl fmt::Display for Octets {
    ghost output = { λ octets. Some (encode_lower octets) };

    fn fmt<W: fmt::Write>(&self, f: &mut fmt::Formatter<W>) -> fmt::Result {
        let octets = HexText {
            octets: self.octets(),
        };
        write!(f, "{octets}")
    }
}

//! The Classes of endpoint discriminators (RFC 1990 section 5.1.3).

ghost use Rattle.std.specs.Prelude.{◌≡◌};
ghost use Rattle.ppp_packet.specs.DiscClass.{class_number, has_size, read_class};

use crate::disc::MOST_ADDRESS;
use thiserror::Error;

/// The most digits of a directory number (ITU-T E.164), in octets.
pub const MOST_DIRECTORY: usize = 15;

/// What the address of an endpoint discriminator is (RFC 1990 section 5.1.3).
#[derive(Clone, Copy, Debug, PartialEq, Eq)]
pub enum DiscClass {
    /// Class 0: there is none.
    Null,
    /// Class 1: a locally assigned address, of 1 to 20 octets.
    Local,
    /// Class 2: an IPv4 address, of 4 octets.
    Ipv4,
    /// Class 3: an IEEE 802.1 MAC address, of 6 octets.
    Mac,
    /// Class 4: a block of Magic-Numbers, here of 1 to 20 octets.
    MagicBlock,
    /// Class 5: a directory number, of 1 to 15 octets.
    DirectoryNumber,
}

/// A number that is no Class.
#[derive(Clone, Copy, Debug, PartialEq, Eq, Error)]
#[error("no endpoint discriminator has the class {0}")]
pub struct UnknownClass(pub u8);

impl DiscClass {
    /// The Class's number, 0 to 5.
    pub const fn number(self) -> u8
        ensures { result ≡ class_number self }
    {
        match self {
            DiscClass::Null => 0,
            DiscClass::Local => 1,
            DiscClass::Ipv4 => 2,
            DiscClass::Mac => 3,
            DiscClass::MagicBlock => 4,
            DiscClass::DirectoryNumber => 5,
        }
    }

    /// Whether an address of this Class may have that many octets.
    pub const fn has_size(self, size: usize) -> bool
        ensures { result ≡ has_size self size }
    {
        match self {
            DiscClass::Null => size == 0,
            DiscClass::Local | DiscClass::MagicBlock => 1 <= size && size <= MOST_ADDRESS,
            DiscClass::Ipv4 => size == 4,
            DiscClass::Mac => size == 6,
            DiscClass::DirectoryNumber => 1 <= size && size <= MOST_DIRECTORY,
        }
    }
}

impl TryFrom<u8> for DiscClass {
    type Error = UnknownClass;

    ghost try_from_gives = { λ number answer. answer ≡ read_class number };

    fn try_from(number: u8) -> Result<DiscClass, UnknownClass> {
        match number {
            0 => Ok(DiscClass::Null),
            1 => Ok(DiscClass::Local),
            2 => Ok(DiscClass::Ipv4),
            3 => Ok(DiscClass::Mac),
            4 => Ok(DiscClass::MagicBlock),
            5 => Ok(DiscClass::DirectoryNumber),
            _ => Err(UnknownClass(number)),
        }
    }
}

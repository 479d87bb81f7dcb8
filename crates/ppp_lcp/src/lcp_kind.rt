//! The Types of LCP's options.

ghost use Rattle.std.specs.Prelude.{◌≡◌};
ghost use Rattle.ppp_lcp.specs.LcpKind.{kind_number, read_kind};

use thiserror::Error;

/// An option that LCP knows.
#[derive(Clone, Copy, Debug, PartialEq, Eq)]
pub enum LcpKind {
    /// Type 1, the Maximum-Receive-Unit (RFC 1661 section 6.1).
    Mru,
    /// Type 2, the Async-Control-Character-Map (RFC 1662 section 7.1).
    Accm,
    /// Type 5, the Magic-Number (RFC 1661 section 6.4).
    Magic,
    /// Type 7, Protocol-Field-Compression (RFC 1661 section 6.5).
    Pfc,
    /// Type 8, Address-and-Control-Field-Compression (RFC 1661 section 6.6).
    Acfc,
    /// Type 17, the Maximum-Reconstructed-Receive-Unit of multilink (RFC 1990 section 5.1.1).
    Mrru,
    /// Type 18, the Short-Sequence-Number-Header-Format (RFC 1990 section 5.1.2).
    Short,
    /// Type 19, the Endpoint-Discriminator (RFC 1990 section 5.1.3).
    Disc,
    /// Type 23, the Link-Discriminator (RFC 2125).
    LinkDisc,
    /// Type 27, the multilink header's form with classes (after RFC 2686).
    Classes,
}

/// A number that is no Type of LCP's.
#[derive(Clone, Copy, Debug, PartialEq, Eq, Error)]
#[error("LCP knows no option of type {0}")]
pub struct UnknownKind(pub u8);

impl LcpKind {
    /// The Type's number.
    pub const fn number(self) -> u8
        ensures { result ≡ kind_number self }
    {
        match self {
            LcpKind::Mru => 1,
            LcpKind::Accm => 2,
            LcpKind::Magic => 5,
            LcpKind::Pfc => 7,
            LcpKind::Acfc => 8,
            LcpKind::Mrru => 17,
            LcpKind::Short => 18,
            LcpKind::Disc => 19,
            LcpKind::LinkDisc => 23,
            LcpKind::Classes => 27,
        }
    }
}

impl TryFrom<u8> for LcpKind {
    type Error = UnknownKind;

    ghost try_from_gives = { λ number answer. answer ≡ read_kind number };

    fn try_from(number: u8) -> Result<LcpKind, UnknownKind> {
        match number {
            1 => Ok(LcpKind::Mru),
            2 => Ok(LcpKind::Accm),
            5 => Ok(LcpKind::Magic),
            7 => Ok(LcpKind::Pfc),
            8 => Ok(LcpKind::Acfc),
            17 => Ok(LcpKind::Mrru),
            18 => Ok(LcpKind::Short),
            19 => Ok(LcpKind::Disc),
            23 => Ok(LcpKind::LinkDisc),
            27 => Ok(LcpKind::Classes),
            _ => Err(UnknownKind(number)),
        }
    }
}

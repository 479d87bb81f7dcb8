//! The control protocols.

ghost use Rattle.std.specs.Prelude.{◌≡◌, Some};
ghost use Rattle.ppp_packet.specs.Proto.{proto_number, proto_name, read_proto};

use std::fmt;
use thiserror::Error;

/// A control protocol whose packets have the form of RFC 1661 section 5. It prints as scripts and reports name it.
#[derive(Clone, Copy, Debug, PartialEq, Eq)]
pub enum Proto {
    /// The Link Control Protocol, c021 (RFC 1661).
    Lcp,
    /// The control protocol of IPv4, 8021 (RFC 1332).
    Ip,
    /// The control protocol of IPv6, 8057 (RFC 5072).
    Ipv6,
    /// The control protocol of the OSI network layer, 8023 (RFC 1377).
    Osi,
    /// The control protocol of MPLS, 8281 (RFC 3032).
    Mpls,
    /// The Bandwidth Allocation Control Protocol, c02b (RFC 2125).
    Bacp,
}

impl Proto {
    /// The protocol's number, as it stands in a frame (RFC 1661 section 2).
    pub const fn number(self) -> u16
        ensures { result ≡ proto_number self }
    {
        match self {
            Proto::Lcp => 0xc021,
            Proto::Ip => 0x8021,
            Proto::Ipv6 => 0x8057,
            Proto::Osi => 0x8023,
            Proto::Mpls => 0x8281,
            Proto::Bacp => 0xc02b,
        }
    }
}

/// A number that is no control protocol's.
#[derive(Clone, Copy, Debug, PartialEq, Eq, Error)]
#[error("no control protocol has the number {0}")]
pub struct UnknownProto(pub u16);

impl TryFrom<u16> for Proto {
    type Error = UnknownProto;

    ghost try_from_gives = { λ number answer. answer ≡ read_proto number };

    fn try_from(number: u16) -> Result<Proto, UnknownProto> {
        match number {
            0xc021 => Ok(Proto::Lcp),
            0x8021 => Ok(Proto::Ip),
            0x8057 => Ok(Proto::Ipv6),
            0x8023 => Ok(Proto::Osi),
            0x8281 => Ok(Proto::Mpls),
            0xc02b => Ok(Proto::Bacp),
            _ => Err(UnknownProto(number)),
        }
    }
}

impl fmt::Display for Proto {
    ghost output = { λ proto. Some (proto_name proto) };

    fn fmt<W: fmt::Write>(&self, f: &mut fmt::Formatter<W>) -> fmt::Result {
        f.write_str(match self {
            Proto::Lcp => "lcp",
            Proto::Ip => "ip",
            Proto::Ipv6 => "ipv6",
            Proto::Osi => "osi",
            Proto::Mpls => "mpls",
            Proto::Bacp => "bacp",
        })
    }
}

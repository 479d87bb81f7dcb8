//! The refusal of a span that is too wide.

ghost use Rattle.std.specs.Prelude.{Some};
ghost use Rattle.ppp_world.specs.Refusal.{outstanding_text, protocol_text, span_text, whose_text};

use ppp_packet::Proto;
use ppp_script::End;
use ppp_trunk::BAP;
use std::fmt;

/// The protocols in order.
pub(crate) const PROTOCOLS: [Proto; 6] = [
    Proto::Lcp,
    Proto::Ip,
    Proto::Ipv6,
    Proto::Osi,
    Proto::Mpls,
    Proto::Bacp,
];

/// An end's requests of which something is under way span more than 255 ordinals: Configure-Requests, or what BAP asks and tells. It prints as
/// `end E link L P sent S oldest O`, with the protocol's name as P.
#[derive(Clone, Copy, Debug, PartialEq, Eq)]
pub struct Outstanding {
    /// The end whose requests they are.
    pub end: End,
    /// The link, from 1 on.
    pub link: u8,
    /// The protocol's number (RFC 1661 section 2).
    pub protocol: u16,
    /// The ordinal of the last request that the end has sent.
    pub sent: u64,
    /// The ordinal of the oldest of which something is under way.
    pub oldest: u64,
}

impl fmt::Display for Outstanding {
    ghost output = { λ o. Some (outstanding_text o) };

    fn fmt<W: fmt::Write>(&self, f: &mut fmt::Formatter<W>) -> fmt::Result {
        let whose = Whose(*self);
        let span = Span(*self);
        write!(f, "{whose} {span}")
    }
}

/// Whose requests they are.
#[derive(Clone, Copy)]
struct Whose(Outstanding);

impl fmt::Display for Whose {
    ghost output = { λ w. Some (whose_text w.0) };

    #[tactic(auto, unfolding(crate::specs::Refusal::whose_text))]
    fn fmt<W: fmt::Write>(&self, f: &mut fmt::Formatter<W>) -> fmt::Result {
        let end = self.0.end;
        let link = self.0.link;
        let protocol = Protocol(self.0.protocol);
        write!(f, "end {end} link {link} {protocol}")
    }
}

/// How far they span.
#[derive(Clone, Copy)]
struct Span(Outstanding);

impl fmt::Display for Span {
    ghost output = { λ s. Some (span_text s.0) };

    #[tactic(auto, unfolding(crate::specs::Refusal::span_text))]
    fn fmt<W: fmt::Write>(&self, f: &mut fmt::Formatter<W>) -> fmt::Result {
        let sent = self.0.sent;
        let oldest = self.0.oldest;
        write!(f, "sent {sent} oldest {oldest}")
    }
}

/// A protocol by its number: it prints as its name, or as the number where it has none.
#[derive(Clone, Copy)]
struct Protocol(u16);

impl fmt::Display for Protocol {
    ghost output = { λ p. Some (protocol_text p.0) };

    fn fmt<W: fmt::Write>(&self, f: &mut fmt::Formatter<W>) -> fmt::Result {
        if self.0 == BAP {
            return write!(f, "bap");
        }
        match Proto::try_from(self.0) {
            Ok(proto) => write!(f, "{proto}"),
            Err(_) => write!(f, "{}", self.0),
        }
    }
}

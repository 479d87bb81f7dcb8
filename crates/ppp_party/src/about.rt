//! What a frame carries, in short.

ghost use Rattle.std.specs.Prelude.{◌≡◌, Some, option_map};
ghost use Rattle.ppp_party.specs.About.{about_of, answers_of, kind_of, requests_of};
ghost use Rattle.ppp_party.specs.CarriedRead.{carried_seen};
ghost use Rattle.ppp_party.specs.PacketRead.{packet_seen};

use crate::carried::Carried;
use crate::packet::Packet;
use ppp_packet::Proto;

/// The kinds of packets that a mark tells apart (RFC 1661 section 5).
#[derive(Clone, Copy, Debug, PartialEq, Eq)]
pub(crate) enum PacketKind {
    /// A Configure-Request, whose mark is its ordinal.
    Request,
    /// A Configure-Ack, Configure-Nak or Configure-Reject, whose mark is that of what it answers.
    Answer,
    /// Any other code.
    Other,
}

impl PacketKind {
    /// The kind of a packet.
    pub(crate) fn of(packet: &Packet<'_>) -> PacketKind
        ensures { result ≡ kind_of (packet_seen packet.now) }
    {
        match packet {
            Packet::Request(..) => PacketKind::Request,
            Packet::Ack(..) | Packet::Nak(..) | Packet::Reject(..) => PacketKind::Answer,
            Packet::Other(..) => PacketKind::Other,
        }
    }
}

/// The protocol of the packet that a frame carries, and its kind.
#[derive(Clone, Copy)]
pub(crate) struct About {
    pub(crate) proto: Proto,
    pub(crate) kind: PacketKind,
}

impl About {
    /// What is kept of what a frame carries.
    pub(crate) fn of(carried: &Option<Carried<'_>>) -> Option<About>
        ensures { result ≡ about_of (option_map carried_seen carried.now) }
    {
        let carried = carried.as_ref()?;
        Some(About {
            proto: carried.proto,
            kind: PacketKind::of(&carried.packet),
        })
    }

    /// Whether it is a Configure-Request of that protocol.
    pub(crate) fn is_request_of(self, proto: Proto) -> bool
        ensures { result ≡ requests_of proto (Some self) }
    {
        self.proto.number() == proto.number() && matches!(self.kind, PacketKind::Request)
    }

    /// Whether it answers a Configure-Request of that protocol.
    pub(crate) fn is_answer_of(self, proto: Proto) -> bool
        ensures { result ≡ answers_of proto (Some self) }
    {
        self.proto.number() == proto.number() && matches!(self.kind, PacketKind::Answer)
    }
}

//! Packets of the automaton in octets.

ghost use Rattle.std.specs.Prelude.{◌≡◌, option_map};
ghost use Rattle.ppp_auto.specs.Packet.{packet_of, packet_with};
ghost use Rattle.ppp_packet.specs.PacketRef.{packet_seen as raw_seen};
ghost use Rattle.ppp_party.specs.PacketRead.{packet_seen};

use ppp_packet::{Code, Options, PacketRef, read_options, read_packet};

/// A packet: codes 1 to 4 with their Identifier and their options, any other with its code, its Identifier and its data
/// (RFC 1661 section 5).
#[derive(Drop)]
pub(crate) enum Packet<'a> {
    Request(u8, Options<'a>),
    Ack(u8, Options<'a>),
    Nak(u8, Options<'a>),
    Reject(u8, Options<'a>),
    Other(u8, u8, &'a [u8]),
}

/// The packet that octets are. None where its header or its options can't be read.
pub(crate) fn packet_of(octets: &[u8]) -> Option<Packet<'_>>
    ensures { option_map packet_seen result ≡ packet_of octets.now }
{
    packet_with(read_packet(octets)?)
}

/// The packet of a header and what follows it.
fn packet_with(raw: PacketRef<'_>) -> Option<Packet<'_>>
    ensures { option_map packet_seen result ≡ packet_with (raw_seen raw.entry) }
{
    match Code::try_from(raw.code) {
        Ok(Code::ConfigureRequest) => Some(Packet::Request(raw.id, read_options(raw.rest)?)),
        Ok(Code::ConfigureAck) => Some(Packet::Ack(raw.id, read_options(raw.rest)?)),
        Ok(Code::ConfigureNak) => Some(Packet::Nak(raw.id, read_options(raw.rest)?)),
        Ok(Code::ConfigureReject) => Some(Packet::Reject(raw.id, read_options(raw.rest)?)),
        _ => Some(Packet::Other(raw.code, raw.id, raw.rest)),
    }
}

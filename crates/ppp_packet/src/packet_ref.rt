//! Packets: Code, Identifier, Length and data (RFC 1661 section 5).

ghost use Rattle.std.specs.Prelude.{◌≡◌, ℕ, ◌+◌, ◌≤◌, List, ◌++◌, length, drop, IfSome, IfNone, option_map};
ghost use Rattle.ppp_packet.specs.declared.packet_ref.TheConstants.{PACKET_HEADER, MOST_DATA};
ghost use Rattle.ppp_packet.specs.Packet.{IsPacket, packet_octets, raw_packet_of};
ghost use Rattle.ppp_packet.specs.PacketRef.{packet_seen};

use byteorder::{BigEndian, ByteOrder};

/// The octets of Code, Identifier and Length.
pub const PACKET_HEADER: usize = 4;

/// The most octets behind those: the Length, of two octets, counts them too.
pub const MOST_DATA: usize = 65_531;

/// A packet that lies in octets, without the padding behind it.
#[derive(Clone, Copy, Debug, PartialEq, Eq)]
pub struct PacketRef<'a> {
    /// The Code.
    pub code: u8,
    /// The Identifier.
    pub id: u8,
    /// The octets that the Length counts behind the header.
    pub rest: &'a [u8],
}

/// Reads the packet that `bytes` begin with; octets past its Length are padding (RFC 1661 section 5).
/// None exactly where fewer than four octets came, the Length is below 4, or the Length is above what came.
pub fn read_packet(bytes: &[u8]) -> Option<PacketRef<'_>>
    ensures some { IfSome result (λ p. IsPacket p.code p.id p.rest.now bytes.now) }
    ensures none { IfNone result
        ((code id : ℕ) (rest : List ℕ) → IsPacket code id rest bytes.now → ⊥) }
    ensures size { IfSome result (λ p. length p.rest.now ≤ MOST_DATA) }
    ensures within { IfSome result (λ p. PACKET_HEADER + length p.rest.now ≤ length bytes.now) }
    ensures exact { option_map packet_seen result ≡ raw_packet_of bytes.now }
{
    if bytes.len() < PACKET_HEADER {
        return None;
    }
    let (header, data) = bytes.split_at(PACKET_HEADER);
    let size = usize::from(BigEndian::read_u16(&header[2..]));
    if size < PACKET_HEADER || bytes.len() < size {
        return None;
    }
    Some(PacketRef {
        code: header[0],
        id: header[1],
        rest: &data[..size - PACKET_HEADER],
    })
}

/// Writes a packet to the front of `out`, and answers how many octets it has. The octets behind it stay.
pub fn write_packet(out: &mut [u8], code: u8, id: u8, rest: &[u8]) -> usize
    requires fits { length rest.now ≤ MOST_DATA }
    requires room { PACKET_HEADER + length rest.now ≤ length out.old }
    ensures octets { out.new ≡ packet_octets code id rest.now ++ drop result out.old }
    ensures size { result ≡ PACKET_HEADER + length rest.now }
{
    let size = PACKET_HEADER + rest.len();
    out[0] = code;
    out[1] = id;
    BigEndian::write_u16(&mut out[2..PACKET_HEADER], size as u16);
    out[PACKET_HEADER..size].copy_from_slice(rest);
    size
}

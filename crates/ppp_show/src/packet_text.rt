//! What a control protocol's packet is.

ghost use Rattle.std.specs.Prelude.{Some};
ghost use Rattle.ppp_show.specs.PacketText.{packet_text};

use crate::code_name::{CodeName, code_under};
use crate::rest_text::RestText;
use ppp_packet::{Proto, read_packet};
use std::fmt;

/// The information of a frame, as its protocol has it (RFC 1661 section 5). It prints as ` NAME id N`, then its options or
/// its data, and as nothing where the protocol is no control protocol or the information no packet.
#[derive(Clone, Copy)]
pub(crate) struct PacketText<'a> {
    pub(crate) protocol: u16,
    pub(crate) info: &'a [u8],
}

impl fmt::Display for PacketText<'_> {
    ghost output = { λ text. Some (packet_text text.protocol text.info.now) };

    fn fmt<W: fmt::Write>(&self, f: &mut fmt::Formatter<W>) -> fmt::Result {
        let Ok(proto) = Proto::try_from(self.protocol) else {
            return Ok(());
        };
        let Some(packet) = read_packet(self.info) else {
            return Ok(());
        };
        let code = code_under(proto, packet.code);
        let name = CodeName {
            number: packet.code,
            code,
        };
        let id = packet.id;
        let rest = RestText {
            code,
            octets: packet.rest,
        };
        write!(f, " {name} id {id}{rest}")
    }
}

//! The line of a frame.

ghost use Rattle.std.specs.Prelude.{Some};
ghost use Rattle.ppp_frame.specs.FrameRef.{frame_ref_seen};
ghost use Rattle.ppp_show.specs.FrameLine.{frame_line, info_text};

use crate::packet_text::PacketText;
use ppp_frame::FrameRef;
use ppp_text::HexText;
use std::fmt;

/// A frame. It prints as `frame PPPP INFO`, then its packet where it is one of a control protocol, and its LF.
#[derive(Clone, Copy)]
pub(crate) struct FrameLine<'a> {
    pub(crate) frame: FrameRef<'a>,
}

impl fmt::Display for FrameLine<'_> {
    ghost output = { λ line. Some (frame_line (frame_ref_seen line.frame)) };

    fn fmt<W: fmt::Write>(&self, f: &mut fmt::Formatter<W>) -> fmt::Result {
        let number = self.frame.protocol.to_be_bytes();
        let protocol = HexText { octets: &number };
        let info = InfoText {
            octets: self.frame.info,
        };
        let packet = PacketText {
            protocol: self.frame.protocol,
            info: self.frame.info,
        };
        write!(f, "frame {protocol} {info}{packet}\n")
    }
}

/// Information in hexadecimal digits, or `empty`.
#[derive(Clone, Copy)]
struct InfoText<'a> {
    octets: &'a [u8],
}

impl fmt::Display for InfoText<'_> {
    ghost output = { λ info. Some (info_text info.octets.now) };

    fn fmt<W: fmt::Write>(&self, f: &mut fmt::Formatter<W>) -> fmt::Result {
        if self.octets.is_empty() {
            return f.write_str("empty");
        }
        let octets = HexText {
            octets: self.octets,
        };
        write!(f, "{octets}")
    }
}

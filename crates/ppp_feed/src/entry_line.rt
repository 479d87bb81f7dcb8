//! The lines of what a station sends and tells.

ghost use Rattle.std.specs.Prelude.{◌≡◌, Some};
ghost use Rattle.ppp_feed.specs.EntryLine.{class_text, entry_line, protocol_text};
ghost use Rattle.ppp_trunk.specs.StationOut.{entry_seen};

use ppp_station::StationEntry;
use ppp_text::HexText;
use std::fmt;

/// An entry. It prints as its line, with its LF; an answer to one who asks prints as nothing, as no line of a feed asks.
#[derive(Clone, Copy)]
pub(crate) struct EntryLine<'a> {
    pub(crate) entry: StationEntry<'a>,
}

impl fmt::Display for EntryLine<'_> {
    ghost output = { λ line. Some (entry_line (entry_seen line.entry)) };

    fn fmt<W: fmt::Write>(&self, f: &mut fmt::Formatter<W>) -> fmt::Result {
        match self.entry {
            StationEntry::Push { link, octets } => {
                let octets = HexText { octets };
                write!(f, "push {link} {octets}\n")
            }
            StationEntry::Got {
                class,
                protocol,
                octets,
            } => {
                let class = ClassText { class };
                let protocol = protocol_text(protocol);
                let octets = HexText { octets };
                write!(f, "got {class} {protocol} {octets}\n")
            }
            StationEntry::Hang(link) => write!(f, "hang {link}\n"),
            StationEntry::Dial(link) => write!(f, "dial {link}\n"),
            StationEntry::Asked(_) => Ok(()),
        }
    }
}

/// The class of a datagram. It prints as its number, or as `-` where the datagram came plain, in no fragment.
#[derive(Clone, Copy)]
struct ClassText {
    class: Option<u8>,
}

impl fmt::Display for ClassText {
    ghost output = { λ text. Some (class_text text.class) };

    fn fmt<W: fmt::Write>(&self, f: &mut fmt::Formatter<W>) -> fmt::Result {
        match self.class {
            Some(class) => write!(f, "{class}"),
            None => f.write_str("-"),
        }
    }
}

/// The name of a datagram's protocol: 0021 is `ip`, 0057 `ipv6`, and 0281, the only other that a station hands up, `mpls`.
fn protocol_text(protocol: u16) -> &'static str
    ensures { result.now ≡ protocol_text protocol }
{
    match protocol {
        0x0021 => "ip",
        0x0057 => "ipv6",
        _ => "mpls",
    }
}

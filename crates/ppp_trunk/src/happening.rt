//! What happens to a link.

ghost use Rattle.std.specs.Prelude.{◌≡◌, ◌≤◌, length};
ghost use Rattle.ppp_link.specs.declared.link.TheConstants.{MOST_AFTER_FRAME};
ghost use Rattle.ppp_trunk.specs.Steps.{fed_seen, happening_seen, link_does, IsUsed};

use ppp_link::{Link, LinkOut};
use ppp_packet::Proto;

/// What happens to a link, of whichever number.
#[derive(Clone, Copy)]
pub(crate) enum Happening<'a> {
    LineUp,
    LineDown,
    Opens(Proto),
    Closes(Proto),
    TimesOut(Proto),
    Takes(&'a [u8]),
}

/// Something happens to a link, which answers how many octets it used.
pub(crate) fn happen(link: &mut Link, what: Happening<'_>, word: u64, out: &mut LinkOut) -> usize
    ensures did { fed_seen link.new out.new result ≡ link_does (happening_seen what.entry) link.old word }
    ensures used { IsUsed (happening_seen what.entry) result }
    ensures few { length out.new ≤ MOST_AFTER_FRAME }
{
    match what {
        Happening::LineUp => link.up(word, out),
        Happening::LineDown => link.down(word, out),
        Happening::Opens(proto) => link.admin_open(proto, word, out),
        Happening::Closes(proto) => link.admin_close(proto, word, out),
        Happening::TimesOut(proto) => link.timeout(proto, word, out),
        Happening::Takes(octets) => return link.bytes(octets, word, out),
    }
    0
}

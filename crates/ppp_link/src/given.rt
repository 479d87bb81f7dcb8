//! What happens to an automaton.

use ppp_auto::AutoEvent;

/// An event without a packet, or octets that come for it.
#[derive(Clone, Copy)]
pub(crate) enum Given<'a> {
    Event(AutoEvent),
    Packet(&'a [u8]),
}

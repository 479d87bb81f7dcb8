//! What happens to a station.

use ppp_bap::BapAsk;
use ppp_packet::Proto;

/// An event of a station. The first number is a link, from 1 on.
#[derive(Clone, Copy, Debug, PartialEq, Eq)]
pub enum StationEvent<'a> {
    /// The line of the link comes up.
    Up(u8),
    /// The line of the link goes down.
    Down(u8),
    /// A protocol of the link is to be opened; nothing happens where it isn't configured.
    AdminOpen(u8, Proto),
    /// A protocol of the link is to be closed; nothing happens where it isn't configured.
    AdminClose(u8, Proto),
    /// The restart timer of a protocol of the link fires; nothing happens where it isn't on.
    Timeout(u8, Proto),
    /// The timer of BAP fires at the bundle whose control link this is; nothing happens where it is no control link, or nothing
    /// waits.
    BapTimeout(u8),
    /// Octets come on the link. They are taken up to the end of the first frame or discard.
    Bytes(u8, &'a [u8]),
    /// The peer of the link's bundle is to be asked for a link, or to drop one, 1 to the configured number.
    Ask(u8, BapAsk),
    /// The peer of the link's bundle is told how a call went.
    Status(u8, u8),
    /// The station is to be as a new one.
    Reset,
}

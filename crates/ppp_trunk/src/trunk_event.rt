//! What happens to a trunk.

use ppp_packet::Proto;

/// An event of a trunk. The first number is a link, from 1 on.
#[derive(Clone, Copy, Debug, PartialEq, Eq)]
pub enum TrunkEvent<'a> {
    /// The line of the link comes up.
    Up(u8),
    /// The line of the link goes down.
    Down(u8),
    /// A protocol of the link is to be opened; nothing happens where it isn't configured.
    AdminOpen(u8, Proto),
    /// A protocol of the link is to be closed; nothing happens where it isn't configured.
    AdminClose(u8, Proto),
    /// The restart timer of a protocol of the link fires; nothing happens where it isn't on.
    Timeout(u8, Proto),
    /// Octets come on the link. They are taken up to the end of the first frame or discard.
    Bytes(u8, &'a [u8]),
    /// The trunk is to be as a new one.
    Reset,
}

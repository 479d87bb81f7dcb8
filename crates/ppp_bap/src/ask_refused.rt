//! Why a request isn't sent.

use thiserror::Error;

/// Why an end may not send a request now. The first that applies is told, in this order.
#[derive(Clone, Copy, Debug, PartialEq, Eq, Error)]
pub enum AskRefused {
    /// BACP isn't Opened on the control link.
    #[error("BACP isn't Opened")]
    NotOpen,
    /// A request of this bundle waits for its response.
    #[error("a request waits")]
    Waiting,
    /// So many links are joined, and no further one is wanted or idle.
    #[error("{0} links are joined, and no other is wanted or idle")]
    Full(u8),
    /// The link to drop isn't joined.
    #[error("link {0} isn't joined")]
    NotJoined(u8),
    /// The peer gave the link to drop no number.
    #[error("the peer has no number for link {0}")]
    NoNumber(u8),
    /// The peer was promised already that the link to drop goes.
    #[error("link {0} is promised to the peer")]
    Promised(u8),
    /// Too few joined links that aren't promised would stay beside the link to drop: this many.
    #[error("{0} links would stay")]
    LastLink(u8),
}

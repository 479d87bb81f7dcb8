//! What an end may ask of its peer.

/// What an end may ask of its peer (RFC 2125).
#[derive(Clone, Copy, Debug, PartialEq, Eq)]
pub enum BapAsk {
    /// To call the peer, for another link.
    Call,
    /// To be called by the peer, for another link.
    Callback,
    /// To drop a joined link, 1 to 16.
    Drop(u8),
}

//! A frame that a deframer lends.

/// A frame that a deframer lends: its protocol and its information (RFC 1661 section 2).
#[derive(Clone, Copy, Debug, PartialEq, Eq)]
pub struct FrameRef<'a> {
    /// The protocol's number.
    pub protocol: u16,
    /// The octets behind the header and before the check sequence.
    pub info: &'a [u8],
}

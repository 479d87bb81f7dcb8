//! One option that lies in octets (RFC 1661 section 6).

/// A Configuration Option that lies in octets: its Type, and the octets behind its Length.
#[derive(Clone, Copy, Debug, PartialEq, Eq)]
pub struct OptRef<'a> {
    /// The Type.
    pub kind: u8,
    /// The octets behind the Length.
    pub body: &'a [u8],
}

//! How frames are written.

/// How frames are written to a peer: what LCP granted to this end (RFC 1661 section 6, RFC 1662 section 7).
#[derive(Clone, Copy, Debug, PartialEq, Eq)]
pub struct Form {
    /// The octets below 20 that are escaped, octet n by bit n (RFC 1662 section 7.1).
    pub map: u32,
    /// Address and control are left out (RFC 1661 section 6.6).
    pub ac: bool,
    /// A protocol below 0100 is written in one octet (RFC 1661 section 6.5).
    pub pf: bool,
}

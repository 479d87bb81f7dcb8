use ppp_packet::Opt;

/// What a table says of an option that the peer asks for (RFC 1661 section 5.1).
#[derive(Drop)]
pub enum Verdict {
    /// It is acceptable.
    Good,
    /// It is known, and this one would be acceptable (Configure-Nak).
    Bad(Opt),
    /// It is unknown, or isn't negotiable (Configure-Reject).
    Unknown,
}

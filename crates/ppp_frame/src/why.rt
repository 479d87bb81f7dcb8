//! Why a piece is discarded.

/// Why a piece between two flags is discarded: the first of these that applies.
#[derive(Clone, Copy, Debug, PartialEq, Eq)]
pub enum Why {
    /// The octet before the flag was an escape (RFC 1662 section 4.3).
    Aborted,
    /// More octets than the limit came, escapes undone.
    Oversize,
    /// Fewer than four octets came (RFC 1662 section 4.3).
    Short,
    /// The last two octets aren't the check sequence of those before (RFC 1662 section 3.1).
    BadFcs,
    /// No protocol and information stand behind a header that is read at the time (RFC 1662 section 3.1).
    BadHeader,
}

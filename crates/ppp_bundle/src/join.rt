//! What a link is told that asks to join.

ghost use Rattle.std.specs.Prelude.{◌≡◌};
ghost use Rattle.ppp_bundle.specs.Joining.{joined_to};

/// What a link is told that asks to join a bundle.
#[derive(Clone, Copy, Debug, PartialEq, Eq)]
pub enum Join {
    /// It is the first link of this bundle.
    First(u8),
    /// It was added to this bundle.
    Added(u8),
    /// It stays a single link.
    Single(SingleWhy),
}

impl Join {
    /// The bundle that the link joined, if it did.
    pub fn bundle(self) -> Option<u8>
        ensures { result ≡ joined_to self }
    {
        match self {
            Join::First(bundle) | Join::Added(bundle) => Some(bundle),
            Join::Single(_) => None,
        }
    }
}

/// Why a link stays a single one.
#[derive(Clone, Copy, Debug, PartialEq, Eq)]
pub enum SingleWhy {
    /// The Maximum Received Reconstructed Unit isn't granted in both directions (RFC 1990 section 5.1.1).
    NoMrru,
    /// An Endpoint Discriminator isn't granted in both directions, or one is of the null Class (RFC 1990 section
    /// 5.1.3).
    NoDisc,
    /// The two ends have the same Endpoint Discriminator.
    SameDisc,
    /// There is a bundle with this peer, and what was granted to its links is unlike.
    Unlike,
    /// The peer isn't remembered, and this many peers are, which is the limit.
    PeersFull(u16),
    /// There is no bundle with this peer, and there are this many bundles, which is the limit.
    BundlesFull(u8),
}

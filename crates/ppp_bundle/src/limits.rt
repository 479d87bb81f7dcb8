//! How much a table of bundles holds.

/// The most links.
pub const MOST_LINKS: u8 = 16;

/// The most bundles at a time.
pub const MOST_BUNDLES: u8 = 8;

/// The most peers that are remembered.
pub const MOST_PEERS: u16 = 256;

/// How many classes of fragments have a sending number (RFC 2686 section 4).
pub const CLASSES: usize = 16;

/// How much a table of bundles holds.
#[derive(Clone, Copy, Debug, PartialEq, Eq)]
pub struct Limits {
    /// How many links there are, 1 to 16; the links are 1 to this.
    pub links: u8,
    /// How many bundles there may be at a time, 1 to 8; the bundles are 0 to one below this.
    pub bundles: u8,
    /// How many peers may be remembered, 1 to 256.
    pub peers: u16,
}

//! The numbers that fragments are counted, numbered and held by.

/// How many classes there are in the long form (RFC 2686 section 4).
pub const LONG_CLASSES: u8 = 16;

/// How many classes there are in the short form (RFC 2686 section 4).
pub const SHORT_CLASSES: u8 = 4;

/// How many numbers there are in the long form, of 24 bits (RFC 1990 section 3).
pub const LONG_SPACE: u32 = 16_777_216;

/// How many numbers there are in the short form, of 12 bits (RFC 1990 section 3).
pub const SHORT_SPACE: u32 = 4096;

/// The most links of a bundle.
pub const MOST_LINKS: usize = 16;

/// The most fragments that a class holds, and the most that a packet is cut into.
pub const MOST_HELD: usize = 256;

/// The most octets of a packet that is cut: those of a protocol, and of the most information.
pub const MOST_PACKET: usize = 8194;

/// How many classes have numbers.
pub const CLASSES: usize = 16;

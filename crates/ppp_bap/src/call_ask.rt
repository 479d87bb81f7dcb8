//! What a policy is asked.

use crate::link_type::LinkType;

/// A peer's wish for another link, as a policy is asked for it.
#[derive(Clone, Copy, Debug, PartialEq, Eq)]
pub struct CallAsk {
    /// Whether the peer wants to be called; else it calls.
    pub callback: bool,
    /// The link's speed, in kbit/s.
    pub speed: u16,
    /// What kinds of link the peer offers.
    pub kind: LinkType,
    /// How many links the bundle has.
    pub joined: u8,
    /// How many links this end wants in a bundle at most, 1 to 16.
    pub most: u8,
}

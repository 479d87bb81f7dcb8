//! What a link that asks to join was granted.

ghost use Rattle.std.specs.Prelude.{◌≡◌, ◌||◌, ◌==◌};
ghost use Rattle.std.specs.Cmp.Lexicographic.{slice_cmp};
ghost use Rattle.std.specs.Ordering.{nat_cmp};
ghost use Rattle.ppp_lcp.specs.LcpGrant.{disc_seen};
ghost use Rattle.ppp_bundle.specs.JoinKey as spec;

use ppp_lcp::LcpGrant;
use ppp_packet::{Disc, read_again};
use std::cmp::Ordering;

/// The number of a link without a Link-Discriminator in both directions: more than each of 16 bits.
pub const UNNUMBERED: u32 = 65_536;

/// What the two lists of a link grant.
#[derive(Clone, Copy, Debug, PartialEq, Eq)]
pub struct JoinKey {
    /// What this end's list grants it.
    pub mine: LcpGrant,
    /// What the peer's list grants the peer.
    pub peer: LcpGrant,
}

impl JoinKey {
    /// Whether the Maximum Received Reconstructed Unit isn't granted in both directions.
    pub(crate) fn lacks_mrru(&self) -> bool
        ensures { result ≡ spec.lacks_mrru (spec.key_seen self.now) }
    {
        self.mine.mrru == 0 || self.peer.mrru == 0
    }

    /// Whether an Endpoint Discriminator isn't granted in both directions.
    pub(crate) fn lacks_disc(&self) -> bool
        ensures { result ≡ spec.lacks_disc (spec.key_seen self.now) }
    {
        self.mine.disc.class == 0 || self.peer.disc.class == 0
    }

    /// Whether the two ends have the same Endpoint Discriminator.
    pub(crate) fn is_of_one_end(&self) -> bool
        ensures { result ≡ spec.is_of_one_end (spec.key_seen self.now) }
    {
        is_same_disc(&self.mine.disc, &self.peer.disc)
    }

    /// Whether a link with another key may be in the same bundle.
    pub(crate) fn is_like(&self, other: &JoinKey) -> bool
        ensures { result ≡ spec.are_like (spec.key_seen self.now) (spec.key_seen other.now) }
    {
        are_like_grants(&self.mine, &other.mine) && are_like_grants(&self.peer, &other.peer)
    }

    /// Whether this end is the senior one: it has the lesser Endpoint Discriminator.
    pub(crate) fn is_senior(&self) -> bool
        ensures { result ≡ spec.is_senior (spec.key_seen self.now) }
    {
        disc_order(&self.mine.disc, &self.peer.disc).is_lt()
    }

    /// The link's number by the senior end, 0 to 65,536.
    pub(crate) fn number(&self, senior: bool) -> u32
        ensures { result ≡ spec.number_of senior (spec.key_seen self.now) }
    {
        match (self.mine.link_disc, self.peer.link_disc) {
            (Some(mine), Some(peer)) => u32::from(if senior { mine } else { peer }),
            _ => UNNUMBERED,
        }
    }
}

/// Whether two discriminators are the same.
pub(crate) fn is_same_disc(one: &Disc, other: &Disc) -> bool
    ensures { result ≡ spec.is_same_disc (disc_seen one.now) (disc_seen other.now) }
{
    disc_order(one, other).is_eq()
}

/// How a discriminator stands to another: by the Class, and then by the address as a list of octets.
fn disc_order(one: &Disc, other: &Disc) -> Ordering
    ensures { result ≡ slice_cmp nat_cmp (disc_seen one.now) (disc_seen other.now) }
{
    read_again();
    one.cmp(other)
}

/// Whether the same is granted of what the links of a bundle share.
fn are_like_grants(one: &LcpGrant, other: &LcpGrant) -> bool
    ensures { result ≡ spec.are_like_terms (spec.terms_seen one.now) (spec.terms_seen other.now) }
{
    one.mrru == other.mrru && one.short == other.short && one.classes == other.classes
}

//! Joined links as they are kept.

ghost use Rattle.std.specs.Prelude.{◌≡◌, ◌+◌, ◌*◌, ◌<◌, ◌≤◌, length, map};
ghost use Rattle.std.specs.Option.{option_map};
ghost use Rattle.ppp_lcp.specs.LcpGrant.{disc_seen};
ghost use Rattle.ppp_bundle.specs.BundleTable.{joined_seen, place_seen, places_seen};
ghost use Rattle.ppp_bundle.specs.Bundles as spec;
ghost use Rattle.ppp_bundle.specs.JoinKey.{key_seen};
ghost use Rattle.ppp_bundle.specs.Joining.{member_of, with_peer};
ghost use Rattle.ppp_bundle.specs.declared.limits.TheConstants.{MOST_LINKS};

use crate::join_key::{JoinKey, is_same_disc};
use ppp_packet::Disc;

/// A joined link as it is kept.
#[derive(Clone, Copy)]
pub(crate) struct Joined {
    pub(crate) bundle: u8,
    pub(crate) key: JoinKey,
    pub(crate) marked: bool,
}

/// The key of the first link of a bundle.
pub(crate) fn first_key(bundle: u8, places: &[Option<Joined>]) -> Option<JoinKey>
    ensures { option_map key_seen result ≡ spec.first_key_of bundle (places_seen places.now) }
{
    for i in 0..places.len() {
        let key = key_in(bundle, &places[i]);
        if key.is_some() {
            return key;
        }
    }
    None
}

/// The first joined link whose peer has this discriminator.
pub(crate) fn member_with(disc: &Disc, places: &[Option<Joined>]) -> Option<Joined>
    ensures { place_seen result ≡ member_of (disc_seen disc.now) (places_seen places.now) }
{
    for i in 0..places.len() {
        let joined = with_peer(disc, &places[i]);
        if joined.is_some() {
            return joined;
        }
    }
    None
}

/// The links of a bundle, link l as the bit l - 1.
pub(crate) fn joined_mask(bundle: u8, places: &[Option<Joined>]) -> u16
    requires { length places.now ≤ MOST_LINKS }
    ensures { result ≡ spec.joined_mask bundle (places_seen places.now) }
{
    let mut mask = 0;
    let mut i = places.len();
    'places: while 0 < i {
        i -= 1;
        mask = with_bit(key_in(bundle, &places[i]).is_some(), mask);
    }
    mask
}

/// The marked links of a bundle, link l as the bit l - 1.
pub(crate) fn marked_mask(bundle: u8, places: &[Option<Joined>]) -> u16
    requires { length places.now ≤ MOST_LINKS }
    ensures { result ≡ spec.marked_mask bundle (places_seen places.now) }
{
    let mut mask = 0;
    let mut i = places.len();
    'places: while 0 < i {
        i -= 1;
        mask = with_bit(is_marked_in(bundle, &places[i]), mask);
    }
    mask
}

/// The key of a link, if it is joined in this bundle.
pub(crate) fn key_in(bundle: u8, place: &Option<Joined>) -> Option<JoinKey>
    ensures { option_map key_seen result ≡ spec.key_in bundle (place_seen place.now) }
{
    match place {
        Some(joined) if joined.bundle == bundle => Some(joined.key),
        _ => None,
    }
}

/// Whether a link is joined in this bundle, and marked.
fn is_marked_in(bundle: u8, place: &Option<Joined>) -> bool
    ensures { result ≡ spec.is_marked_in bundle (place_seen place.now) }
{
    match place {
        Some(joined) => joined.bundle == bundle && joined.marked,
        None => false,
    }
}

/// A joined link, if its peer has this discriminator.
fn with_peer(disc: &Disc, place: &Option<Joined>) -> Option<Joined>
    ensures { place_seen result ≡ with_peer (disc_seen disc.now) (place_seen place.now) }
{
    match place {
        Some(joined) if is_same_disc(&joined.key.peer.disc, disc) => Some(*joined),
        _ => None,
    }
}

/// A set of links behind one that is in it or isn't.
fn with_bit(is_in: bool, mask: u16) -> u16
    requires { mask < 32768 }
    ensures { result ≡ spec.bit is_in + 2 * mask }
{
    u16::from(is_in) + 2 * mask
}
